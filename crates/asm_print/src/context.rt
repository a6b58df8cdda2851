//! The lines of a context.

ghost use Rattle.std.specs.Prelude.{◌≡◌, ◌++◌, true, map, OnOk};
ghost use Rattle.micro_isa.specs.Formed.{never_drops};
ghost use Rattle.asm_print.specs.Rows.{line_text, rows_text};
ghost use Rattle.asm_print.specs.Canonical.{label_row, line_rows, code_rows, context_rows};

use crate::instruction::put_instruction;
use crate::names::labels_at;
use crate::row::put_flush;
use micro_isa::{Label, Line, List, Name, NoMemory, Program};
use micro_kit::put_bytes;

pub(crate) fn put_context(
    text: &mut Vec<u8>,
    channels: &List<Name>,
    program: &Program,
) -> Result<(), NoMemory>
    requires { never_drops 0 (map (λ l. l.target) program.now.labels) ≡ true }
    ensures { OnOk result (text.new.items ≡ text.old.items ++ rows_text (context_rows channels.now program.now)) }
{
    put_flush(text, &[b"context", program.name.bytes()])?;
    put_code(text, channels, program)
}

fn put_code(text: &mut Vec<u8>, channels: &List<Name>, program: &Program) -> Result<(), NoMemory>
    requires { never_drops 0 (map (λ l. l.target) program.now.labels) ≡ true }
    ensures { OnOk result (text.new.items ≡ text.old.items ++ rows_text (code_rows channels.now program.now 0 program.now.code)) }
{
    let code = program.code.as_slice();
    for at in 0..code.len() {
        put_line(text, channels, program, at, &code[at])?;
    }
    Ok(())
}

/// An instruction and, before it, its labels.
fn put_line(
    text: &mut Vec<u8>,
    channels: &List<Name>,
    program: &Program,
    at: usize,
    line: &Line,
) -> Result<(), NoMemory>
    requires { never_drops 0 (map (λ l. l.target) program.now.labels) ≡ true }
    ensures { OnOk result (text.new.items ≡ text.old.items ++ rows_text (line_rows channels.now program.now at line.now)) }
{
    put_labels(text, labels_at(program.labels.as_slice(), at))?;
    put_instruction(text, channels, program, line.instr)
}

fn put_labels(text: &mut Vec<u8>, labels: &[Label]) -> Result<(), NoMemory>
    ensures { OnOk result (text.new.items ≡ text.old.items ++ rows_text (map label_row labels.now)) }
{
    for label in labels {
        put_label(text, label)?;
    }
    Ok(())
}

fn put_label(text: &mut Vec<u8>, label: &Label) -> Result<(), NoMemory>
    ensures { OnOk result (text.new.items ≡ text.old.items ++ line_text (label_row label.now)) }
{
    put_bytes(text, label.name.bytes())?;
    put_bytes(text, b":\n")
}

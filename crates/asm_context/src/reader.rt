ghost use Rattle.std.specs.Prelude.{◌≡◌, ◌++◌, ◌<◌, ◌≤◌, None, IfOk, OnOk, IfErr, length, true};
ghost use Rattle.std.specs.List.{list_all};
ghost use Rattle.micro_isa.specs.Names.{IsName, name_test};
ghost use Rattle.asm_lines.specs.Faults.{Causes};
ghost use Rattle.asm_lines.specs.Verdicts.{at_or};
ghost use Rattle.micro_isa.specs.declared.limits.TheConstants.{MOST_CHANNELS};
ghost use Rattle.asm_lines.specs.Sections.{ahead, IsPast};
ghost use Rattle.asm_lines.specs.Tables.{words_seen};
ghost use Rattle.asm_context.specs.Faults.{channels, line_fault, lines_fault};
ghost use Rattle.asm_context.specs.Programs.{line_code, code_of, labels_from, program_of};
ghost use Rattle.asm_context.specs.Said.{nothing, with_line, outline, said_by};
ghost use Rattle.asm_context.specs.Views.{seen_said, seen_outline};

use crate::fault::body_fault;
use crate::form::body_of;
use crate::outline::{Outline, outline_of};
use crate::program::{labels_of, push_code};
use crate::said::{Said, note, nothing};
use asm_lines::{BundleFault, Lines, Row, has_name, name_of, names_of};
use indexmap::IndexSet;
use micro_isa::{Channel, Line, List, NoMemory, Program};
use std::alloc::Global;

/// One line of a context.
fn read_line<'a>(
    alloc: Global,
    names: &IndexSet<&'a [u8]>,
    kinds: &[Channel],
    now: &mut Said<'a>,
    all: &Outline<'a>,
    code: &mut List<Line>,
    row: &Row<'a>,
) -> Result<(), BundleFault>
    requires done { now.old.done < 4294967295 }
    requires channels { length names.now.keys ≤ MOST_CHANNELS }
    ensures said { OnOk result (seen_said now.new ≡ with_line (seen_said now.old) row.now) }
    ensures fine { OnOk result (line_fault (channels (words_seen names.now.keys) kinds.now) (seen_said now.old) (seen_outline all.now) row.now ≡ None) }
    ensures code { OnOk result (code.new ≡ code.old ++ line_code (words_seen names.now.keys) (seen_said now.old) (seen_outline all.now) row.now) }
    ensures cause { IfErr result (λ why. Causes why (at_or row.now.number (line_fault (channels (words_seen names.now.keys) kinds.now) (seen_said now.old) (seen_outline all.now) row.now) None)) }
{
    let words = row.words(alloc)?;
    let body = body_of(words.as_slice());
    let twice = has_name(&now.labels, body.label);
    let places = note(now, body)?;
    if let Some(kind) = body_fault(names, kinds, twice, now, all, row.fair(), body) {
        return Err(BundleFault::At {
            line: row.number(),
            kind,
        });
    }
    push_code(code, row.number(), places, names, all, body.form)?;
    Ok(())
}

/// The instructions of a context's lines, of which `all` is the outline; `now` notes what they say.
fn read_lines<'a>(
    alloc: Global,
    names: &IndexSet<&'a [u8]>,
    kinds: &[Channel],
    now: &mut Said<'a>,
    all: &Outline<'a>,
    lines: &mut Lines<'a>,
) -> Result<List<Line>, BundleFault>
    requires nothing { seen_said now.old ≡ nothing }
    requires outline { seen_outline all.now ≡ outline (said_by (ahead lines.old.lines)) }
    requires few { length (ahead lines.old.lines) < 4294967295 }
    requires channels { length names.now.keys ≤ MOST_CHANNELS }
    ensures free { OnOk result (lines_fault (channels (words_seen names.now.keys) kinds.now) (ahead lines.old.lines) ≡ None) }
    ensures said { OnOk result (seen_said now.new ≡ said_by (ahead lines.old.lines)) }
    ensures code { IfOk result (λ code. code ≡ code_of (words_seen names.now.keys) (ahead lines.old.lines)) }
    ensures past { OnOk result (IsPast lines.old lines.new) }
    ensures cause { IfErr result (λ why. Causes why (lines_fault (channels (words_seen names.now.keys) kinds.now) (ahead lines.old.lines))) }
{
    let mut code = List::new(alloc);
    'lines: while let Some(row) = lines.next_inside() {
        read_line(alloc, names, kinds, now, all, &mut code, &row)?;
    }
    Ok(code)
}

/// The program of a context of this name that the lines say, where they say no more than names.
fn program_of<'a>(
    alloc: Global,
    name: &[u8],
    all: &Said<'a>,
    code: List<Line>,
) -> Result<Program, NoMemory>
    requires name { IsName name.now }
    requires labels { list_all name_test (words_seen all.now.labels.keys) ≡ true }
    requires registers { list_all name_test (words_seen all.now.registers.keys) ≡ true }
    ensures { IfOk result (λ p. p ≡ record { name = name.now; registers = words_seen all.now.registers.keys; labels = labels_from 0 (words_seen all.now.labels.keys) all.now.targets.items; code = code }) }
{
    let name = name_of(alloc, name)?;
    let registers = names_of(alloc, all.registers.as_slice())?;
    let labels = labels_of(alloc, all.labels.as_slice(), all.targets.as_slice())?;
    Ok(Program {
        name,
        registers,
        labels,
        code,
    })
}

/// The program of the context that these lines begin with, or the first fault of its lines. `names` and `kinds`
/// are those of the channels.
pub fn read_context<'a>(
    alloc: Global,
    names: &IndexSet<&'a [u8]>,
    kinds: &[Channel],
    name: &[u8],
    lines: &mut Lines<'a>,
) -> Result<Program, BundleFault>
    requires name { IsName name.now }
    requires few { length (ahead lines.old.lines) < 4294967295 }
    requires channels { length names.now.keys ≤ MOST_CHANNELS }
    ensures free { OnOk result (lines_fault (channels (words_seen names.now.keys) kinds.now) (ahead lines.old.lines) ≡ None) }
    ensures program { IfOk result (λ p. p ≡ program_of (words_seen names.now.keys) name.now (ahead lines.old.lines)) }
    ensures past { OnOk result (IsPast lines.old lines.new) }
    ensures cause { IfErr result (λ why. Causes why (lines_fault (channels (words_seen names.now.keys) kinds.now) (ahead lines.old.lines))) }
{
    let all = outline_of(alloc, lines)?;
    let mut now = nothing(alloc);
    let code = read_lines(alloc, names, kinds, &mut now, &all, lines)?;
    let program = program_of(alloc, name, &now, code)?;
    Ok(program)
}

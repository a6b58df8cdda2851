ghost use Rattle.std.specs.Prelude.{◌≡◌, ◌+◌, ◌<◌, OnOk, IfOk, length};
ghost use Rattle.asm_lines.specs.Heads.{seen_head};
ghost use Rattle.asm_lines.specs.Sections.{ahead};
ghost use Rattle.asm_context.specs.Forms.{does_at};
ghost use Rattle.asm_context.specs.Said.{nothing, count, with_body, line_body, outline, said_by};
ghost use Rattle.asm_context.specs.Views.{seen_outline};

use crate::form::{does_at, label_at};
use crate::said::note_label;
use asm_lines::{Head, Lines, Row};
use indexmap::IndexSet;
use micro_isa::NoMemory;
use std::alloc::Global;

/// What must be known of all lines of a context before the first is judged: the labels, for each the number of
/// the instruction that it names, and how many instruction lines there are.
#[derive(Drop)]
pub struct Outline<'a> {
    pub labels: IndexSet<&'a [u8]>,
    pub targets: Vec<u32>,
    pub done: u32,
}

fn no_outline<'a>(alloc: Global) -> Outline<'a>
    ensures { seen_outline result ≡ outline nothing }
{
    Outline {
        labels: IndexSet::new(alloc),
        targets: Vec::new(alloc),
        done: 0,
    }
}

fn counted(done: u32, head: Head) -> u32
    requires { done < 4294967295 }
    ensures { result ≡ done + count (does_at (seen_head head.entry)) }
{
    if does_at(head) { done + 1 } else { done }
}

fn note_line<'a>(all: &mut Outline<'a>, row: &Row<'a>) -> Result<(), NoMemory>
    requires { all.old.done < 4294967295 }
    ensures { OnOk result (seen_outline all.new ≡ outline (with_body (seen_outline all.old) (line_body row.now))) }
{
    let head = row.head();
    note_label(&mut all.labels, &mut all.targets, all.done, label_at(head))?;
    all.done = counted(all.done, head);
    Ok(())
}

/// The outline of a context. The lines stay to be read.
pub fn outline_of<'a>(alloc: Global, lines: &Lines<'a>) -> Result<Outline<'a>, NoMemory>
    requires { length (ahead lines.now.lines) < 4294967295 }
    ensures { IfOk result (λ all. seen_outline all ≡ outline (said_by (ahead lines.now.lines))) }
{
    let mut all = no_outline(alloc);
    let mut left = lines.again();
    'lines: while let Some(row) = left.next_inside() {
        note_line(&mut all, &row)?;
    }
    Ok(all)
}

ghost use Rattle.std.specs.Prelude.{◌≡◌, ◌≤◌, None, not, IfOk, OnOk, IfErr};
ghost use Rattle.asm_lines.specs.Faults.{Causes};
ghost use Rattle.asm_lines.specs.Heads.{has_some};
ghost use Rattle.asm_lines.specs.Verdicts.{at_or};
ghost use Rattle.asm_lines.specs.Sections.{ahead, IsPast};
ghost use Rattle.micro_isa.specs.declared.limits.TheConstants.{MOST_INITIAL_WORDS};
ghost use Rattle.asm_header.specs.Headers.{with_line, header_of};
ghost use Rattle.asm_header.specs.Faults.{line_fault, header_fault};
ghost use Rattle.asm_header.specs.Sound.{IsSound};
ghost use Rattle.asm_header.specs.Views.{seen_header};

use crate::fault::form_fault;
use crate::form::header_form;
use crate::header::{Header, no_header, note};
use asm_lines::{BundleFault, Lines, Row};
use std::alloc::Global;

/// Whether a line has no word.
#[inline(always)]
fn is_blank(row: &Row) -> bool
    ensures { result ≡ not (has_some row.now.words) }
{
    row.head().first.is_none()
}

#[tactic(auto, using(crate::proofs::Blanks::blank_said, crate::proofs::Blanks::blank_free))]
fn read_line<'a>(alloc: Global, header: &mut Header<'a>, row: &Row<'a>) -> Result<(), BundleFault>
    requires { header.old.words ≤ MOST_INITIAL_WORDS }
    ensures header { OnOk result (seen_header header.new ≡ with_line (seen_header header.old) row.now) }
    ensures fine { OnOk result (line_fault (seen_header header.old) row.now ≡ None) }
    ensures cause { IfErr result (λ why. Causes why (at_or row.now.number (line_fault (seen_header header.old) row.now) None)) }
{
    if is_blank(row) && row.fair() {
        return Ok(());
    }
    let words = row.words(alloc)?;
    let form = header_form(words.as_slice());
    if let Some(kind) = form_fault(header, row.fair(), form) {
        return Err(BundleFault::At {
            line: row.number(),
            kind,
        });
    }
    note(alloc, header, form)?;
    Ok(())
}

/// What the lines before the next context say, or their first fault.
pub fn read_header<'a>(alloc: Global, lines: &mut Lines<'a>) -> Result<Header<'a>, BundleFault>
    ensures header { IfOk result (λ h. seen_header h ≡ header_of (ahead lines.old.lines)) }
    ensures free { OnOk result (header_fault (ahead lines.old.lines) ≡ None) }
    ensures sound { IfOk result (λ h. IsSound (seen_header h)) }
    ensures past { OnOk result (IsPast lines.old lines.new) }
    ensures cause { IfErr result (λ why. Causes why (header_fault (ahead lines.old.lines))) }
{
    let mut header = no_header(alloc);
    'lines: while let Some(row) = lines.next_inside() {
        read_line(alloc, &mut header, &row)?;
    }
    Ok(header)
}

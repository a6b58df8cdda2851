ghost use Rattle.std.specs.Prelude.{◌≡◌, ◌<◌, ◌≤◌, None, IfOk, OnOk, IfErr, length, unwrap_or, true};
ghost use Rattle.std.specs.List.{list_all};
ghost use Rattle.micro_isa.specs.declared.limits.TheConstants.{LONGEST_TEXT};
ghost use Rattle.micro_isa.specs.Names.{name_test};
ghost use Rattle.asm_lines.specs.Faults.{Causes};
ghost use Rattle.asm_lines.specs.Tables.{words_seen};
ghost use Rattle.asm_header.specs.Headers.{setting_of};
ghost use Rattle.asm_header.specs.Views.{seen_header};
ghost use Rattle.micro_isa.specs.Formed.{IsFormedBundle};
ghost use Rattle.asm_text.specs.Texts.{bundle_said, lines_fault, text_fault, Spells, SpellsAlone, SpellsNone, Tells};

use crate::context::read_contexts;
use asm_header::{Header, read_header};
use asm_lines::{BundleFault, BundleKind, Lines, names_of};
use micro_isa::{Bundle, List, NoMemory, Program, Setting};
use std::alloc::Global;

fn bundle_of(alloc: Global, header: Header, programs: List<Program>) -> Result<Bundle, NoMemory>
    requires { list_all name_test (words_seen header.names.keys) ≡ true }
    ensures { IfOk result (λ b. b ≡ record { file = unwrap_or header.entry.file 0; setting = setting_of (seen_header header.entry); names = words_seen header.entry.names.keys; programs = programs }) }
{
    let names = names_of(alloc, header.names.as_slice())?;
    Ok(Bundle {
        file: header.file.unwrap_or(0),
        setting: Setting {
            memory: header.memory.unwrap_or(0),
            channels: List::of(header.channels),
        },
        names,
        programs,
    })
}

/// The bundle that the lines say, or their first fault.
fn read_lines<'a>(alloc: Global, lines: &mut Lines<'a>) -> Result<Bundle, BundleFault>
    requires first { lines.old.number ≡ 1 }
    requires few { length lines.old.lines < 4294967295 }
    ensures free { OnOk result (lines_fault lines.old.lines ≡ None) }
    ensures said { IfOk result (λ b. b ≡ bundle_said lines.old.lines) }
    ensures cause { IfErr result (λ why. Causes why (lines_fault lines.old.lines)) }
{
    let header = read_header(alloc, lines)?;
    let programs = read_contexts(alloc, &header, lines)?;
    if programs.is_empty() {
        return Err(BundleFault::At {
            line: lines.number(),
            kind: BundleKind::Missing,
        });
    }
    let bundle = bundle_of(alloc, header, programs)?;
    Ok(bundle)
}

fn read_text(alloc: Global, text: &[u8]) -> Result<Bundle, BundleFault>
    requires { length text.now ≤ LONGEST_TEXT }
    ensures fine { IfOk result (λ b. Spells text.now b) }
    ensures cause { IfErr result (λ why. Causes why (text_fault text.now)) }
{
    let mut lines = Lines::of(text);
    read_lines(alloc, &mut lines)
}

/// The bundle that a text spells, or the first fault of the text.
#[tactic(auto, using(crate::proofs::Spelling::spelled_alone, crate::proofs::Spelling::unspelled, crate::proofs::Forming::spelled_formed, crate::proofs::Judging::tells))]
pub fn read_bundle(alloc: Global, text: &[u8]) -> Result<Bundle, BundleFault>
    requires { length text.now ≤ LONGEST_TEXT }
    ensures tells { Tells text.now result }
    ensures alone { IfOk result (SpellsAlone text.now) }
    ensures formed { IfOk result IsFormedBundle }
    ensures unspelled { IfErr result (λ why. SpellsNone why text.now) }
{
    read_text(alloc, text)
}

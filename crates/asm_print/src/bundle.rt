ghost use Rattle.std.specs.Prelude.{◌≡◌, ◌++◌, IfOk, OnOk};
ghost use Rattle.std.specs.List.{flat_map};
ghost use Rattle.micro_isa.specs.Formed.{Each, IsFormedProgram, IsFormedBundle};
ghost use Rattle.asm_print.specs.Again.{SpellsAgain};
ghost use Rattle.asm_print.specs.Rows.{rows_text};
ghost use Rattle.asm_print.specs.Canonical.{context_rows, canonical_rows, canonical_text};

use crate::context::put_context;
use crate::header::put_header;
use crate::typed::typed_bundle;
use micro_isa::{Bundle, List, Name, NoMemory, Program};
use std::alloc::Global;

/// The canonical text of a bundle. It spells this bundle again, but for the lines of instructions.
#[tactic(auto, unfolding(crate::specs::Canonical::canonical_text))]
pub fn print_bundle(alloc: Global, bundle: &Bundle) -> Result<Vec<u8>, NoMemory>
    requires { IsFormedBundle bundle.now }
    ensures text { IfOk result (λ text. text.items ≡ canonical_text bundle.now) }
    ensures again { IfOk result (λ text. SpellsAgain text.items bundle.now) }
{
    typed_bundle(bundle);
    let mut text = Vec::new(alloc);
    put_bundle(&mut text, bundle)?;
    Ok(text)
}

fn put_bundle(text: &mut Vec<u8>, bundle: &Bundle) -> Result<(), NoMemory>
    requires { IsFormedBundle bundle.now }
    ensures { OnOk result (text.new.items ≡ text.old.items ++ rows_text (canonical_rows bundle.now)) }
{
    put_header(text, bundle)?;
    put_contexts(text, &bundle.names, bundle.programs.as_slice())
}

fn put_contexts(
    text: &mut Vec<u8>,
    channels: &List<Name>,
    programs: &[Program],
) -> Result<(), NoMemory>
    requires { Each programs.now IsFormedProgram }
    ensures { OnOk result (text.new.items ≡ text.old.items ++ rows_text (flat_map (context_rows channels.now) programs.now)) }
{
    for program in programs {
        put_context(text, channels, program)?;
    }
    Ok(())
}

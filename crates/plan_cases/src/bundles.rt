//! The bundles of known texts, and their contexts.

ghost use Rattle.std.specs.Prelude.{◌≡◌, Some, IfOk, slice_get};
ghost use Rattle.micro_isa.specs.Formed.{IsFormedBundle};
ghost use Rattle.flow_graph.specs.Paths.{IsClosedCode};

use asm_text::read_bundle;
use micro_isa::{Bundle, Program};
use std::alloc::Global;
use std::test::Fail;

/// Two edges that leave a branch for one target; a register lives over a yield beside another one.
pub(crate) const SPLIT: &[u8] =
    b"file 2\noutput out\ncontext a\nli x, 5\nyield\nli y, 9\nbeq x, y, next\nnext:\nyield\nsend out, y\nhalt\n";

/// The bundle that a text of at most 4,096 bytes spells.
pub(crate) fn bundle_of(alloc: Global, text: &[u8]) -> Result<Bundle, Fail>
    ensures { IfOk result IsFormedBundle }
{
    if text.len() > 4096 {
        return Err("a short text".into());
    }
    match read_bundle(alloc, text) {
        Ok(bundle) => Ok(bundle),
        Err(_) => Err("a text without a fault".into()),
    }
}

/// Context `c` of a bundle.
pub(crate) fn context_of(bundle: &Bundle, c: usize) -> Result<&Program, Fail>
    requires { IsFormedBundle bundle.now }
    ensures item { IfOk result (λ program. slice_get bundle.now.programs c ≡ Some program.now) }
    ensures closed { IfOk result (λ program. IsClosedCode program.now.code) }
{
    let programs = bundle.programs.as_slice();
    if programs.len() <= c {
        return Err("a context of this number".into());
    }
    Ok(&programs[c])
}

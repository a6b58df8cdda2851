//! The words of a plan without glue.

ghost use Rattle.std.specs.Prelude.{ℕ, ◌≡◌, ◌<◌, IfOk, Some, length, slice_get};
ghost use Rattle.flow_graph.specs.Paths.{IsClosedCode};
ghost use Rattle.plan.specs.ValidPlans.{IsValidPlan};
ghost use Rattle.emitted.specs.Edges.{next_at};
ghost use Rattle.emitted.specs.Words.{word_at, words_of_plan, glue_of};
ghost use Rattle.emit.specs.Layouts.{register_at};

use crate::counted::counted_word;
use crate::layout::Layout;
use crate::rows::next_at;
use crate::words::push;
use micro_isa::{Line, List, NoMemory, Word};
use plan::FlatPlan;
use std::alloc::Global;

/// The words of a context whose plan has no glue: those of its instructions alone, each at its
/// number.
#[tactic(auto, using(crate::proofs::Laying::next_piece, crate::proofs::Stilling::still_is))]
pub(crate) fn still_words(
    alloc: Global,
    code: &[Line],
    plan: &FlatPlan,
    layout: Layout,
) -> Result<List<Word>, NoMemory>
    requires closed { IsClosedCode code.now }
    requires valid { IsValidPlan code.now plan.now }
    requires still { glue_of code.now plan.now ≡ 0 }
    ensures { IfOk result (λ words. words ≡ words_of_plan code.now plan.now (register_at layout)) }
{
    let mut words = List::new(alloc);
    words.reserve(code.len())?;
    for i in 0..code.len() {
        push(&mut words, still_word(code, plan, i, layout))?;
    }
    Ok(words)
}

/// The word of instruction `i`, which jumps to its target's number.
fn still_word(code: &[Line], plan: &FlatPlan, i: usize, layout: Layout) -> Word
    requires closed { IsClosedCode code.now }
    requires valid { IsValidPlan code.now plan.now }
    requires still { glue_of code.now plan.now ≡ 0 }
    requires within { i < length code.now }
    ensures { result ≡ word_at code.now plan.now (register_at layout) i }
{
    counted_word(code, plan, i, target_at(code, i), layout)
}

/// The instruction that instruction `i` jumps to; 0 where it does not jump.
fn target_at(code: &[Line], i: usize) -> u32
    requires { i < 4294967295 }
    ensures { (j : ℕ) → (next_at (slice_get code.now i) i).jump ≡ Some j → result ≡ j }
{
    match next_at(code, i).jump {
        Some(j) => j,
        None => 0,
    }
}

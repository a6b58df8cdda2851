//! The words of a context.

ghost use Rattle.std.specs.Prelude.{ℕ, ◌≡◌, ◌<◌, ◌++◌, ◌∷◌, [], IfOk, OnOk, Some, length, map};
ghost use Rattle.micro_isa.specs.declared.limits.TheConstants.{MOST_FILE};
ghost use Rattle.flow_graph.specs.Paths.{Edge, IsClosedCode};
ghost use Rattle.edge_moves.specs.Within.{StepsWithin};
ghost use Rattle.micro_isa.specs.Pieces.{pieces};
ghost use Rattle.plan.specs.ValidPlans.{IsValidPlan};
ghost use Rattle.emitted.specs.Edges.{steps_to};
ghost use Rattle.emitted.specs.Words.{step_word, falls_at, piece_at, block_at, words_of_plan};
ghost use Rattle.emit.specs.Layouts.{register_at};
ghost use Rattle.emit.specs.Addressed.{AreAddresses};

use crate::after::places_after;
use crate::counted::{counted_word, jump_word, step_word};
use crate::edges::steps_to;
use crate::layout::Layout;
use crate::rows::next_at;
use crate::starts::{
    Addresses, addresses_of, goto_at, has_block, has_falls, target_start, word_count,
};
use edge_moves::Step;
use micro_isa::{Line, List, NoMemory, Word};
use plan::FlatPlan;
use smallvec::SmallVec;
use std::alloc::Global;

/// The words of a context: those of its instructions, each with the steps of its fall, and then the
/// blocks of its jumps.
pub(crate) fn context_words(
    alloc: Global,
    code: &[Line],
    plan: &FlatPlan,
    layout: Layout,
) -> Result<List<Word>, NoMemory>
    requires closed { IsClosedCode code.now }
    requires valid { IsValidPlan code.now plan.now }
    ensures { IfOk result (λ words. words ≡ words_of_plan code.now plan.now (register_at layout)) }
{
    let addresses = addresses_of(alloc, code, plan)?;
    let mut words = List::new(alloc);
    words.reserve(word_count(code, plan, &addresses) as usize)?;
    push_pieces(alloc, &mut words, code, plan, &addresses, layout)?;
    push_blocks(alloc, &mut words, code, plan, &addresses, layout)?;
    Ok(words)
}

/// Appends a word.
pub(crate) fn push(words: &mut List<Word>, word: Word) -> Result<(), NoMemory>
    ensures { OnOk result (words.new ≡ words.old ++ word ∷ []) }
{
    if words.push(word).is_err() {
        return Err(NoMemory);
    }
    Ok(())
}

/// The words of an edge's steps.
fn push_steps(words: &mut List<Word>, steps: &[Step], layout: Layout) -> Result<(), NoMemory>
    requires { StepsWithin MOST_FILE steps.now }
    ensures { OnOk result (words.new ≡ words.old ++ map (step_word (register_at layout)) steps.now) }
{
    for step in steps {
        let word = step_word(*step, layout);
        if words.push(word).is_err() {
            return Err(NoMemory);
        }
    }
    Ok(())
}

/// The steps from instruction `i` to a successor.
fn edge_steps(
    alloc: Global,
    code: &[Line],
    plan: &FlatPlan,
    i: usize,
    next: Option<u32>,
) -> Result<SmallVec<Step, 16, Global>, NoMemory>
    requires closed { IsClosedCode code.now }
    requires valid { IsValidPlan code.now plan.now }
    requires within { i < length code.now }
    requires edges { (j : ℕ) → next ≡ Some j → Edge code.now i j }
    ensures { IfOk result (λ done. done.items ≡ steps_to code.now plan.now i next) }
{
    let after = places_after(code, plan, i);
    steps_to(alloc, code, plan, i, &after, next)
}

/// The counted words, each with the steps of its fall.
#[tactic(auto, using(crate::proofs::Laying::next_behind))]
fn push_pieces(
    alloc: Global,
    words: &mut List<Word>,
    code: &[Line],
    plan: &FlatPlan,
    addresses: &Addresses,
    layout: Layout,
) -> Result<(), NoMemory>
    requires closed { IsClosedCode code.now }
    requires valid { IsValidPlan code.now plan.now }
    requires addresses { AreAddresses code.now plan.now addresses.now }
    ensures { OnOk result (words.new ≡ words.old ++ pieces (piece_at code.now plan.now (register_at layout)) (length code.now)) }
{
    for i in 0..code.len() {
        push_piece(alloc, words, code, plan, addresses, i, layout)?;
    }
    Ok(())
}

/// The counted word of an instruction, and the steps of its fall, where there are any.
fn push_piece(
    alloc: Global,
    words: &mut List<Word>,
    code: &[Line],
    plan: &FlatPlan,
    addresses: &Addresses,
    i: usize,
    layout: Layout,
) -> Result<(), NoMemory>
    requires closed { IsClosedCode code.now }
    requires valid { IsValidPlan code.now plan.now }
    requires addresses { AreAddresses code.now plan.now addresses.now }
    requires within { i < length code.now }
    ensures { OnOk result (words.new ≡ words.old ++ piece_at code.now plan.now (register_at layout) i) }
{
    let goto = goto_at(code, plan, addresses, i);
    push(words, counted_word(code, plan, i, goto, layout))?;
    if !has_falls(code, plan, addresses, i) {
        return Ok(());
    }
    push_falls(alloc, words, code, plan, i, layout)
}

/// The steps of the fall of an instruction.
#[tactic(auto, using(crate::proofs::Edging::fall_edge))]
fn push_falls(
    alloc: Global,
    words: &mut List<Word>,
    code: &[Line],
    plan: &FlatPlan,
    i: usize,
    layout: Layout,
) -> Result<(), NoMemory>
    requires closed { IsClosedCode code.now }
    requires valid { IsValidPlan code.now plan.now }
    requires within { i < length code.now }
    ensures { OnOk result (words.new ≡ words.old ++ falls_at code.now plan.now (register_at layout) i) }
{
    let falls = edge_steps(alloc, code, plan, i, next_at(code, i).fall)?;
    push_steps(words, falls.as_slice(), layout)
}

/// The blocks of the jumps.
#[tactic(auto, using(crate::proofs::Laying::next_behind))]
fn push_blocks(
    alloc: Global,
    words: &mut List<Word>,
    code: &[Line],
    plan: &FlatPlan,
    addresses: &Addresses,
    layout: Layout,
) -> Result<(), NoMemory>
    requires closed { IsClosedCode code.now }
    requires valid { IsValidPlan code.now plan.now }
    requires addresses { AreAddresses code.now plan.now addresses.now }
    ensures { OnOk result (words.new ≡ words.old ++ pieces (block_at code.now plan.now (register_at layout)) (length code.now)) }
{
    for i in 0..code.len() {
        push_block(alloc, words, code, plan, addresses, i, layout)?;
    }
    Ok(())
}

/// The steps of a jump, and the jump behind them, where there are any.
#[tactic(auto, using(crate::proofs::Edging::jump_edge))]
fn push_block(
    alloc: Global,
    words: &mut List<Word>,
    code: &[Line],
    plan: &FlatPlan,
    addresses: &Addresses,
    i: usize,
    layout: Layout,
) -> Result<(), NoMemory>
    requires closed { IsClosedCode code.now }
    requires valid { IsValidPlan code.now plan.now }
    requires addresses { AreAddresses code.now plan.now addresses.now }
    requires within { i < length code.now }
    ensures { OnOk result (words.new ≡ words.old ++ block_at code.now plan.now (register_at layout) i) }
{
    if !has_block(code, plan, addresses, i) {
        return Ok(());
    }
    let steps = edge_steps(alloc, code, plan, i, next_at(code, i).jump)?;
    push_steps(words, steps.as_slice(), layout)?;
    push(words, jump_word(target_start(code, plan, addresses, i)))
}

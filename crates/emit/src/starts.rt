//! Where the words and the blocks of each instruction begin.

ghost use Rattle.std.specs.Prelude.{ℕ, ◌≡◌, ◌+◌, ◌<◌, ◌++◌, ◌∷◌, [], IfOk, OnOk, Some, length, slice_get};
ghost use Rattle.flow_graph.specs.Paths.{IsClosedCode};
ghost use Rattle.plan.specs.ValidPlans.{IsValidPlan};
ghost use Rattle.emitted.specs.Edges.{next_at, fall_steps, jump_steps};
ghost use Rattle.emitted.specs.Words.{address, block_address, target_from};
ghost use Rattle.emit.specs.Addressed.{AreAddresses};
ghost use Rattle.emit.specs.Blocks.{has_steps};

use crate::after::places_of_row;
use crate::rows::{next_at, number_at};
use crate::sizes::glue_at;
use micro_isa::{Line, List, NoMemory};
use plan::FlatPlan;
use std::alloc::Global;

/// Where the word of each instruction stands, and then where the blocks begin; where each block
/// stands among the blocks, and how many words all of them have.
#[derive(Drop)]
pub(crate) struct Addresses {
    pub starts: List<u32>,
    pub blocks: List<u32>,
}

#[tactic(auto, using(crate::proofs::Laying::next_piece, crate::proofs::Sizing::few_words))]
pub(crate) fn addresses_of(
    alloc: Global,
    code: &[Line],
    plan: &FlatPlan,
) -> Result<Addresses, NoMemory>
    requires closed { IsClosedCode code.now }
    requires valid { IsValidPlan code.now plan.now }
    ensures { IfOk result (λ addresses. AreAddresses code.now plan.now addresses) }
{
    let mut starts = reserved(alloc, code.len() + 1)?;
    let mut blocks = reserved(alloc, code.len() + 1)?;
    let mut start = 0u32;
    let mut block = 0u32;
    let mut table = places_of_row(plan, 0);
    for i in 0..code.len() {
        push_number(&mut starts, start)?;
        push_number(&mut blocks, block)?;
        let size = glue_at(alloc, code, plan, i, &mut table)?;
        start += 1 + size.fall;
        block += size.block;
    }
    push_number(&mut starts, start)?;
    push_number(&mut blocks, block)?;
    Ok(Addresses { starts, blocks })
}

/// An empty list with room for so many numbers.
fn reserved(alloc: Global, n: usize) -> Result<List<u32>, NoMemory>
    ensures { IfOk result (λ numbers. numbers ≡ []) }
{
    let mut numbers = List::new(alloc);
    numbers.reserve(n)?;
    Ok(numbers)
}

fn push_number(numbers: &mut List<u32>, number: u32) -> Result<(), NoMemory>
    ensures { OnOk result (numbers.new ≡ numbers.old ++ number ∷ []) }
{
    if numbers.push(number).is_err() {
        return Err(NoMemory);
    }
    Ok(())
}

/// Whether steps follow the word of instruction `i`.
#[tactic(auto, using(crate::proofs::Addressing::start_rises))]
pub(crate) fn has_falls(code: &[Line], plan: &FlatPlan, addresses: &Addresses, i: usize) -> bool
    requires closed { IsClosedCode code.now }
    requires valid { IsValidPlan code.now plan.now }
    requires addresses { AreAddresses code.now plan.now addresses.now }
    requires within { i < length code.now }
    ensures { result ≡ has_steps (fall_steps code.now plan.now i) }
{
    let starts = addresses.starts.as_slice();
    number_at(starts, i) + 1 < number_at(starts, i + 1)
}

/// Whether instruction `i` has a block.
#[tactic(auto, using(crate::proofs::Addressing::block_rises))]
pub(crate) fn has_block(code: &[Line], plan: &FlatPlan, addresses: &Addresses, i: usize) -> bool
    requires addresses { AreAddresses code.now plan.now addresses.now }
    requires within { i < length code.now }
    ensures { result ≡ has_steps (jump_steps code.now plan.now i) }
{
    let blocks = addresses.blocks.as_slice();
    number_at(blocks, i) < number_at(blocks, i + 1)
}

/// Where instruction `i` jumps to, if it jumps: its block, or else the word of its target.
pub(crate) fn goto_at(code: &[Line], plan: &FlatPlan, addresses: &Addresses, i: usize) -> u32
    requires closed { IsClosedCode code.now }
    requires valid { IsValidPlan code.now plan.now }
    requires addresses { AreAddresses code.now plan.now addresses.now }
    requires within { i < length code.now }
    ensures { (j : ℕ) → (next_at (slice_get code.now i) i).jump ≡ Some j → result ≡ target_from code.now plan.now i j }
{
    if has_block(code, plan, addresses, i) {
        block_start(code, plan, addresses, i)
    } else {
        target_start(code, plan, addresses, i)
    }
}

/// Where the block of instruction `i` stands.
fn block_start(code: &[Line], plan: &FlatPlan, addresses: &Addresses, i: usize) -> u32
    requires closed { IsClosedCode code.now }
    requires valid { IsValidPlan code.now plan.now }
    requires addresses { AreAddresses code.now plan.now addresses.now }
    requires within { i < length code.now }
    ensures { result ≡ block_address code.now plan.now i }
{
    number_at(addresses.starts.as_slice(), code.len()) + number_at(addresses.blocks.as_slice(), i)
}

/// Where the word stands to whose instruction `i` jumps, if it jumps.
pub(crate) fn target_start(code: &[Line], plan: &FlatPlan, addresses: &Addresses, i: usize) -> u32
    requires closed { IsClosedCode code.now }
    requires addresses { AreAddresses code.now plan.now addresses.now }
    requires within { i < length code.now }
    ensures { (j : ℕ) → (next_at (slice_get code.now i) i).jump ≡ Some j → result ≡ address code.now plan.now j }
{
    match next_at(code, i).jump {
        Some(j) => number_at(addresses.starts.as_slice(), j as usize),
        None => 0,
    }
}

/// How many words there are.
pub(crate) fn word_count(code: &[Line], plan: &FlatPlan, addresses: &Addresses) -> u32
    requires closed { IsClosedCode code.now }
    requires valid { IsValidPlan code.now plan.now }
    requires addresses { AreAddresses code.now plan.now addresses.now }
    ensures { result ≡ block_address code.now plan.now (length code.now) }
{
    number_at(addresses.starts.as_slice(), code.len())
        + number_at(addresses.blocks.as_slice(), code.len())
}

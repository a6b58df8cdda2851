//! The steps of an edge.

ghost use Rattle.std.specs.Prelude.{ℕ, ◌≡◌, ◌==◌, ◌<◌, ◌||◌, IfOk, Some, false, length, slice_index, slice_index_or};
ghost use Rattle.flow_graph.specs.Paths.{Edge, IsClosedCode};
ghost use Rattle.edge_moves.specs.MoveSteps.{is_source, moving, move_steps};
ghost use Rattle.edge_moves.specs.ParallelMove.{is_target, AreDistinct};
ghost use Rattle.plan.specs.ValidPlans.{IsValidPlan};
ghost use Rattle.emitted.specs.Edges.{pairs_from, free_from, steps_to};
ghost use Rattle.emit.specs.Tables.{AreAfter, AreSmall};

use crate::after::{Places, place_of};
use crate::rows::places_at;
use edge_moves::{Step, sequence};
use micro_isa::{Line, NoMemory, PReg};
use plan::{FlatPlan, Place};
use smallvec::SmallVec;
use std::alloc::Global;

/// How many registers are not yet where the next row has them.
pub(crate) fn count_moves(after: &Places, next: &[Place]) -> usize
    requires { AreSmall next.now }
    ensures { result ≡ length (moving (pairs_from (λ k. slice_index after.now k) next.now)) }
{
    let mut moves = 0;
    for listed in next {
        if after[listed.register.0 as usize] != listed.place {
            moves += 1;
        }
    }
    moves
}

/// From where each register is after an instruction to where the next row has it.
pub(crate) fn pairs_of(
    alloc: Global,
    after: &Places,
    next: &[Place],
) -> Result<Vec<(PReg, PReg)>, NoMemory>
    ensures { IfOk result (λ pairs. pairs.items ≡ pairs_from (λ k. slice_index after.now k) next.now) }
{
    let mut pairs = Vec::new(alloc);
    for listed in next {
        let source = place_of(after, listed.register);
        if pairs.push((PReg(source), PReg(listed.place))).is_err() {
            return Err(NoMemory);
        }
    }
    Ok(pairs)
}

/// Which places are a source or a target of the pairs.
#[tactic(auto, using(edge_moves::proofs::Sources::none_marked, crate::proofs::Naming::named_next))]
fn named_places(pairs: &[(PReg, PReg)]) -> [bool; 256]
    ensures { (q : ℕ) → slice_index_or result q false ≡ (is_source pairs.now q || is_target pairs.now q) }
{
    let mut named = [false; 256];
    for (source, target) in pairs {
        mark(&mut named, source.0);
        mark(&mut named, target.0);
    }
    named
}

fn mark(named: &mut [bool; 256], place: u8)
    ensures { (q : ℕ) → slice_index_or named.new q false ≡ (place == q || slice_index_or named.old q false) }
{
    named[place as usize] = true;
}

/// The least place that no pair names.
#[tactic(auto, using(crate::proofs::Edging::free_more))]
pub(crate) fn free_place(pairs: &[(PReg, PReg)], places: u8) -> Option<PReg>
    ensures { result ≡ free_from pairs.now places 0 }
{
    let named = named_places(pairs);
    for place in 0..places {
        if !named[place as usize] {
            return Some(PReg(place));
        }
    }
    None
}

fn steps_of(
    alloc: Global,
    after: &Places,
    next: &[Place],
    places: u8,
) -> Result<SmallVec<Step, 16, Global>, NoMemory>
    requires { AreDistinct (pairs_from (λ k. slice_index after.now k) next.now) }
    ensures { IfOk result (λ done. done.items ≡ move_steps (pairs_from (λ k. slice_index after.now k) next.now) (free_from (pairs_from (λ k. slice_index after.now k) next.now) places 0)) }
{
    let pairs = pairs_of(alloc, after, next)?;
    let free = free_place(pairs.as_slice(), places);
    sequence(alloc, pairs.as_slice(), free)
}

/// The steps from instruction `i`, after which registers are at `after`, to a successor.
pub(crate) fn steps_to(
    alloc: Global,
    code: &[Line],
    plan: &FlatPlan,
    i: usize,
    after: &Places,
    next: Option<u32>,
) -> Result<SmallVec<Step, 16, Global>, NoMemory>
    requires closed { IsClosedCode code.now }
    requires valid { IsValidPlan code.now plan.now }
    requires after { AreAfter code.now plan.now i after.now }
    requires edges { (j : ℕ) → next ≡ Some j → Edge code.now i j }
    ensures { IfOk result (λ done. done.items ≡ steps_to code.now plan.now i next) }
{
    match next {
        Some(j) => steps_of(alloc, after, places_at(plan, j as usize), plan.r() as u8),
        None => Ok(SmallVec::new(alloc)),
    }
}

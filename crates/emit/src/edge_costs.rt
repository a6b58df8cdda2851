//! How many steps an edge takes, by how many places there are in all.

ghost use Rattle.std.specs.Prelude.{ℕ, ◌≡◌, ◌+◌, ◌<◌, ◌≤◌, IfOk, OnOk, length, slice_get, slice_index};
ghost use Rattle.micro_isa.specs.declared.limits.TheConstants.{MOST_FILE};
ghost use Rattle.flow_graph.specs.Paths.{Edge, IsClosedCode};
ghost use Rattle.edge_moves.specs.MoveSteps.{moving};
ghost use Rattle.edge_moves.specs.ParallelMove.{AreDistinct};
ghost use Rattle.plan.specs.ValidPlans.{IsValidPlan};
ghost use Rattle.emitted.specs.Edges.{row_at, next_at, pairs_from, free_from};
ghost use Rattle.emit.specs.Tables.{AreAfter, AreSmall, HasPlaces};
ghost use Rattle.emit.specs.Sized.{AreCostsOf, AreCostsTo, place_or_end, steps_with};

use crate::after::{Places, fill};
use crate::edges::{count_moves, free_place, pairs_of};
use crate::rows::places_at;
use edge_moves::{Costs, costs};
use micro_isa::{Line, NoMemory, PReg};
use plan::{FlatPlan, Place};
use std::alloc::Global;

/// How many steps an edge takes: `with_free` where the least place that no pair names is there,
/// else `without`.
#[derive(Clone, Copy, Debug)]
pub struct EdgeCosts {
    pub unnamed: u32,
    pub with_free: u32,
    pub without: u32,
}

/// The steps of an edge on which nothing moves, or of none.
pub(crate) const NOTHING: EdgeCosts = EdgeCosts {
    unnamed: 0,
    with_free: 0,
    without: 0,
};

/// The steps of an edge on which one register moves.
const SINGLE: EdgeCosts = EdgeCosts {
    unnamed: 0,
    with_free: 1,
    without: 1,
};

/// How many steps these are where so many places are there.
pub(crate) fn steps_with(costs: EdgeCosts, places: u32) -> u32
    ensures { result ≡ steps_with costs places }
{
    if costs.unnamed < places {
        costs.with_free
    } else {
        costs.without
    }
}

/// The least place below 255 that no pair names; else 255.
fn unnamed(pairs: &[(PReg, PReg)]) -> u32
    ensures { result ≡ place_or_end 255 (free_from pairs.now 255 0) }
{
    match free_place(pairs, 255) {
        Some(place) => place.0 as u32,
        None => 255,
    }
}

/// What it costs to move from these places to those of the next row, where so many registers move.
fn costs_of(
    alloc: Global,
    after: &Places,
    next: &[Place],
    moves: usize,
) -> Result<EdgeCosts, NoMemory>
    requires distinct { AreDistinct (pairs_from (λ k. slice_index after.now k) next.now) }
    requires few { length next.now ≤ MOST_FILE }
    requires moves { moves ≡ length (moving (pairs_from (λ k. slice_index after.now k) next.now)) }
    ensures { IfOk result (AreCostsOf (pairs_from (λ k. slice_index after.now k) next.now)) }
{
    if moves == 0 {
        return Ok(NOTHING);
    }
    if moves == 1 {
        return Ok(SINGLE);
    }
    let pairs = pairs_of(alloc, after, next)?;
    Ok(costs_between(pairs.as_slice()))
}

/// The same on a fall, behind which the table has the places of the next row: where nothing moves,
/// it has them already.
fn costs_of_move(alloc: Global, table: &mut Places, next: &[Place]) -> Result<EdgeCosts, NoMemory>
    requires distinct { AreDistinct (pairs_from (λ k. slice_index table.old k) next.now) }
    requires few { length next.now ≤ MOST_FILE }
    requires small { AreSmall next.now }
    ensures costs { IfOk result (AreCostsOf (pairs_from (λ k. slice_index table.old k) next.now)) }
    ensures places { OnOk result (HasPlaces next.now table.new) }
{
    let moves = count_moves(table, next);
    if moves == 0 {
        return Ok(NOTHING);
    }
    let costs = costs_of(alloc, table, next, moves)?;
    fill(table, next);
    Ok(costs)
}

/// What it costs to move from these places to those of the next row.
fn costs_of_jump(alloc: Global, after: &Places, next: &[Place]) -> Result<EdgeCosts, NoMemory>
    requires distinct { AreDistinct (pairs_from (λ k. slice_index after.now k) next.now) }
    requires few { length next.now ≤ MOST_FILE }
    requires small { AreSmall next.now }
    ensures { IfOk result (AreCostsOf (pairs_from (λ k. slice_index after.now k) next.now)) }
{
    costs_of(alloc, after, next, count_moves(after, next))
}

/// What the moves of these pairs cost.
fn costs_between(pairs: &[(PReg, PReg)]) -> EdgeCosts
    requires distinct { AreDistinct pairs.now }
    requires few { length pairs.now ≤ MOST_FILE }
    ensures { AreCostsOf pairs.now result }
{
    let Costs { with_free, without } = costs(pairs);
    EdgeCosts {
        unnamed: unnamed(pairs),
        with_free,
        without,
    }
}

/// What the edge from instruction `i`, after which registers are at `after`, to a successor costs.
pub(crate) fn costs_to(
    alloc: Global,
    code: &[Line],
    plan: &FlatPlan,
    i: usize,
    after: &Places,
    next: Option<u32>,
) -> Result<EdgeCosts, NoMemory>
    requires closed { IsClosedCode code.now }
    requires valid { IsValidPlan code.now plan.now }
    requires after { AreAfter code.now plan.now i after.now }
    requires edges { (j : ℕ) → next ≡ Some j → Edge code.now i j }
    ensures { IfOk result (AreCostsTo code.now plan.now i next) }
{
    match next {
        Some(j) => costs_of_jump(alloc, after, places_at(plan, j as usize)),
        None => Ok(NOTHING),
    }
}

/// What it costs to fall from instruction `i`, after which registers are at `table`. The table then
/// has the places of the next row, also where the instruction does not fall.
pub(crate) fn costs_of_fall(
    alloc: Global,
    code: &[Line],
    plan: &FlatPlan,
    i: usize,
    table: &mut Places,
    fall: Option<u32>,
) -> Result<EdgeCosts, NoMemory>
    requires closed { IsClosedCode code.now }
    requires valid { IsValidPlan code.now plan.now }
    requires within { i < length code.now }
    requires after { AreAfter code.now plan.now i table.old }
    requires fall { fall ≡ (next_at (slice_get code.now i) i).fall }
    ensures costs { IfOk result (AreCostsTo code.now plan.now i fall) }
    ensures next { OnOk result (HasPlaces (row_at plan.now (i + 1)).places table.new) }
{
    match fall {
        Some(j) => costs_of_move(alloc, table, places_at(plan, j as usize)),
        None => {
            fill(table, places_at(plan, i + 1));
            Ok(NOTHING)
        }
    }
}

//! The walk of a context and what it costs, kept for more private places as long as its rows serve.

ghost use Rattle.std.specs.Prelude.{ℕ, ◌≡◌, ◌<◌, ◌≤◌, List as Sequence, ◌+◌, IfOk, IfSome, slice_index, true};
ghost use Rattle.budget.specs.declared.TheConstants.{SIZES};
ghost use Rattle.micro_isa.specs.declared.program.Line.{Line as CodeLine};
ghost use Rattle.flow_graph.specs.Paths.{IsClosedCode};
ghost use Rattle.liveness.specs.Lives.{IsLiveOf};
ghost use Rattle.pressure.specs.Pressures.{IsPressureOf};
ghost use Rattle.plan.specs.ValidPlans.{IsValidPlan};
ghost use Rattle.point_walk.specs.Settling.{IsSettled};
ghost use Rattle.emitted.specs.Words.{glue_of};
ghost use Rattle.emit.specs.Limits.{most_glue};
ghost use Rattle.emit.specs.Sized.{with_places};
ghost use Rattle.allocate.specs.Tables.{AreSmall, AreWalkCosts, HasRows, IsFreeFrom, IsPriced};

use budget::SIZE_COUNT;
use emit::{glues, jump_glues};
use liveness::Live;
use micro_isa::{MOST_FILE, NoMemory, Program};
use plan::FlatPlan;
use point_walk::{Route, walk_route};
use pressure::Pressure;
use std::alloc::Global;

/// A walk, and its glue words by the number of places in all.
#[derive(Drop)]
pub(crate) struct PricedWalk {
    pub route: Route,
    pub costs: [u32; SIZE_COUNT],
}

/// The plan of the walk, if there is one, whose memory another plan of its program may use.
pub(crate) fn room_of(alloc: Global, walk: Option<PricedWalk>) -> FlatPlan {
    match walk {
        Some(walk) => plan_in(walk),
        None => FlatPlan::new(alloc),
    }
}

/// The plan of this walk.
pub(crate) fn plan_in(walk: PricedWalk) -> FlatPlan {
    let PricedWalk { route, .. } = walk;
    let Route { plan, .. } = route;
    plan
}

/// Whether the walk with `p` private places has these rows.
pub(crate) fn serves(walk: &PricedWalk, p: u32) -> bool
    ensures { result ≡ true → (code : Sequence CodeLine) (from : ℕ) → IsPriced code from walk.now → HasRows code p walk.now.route.plan }
{
    if walk.route.lasting {
        walk.route.plan.p() <= p
    } else {
        walk.route.plan.p() == p
    }
}

/// What the walk costs with `p` private places. `walk` keeps the last walk that was made, in the
/// memory of the one before it.
pub(crate) fn costs_with(
    alloc: Global,
    program: &Program,
    live: &Live,
    part: Pressure,
    p: u32,
    most: u32,
    walk: &mut Option<PricedWalk>,
) -> Result<[u32; SIZE_COUNT], NoMemory>
    requires closed { IsClosedCode program.now.code }
    requires live { IsLiveOf program.now.code live.now }
    requires part { IsPressureOf program.now.code part }
    requires private { part.private ≤ p }
    requires order { p ≤ most }
    requires all { part.all ≤ most }
    requires few { most ≤ MOST_FILE }
    requires walk { IfSome walk.old (IsPriced program.now.code part.all) }
    ensures costs { IfOk result (AreWalkCosts program.now.code p part.all) }
    ensures small { IfOk result AreSmall }
    ensures walk { IfSome walk.new (IsPriced program.now.code part.all) }
{
    if let Some(costs) = kept_costs(walk, p) {
        return Ok(costs);
    }
    let room = room_of(alloc, walk.take());
    let made = priced_walk(alloc, program, live, part, p, most, room)?;
    let costs = made.costs;
    *walk = Some(made);
    Ok(costs)
}

/// Makes the walk with the least private places, which `walk` keeps. Whether it serves all more of them
/// and costs nothing.
pub(crate) fn is_walk_free(
    alloc: Global,
    program: &Program,
    live: &Live,
    part: Pressure,
    most: u32,
    walk: &mut Option<PricedWalk>,
) -> Result<bool, NoMemory>
    requires closed { IsClosedCode program.now.code }
    requires live { IsLiveOf program.now.code live.now }
    requires part { IsPressureOf program.now.code part }
    requires ordered { part.private ≤ part.all }
    requires all { part.all ≤ most }
    requires few { most ≤ MOST_FILE }
    requires walk { IfSome walk.old (IsPriced program.now.code part.all) }
    ensures free { IfOk result (λ free. free ≡ true → IsFreeFrom program.now.code part.private part.all) }
    ensures walk { IfSome walk.new (IsPriced program.now.code part.all) }
{
    let room = FlatPlan::new(alloc);
    let made = priced_walk(alloc, program, live, part, part.private, most, room)?;
    let free = costs_nothing(&made);
    *walk = Some(made);
    Ok(free)
}

/// Whether the walk costs nothing, with more private places neither.
fn costs_nothing(walk: &PricedWalk) -> bool
    ensures { result ≡ true → (code : Sequence CodeLine) (from : ℕ) → IsPriced code from walk.now → IsFreeFrom code walk.now.route.plan.p from }
{
    if walk.route.lasting {
        are_nothing(&walk.costs)
    } else {
        false
    }
}

/// Whether all costs are 0.
fn are_nothing(costs: &[u32; SIZE_COUNT]) -> bool
    ensures { result ≡ true → (j : ℕ) → j < SIZES → slice_index costs.now j ≡ 0 }
{
    for j in 0..SIZE_COUNT {
        if costs[j] != 0 {
            return false;
        }
    }
    true
}

/// What the walk with `p` private places costs, if its rows are those of the walk that was kept.
fn kept_costs(walk: &Option<PricedWalk>, p: u32) -> Option<[u32; SIZE_COUNT]>
    ensures costs { (code : Sequence CodeLine) (from : ℕ) → IfSome walk.now (IsPriced code from) → IfSome result (AreWalkCosts code p from) }
    ensures small { (code : Sequence CodeLine) (from : ℕ) → IfSome walk.now (IsPriced code from) → IfSome result AreSmall }
{
    match walk {
        Some(walk) => costs_if(serves(walk, p), walk),
        None => None,
    }
}

fn costs_if(serves: bool, walk: &PricedWalk) -> Option<[u32; SIZE_COUNT]>
    ensures costs { (code : Sequence CodeLine) (p from : ℕ) → IsPriced code from walk.now → (serves ≡ true → HasRows code p walk.now.route.plan)
        → IfSome result (AreWalkCosts code p from) }
    ensures small { (code : Sequence CodeLine) (from : ℕ) → IsPriced code from walk.now → IfSome result AreSmall }
{
    if serves { Some(walk.costs) } else { None }
}

/// The walk with `p` private places, and what it costs.
fn priced_walk(
    alloc: Global,
    program: &Program,
    live: &Live,
    part: Pressure,
    p: u32,
    most: u32,
    room: FlatPlan,
) -> Result<PricedWalk, NoMemory>
    requires closed { IsClosedCode program.now.code }
    requires live { IsLiveOf program.now.code live.now }
    requires part { IsPressureOf program.now.code part }
    requires private { part.private ≤ p }
    requires order { p ≤ most }
    requires all { part.all ≤ most }
    requires few { most ≤ MOST_FILE }
    ensures priced { IfOk result (IsPriced program.now.code part.all) }
    ensures own { IfOk result (λ walk. walk.route.plan.p ≡ p) }
    ensures rows { IfOk result (λ walk. HasRows program.now.code p walk.route.plan) }
{
    let route = walk_route(program, live, p, most, room)?;
    let costs = route_glues(alloc, program, &route, part.all)?;
    Ok(PricedWalk { route, costs })
}

/// How many glue words a route's plan has with `from` places in all, with one more, and so on.
fn route_glues(
    alloc: Global,
    program: &Program,
    route: &Route,
    from: u32,
) -> Result<[u32; SIZE_COUNT], NoMemory>
    requires closed { IsClosedCode program.now.code }
    requires valid { IsValidPlan program.now.code route.now.plan }
    requires settled { IsSettled program.now.code route.now }
    requires small { from ≤ MOST_FILE }
    ensures numbers { IfOk result (λ glues. (j : ℕ) → j < SIZES → slice_index glues j ≡ glue_of program.now.code (with_places route.now.plan (from + j))) }
    ensures few { IfOk result (λ glues. (j : ℕ) → slice_index glues j ≤ most_glue) }
{
    if route.settled {
        jump_glues(alloc, program, &route.plan, from)
    } else {
        glues(alloc, program, &route.plan, from)
    }
}

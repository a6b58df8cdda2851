//! The plan of a context for given numbers of places, by the fits and the walk that were kept.

ghost use Rattle.std.specs.Prelude.{ℕ, ◌+◌, ◌<◌, ◌≤◌, List as Sequence, None, Some, IfOk, IfSome};
ghost use Rattle.micro_isa.specs.declared.program.Line.{Line as CodeLine};
ghost use Rattle.flow_graph.specs.Paths.{IsClosedCode};
ghost use Rattle.liveness.specs.Lives.{IsLiveOf};
ghost use Rattle.liveness.specs.Pressures.{IsPrivatePressure, IsTotalPressure};
ghost use Rattle.plan.specs.ValidPlans.{IsValidPlan};
ghost use Rattle.range_colour.specs.PlacedPlans.{IsRegionFit, IsWholeFit};
ghost use Rattle.range_colour.specs.Regional.{AreFits};
ghost use Rattle.pressure.specs.Regions.{AreRegionsOf};
ghost use Rattle.allocate.specs.Fits.{AreFitsOf};
ghost use Rattle.allocate.specs.Tables.{IsCellPlan, IsPriced, IsWalkPlanned};

use crate::dearer::tell_dearer;
use crate::fits::{Fits, are_all_there};
use crate::priced::{PricedWalk, plan_in, room_of, serves};
use budget::SIZES;
use emit::flat_glue;
use liveness::Live;
use micro_isa::{MOST_FILE, NoMemory, Program};
use plan::FlatPlan;
use point_walk::{Route, walk_route};
use pressure::Regions;
use range_colour::{Fit, fit_plan, region_fits, region_plan};
use std::alloc::Global;

/// A plan, and how many glue words it has.
#[derive(Drop)]
pub(crate) struct Planned {
    pub plan: FlatPlan,
    pub cost: u32,
}

/// The plan with `p` private places and `from + j` in all: that of the fit over the whole program;
/// where it runs out, that of the fit over each region or that of the walk, whichever has less glue,
/// and of the same glue the first.
pub(crate) fn cell(
    alloc: Global,
    program: &Program,
    live: &Live,
    fits: &Fits,
    walk: Option<PricedWalk>,
    from: u32,
    j: u32,
    p: u32,
) -> Result<FlatPlan, NoMemory>
    requires closed { IsClosedCode program.now.code }
    requires live { IsLiveOf program.now.code live.now }
    requires fits { AreFitsOf program.now.code fits.now }
    requires walk { IfSome walk (IsPriced program.now.code from) }
    requires private { (n : ℕ) × IsPrivatePressure program.now.code n × (n ≤ p) }
    requires total { (n : ℕ) × IsTotalPressure program.now.code n × (n ≤ from + j) }
    requires within { j < SIZES }
    requires order { p ≤ from + j }
    requires few { from + j ≤ MOST_FILE }
    ensures cell { IfOk result (IsCellPlan program.now.code p (from + j)) }
    ensures valid { IfOk result (IsValidPlan program.now.code) }
{
    if fits.whole.fits(p, from + j) {
        let code = program.code.as_slice();
        let room = room_of(alloc, walk);
        return fit_plan(code, live, &fits.whole, p, from + j, room);
    }
    let walked = walked(alloc, program, live, walk, from, j, p)?;
    lesser(alloc, program, live, fits, walked, p, from + j)
}

/// The plan by the fit over each region, if there is one, unless the walk costs less. Where the fits that
/// are there do not tell that it does, all are asked for.
fn lesser(
    alloc: Global,
    program: &Program,
    live: &Live,
    fits: &Fits,
    walked: Planned,
    p: u32,
    r: u32,
) -> Result<FlatPlan, NoMemory>
    requires closed { IsClosedCode program.now.code }
    requires live { IsLiveOf program.now.code live.now }
    requires fits { AreFitsOf program.now.code fits.now }
    requires order { p ≤ r }
    requires few { r ≤ MOST_FILE }
    requires out { IsWholeFit program.now.code p r None }
    requires walk { IsWalkPlanned program.now.code p r walked }
    ensures cell { IfOk result (IsCellPlan program.now.code p r) }
    ensures valid { IfOk result (IsValidPlan program.now.code) }
{
    if tell_dearer(program, live, fits, walked.cost) {
        return Ok(walked.plan);
    }
    if are_all_there(fits) {
        let regions = fits.regions.as_slice();
        return lesser_by(alloc, program, live, &fits.division, regions, walked, p, r);
    }
    let code = program.code.as_slice();
    let made = region_fits(alloc, code, live, &fits.division)?;
    let regions = made.as_slice();
    lesser_by(alloc, program, live, &fits.division, regions, walked, p, r)
}

/// The plan by these fits over all regions, if there is one, unless the walk costs less.
fn lesser_by(
    alloc: Global,
    program: &Program,
    live: &Live,
    division: &Regions,
    regions: &[Fit],
    walked: Planned,
    p: u32,
    r: u32,
) -> Result<FlatPlan, NoMemory>
    requires closed { IsClosedCode program.now.code }
    requires live { IsLiveOf program.now.code live.now }
    requires division { AreRegionsOf program.now.code division.now }
    requires regions { AreFits program.now.code division.now regions.now }
    requires order { p ≤ r }
    requires few { r ≤ MOST_FILE }
    requires out { IsWholeFit program.now.code p r None }
    requires walk { IsWalkPlanned program.now.code p r walked }
    ensures cell { IfOk result (IsCellPlan program.now.code p r) }
    ensures valid { IfOk result (IsValidPlan program.now.code) }
{
    let code = program.code.as_slice();
    match region_plan(alloc, code, live, division, regions, p, r)? {
        Some(plan) => lesser_of(alloc, program, plan, walked, p, r),
        None => Ok(walked.plan),
    }
}

/// The lesser plan, and of the same glue the first.
fn lesser_of(
    alloc: Global,
    program: &Program,
    fitted: FlatPlan,
    walked: Planned,
    p: u32,
    r: u32,
) -> Result<FlatPlan, NoMemory>
    requires closed { IsClosedCode program.now.code }
    requires out { IsWholeFit program.now.code p r None }
    requires fit { IsRegionFit program.now.code p r (Some fitted) }
    requires fitted { IsValidPlan program.now.code fitted }
    requires walk { IsWalkPlanned program.now.code p r walked }
    ensures cell { IfOk result (IsCellPlan program.now.code p r) }
    ensures valid { IfOk result (IsValidPlan program.now.code) }
{
    let cost = flat_glue(alloc, program, &fitted)?;
    if cost <= walked.cost {
        Ok(fitted)
    } else {
        Ok(walked.plan)
    }
}

/// The walk with `p` private places and `from + j` in all, and its glue: by the rows that were kept,
/// if they serve.
fn walked(
    alloc: Global,
    program: &Program,
    live: &Live,
    kept: Option<PricedWalk>,
    from: u32,
    j: u32,
    p: u32,
) -> Result<Planned, NoMemory>
    requires closed { IsClosedCode program.now.code }
    requires live { IsLiveOf program.now.code live.now }
    requires kept { IfSome kept (IsPriced program.now.code from) }
    requires private { (n : ℕ) × IsPrivatePressure program.now.code n × (n ≤ p) }
    requires total { (n : ℕ) × IsTotalPressure program.now.code n × (n ≤ from + j) }
    requires within { j < SIZES }
    requires order { p ≤ from + j }
    requires few { from + j ≤ MOST_FILE }
    ensures { IfOk result (IsWalkPlanned program.now.code p (from + j)) }
{
    match served(alloc, kept, from, j, p) {
        Ok(planned) => Ok(planned),
        Err(room) => walked_anew(alloc, program, live, p, from + j, room),
    }
}

/// The walk by the rows that were kept, if they serve; else room for another.
fn served(
    alloc: Global,
    kept: Option<PricedWalk>,
    from: u32,
    j: u32,
    p: u32,
) -> Result<Planned, FlatPlan>
    requires within { j < SIZES }
    requires few { from + j ≤ MOST_FILE }
    ensures { (code : Sequence CodeLine) → IsClosedCode code → ((n : ℕ) × IsPrivatePressure code n × (n ≤ p)) → ((n : ℕ) × IsTotalPressure code n × (n ≤ from + j)) → p ≤ from + j
        → IfSome kept (IsPriced code from) → IfOk result (IsWalkPlanned code p (from + j)) }
{
    match kept {
        Some(walk) => served_by(walk, from, j, p),
        None => Err(FlatPlan::new(alloc)),
    }
}

fn served_by(walk: PricedWalk, from: u32, j: u32, p: u32) -> Result<Planned, FlatPlan>
    requires within { j < SIZES }
    requires few { from + j ≤ MOST_FILE }
    ensures { (code : Sequence CodeLine) → IsClosedCode code → ((n : ℕ) × IsPrivatePressure code n × (n ≤ p)) → ((n : ℕ) × IsTotalPressure code n × (n ≤ from + j)) → p ≤ from + j
        → IsPriced code from walk → IfOk result (IsWalkPlanned code p (from + j)) }
{
    if !serves(&walk, p) {
        return Err(plan_in(walk));
    }
    let PricedWalk { route, costs } = walk;
    let Route { plan, .. } = route;
    Ok(Planned {
        plan: plan.resized(p, from + j),
        cost: costs[j as usize],
    })
}

/// The walk, made for these places, and its glue.
fn walked_anew(
    alloc: Global,
    program: &Program,
    live: &Live,
    p: u32,
    r: u32,
    room: FlatPlan,
) -> Result<Planned, NoMemory>
    requires closed { IsClosedCode program.now.code }
    requires live { IsLiveOf program.now.code live.now }
    requires private { (n : ℕ) × IsPrivatePressure program.now.code n × (n ≤ p) }
    requires total { (n : ℕ) × IsTotalPressure program.now.code n × (n ≤ r) }
    requires order { p ≤ r }
    requires few { r ≤ MOST_FILE }
    ensures { IfOk result (IsWalkPlanned program.now.code p r) }
{
    let Route { plan, .. } = walk_route(program, live, p, r, room)?;
    let cost = flat_glue(alloc, program, &plan)?;
    Ok(Planned { plan, cost })
}

//! What the cells of a context cost that have one number of private places.

ghost use Rattle.std.specs.Prelude.{ℕ, ◌≡◌, ◌+◌, ◌<◌, ◌≤◌, List as Sequence, Some, IfOk, IfSome, false, true};
ghost use Rattle.micro_isa.specs.declared.program.Line.{Line as CodeLine};
ghost use Rattle.flow_graph.specs.Paths.{IsClosedCode};
ghost use Rattle.liveness.specs.Lives.{IsLiveOf};
ghost use Rattle.pressure.specs.Pressures.{IsPressureOf};
ghost use Rattle.allocate.specs.Fits.{AreFitsOf, AreRegionCosts};
ghost use Rattle.allocate.specs.Tables.{AreAbove, AreRowCosts, AreSmall, AreWalkCosts, Costs, IsAbove, IsPriced, IsWalkCost, lesser_cost};

use crate::fits::Fits;
use crate::priced::{PricedWalk, costs_with};
use crate::region_costs::{RegionCosts, price, region_cost};
use budget::{MOST_COST, SIZE_COUNT, SIZES};
use liveness::Live;
use micro_isa::{MOST_FILE, NoMemory, Program};
use pressure::Pressure;
use std::alloc::Global;

/// What the cells with `p` private places cost, for each number of places in all from `part.all` on
/// and up to `most`. The walk is made only where some cell may need it; `walk` keeps the last one.
pub(crate) fn row_costs(
    alloc: Global,
    program: &Program,
    live: &Live,
    part: Pressure,
    p: u32,
    most: u32,
    fits: &mut Fits,
    costs: &mut RegionCosts,
    walk: &mut Option<PricedWalk>,
) -> Result<[u32; SIZE_COUNT], NoMemory>
    requires closed { IsClosedCode program.now.code }
    requires live { IsLiveOf program.now.code live.now }
    requires part { IsPressureOf program.now.code part }
    requires private { part.private ≤ p }
    requires all { part.all ≤ MOST_FILE }
    requires most { most ≤ MOST_FILE }
    requires fits { AreFitsOf program.now.code fits.old }
    requires known { AreRegionCosts program.now.code part.all fits.old.regions costs.old }
    requires walk { IfSome walk.old (IsPriced program.now.code part.all) }
    ensures costs { IfOk result (AreRowCosts program.now.code part p most) }
    ensures small { IfOk result AreSmall }
    ensures fits { IfOk result (λ row. AreFitsOf program.now.code fits.new) }
    ensures known { IfOk result (λ row. AreRegionCosts program.now.code part.all fits.new.regions costs.new) }
    ensures walk { IfSome walk.new (IsPriced program.now.code part.all) }
{
    if are_free(fits, costs, part, p, most) {
        return Ok([0; SIZE_COUNT]);
    }
    let walked = costs_with(alloc, program, live, part, p, most, walk)?;
    price(alloc, program, live, fits, part.all, &walked, costs)?;
    Ok(lesser_costs(fits, costs, part, p, most, &walked))
}

/// Whether each of these cells is known to cost nothing by a fit.
fn are_free(fits: &Fits, costs: &RegionCosts, part: Pressure, p: u32, most: u32) -> bool
    requires all { part.all ≤ MOST_FILE }
    requires most { most ≤ MOST_FILE }
    ensures free { result ≡ true → (code : Sequence CodeLine) → AreFitsOf code fits.now → AreRegionCosts code part.all fits.now.regions costs.now
        → (j : ℕ) → j < SIZES → p ≤ part.all + j → part.all + j ≤ most → Costs code p (part.all + j) 0 }
    ensures some { result ≡ false → p ≤ most }
    ensures all { result ≡ false → part.all ≤ most }
{
    for j in 0..SIZES {
        let r = part.all + j;
        if p <= r && r <= most && !is_free(fits, costs, part.all, j, p) {
            return false;
        }
    }
    true
}

/// Whether the cell with `p` private places and `from + j` in all is known to cost nothing by a fit.
fn is_free(fits: &Fits, costs: &RegionCosts, from: u32, j: u32, p: u32) -> bool
    requires within { j < SIZES }
    requires order { p ≤ from + j }
    requires few { from + j ≤ MOST_FILE }
    ensures { result ≡ true → (code : Sequence CodeLine) → AreFitsOf code fits.now → AreRegionCosts code from fits.now.regions costs.now → Costs code p (from + j) 0 }
{
    if fits.whole.fits(p, from + j) {
        return true;
    }
    is_nothing(region_cost(fits.regions.as_slice(), costs, from + j, j, p))
}

/// Whether there is a cost, and it is 0.
fn is_nothing(cost: Option<u32>) -> bool
    ensures { result ≡ true → cost ≡ Some 0 }
{
    match cost {
        Some(cost) => cost == 0,
        None => false,
    }
}

/// What the cells cost, where the walk costs so much.
fn lesser_costs(
    fits: &Fits,
    costs: &RegionCosts,
    part: Pressure,
    p: u32,
    most: u32,
    walked: &[u32; SIZE_COUNT],
) -> [u32; SIZE_COUNT]
    requires all { part.all ≤ MOST_FILE }
    requires most { most ≤ MOST_FILE }
    requires above { AreAbove costs.now walked.now }
    ensures costs { (code : Sequence CodeLine) → AreFitsOf code fits.now → AreRegionCosts code part.all fits.now.regions costs.now → AreWalkCosts code p part.all walked.now
        → AreRowCosts code part p most result }
    ensures small { AreSmall walked.now → AreSmall result }
{
    let mut cells = [0u32; SIZE_COUNT];
    for j in 0..SIZE_COUNT {
        cells[j] = cell_cost(fits, costs, part.all, j as u32, p, most, walked[j]);
    }
    cells
}

/// What the cell with `p` private places and `from + j` in all costs, where the walk costs so much;
/// 0 where no budget looks.
fn cell_cost(
    fits: &Fits,
    costs: &RegionCosts,
    from: u32,
    j: u32,
    p: u32,
    most: u32,
    walked: u32,
) -> u32
    requires within { j < SIZES }
    requires from { from ≤ MOST_FILE }
    requires most { most ≤ MOST_FILE }
    requires above { IsAbove costs.now walked }
    ensures cost { (code : Sequence CodeLine) → AreFitsOf code fits.now → AreRegionCosts code from fits.now.regions costs.now → IsWalkCost code p (from + j) walked
        → p ≤ from + j → from + j ≤ most → Costs code p (from + j) result }
    ensures small { walked ≤ MOST_COST → result ≤ MOST_COST }
{
    if p > from + j || from + j > most || fits.whole.fits(p, from + j) {
        return 0;
    }
    lesser_cost(
        region_cost(fits.regions.as_slice(), costs, from + j, j, p),
        walked,
    )
}

/// The lesser cost, that by fits if there is one.
fn lesser_cost(fitted: Option<u32>, walked: u32) -> u32
    ensures { result ≡ lesser_cost fitted walked }
{
    match fitted {
        Some(cost) => cost.min(walked),
        None => walked,
    }
}

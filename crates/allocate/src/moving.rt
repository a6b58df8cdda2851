//! Whether registers move on many falls between regions.

ghost use Rattle.std.specs.Prelude.{ℕ, ◌≡◌, ◌≢◌, ◌<◌, ◌≤◌, Some, length, slice_get, slice_index, true};
ghost use Rattle.std.specs.List.{Contains};
ghost use Rattle.flow_graph.specs.Paths.{IsClosedCode};
ghost use Rattle.liveness.specs.Lives.{IsLiveOf};
ghost use Rattle.liveness.specs.Sets.{members};
ghost use Rattle.plan.specs.declared.row.Plan.{Plan as PlanModel};
ghost use Rattle.pressure.specs.Regions.{AreRegionsOf, numbers_in};
ghost use Rattle.range_colour.specs.PlacedPlans.{IsRegionFit};
ghost use Rattle.range_colour.specs.Regional.{AreFirstFits};
ghost use Rattle.emitted.specs.Edges.{fall_steps, next_at};
ghost use Rattle.emitted.specs.Words.{glue_of};
ghost use Rattle.allocate.specs.Fits.{DoDiffer};

use liveness::{Live, take_least};
use micro_isa::{Line, VReg, successors};
use pressure::Regions;
use range_colour::Fit;

/// Whether each plan by the fits over the regions has more than so many glue words: on so many falls
/// something moves between regions whose fits are given. It looks no further than it takes to know.
pub(crate) fn moves_more(
    code: &[Line],
    live: &Live,
    regions: &Regions,
    fits: &[Fit],
    words: u32,
) -> bool
    requires closed { IsClosedCode code.now }
    requires live { IsLiveOf code.now live.now }
    requires regions { AreRegionsOf code.now regions.now }
    requires fits { AreFirstFits code.now regions.now (length fits.now) fits.now }
    ensures { result ≡ true → (p r : ℕ) (plan : PlanModel) → IsRegionFit code.now p r (Some plan) → words < glue_of code.now plan }
{
    let mut moved = 0;
    for i in 0..code.len() {
        moved += moves_at(code, live, regions, fits, i);
        if words < moved {
            return true;
        }
    }
    false
}

/// 1 if a register moves where instruction `i` falls through, else 0.
fn moves_at(code: &[Line], live: &Live, regions: &Regions, fits: &[Fit], i: usize) -> u32
    requires closed { IsClosedCode code.now }
    requires live { IsLiveOf code.now live.now }
    requires regions { AreRegionsOf code.now regions.now }
    requires fits { AreFirstFits code.now regions.now (length fits.now) fits.now }
    requires here { i < length code.now }
    ensures moves { (p r : ℕ) (plan : PlanModel) → IsRegionFit code.now p r (Some plan) → result ≤ length (fall_steps code.now plan i) }
    ensures one { result ≤ 1 }
{
    match fall_at(code, i) {
        Some(j) => moves_between(regions, fits, i as u32, j, live.live_in(j)),
        None => 0,
    }
}

/// Where instruction `i` falls through to.
fn fall_at(code: &[Line], i: usize) -> Option<u32>
    requires closed { IsClosedCode code.now }
    requires here { i < length code.now }
    ensures { result ≡ (next_at (slice_get code.now i) i).fall }
{
    successors(&code[i].instr, i as u32).fall
}

/// 1 if the regions of these instructions give some register of the set different places, else 0.
fn moves_between(regions: &Regions, fits: &[Fit], i: u32, j: u32, set: u128) -> u32
    requires first { i < length (numbers_in regions.now) }
    requires second { j < length (numbers_in regions.now) }
    ensures moves { 0 < result → DoDiffer fits.now (slice_index (numbers_in regions.now) i) (slice_index (numbers_in regions.now) j) (members 128 set) }
    ensures one { result ≤ 1 }
{
    let first = regions.region_of(i);
    let second = regions.region_of(j);
    if first != second && fits_differ(fits, first, second, set) {
        1
    } else {
        0
    }
}

/// Whether these two fits are there and give some register of the set different places.
fn fits_differ(fits: &[Fit], first: u32, second: u32, set: u128) -> bool
    ensures { result ≡ true → DoDiffer fits.now first second (members 128 set) }
{
    match (fits.get(first as usize), fits.get(second as usize)) {
        (Some(one), Some(other)) => differ(one.places(), other.places(), set),
        _ => false,
    }
}

/// Whether some register of the set has different places.
fn differ(first: &[u16], second: &[u16], set: u128) -> bool
    ensures { result ≡ true → (k : ℕ) × Contains (members 128 set) k × (slice_index first.now k ≢ slice_index second.now k) }
{
    let mut rest = set;
    'registers: while let Some(register) = take_least(&mut rest) {
        if place_of(first, register) != place_of(second, register) {
            return true;
        }
    }
    false
}

fn place_of(places: &[u16], register: VReg) -> u16
    ensures { result ≡ slice_index places.now register.0 }
{
    match places.get(register.0 as usize) {
        Some(place) => *place,
        None => 0,
    }
}

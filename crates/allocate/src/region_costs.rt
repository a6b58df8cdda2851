//! What the plans by the fits over the regions cost, as far as that is asked.

ghost use Rattle.std.specs.Prelude.{ℕ, ◌≡◌, ◌<◌, ◌≤◌, List as Sequence, IfOk, IfSome, None, Some, OnOk, slice_index, true, if◌then◌else◌};
ghost use Rattle.micro_isa.specs.declared.program.Line.{Line as CodeLine};
ghost use Rattle.flow_graph.specs.Paths.{IsClosedCode};
ghost use Rattle.liveness.specs.Lives.{IsLiveOf};
ghost use Rattle.allocate.specs.Fits.{AreAllThere, AreFitsOf, AreRegionCosts, IsDearer, TellsRegions};
ghost use Rattle.allocate.specs.Tables.{AreAbove, IsAbove, IsRegionCost};

use crate::dearer::is_dearer;
use crate::fits::Fits;
use budget::{SIZE_COUNT, SIZES};
use emit::glues;
use liveness::Live;
use micro_isa::{MOST_FILE, NoMemory, Program};
use range_colour::{Fit, all_fit, region_plan};
use std::alloc::Global;

/// What is known of the glue of the plans by the fits over the regions: nothing yet; that it is more than
/// so much; that there is no such plan; or the glue by the number of places in all.
#[derive(Clone, Copy, Debug)]
pub(crate) enum RegionCosts {
    Unknown,
    Above(u32),
    RunOut,
    Exact([u32; SIZE_COUNT]),
}

/// Makes known what the plans by the fits over the regions cost, from `from` places in all on, unless each
/// costs more than the walk does in any of these cells.
pub(crate) fn price(
    alloc: Global,
    program: &Program,
    live: &Live,
    fits: &mut Fits,
    from: u32,
    walked: &[u32; SIZE_COUNT],
    costs: &mut RegionCosts,
) -> Result<(), NoMemory>
    requires closed { IsClosedCode program.now.code }
    requires live { IsLiveOf program.now.code live.now }
    requires fits { AreFitsOf program.now.code fits.old }
    requires small { from ≤ MOST_FILE }
    requires costs { AreRegionCosts program.now.code from fits.old.regions costs.old }
    ensures fits { OnOk result (AreFitsOf program.now.code fits.new) }
    ensures costs { OnOk result (AreRegionCosts program.now.code from fits.new.regions costs.new) }
    ensures above { OnOk result (AreAbove costs.new walked.now) }
{
    let most = greatest(walked);
    if are_above(costs, most) {
        return Ok(());
    }
    *costs = region_costs(alloc, program, live, fits, from, most)?;
    Ok(())
}

/// The greatest of these costs.
fn greatest(walked: &[u32; SIZE_COUNT]) -> u32
    ensures { (j : ℕ) → j < SIZES → slice_index walked.now j ≤ result }
{
    let mut most = 0;
    for j in 0..SIZE_COUNT {
        most = most.max(walked[j]);
    }
    most
}

/// Whether what is known tells these plans from a walk that costs so much or less.
fn are_above(costs: &RegionCosts, most: u32) -> bool
    ensures { result ≡ true → (walked : ℕ) → walked ≤ most → IsAbove costs.now walked }
{
    match costs {
        RegionCosts::Unknown => false,
        RegionCosts::Above(words) => most <= *words,
        RegionCosts::RunOut => true,
        RegionCosts::Exact(_) => true,
    }
}

/// What the plans by the fits over the regions cost, or that each costs more than so much.
fn region_costs(
    alloc: Global,
    program: &Program,
    live: &Live,
    fits: &mut Fits,
    from: u32,
    most: u32,
) -> Result<RegionCosts, NoMemory>
    requires closed { IsClosedCode program.now.code }
    requires live { IsLiveOf program.now.code live.now }
    requires fits { AreFitsOf program.now.code fits.old }
    requires small { from ≤ MOST_FILE }
    ensures fits { IfOk result (λ costs. AreFitsOf program.now.code fits.new) }
    ensures costs { IfOk result (AreRegionCosts program.now.code from fits.new.regions) }
    ensures above { IfOk result (λ costs. (walked : ℕ) → walked ≤ most → IsAbove costs walked) }
{
    let dearer = is_dearer(alloc, program, live, fits, most)?;
    if dearer {
        return Ok(RegionCosts::Above(most));
    }
    whole_costs(alloc, program, live, fits, from)
}

/// What the plans by the fits over the regions cost, which are all there.
fn whole_costs(
    alloc: Global,
    program: &Program,
    live: &Live,
    fits: &Fits,
    from: u32,
) -> Result<RegionCosts, NoMemory>
    requires closed { IsClosedCode program.now.code }
    requires live { IsLiveOf program.now.code live.now }
    requires fits { AreFitsOf program.now.code fits.now }
    requires whole { AreAllThere fits.now }
    requires small { from ≤ MOST_FILE }
    ensures costs { IfOk result (AreRegionCosts program.now.code from fits.now.regions) }
    ensures above { IfOk result (λ costs. (walked : ℕ) → IsAbove costs walked) }
{
    let code = program.code.as_slice();
    let regions = fits.regions.as_slice();
    match region_plan(
        alloc,
        code,
        live,
        &fits.division,
        regions,
        MOST_FILE,
        MOST_FILE,
    )? {
        Some(plan) => {
            let costs = glues(alloc, program, &plan, from)?;
            Ok(RegionCosts::Exact(costs))
        }
        None => Ok(RegionCosts::RunOut),
    }
}

/// What the plan by the fits over the regions costs with `p` private places and `r` in all, if that is known
/// and there is one.
pub(crate) fn region_cost(fits: &[Fit], costs: &RegionCosts, r: u32, j: u32, p: u32) -> Option<u32>
    requires within { j < SIZES }
    ensures some { (code : Sequence CodeLine) → TellsRegions code p r j fits.now costs.now → IfSome result (IsRegionCost code p r) }
    ensures none { (code : Sequence CodeLine) (walked : ℕ) → TellsRegions code p r j fits.now costs.now → IsAbove costs.now walked → result ≡ None → IsDearer code p r walked }
{
    match costs {
        RegionCosts::Unknown => None,
        RegionCosts::Above(_) => None,
        RegionCosts::RunOut => None,
        RegionCosts::Exact(costs) => cost_if(all_fit(fits, p, r), costs[j as usize]),
    }
}

fn cost_if(fit: bool, cost: u32) -> Option<u32>
    ensures { result ≡ (if fit then Some cost else None) }
{
    if fit { Some(cost) } else { None }
}

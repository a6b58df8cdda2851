ghost use Rattle.std.specs.Prelude.{ℕ, [], ◌≡◌, ◌<◌, ◌≤◌, length, slice_index, IfOk, IfSome, Option, Some, true};
ghost use Rattle.flow_graph.specs.Paths.{Edge, IsClosedCode};
ghost use Rattle.liveness.specs.Lives.{IsLiveOf};
ghost use Rattle.plan.specs.ValidPlans.{IsValidPlan};
ghost use Rattle.range_colour.specs.Groups.{Every, InUse};
ghost use Rattle.range_colour.specs.PlacedPlans.{IsPlacedBy, IsWholeFit, MovesNothing};
ghost use Rattle.range_colour.specs.Fits.{IsFit};
ghost use Rattle.range_colour.specs.Regional.{fits_test};

use crate::fit::Fit;
use crate::rows::push_row_at;
use liveness::Live;
use micro_isa::{
    Line, List, MOST_FILE, MOST_INSTRUCTIONS, MOST_REGISTERS, NoMemory, Program, VReg,
};
use plan::{FlatPlan, Place, Plan};
use std::alloc::Global;

/// The plan by first fit over all instructions, in which no register moves; none exactly where it
/// runs out of the `p` places for crossing registers or of the `r` for the others.
pub fn first_fit(
    alloc: Global,
    program: &Program,
    live: &Live,
    p: u32,
    r: u32,
) -> Result<Option<Plan>, NoMemory>
    requires closed { IsClosedCode program.now.code }
    requires live { IsLiveOf program.now.code live.now }
    requires order { p ≤ r }
    requires few { r ≤ MOST_FILE }
    ensures fit { IfOk result (IsWholeFit program.now.code p r) }
    ensures valid { IfOk result (λ found. IfSome found (IsValidPlan program.now.code)) }
    ensures still { IfOk result (λ found. IfSome found (λ plan. (i j : ℕ) → Edge program.now.code i j → MovesNothing program.now.code plan i j)) }
    ensures once { (x y : Option Plan) → IsWholeFit program.now.code p r x → IsWholeFit program.now.code p r y → x ≡ y }
{
    whole_plan(alloc, program.code.as_slice(), live, p, r)
}

fn whole_plan(
    alloc: Global,
    code: &[Line],
    live: &Live,
    p: u32,
    r: u32,
) -> Result<Option<Plan>, NoMemory>
    requires closed { IsClosedCode code.now }
    requires live { IsLiveOf code.now live.now }
    requires order { p ≤ r }
    requires few { r ≤ MOST_FILE }
    ensures fit { IfOk result (IsWholeFit code.now p r) }
    ensures valid { IfOk result (λ found. IfSome found (IsValidPlan code.now)) }
    ensures still { IfOk result (λ found. IfSome found (λ plan. (i j : ℕ) → Edge code.now i j → MovesNothing code.now plan i j)) }
{
    let fit = whole_fit(alloc, code, live)?;
    if !fit.fits(p, r) {
        return Ok(None);
    }
    let flat = fit_plan(code, live, &fit, p, r, FlatPlan::new(alloc))?;
    let plan = flat.to_plan(alloc)?;
    Ok(Some(plan))
}

/// The plan by this fit over all instructions, which fits in these sizes. `room` is any plan: the
/// memory of its rows is used again.
pub fn fit_plan(
    code: &[Line],
    live: &Live,
    fit: &Fit,
    p: u32,
    r: u32,
    room: FlatPlan,
) -> Result<FlatPlan, NoMemory>
    requires closed { IsClosedCode code.now }
    requires live { IsLiveOf code.now live.now }
    requires fit { IsFit code.now Every fit.now }
    requires fits { fits_test fit.now p r ≡ true }
    requires order { p ≤ r }
    requires few { r ≤ MOST_FILE }
    ensures fit { IfOk result (λ plan. IsWholeFit code.now p r (Some plan)) }
    ensures valid { IfOk result (λ plan. IsValidPlan code.now plan) }
    ensures still { IfOk result (λ plan. (i j : ℕ) → Edge code.now i j → MovesNothing code.now plan i j) }
{
    rows(code, live, fit.places(), room.emptied(p, r))
}

/// The first fit over all instructions.
pub fn whole_fit(alloc: Global, code: &[Line], live: &Live) -> Result<Fit, NoMemory>
    requires closed { IsClosedCode code.now }
    requires live { IsLiveOf code.now live.now }
    ensures { IfOk result (IsFit code.now Every) }
{
    let members = all_of(alloc, code.len())?;
    let Ok(mut meets) = Vec::from_elem(alloc, 0u128, MOST_REGISTERS) else {
        return Err(NoMemory);
    };
    let mut taken = Vec::new(alloc);
    Fit::over(
        alloc,
        code,
        live,
        members.as_slice(),
        &mut meets,
        &mut taken,
    )
}

/// The numbers below `n`.
fn all_of(alloc: Global, n: usize) -> Result<List<u32>, NoMemory>
    requires { n ≤ MOST_INSTRUCTIONS }
    ensures whole { IfOk result (λ list. length list ≡ n) }
    ensures each { IfOk result (λ list. (k : ℕ) → k < n → slice_index list k ≡ k) }
{
    let mut list = List::new(alloc);
    list.reserve(n)?;
    'places: for i in 0..n {
        if list.push(i as u32).is_err() {
            return Err(NoMemory);
        }
    }
    Ok(list)
}

/// The empty plan with the rows of all instructions, whose registers have the same places everywhere.
fn rows(code: &[Line], live: &Live, places: &[u16], empty: FlatPlan) -> Result<FlatPlan, NoMemory>
    requires empty { empty.rows ≡ [] }
    requires closed { IsClosedCode code.now }
    requires live { IsLiveOf code.now live.now }
    requires inside { (i k : ℕ) → i < length code.now → InUse code.now i k k → k < length places.now }
    requires small { (i k : ℕ) → i < length code.now → InUse code.now i k k → slice_index places.now k < 256 }
    ensures { IfOk result (IsPlacedBy code.now empty.p empty.r (λ i. slice_index places.now)) }
{
    let mut plan = empty;
    plan.reserve(code.len())?;
    let mut line = [Place {
        register: VReg(0),
        place: 0,
    }; MOST_REGISTERS];
    'lines: for i in 0..code.len() {
        push_row_at(&mut plan, code, live, i, places, &mut line)?;
    }
    Ok(plan)
}

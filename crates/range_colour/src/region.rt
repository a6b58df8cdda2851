ghost use Rattle.std.specs.Prelude.{ℕ, [], ◌∷◌, ◌++◌, ◌≡◌, ◌<◌, ◌≤◌, length, slice_index, slice_index_or, slice_set, IfOk, IfSome, Option, Some, true, OnOk, vec_len};
ghost use Rattle.std.specs.List.{All};
ghost use Rattle.flow_graph.specs.Paths.{IsClosedCode};
ghost use Rattle.liveness.specs.Lives.{IsLiveOf};
ghost use Rattle.plan.specs.ValidPlans.{IsValidPlan};
ghost use Rattle.pressure.specs.Regions.{AreRegionsOf, Joined, count_in, numbers_in};
ghost use Rattle.range_colour.specs.PlacedPlans.{IsPlacedBy, IsRegionFit, MovesNothing};
ghost use Rattle.range_colour.specs.Groups.{InUse};
ghost use Rattle.range_colour.specs.Regional.{AreFirstFits, AreFits, AreFitsOver, DoFit, IsGroupedTo, places_at, places_for};

use crate::fit::Fit;
use crate::rows::push_row_at;
use liveness::Live;
use micro_isa::{
    Line, List, MOST_FILE, MOST_INSTRUCTIONS, MOST_REGISTERS, NoMemory, Program, VReg,
};
use plan::{FlatPlan, Place, Plan};
use pressure::Regions;
use std::alloc::Global;

/// The plan by first fit over each region, in which registers move only on edges that leave a
/// switching instruction; none exactly where the fit of some region runs out of the `p` places for
/// crossing registers or of the `r` for the others.
pub fn by_region(
    alloc: Global,
    program: &Program,
    live: &Live,
    regions: &Regions,
    p: u32,
    r: u32,
) -> Result<Option<Plan>, NoMemory>
    requires closed { IsClosedCode program.now.code }
    requires live { IsLiveOf program.now.code live.now }
    requires regions { AreRegionsOf program.now.code regions.now }
    requires order { p ≤ r }
    requires few { r ≤ MOST_FILE }
    ensures fit { IfOk result (IsRegionFit program.now.code p r) }
    ensures valid { IfOk result (λ found. IfSome found (IsValidPlan program.now.code)) }
    ensures still { IfOk result (λ found. IfSome found (λ plan. (i j : ℕ) → Joined program.now.code i j → MovesNothing program.now.code plan i j)) }
    ensures once { (x y : Option Plan) → IsRegionFit program.now.code p r x → IsRegionFit program.now.code p r y → x ≡ y }
{
    let code = program.code.as_slice();
    let fits = region_fits(alloc, code, live, regions)?;
    let found = region_plan(alloc, code, live, regions, fits.as_slice(), p, r)?;
    listed(alloc, found)
}

/// The plan as a list of lists, if there is one.
fn listed(alloc: Global, found: Option<FlatPlan>) -> Result<Option<Plan>, NoMemory>
    ensures { IfOk result (λ plan. plan ≡ found) }
{
    match found {
        Some(flat) => {
            let plan = flat.to_plan(alloc)?;
            Ok(Some(plan))
        }
        None => Ok(None),
    }
}

/// The plan by these fits of the regions. Its rows serve all sizes in which they fit.
pub fn region_plan(
    alloc: Global,
    code: &[Line],
    live: &Live,
    regions: &Regions,
    fits: &[Fit],
    p: u32,
    r: u32,
) -> Result<Option<FlatPlan>, NoMemory>
    requires closed { IsClosedCode code.now }
    requires live { IsLiveOf code.now live.now }
    requires regions { AreRegionsOf code.now regions.now }
    requires fits { AreFits code.now regions.now fits.now }
    requires order { p ≤ r }
    requires few { r ≤ MOST_FILE }
    ensures fit { IfOk result (IsRegionFit code.now p r) }
    ensures valid { IfOk result (λ found. IfSome found (IsValidPlan code.now)) }
    ensures still { IfOk result (λ found. IfSome found (λ plan. (i j : ℕ) → Joined code.now i j → MovesNothing code.now plan i j)) }
    ensures serves { IfOk result (λ found. IfSome found (λ plan. (m n : ℕ) → m ≤ n → n ≤ MOST_FILE → DoFit fits.now m n true
        → IsRegionFit code.now m n (Some (record { p = m; r = n; rows = plan.rows })))) }
{
    if !all_fit(fits, p, r) {
        return Ok(None);
    }
    let empty = FlatPlan::new(alloc).emptied(p, r);
    let plan = rows(code, live, regions, fits, empty)?;
    Ok(Some(plan))
}

/// The first fit over each region, in the order of their numbers.
pub fn region_fits(
    alloc: Global,
    code: &[Line],
    live: &Live,
    regions: &Regions,
) -> Result<List<Fit>, NoMemory>
    requires closed { IsClosedCode code.now }
    requires live { IsLiveOf code.now live.now }
    requires regions { AreRegionsOf code.now regions.now }
    ensures { IfOk result (AreFits code.now regions.now) }
{
    first_region_fits(alloc, code, live, regions, regions.count())
}

/// The first fit over each of the first `most` regions, in the order of their numbers.
pub fn first_region_fits(
    alloc: Global,
    code: &[Line],
    live: &Live,
    regions: &Regions,
    most: u32,
) -> Result<List<Fit>, NoMemory>
    requires closed { IsClosedCode code.now }
    requires live { IsLiveOf code.now live.now }
    requires regions { AreRegionsOf code.now regions.now }
    requires there { most ≤ count_in regions.now }
    ensures { IfOk result (AreFirstFits code.now regions.now most) }
{
    let groups = members_of(alloc, regions, code.len(), most)?;
    let Ok(mut meets) = Vec::from_elem(alloc, 0u128, MOST_REGISTERS) else {
        return Err(NoMemory);
    };
    let mut taken = Vec::new(alloc);
    fits_over(alloc, code, live, groups.as_slice(), &mut meets, &mut taken)
}

/// The first fit over each group of instructions. `meets` and `taken` are room to work in.
fn fits_over(
    alloc: Global,
    code: &[Line],
    live: &Live,
    groups: &[List<u32>],
    meets: &mut [u128],
    taken: &mut Vec<u128>,
) -> Result<List<Fit>, NoMemory>
    requires closed { IsClosedCode code.now }
    requires live { IsLiveOf code.now live.now }
    requires members { All (λ list. All (λ i. i < length code.now) list) groups.now }
    requires long { length meets.old ≡ MOST_REGISTERS }
    ensures { IfOk result (AreFitsOver code.now groups.now) }
{
    let mut fits = List::new(alloc);
    'groups: for members in groups {
        let fit = Fit::over(alloc, code, live, members.as_slice(), meets, taken)?;
        let Ok(()) = fits.push(fit) else {
            return Err(NoMemory);
        };
    }
    Ok(fits)
}

/// The instructions of each of the first `most` regions.
fn members_of(
    alloc: Global,
    regions: &Regions,
    n: usize,
    most: u32,
) -> Result<Vec<List<u32>>, NoMemory>
    requires few { n ≤ MOST_INSTRUCTIONS }
    requires numbers { length (numbers_in regions.now) ≡ n }
    ensures { IfOk result (λ groups. IsGroupedTo (numbers_in regions.now) most n groups.items) }
{
    let mut groups = empty_groups(alloc, most)?;
    'places: for i in 0..n {
        append_below(&mut groups, most, regions.region_of(i as u32), i as u32)?;
    }
    Ok(groups)
}

/// So many groups without instructions.
fn empty_groups(alloc: Global, count: u32) -> Result<Vec<List<u32>>, NoMemory>
    ensures whole { IfOk result (λ groups. vec_len groups ≡ count) }
    ensures none { IfOk result (λ groups. (g : ℕ) → slice_index_or groups.items g [] ≡ []) }
{
    let mut groups = Vec::new(alloc);
    'groups: for _g in 0..count {
        let Ok(()) = groups.push(List::new(alloc)) else {
            return Err(NoMemory);
        };
    }
    Ok(groups)
}

/// Appends an instruction to a group, if that is one of the first `most`.
fn append_below(groups: &mut Vec<List<u32>>, most: u32, g: u32, i: u32) -> Result<(), NoMemory>
    requires { vec_len groups.old ≡ most }
    ensures below { OnOk result (g < most → groups.new.items ≡ slice_set groups.old.items g (slice_index_or groups.old.items g [] ++ i ∷ [])) }
    ensures above { OnOk result (most ≤ g → groups.new.items ≡ groups.old.items) }
{
    if g < most {
        append_to(groups, g, i)
    } else {
        Ok(())
    }
}

/// Appends an instruction to a group.
fn append_to(groups: &mut Vec<List<u32>>, g: u32, i: u32) -> Result<(), NoMemory>
    requires { g < vec_len groups.old }
    ensures { OnOk result (groups.new.items ≡ slice_set groups.old.items g (slice_index_or groups.old.items g [] ++ i ∷ [])) }
{
    groups[g as usize].push(i).or(Err(NoMemory))
}

/// Whether all fit in `p` places for crossing registers and `r` for the others.
pub fn all_fit(fits: &[Fit], p: u32, r: u32) -> bool
    ensures { DoFit fits.now p r result }
{
    'fits: for fit in fits {
        if !fit.fits(p, r) {
            return false;
        }
    }
    true
}

/// The empty plan with the rows of all instructions, whose registers have the places of their
/// region's fit.
fn rows(
    code: &[Line],
    live: &Live,
    regions: &Regions,
    fits: &[Fit],
    empty: FlatPlan,
) -> Result<FlatPlan, NoMemory>
    requires empty { empty.rows ≡ [] }
    requires closed { IsClosedCode code.now }
    requires live { IsLiveOf code.now live.now }
    requires regions { AreRegionsOf code.now regions.now }
    requires fits { AreFits code.now regions.now fits.now }
    requires inside { (i k : ℕ) → i < length code.now → InUse code.now i k k → k < length (places_for regions.now fits.now i) }
    requires small { (i k : ℕ) → i < length code.now → InUse code.now i k k → slice_index (places_for regions.now fits.now i) k < 256 }
    ensures { IfOk result (IsPlacedBy code.now empty.p empty.r (λ i. slice_index (places_for regions.now fits.now i))) }
{
    let mut plan = empty;
    plan.reserve(code.len())?;
    let mut line = [Place {
        register: VReg(0),
        place: 0,
    }; MOST_REGISTERS];
    'lines: for i in 0..code.len() {
        let places = places_at(fits, regions.region_of(i as u32));
        push_row_at(&mut plan, code, live, i, places, &mut line)?;
    }
    Ok(plan)
}

/// The places of the fit with this number.
fn places_at(fits: &[Fit], g: u32) -> &[u16]
    requires { g < length fits.now }
    ensures { result.now ≡ places_at fits.now g }
{
    fits[g as usize].places()
}

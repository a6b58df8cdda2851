ghost use Rattle.std.specs.Prelude.{◌≡◌, ◌<◌, ◌↔◌, true, None, length};
ghost use Rattle.std.specs.Int.{bit_at};
ghost use Rattle.std.specs.List.{Contains};
ghost use Rattle.flow_graph.specs.Paths.{IsClosedCode};
ghost use Rattle.liveness.specs.Liveness.{LiveIn};
ghost use Rattle.liveness.specs.Lives.{IsLiveOf};
ghost use Rattle.liveness.specs.Sets.{IsSetOf};
ghost use Rattle.liveness.specs.Surviving.{WritesAt};
ghost use Rattle.plan.specs.ValidPlans.{registers_of};
ghost use Rattle.plan.specs.Faults.{Nowhere, IsFirst, IsMissing, IsAbove, IsStray, IsExtra, IsLesser, IsListingChecked, HasExtraWrite};

use crate::fault::PlanFault;
use crate::row::Place;
use liveness::{Live, has, register_set, take_least};
use micro_isa::{Line, VReg, writes};

/// Whether the row of instruction `i` lists what is live in, in order, and has the place of a write
/// exactly where there is one; else what is wrong first.
#[tactic(auto, using(crate::proofs::Lists::listing_is))]
pub fn check_listing(
    code: &[Line],
    live: &Live,
    i: usize,
    places: &[Place],
    write: Option<u8>,
) -> Result<(), PlanFault>
    requires closed { IsClosedCode code.now }
    requires live { IsLiveOf code.now live.now }
    requires here { i < length code.now }
    ensures { IsListingChecked code.now i places.now write result }
{
    let at = i as u32;
    if let Some(register) = first_missing(code, live, i, places, write) {
        return Err(PlanFault::Missing { at, register });
    }
    if let Some(register) = first_unlive(code, live, i, places) {
        return Err(PlanFault::Extra { at, register });
    }
    if has_extra_write(code, i, write) {
        return Err(PlanFault::ExtraWrite { at });
    }
    Ok(())
}

/// The least register without a place: live in and not listed, or written without a place for it.
fn first_missing(
    code: &[Line],
    live: &Live,
    i: usize,
    places: &[Place],
    write: Option<u8>,
) -> Option<VReg>
    requires closed { IsClosedCode code.now }
    requires live { IsLiveOf code.now live.now }
    requires here { i < length code.now }
    ensures { IsFirst (IsMissing code.now i places.now write) result }
{
    let mut missing = live.live_in(i as u32) & !listed_set(places) | unplaced(code, i, write);
    take_least(&mut missing)
}

/// The registers below 128 that the list has.
fn listed_set(places: &[Place]) -> u128
    ensures { IsSetOf (λ k. (k < 128) × Contains (registers_of places.now) k) result }
{
    let mut set = 0;
    'entries: for place in places {
        set |= alone(place.register);
    }
    set
}

fn alone(register: VReg) -> u128
    ensures { IsSetOf (λ k. (k < 128) × (register.0 ≡ k)) result }
{
    if register.0 < 128 { 1 << register.0 } else { 0 }
}

/// What instruction `i` writes, if there is no place for it.
fn unplaced(code: &[Line], i: usize, write: Option<u8>) -> u128
    requires closed { IsClosedCode code.now }
    requires here { i < length code.now }
    ensures { IsSetOf (λ k. WritesAt code.now i k × (write ≡ None)) result }
{
    match write {
        Some(_) => 0,
        None => register_set(writes(&code[i].instr)),
    }
}

/// The least register with an entry that is not live in at instruction `i`, or not in order.
fn first_unlive(code: &[Line], live: &Live, i: usize, places: &[Place]) -> Option<VReg>
    requires closed { IsClosedCode code.now }
    requires live { IsLiveOf code.now live.now }
    requires here { i < length code.now }
    ensures { IsFirst (IsExtra (LiveIn code.now i) None places.now) result }
{
    first_extra(live.live_in(i as u32), places)
}

/// The least register with an entry that is not in the set, or not above the entry before it.
fn first_extra(set: u128, places: &[Place]) -> Option<VReg>
    ensures { IsFirst (IsExtra (λ k. bit_at set k ≡ 1) None places.now) result }
{
    let mut least = None;
    let mut above = None;
    'entries: for place in places {
        if is_stray(set, above, place.register) {
            least = lesser(least, place.register);
        }
        above = Some(place.register);
    }
    least
}

fn is_stray(set: u128, above: Option<VReg>, register: VReg) -> bool
    ensures { (result ≡ true) ↔ IsStray (λ k. bit_at set k ≡ 1) above register.0 }
{
    !(is_in(set, register) && is_above(above, register))
}

/// Whether the set has the register, whatever its number.
fn is_in(set: u128, register: VReg) -> bool
    ensures { (result ≡ true) ↔ (bit_at set register.0 ≡ 1) }
{
    register.0 < 128 && has(set, register)
}

fn is_above(before: Option<VReg>, register: VReg) -> bool
    ensures { (result ≡ true) ↔ IsAbove before register.0 }
{
    match before {
        Some(before) => before.0 < register.0,
        None => true,
    }
}

fn lesser(least: Option<VReg>, register: VReg) -> Option<VReg>
    ensures { IsLesser least register result }
{
    match least {
        Some(least) if least.0 <= register.0 => Some(least),
        _ => Some(register),
    }
}

fn has_extra_write(code: &[Line], i: usize, write: Option<u8>) -> bool
    requires here { i < length code.now }
    ensures { (result ≡ true) ↔ HasExtraWrite code.now i write }
{
    write.is_some() && writes_nothing(code, i)
}

fn writes_nothing(code: &[Line], i: usize) -> bool
    requires here { i < length code.now }
    ensures { (result ≡ true) ↔ Nowhere (WritesAt code.now i) }
{
    writes(&code[i].instr).is_none()
}

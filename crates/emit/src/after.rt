//! Where each live register is, by the register's number.

ghost use Rattle.std.specs.Prelude.{ℕ, ◌≡◌, ◌<◌, Some, length, slice_index};
ghost use Rattle.flow_graph.specs.Paths.{IsClosedCode, IsSmall};
ghost use Rattle.plan.specs.ValidPlans.{IsValidPlan};
ghost use Rattle.emitted.specs.Edges.{row_at};
ghost use Rattle.emit.specs.Tables.{AreAfter, AreSmall, HasPlaces, place_with};

use crate::rows::{places_at, write_at, written_at};
use micro_isa::{Line, MOST_REGISTERS, VReg};
use plan::{FlatPlan, Place};

/// A place for each register, by the register's number.
pub(crate) type Places = [u8; MOST_REGISTERS];

/// The places of row `i`.
pub(crate) fn places_of_row(plan: &FlatPlan, i: usize) -> Places
    requires { AreSmall (row_at plan.now i).places }
    ensures { HasPlaces (row_at plan.now i).places result }
{
    let mut table = [0; MOST_REGISTERS];
    fill(&mut table, places_at(plan, i));
    table
}

/// Where each register is after instruction `i`, where it is live then.
pub(crate) fn places_after(code: &[Line], plan: &FlatPlan, i: usize) -> Places
    requires closed { IsClosedCode code.now }
    requires valid { IsValidPlan code.now plan.now }
    requires within { i < length code.now }
    ensures { AreAfter code.now plan.now i result }
{
    let mut table = places_of_row(plan, i);
    write_place(&mut table, code, plan, i);
    table
}

/// From the places of row `i` to those after its instruction: writes the place of what it writes.
pub(crate) fn write_place(table: &mut Places, code: &[Line], plan: &FlatPlan, i: usize)
    requires closed { IsClosedCode code.now }
    requires valid { IsValidPlan code.now plan.now }
    requires within { i < length code.now }
    requires row { HasPlaces (row_at plan.now i).places table.old }
    ensures { AreAfter code.now plan.now i table.new }
{
    put(table, written_at(code, i), write_at(plan, i));
}

#[tactic(auto, using(crate::proofs::Filling::fill_next))]
/// Writes the listed places.
pub(crate) fn fill(table: &mut Places, places: &[Place])
    requires small { AreSmall places.now }
    ensures { HasPlaces places.now table.new }
{
    for i in 0..places.len() {
        let listed = places[places.len() - 1 - i];
        table[listed.register.0 as usize] = listed.place;
    }
}

/// Writes the place of the register, if there is one.
fn put(table: &mut Places, register: Option<VReg>, place: u8)
    requires { IsSmall register }
    ensures { (k : ℕ) → slice_index table.new k ≡ place_with register place (λ n. slice_index table.old n) k }
{
    if let Some(register) = register {
        table[register.0 as usize] = place;
    }
}

/// The place of a register in the table.
pub(crate) fn place_of(table: &Places, register: VReg) -> u8
    ensures { result ≡ slice_index table.now register.0 }
{
    match table.get(register.0 as usize) {
        Some(place) => *place,
        None => 0,
    }
}

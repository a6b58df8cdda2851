//! What a plan and a program say of one instruction.

ghost use Rattle.std.specs.Prelude.{◌≡◌, ◌<◌, Some, length, slice_get, slice_index};
ghost use Rattle.plan.specs.ValidPlans.{place_in};
ghost use Rattle.emitted.specs.Edges.{row_in, place_or_zero, written_in, next_at};

use micro_isa::{Line, Next, VReg, successors, writes};
use plan::{FlatPlan, Place};

/// The place of a register in a row.
pub(crate) fn place_in(places: &[Place], register: VReg) -> u8
    ensures { result ≡ place_in places.now register.0 }
{
    for listed in places {
        if listed.register.0 == register.0 {
            return listed.place;
        }
    }
    0
}

/// The places of row `i`.
#[tactic(auto, using(crate::proofs::Rowing::same_places))]
pub(crate) fn places_at(plan: &FlatPlan, i: usize) -> &[Place]
    ensures { result.now ≡ (row_in (slice_get plan.now.rows i)).places }
{
    plan.places_at(i)
}

/// The write's place of row `i`; 0 where nothing is written.
#[tactic(auto, using(crate::proofs::Rowing::same_write))]
pub(crate) fn write_at(plan: &FlatPlan, i: usize) -> u8
    ensures { result ≡ place_or_zero (row_in (slice_get plan.now.rows i)).write }
{
    place_or_zero(plan.write_at(i))
}

fn place_or_zero(write: Option<u8>) -> u8
    ensures { result ≡ place_or_zero write }
{
    match write {
        Some(place) => place,
        None => 0,
    }
}

/// The register that instruction `i` writes.
pub(crate) fn written_at(code: &[Line], i: usize) -> Option<VReg>
    ensures { result ≡ written_in (slice_get code.now i) }
{
    match code.get(i) {
        Some(line) => writes(&line.instr),
        None => None,
    }
}

/// The successors of instruction `i`.
pub(crate) fn next_at(code: &[Line], i: usize) -> Next
    requires { i < 4294967295 }
    ensures { result ≡ next_at (slice_get code.now i) i }
{
    match code.get(i) {
        Some(line) => successors(&line.instr, i as u32),
        None => Next {
            fall: None,
            jump: None,
        },
    }
}

pub(crate) fn line_at(code: &[Line], i: usize) -> Line
    requires { i < length code.now }
    ensures { slice_get code.now i ≡ Some result }
{
    code[i]
}

pub(crate) fn number_at(numbers: &[u32], i: usize) -> u32
    ensures { result ≡ slice_index numbers.now i }
{
    match numbers.get(i) {
        Some(number) => *number,
        None => 0,
    }
}

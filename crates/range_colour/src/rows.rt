ghost use Rattle.std.specs.Prelude.{ℕ, ◌≡◌, ◌<◌, ◌≤◌, Some, length, slice_index, take, OnOk};
ghost use Rattle.std.specs.Option.{option_map};
ghost use Rattle.std.specs.List.{Contains};
ghost use Rattle.flow_graph.specs.Paths.{IsClosedCode};
ghost use Rattle.liveness.specs.Lives.{IsLiveOf};
ghost use Rattle.liveness.specs.Sets.{members};
ghost use Rattle.plan.specs.declared.row.Place.{Place as Placed};
ghost use Rattle.plan.specs.declared.row.PlanRow.{PlanRow};
ghost use Rattle.plan.specs.Rows.{with_row};
ghost use Rattle.plan.specs.ValidPlans.{registers_of};
ghost use Rattle.range_colour.specs.Groups.{InUse};
ghost use Rattle.range_colour.specs.PlacedPlans.{IsPlacedRow};
ghost use Rattle.range_colour.specs.Settling.{In};

use liveness::{Live, take_least};
use micro_isa::{Line, MOST_REGISTERS, NoMemory, VReg, writes};
use plan::{FlatPlan, Place};

/// Appends the row of instruction `i`, whose registers have these places. Its entries are made in
/// `line` and copied at once, as a push for each takes longer.
pub fn push_row_at(
    plan: &mut FlatPlan,
    code: &[Line],
    live: &Live,
    i: usize,
    places: &[u16],
    line: &mut [Place; MOST_REGISTERS],
) -> Result<(), NoMemory>
    requires closed { IsClosedCode code.now }
    requires live { IsLiveOf code.now live.now }
    requires here { i < length code.now }
    requires inside { (k : ℕ) → InUse code.now i k k → k < length places.now }
    requires small { (k : ℕ) → InUse code.now i k k → slice_index places.now k < 256 }
    ensures { OnOk result ((row : PlanRow) × IsPlacedRow code.now i (slice_index places.now) row × (plan.new ≡ with_row plan.old row)) }
{
    let write = write_place(writes(&code[i].instr), places);
    let count = write_entries(live.live_in(i as u32), places, line);
    plan.push_row(&line[..count], write)
}

/// Writes the places of these registers to the beginning of `line`, in increasing order of register,
/// and gives how many there are.
fn write_entries(set: u128, places: &[u16], line: &mut [Place; MOST_REGISTERS]) -> usize
    requires inside { (k : ℕ) → In set k → k < length places.now }
    requires small { (k : ℕ) → In set k → slice_index places.now k < 256 }
    ensures registers { registers_of (take result line.new) ≡ members 128 set }
    ensures places { (q : Placed) → Contains (take result line.new) q → q.place ≡ slice_index places.now q.register.0 }
    ensures within { result ≤ MOST_REGISTERS }
{
    let mut rest = set;
    let mut count = 0;
    'registers: while let Some(register) = take_least(&mut rest) {
        let place = places[register.0 as usize] as u8;
        line[count] = Place { register, place };
        count += 1;
    }
    count
}

/// The place of the register that is written, if one is.
fn write_place(register: Option<VReg>, places: &[u16]) -> Option<u8>
    requires inside { (k : ℕ) → register ≡ Some (record { 0 = k }) → k < length places.now }
    requires small { (k : ℕ) → register ≡ Some (record { 0 = k }) → slice_index places.now k < 256 }
    ensures { result ≡ option_map (λ register. slice_index places.now register.0) register }
{
    match register {
        Some(VReg(k)) => Some(places[k as usize] as u8),
        None => None,
    }
}

ghost use Rattle.std.specs.Prelude.{ℕ, ◌≡◌, ◌+◌, ◌*◌, ◌^◌, ◌%◌, ◌<◌, ◌≤◌, length, slice_index, slice_set, bit_or, List as Sequence, IfOk, OnOk, vec_len};
ghost use Rattle.range_colour.specs.Settling.{AreTaken, In, IsColoured, IsFreePlace, IsSettledTo, opened};

use crate::group::width;
use liveness::has;
use micro_isa::{MOST_REGISTERS, NoMemory, VReg};

/// The least sizes that places fit in: `p` for the crossing registers, `r` for the others.
#[derive(Clone, Copy, Debug)]
pub struct Sizes {
    pub p: u32,
    pub r: u32,
}

/// Gives each of these registers its place, the crossing ones first. `taken` is room to work in.
pub fn settle_group(
    registers: u128,
    crossing: u128,
    meets: &[u128],
    places: &mut [u16],
    taken: &mut Vec<u128>,
) -> Result<Sizes, NoMemory>
    requires long { length meets.now ≡ MOST_REGISTERS }
    requires places { (k : ℕ) → In registers k → k < length places.old }
    requires crossing { (k : ℕ) → In crossing k → In registers k }
    ensures settled { IfOk result (λ sizes. IsColoured registers crossing meets.now places.new sizes.p sizes.r) }
{
    taken.clear();
    let others = registers & !crossing;
    let p = settle_all(meets, crossing, 0, places, taken)?;
    let r = settle_all(meets, others, crossing, places, taken)?;
    Ok(Sizes { p, r })
}

/// Gives each register of the set, in order, the least place that no settled one has which it
/// meets, those of `done` being settled. `taken` has the settled registers by their places. One
/// above the greatest place given.
fn settle_all(
    meets: &[u128],
    set: u128,
    done: u128,
    places: &mut [u16],
    taken: &mut Vec<u128>,
) -> Result<u32, NoMemory>
    requires long { length meets.now ≡ MOST_REGISTERS }
    requires places { (k : ℕ) → In set k → k < length places.old }
    requires few { vec_len taken.old ≤ MOST_REGISTERS }
    requires done { (k : ℕ) → In done k → In set k → ⊥ }
    requires taken { AreTaken (In done) (slice_index places.old) taken.old.items }
    ensures settled { IfOk result (IsSettledTo meets.now done set MOST_REGISTERS places.old places.new taken.new.items) }
    ensures few { OnOk result (vec_len taken.new ≤ vec_len taken.old + MOST_REGISTERS) }
{
    let mut above = 0;
    'registers: for k in 0..width(set) {
        above = settle_member(meets, set, k, above, places, taken)?;
    }
    Ok(above)
}

/// Settles register `k`, if it is of the set. One above the greatest place so far.
fn settle_member(
    meets: &[u128],
    set: u128,
    k: usize,
    above: u32,
    places: &mut [u16],
    taken: &mut Vec<u128>,
) -> Result<u32, NoMemory>
    requires long { length meets.now ≡ MOST_REGISTERS }
    requires here { k < MOST_REGISTERS }
    requires places { In set k → k < length places.old }
    requires few { vec_len taken.old ≤ 255 }
    ensures settled { (done : ℕ) (first : Sequence ℕ) → (In done k → In set k → ⊥)
        → IsSettledTo meets.now done set k first places.old taken.old.items above
        → IfOk result (IsSettledTo meets.now done set (k + 1) first places.new taken.new.items) }
    ensures few { OnOk result (vec_len taken.new ≤ vec_len taken.old + 1) }
{
    if !has(set, VReg(k as u16)) {
        return Ok(above);
    }
    let place = settle(meets[k], k, places, taken)?;
    Ok(above.max(place + 1))
}

/// Settles register `k`, which meets these others. Its place.
fn settle(
    others: u128,
    k: usize,
    places: &mut [u16],
    taken: &mut Vec<u128>,
) -> Result<u32, NoMemory>
    requires here { k < length places.old }
    requires register { k < MOST_REGISTERS }
    requires few { vec_len taken.old ≤ 255 }
    ensures places { IfOk result (λ place. places.new ≡ slice_set places.old k place) }
    ensures free { IfOk result (λ place. IsFreePlace taken.old.items others place) }
    ensures taken { IfOk result (λ place. let before = opened taken.old.items place in
        taken.new.items ≡ slice_set before place (bit_or (slice_index before place) (1 * 2 ^ k % 2 ^ 128))) }
{
    let place = free_place(taken, others);
    open(taken, place)?;
    taken[place] |= 1 << k;
    places[k] = place as u16;
    Ok(place as u32)
}

/// The least place that none of these registers has.
fn free_place(taken: &[u128], others: u128) -> usize
    ensures { IsFreePlace taken.now others result }
{
    'places: for place in 0..taken.len() {
        if taken[place] & others == 0 {
            return place;
        }
    }
    taken.len()
}

/// A place that was not used is now there.
fn open(taken: &mut Vec<u128>, place: usize) -> Result<(), NoMemory>
    requires { place ≤ vec_len taken.old }
    ensures { OnOk result (taken.new.items ≡ opened taken.old.items place) }
{
    if place == taken.len() && taken.push(0).is_err() {
        return Err(NoMemory);
    }
    Ok(())
}

ghost use Rattle.std.specs.Prelude.{ℕ, ◌≡◌, ◌<◌, Some, None, slice_set};
ghost use Rattle.std.specs.Int.{bit_at};
ghost use Rattle.liveness.specs.Sets.{IsSetOf};
ghost use Rattle.point_walk.specs.Walks.{place_at, WishBelow, WishFree, LeastFree, Steps};
ghost use Rattle.point_walk.specs.Tables.{IsTable, IsTaken, IsBelow, IsUntaken};

use micro_isa::{MOST_FILE, MOST_REGISTERS, VReg};

/// Gives a register that has no place its wish, if that is below `p`.
pub fn give_wish_below(
    register: VReg,
    wishes: &[Option<u8>],
    p: u32,
    places: &mut [Option<u8>],
    taken: &mut u128,
)
    requires low { register.0 < MOST_REGISTERS }
    requires wishes { IsTable wishes.now }
    requires taken { IsTaken places.old taken.old }
    ensures given { Steps (WishBelow p wishes.now) register.0 places.old places.new }
    ensures taken { IsTaken places.new taken.new }
{
    let k = register.0 as usize;
    if places[k].is_none() {
        let wish = if_below(wishes[k], p);
        give(k, wish, places, taken);
    }
}

pub fn if_below(wish: Option<u8>, p: u32) -> Option<u8>
    ensures { IsBelow p wish result }
{
    match wish {
        Some(place) if u32::from(place) < p => Some(place),
        _ => None,
    }
}

/// Gives a register that has no place its wish, if no register has that.
pub fn give_wish_free(
    register: VReg,
    wishes: &[Option<u8>],
    places: &mut [Option<u8>],
    taken: &mut u128,
)
    requires low { register.0 < MOST_REGISTERS }
    requires wishes { IsTable wishes.now }
    requires taken { IsTaken places.old taken.old }
    ensures given { Steps (WishFree wishes.now) register.0 places.old places.new }
    ensures taken { IsTaken places.new taken.new }
{
    let k = register.0 as usize;
    if places[k].is_none() {
        let wish = if_untaken(wishes[k], *taken);
        give(k, wish, places, taken);
    }
}

fn if_untaken(wish: Option<u8>, taken: u128) -> Option<u8>
    requires { (x : ℕ) → wish ≡ Some x → x < MOST_FILE }
    ensures { IsUntaken taken wish result }
{
    match wish {
        Some(place) => untaken(place, taken),
        None => None,
    }
}

#[tactic(auto, using(crate::proofs::Slots::untaken_is))]
fn untaken(place: u8, taken: u128) -> Option<u8>
    requires { place < MOST_FILE }
    ensures { IsUntaken taken (Some place) result }
{
    if taken >> place & 1 == 0 {
        Some(place)
    } else {
        None
    }
}

/// Gives a register that has no place the least free one.
pub fn give_free(register: VReg, places: &mut [Option<u8>], taken: &mut u128)
    requires low { register.0 < MOST_REGISTERS }
    requires taken { IsTaken places.old taken.old }
    ensures given { Steps LeastFree register.0 places.old places.new }
    ensures taken { IsTaken places.new taken.new }
{
    let k = register.0 as usize;
    if places[k].is_none() {
        let place = least_free(*taken);
        give(k, Some(place), places, taken);
    }
}

fn give(k: usize, place: Option<u8>, places: &mut [Option<u8>], taken: &mut u128)
    requires here { k < MOST_REGISTERS }
    requires low { (x : ℕ) → place ≡ Some x → x < MOST_FILE }
    requires open { place_at places.old k ≡ None }
    requires taken { IsTaken places.old taken.old }
    ensures given { places.new ≡ slice_set places.old k place }
    ensures taken { IsTaken places.new taken.new }
{
    places[k] = place;
    *taken |= place_set(place);
}

/// The set of a place alone, or of none.
pub fn place_set(place: Option<u8>) -> u128
    requires { (x : ℕ) → place ≡ Some x → x < MOST_FILE }
    ensures { IsSetOf (λ x. place ≡ Some x) result }
{
    match place {
        Some(x) => 1 << x,
        None => 0,
    }
}

/// The least place that is not of the set; 128 where it has all below.
pub fn least_free(taken: u128) -> u8
    ensures free { bit_at taken result ≡ 0 }
    ensures least { (y : ℕ) → y < result → bit_at taken y ≡ 1 }
{
    if taken == u128::MAX {
        return 128;
    }
    taken.trailing_ones() as u8
}

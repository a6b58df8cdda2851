ghost use Rattle.std.specs.Prelude.{◌≡◌, ◌<◌, ◌==◌, Some};
ghost use Rattle.std.specs.Int.{bit_at};
ghost use Rattle.flow_graph.specs.Paths.{IsSmall};
ghost use Rattle.liveness.specs.Sets.{IsSetOf, Takes};

use micro_isa::VReg;

/// How many sets of registers below 64 there are.
const LOW_SETS: u128 = 1 << 64;

/// The set of a register alone, or of none.
pub fn register_set(register: Option<VReg>) -> u128
    requires { IsSmall register }
    ensures { IsSetOf (λ k. register ≡ Some (record { 0 = k })) result }
{
    match register {
        Some(VReg(k)) => 1 << k,
        None => 0,
    }
}

/// Whether the set has the register.
#[tactic(auto, using(crate::proofs::Members::has_bit))]
pub fn has(set: u128, register: VReg) -> bool
    requires { register.0 < 128 }
    ensures { result ≡ (bit_at set register.0 == 1) }
{
    set >> register.0 & 1 == 1
}

/// Takes the least register out of the set: a loop over a set asks for it until there is none. A register
/// below 64, as most are, is found and taken in one word of the machine.
pub fn take_least(set: &mut u128) -> Option<VReg>
    ensures { Takes set.old result set.new }
{
    let low = (*set % LOW_SETS) as u64;
    if low != 0 {
        let k = low.trailing_zeros();
        *set ^= u128::from(1u64 << k);
        return Some(VReg(k as u16));
    }
    if *set == 0 {
        return None;
    }
    let k = set.trailing_zeros();
    *set &= *set - 1;
    Some(VReg(k as u16))
}

ghost use Rattle.std.specs.Prelude.{ℕ, ◌≡◌, ◌<◌, true, Some};
ghost use Rattle.std.specs.List.{Contains};
ghost use Rattle.liveness.specs.Sets.{members};
ghost use Rattle.point_walk.specs.Tables.{IsTable};
ghost use Rattle.point_walk.specs.Keeping.{AreBelow, AreLow, cleared};

use crate::giving::if_below;
use liveness::take_least;

/// Whether each register that is live in can keep its place: each has one of its own, and those that
/// cross have one below `p`.
pub fn stands(before: u128, cross: u128, p: u32, own: u128, table: &[Option<u8>]) -> bool
    requires { IsTable table.now }
    ensures below { result ≡ true → AreBelow p table.now (members 128 cross) }
    ensures own { result ≡ true → (k : ℕ) → Contains (members 128 before) k → Contains (members 128 own) k }
{
    if before & !own == 0 {
        are_below(cross, p, table)
    } else {
        false
    }
}

/// Whether each register of the set has a place below `p`.
fn are_below(registers: u128, p: u32, table: &[Option<u8>]) -> bool
    requires { IsTable table.now }
    ensures { result ≡ true → AreBelow p table.now (members 128 registers) }
{
    let mut rest = registers;
    'registers: while let Some(register) = take_least(&mut rest) {
        if if_below(table[register.0 as usize], p).is_none() {
            return false;
        }
    }
    true
}

/// Whether each register of the set that has a place has one below `p`.
pub fn are_low(registers: u128, p: u32, table: &[Option<u8>]) -> bool
    requires { IsTable table.now }
    ensures { result ≡ true → AreLow p table.now (members 128 registers) }
{
    let mut rest = registers;
    'registers: while let Some(register) = take_least(&mut rest) {
        if !is_low(table[register.0 as usize], p) {
            return false;
        }
    }
    true
}

/// Whether it is below `p`, if there is one.
fn is_low(place: Option<u8>, p: u32) -> bool
    ensures { result ≡ true → (x : ℕ) → place ≡ Some x → x < p }
{
    match place {
        Some(place) => u32::from(place) < p,
        None => true,
    }
}

/// Takes the places of these registers out of the table.
pub fn clear(registers: u128, table: &mut [Option<u8>])
    requires { IsTable table.old }
    ensures { table.new ≡ cleared table.old (members 128 registers) }
{
    let mut rest = registers;
    'registers: while let Some(register) = take_least(&mut rest) {
        table[register.0 as usize] = None;
    }
}

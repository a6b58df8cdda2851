ghost use Rattle.std.specs.Prelude.{ℕ};
ghost use Rattle.std.specs.List.{Contains};
ghost use Rattle.liveness.specs.Sets.{members};
ghost use Rattle.point_walk.specs.Tables.{IsTable, ArePlacesOf};
ghost use Rattle.point_walk.specs.Keeping.{AreApart};

use crate::giving::place_set;
use liveness::take_least;

/// Who has places in a table: `held` has all registers that have one, `own` registers with places of
/// their own, and `taken` the places of these.
#[derive(Clone, Copy)]
pub struct Seats {
    pub held: u128,
    pub own: u128,
    pub taken: u128,
}

/// The places of a part of some registers, where each of these has a place of its own and `taken`
/// has them all. Only the others are looked at, which are few.
pub fn places_within(own: u128, taken: u128, part: u128, places: &[Option<u8>]) -> u128
    requires table { IsTable places.now }
    requires apart { AreApart places.now (members 128 own) }
    requires taken { ArePlacesOf (members 128 own) places.now taken }
    requires within { (k : ℕ) → Contains (members 128 part) k → Contains (members 128 own) k }
    ensures { ArePlacesOf (members 128 part) places.now result }
{
    taken & !places_of(own & !part, places)
}

/// The places that registers of the set have.
fn places_of(registers: u128, places: &[Option<u8>]) -> u128
    requires table { IsTable places.now }
    ensures { ArePlacesOf (members 128 registers) places.now result }
{
    let mut set = 0;
    let mut rest = registers;
    'registers: while let Some(register) = take_least(&mut rest) {
        set |= place_set(places[register.0 as usize]);
    }
    set
}

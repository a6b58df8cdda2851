ghost use Rattle.std.specs.Prelude.{◌<◌};
ghost use Rattle.liveness.specs.Sets.{members};
ghost use Rattle.point_walk.specs.Walks.{WishBelow, WishFree, LeastFree, Stage};
ghost use Rattle.point_walk.specs.Tables.{IsTable, IsTaken};

use crate::giving::{give_free, give_wish_below, give_wish_free};
use liveness::take_least;

/// Gives each register of the set its wish, where that is below `p`.
pub fn grant_below(
    registers: u128,
    wishes: &[Option<u8>],
    p: u32,
    places: &mut [Option<u8>],
    taken: &mut u128,
)
    requires wishes { IsTable wishes.now }
    requires taken { IsTaken places.old taken.old }
    ensures given { Stage (WishBelow p wishes.now) (members 128 registers) places.old places.new }
    ensures taken { IsTaken places.new taken.new }
{
    let mut rest = registers;
    'registers: while let Some(register) = take_least(&mut rest) {
        give_wish_below(register, wishes, p, places, taken);
    }
}

/// Gives each register of the set its wish, where no register has that.
pub fn grant_free(
    registers: u128,
    wishes: &[Option<u8>],
    places: &mut [Option<u8>],
    taken: &mut u128,
)
    requires wishes { IsTable wishes.now }
    requires taken { IsTaken places.old taken.old }
    ensures given { Stage (WishFree wishes.now) (members 128 registers) places.old places.new }
    ensures taken { IsTaken places.new taken.new }
{
    let mut rest = registers;
    'registers: while let Some(register) = take_least(&mut rest) {
        give_wish_free(register, wishes, places, taken);
    }
}

/// Gives each register of the set that has no place the least free one.
pub fn fill(registers: u128, places: &mut [Option<u8>], taken: &mut u128)
    requires taken { IsTaken places.old taken.old }
    ensures given { Stage LeastFree (members 128 registers) places.old places.new }
    ensures taken { IsTaken places.new taken.new }
{
    let mut rest = registers;
    'registers: while let Some(register) = take_least(&mut rest) {
        give_free(register, places, taken);
    }
}

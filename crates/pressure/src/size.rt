ghost use Rattle.std.specs.Prelude.{◌≤◌};
ghost use Rattle.micro_isa.specs.declared.limits.TheConstants.{MOST_REGISTERS};
ghost use Rattle.liveness.specs.Liveness.{LiveIn};
ghost use Rattle.liveness.specs.Sets.{HasSize};
ghost use Rattle.liveness.specs.Surviving.{Stays, IsAfter};
ghost use Rattle.pressure.specs.Pressures.{IsKnownAt};

use liveness::{Live, survivors, values_after};
use micro_isa::Line;

/// How many registers are live in at instruction `i`.
pub fn in_size(code: &[Line], live: &Live, i: usize) -> u32
    requires { IsKnownAt code.now live.now i }
    ensures exact { HasSize (LiveIn code.now i) result }
    ensures few { result ≤ MOST_REGISTERS }
{
    live.live_in(i as u32).count_ones()
}

/// How many registers survive instruction `i`.
pub fn stay_size(code: &[Line], live: &Live, i: usize) -> u32
    requires { IsKnownAt code.now live.now i }
    ensures { HasSize (Stays code.now i) result }
{
    survivors(code, live, i).count_ones()
}

/// How many registers have a value after instruction `i`.
pub fn after_size(code: &[Line], live: &Live, i: usize) -> u32
    requires { IsKnownAt code.now live.now i }
    ensures exact { HasSize (IsAfter code.now i) result }
    ensures few { result ≤ MOST_REGISTERS }
{
    values_after(code, live, i).count_ones()
}

ghost use Rattle.std.specs.Prelude.{◌≡◌, ◌<◌, length};
ghost use Rattle.flow_graph.specs.Paths.{IsClosedCode};
ghost use Rattle.liveness.specs.Lives.{IsLiveOf};
ghost use Rattle.liveness.specs.Liveness.{LiveIn};
ghost use Rattle.liveness.specs.Sets.{IsSetOf};
ghost use Rattle.liveness.specs.Surviving.{SwitchesAt, WritesAt, Stays, IsAfter, Crosses};

use crate::live::Live;
use crate::set::register_set;
use micro_isa::{Line, switches, writes};

/// The register that instruction `i` writes, if any, as a set.
fn written(code: &[Line], i: usize) -> u128
    requires closed { IsClosedCode code.now }
    requires here { i < length code.now }
    ensures { IsSetOf (WritesAt code.now i) result }
{
    register_set(writes(&code[i].instr))
}

/// The registers that survive instruction `i`: live out, and not written by it.
pub fn survivors(code: &[Line], live: &Live, i: usize) -> u128
    requires closed { IsClosedCode code.now }
    requires live { IsLiveOf code.now live.now }
    requires here { i < length code.now }
    ensures { IsSetOf (Stays code.now i) result }
{
    live.live_out(i as u32) & !written(code, i)
}

/// The registers that have a value after instruction `i`: live out, or written by it.
pub fn values_after(code: &[Line], live: &Live, i: usize) -> u128
    requires closed { IsClosedCode code.now }
    requires live { IsLiveOf code.now live.now }
    requires here { i < length code.now }
    ensures { IsSetOf (IsAfter code.now i) result }
{
    live.live_out(i as u32) | written(code, i)
}

/// The registers that cross at instruction `i`: they survive a switch there, or are live at the
/// entry.
pub fn crossing(code: &[Line], live: &Live, i: usize) -> u128
    requires closed { IsClosedCode code.now }
    requires live { IsLiveOf code.now live.now }
    requires here { i < length code.now }
    ensures { IsSetOf (Crosses code.now i) result }
{
    switch_survivors(code, live, i) | entering(code, live, i)
}

/// The survivors of instruction `i`, if it switches.
fn switch_survivors(code: &[Line], live: &Live, i: usize) -> u128
    requires closed { IsClosedCode code.now }
    requires live { IsLiveOf code.now live.now }
    requires here { i < length code.now }
    ensures { IsSetOf (λ k. SwitchesAt code.now i × Stays code.now i k) result }
{
    if switches(&code[i].instr) {
        survivors(code, live, i)
    } else {
        0
    }
}

/// What is live in at instruction `i`, if that is the entry.
fn entering(code: &[Line], live: &Live, i: usize) -> u128
    requires live { IsLiveOf code.now live.now }
    requires here { i < length code.now }
    ensures { IsSetOf (λ k. (i ≡ 0) × LiveIn code.now 0 k) result }
{
    if i == 0 { live.live_in(0) } else { 0 }
}

ghost use Rattle.std.specs.Prelude.{ℕ, ◌≤◌, ◌<◌, length};
ghost use Rattle.micro_isa.specs.declared.limits.TheConstants.{MOST_REGISTERS};
ghost use Rattle.flow_graph.specs.Paths.{IsClosedCode};
ghost use Rattle.liveness.specs.Lives.{IsLiveOf};
ghost use Rattle.liveness.specs.Sets.{HasSize};
ghost use Rattle.liveness.specs.Surviving.{Stays};
ghost use Rattle.liveness.specs.Pressures.{IsPrivatePressure, IsTotalPressure};
ghost use Rattle.pressure.specs.Pressures.{IsPressureOf};

use crate::size::{after_size, in_size, stay_size};
use liveness::Live;
use micro_isa::{Line, Program, switches};

/// How many registers a context needs of its own, `private`, and how many in all.
#[derive(Clone, Copy, Debug, PartialEq, Eq)]
pub struct Pressure {
    pub private: u32,
    pub all: u32,
}

/// The pressures of a program, whose live registers are given.
pub fn pressures(program: &Program, live: &Live) -> Pressure
    requires closed { IsClosedCode program.now.code }
    requires live { IsLiveOf program.now.code live.now }
    ensures exact { IsPressureOf program.now.code result }
    ensures order { result.private ≤ result.all }
    ensures few { result.all ≤ MOST_REGISTERS }
{
    let code = program.code.as_slice();
    Pressure {
        private: private_pressure(code, live),
        all: total_pressure(code, live),
    }
}

/// The greatest number of registers that are live at the entry, or survive a switching instruction.
fn private_pressure(code: &[Line], live: &Live) -> u32
    requires closed { IsClosedCode code.now }
    requires live { IsLiveOf code.now live.now }
    ensures { IsPrivatePressure code.now result }
{
    let mut greatest = in_size(code, live, 0);
    'lines: for i in 0..code.len() {
        if switches(&code[i].instr) {
            greatest = greatest.max(stay_size(code, live, i));
        }
    }
    greatest
}

/// The greatest number of registers that are live in at an instruction, or have a value after it.
fn total_pressure(code: &[Line], live: &Live) -> u32
    requires closed { IsClosedCode code.now }
    requires live { IsLiveOf code.now live.now }
    ensures exact { IsTotalPressure code.now result }
    ensures stay { (i n : ℕ) → i < length code.now → HasSize (Stays code.now i) n → n ≤ result }
    ensures few { result ≤ MOST_REGISTERS }
{
    let mut greatest = after_size(code, live, 0);
    'lines: for i in 0..code.len() {
        greatest = greatest
            .max(in_size(code, live, i))
            .max(after_size(code, live, i));
    }
    greatest
}

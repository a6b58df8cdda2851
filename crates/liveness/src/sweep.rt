ghost use Rattle.std.specs.Prelude.{◌≡◌, ◌<◌, ◌≤◌, length, sum, true, false};
ghost use Rattle.flow_graph.specs.Paths.{Below, IsClosedCode, IsSmall, HasSmallRegisters};
ghost use Rattle.flow_graph.specs.Flows.{IsFlowOf};
ghost use Rattle.liveness.specs.Sweeps.{mask as mask_of, at_next, in_of, IsClosedAt, IsClosed, IsSweep, HasGrown, IsLive, IsOutSet};

use flow_graph::Flow;
use micro_isa::{Line, Next, VReg, reads_of, writes};

/// Makes the sets grow until they are those of the registers that are live in. Any order will do;
/// one in which successors come first needs few rounds.
pub fn settle(code: &[Line], flow: &Flow, order: &[u32], sets: &mut [u128])
    requires { IsSweep code.now flow.now sets.old }
    ensures { IsLive code.now sets.new }
{
    improve(code, flow, order, sets);
    'rounds: while sweep(code, flow, sets) {
        improve(code, flow, order, sets);
    }
}

/// Visits in this order, again and again, until no set grows.
fn improve(code: &[Line], flow: &Flow, order: &[u32], sets: &mut [u128])
    requires { IsSweep code.now flow.now sets.old }
    ensures sweep { IsSweep code.now flow.now sets.new }
    ensures kept { sum sets.old ≤ sum sets.new }
{
    'passes: while pass(code, flow, order, sets) {}
}

/// Visits the instructions of the list. Whether a set grew.
fn pass(code: &[Line], flow: &Flow, order: &[u32], sets: &mut [u128]) -> bool
    requires { IsSweep code.now flow.now sets.old }
    ensures sweep { IsSweep code.now flow.now sets.new }
    ensures grown { HasGrown sets.old sets.new result }
{
    let mut grew = false;
    'places: for k in 0..order.len() {
        grew |= visit_if_there(code, flow, order[k] as usize, sets);
    }
    grew
}

/// Visits instruction `i`, if there is one. Whether its set grew.
fn visit_if_there(code: &[Line], flow: &Flow, i: usize, sets: &mut [u128]) -> bool
    requires { IsSweep code.now flow.now sets.old }
    ensures sweep { IsSweep code.now flow.now sets.new }
    ensures grown { result ≡ true → sum sets.old < sum sets.new }
    ensures still { result ≡ false → sets.new ≡ sets.old }
{
    i < code.len() && visit(code, flow, i, sets)
}

/// Visits each instruction once, the last one first. Whether a set grew.
fn sweep(code: &[Line], flow: &Flow, sets: &mut [u128]) -> bool
    requires { IsSweep code.now flow.now sets.old }
    ensures sweep { IsSweep code.now flow.now sets.new }
    ensures grown { HasGrown sets.old sets.new result }
    ensures settled { result ≡ false → IsClosed code.now sets.new }
{
    let mut grew = false;
    let mut i = code.len();
    'visits: while i > 0 {
        i -= 1;
        grew |= visit(code, flow, i, sets);
    }
    grew
}

/// Adds what instruction `i` reads, and what is live at its successors. Whether its set grew.
fn visit(code: &[Line], flow: &Flow, i: usize, sets: &mut [u128]) -> bool
    requires sweep { IsSweep code.now flow.now sets.old }
    requires here { i < length code.now }
    ensures sweep { IsSweep code.now flow.now sets.new }
    ensures grown { result ≡ true → sum sets.old < sum sets.new }
    ensures still { result ≡ false → sets.new ≡ sets.old }
    ensures closed { result ≡ false → IsClosedAt code.now sets.new i }
{
    let old = sets[i];
    let new = old | live_before(&code[i], live_after(code, flow, i, sets));
    if new == old {
        return false;
    }
    sets[i] = new;
    true
}

/// What is live in at an instruction, given what is live out there.
fn live_before(line: &Line, out: u128) -> u128
    requires { HasSmallRegisters line.now }
    ensures { result ≡ in_of line.now out }
{
    let reads = reads_of(&line.instr);
    bit(reads.first) | bit(reads.second) | (out & !bit(writes(&line.instr)))
}

/// What is live in at the successors of instruction `i`.
pub fn live_after(code: &[Line], flow: &Flow, i: usize, sets: &[u128]) -> u128
    requires closed { IsClosedCode code.now }
    requires flow { IsFlowOf code.now flow.now }
    requires here { i < length code.now }
    requires one_each { length sets.now ≡ length code.now }
    ensures { IsOutSet code.now sets.now i result }
{
    let next = flow.successors_of(i as u32);
    set_at(sets, next.fall) | set_at(sets, next.jump)
}

fn set_at(sets: &[u128], instruction: Option<u32>) -> u128
    requires { Below instruction (length sets.now) }
    ensures { result ≡ at_next sets.now instruction }
{
    match instruction {
        Some(j) => sets[j as usize],
        None => 0,
    }
}

fn bit(register: Option<VReg>) -> u128
    requires { IsSmall register }
    ensures { result ≡ mask_of register }
{
    match register {
        Some(VReg(k)) => 1 << k,
        None => 0,
    }
}

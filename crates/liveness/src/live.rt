ghost use Rattle.std.specs.Prelude.{◌≡◌, ◌<◌, length, slice_index, IfOk};
ghost use Rattle.flow_graph.specs.Paths.{IsClosedCode};
ghost use Rattle.flow_graph.specs.Flows.{IsFlowOf};
ghost use Rattle.liveness.specs.Lives.{in_sets, out_sets, IsLiveOf};
ghost use Rattle.liveness.specs.Sweeps.{IsLive, AreOutSets};

use crate::order::visiting_order;
use crate::sweep::{live_after, settle};
use flow_graph::Flow;
use micro_isa::{Line, List, NoMemory, Program};
use std::alloc::Global;

/// The registers that are live in and live out at each instruction of a program. In a set, bit k
/// stands for register k.
#[derive(Debug, Drop)]
pub struct Live {
    ins: List<u128>,
    outs: List<u128>,
}

impl Live {
    /// The live registers of a program, whose flow is given.
    pub fn of(alloc: Global, program: &Program, flow: &Flow) -> Result<Live, NoMemory>
        requires closed { IsClosedCode program.now.code }
        requires flow { IsFlowOf program.now.code flow.now }
        ensures { IfOk result (λ live. IsLiveOf program.now.code live) }
    {
        let code = program.code.as_slice();
        let ins = live_sets(alloc, code, flow)?;
        let outs = out_list(alloc, code, flow, ins.as_slice())?;
        Ok(Live { ins, outs })
    }

    /// The registers that are live in at instruction `i`.
    pub fn live_in(&self, i: u32) -> u128
        requires { i < length (in_sets self.now) }
        ensures { result ≡ slice_index (in_sets self.now) i }
    {
        self.ins.as_slice()[i as usize]
    }

    /// The registers that are live out at instruction `i`.
    pub fn live_out(&self, i: u32) -> u128
        requires { i < length (out_sets self.now) }
        ensures { result ≡ slice_index (out_sets self.now) i }
    {
        self.outs.as_slice()[i as usize]
    }
}

fn live_sets(alloc: Global, code: &[Line], flow: &Flow) -> Result<List<u128>, NoMemory>
    requires closed { IsClosedCode code.now }
    requires flow { IsFlowOf code.now flow.now }
    ensures { IfOk result (λ sets. IsLive code.now sets) }
{
    let Ok(mut sets) = Vec::from_elem(alloc, 0u128, code.len()) else {
        return Err(NoMemory);
    };
    let order = visiting_order(alloc, flow, code.len())?;
    settle(code, flow, order.as_slice(), &mut sets);
    Ok(List::of(sets))
}

/// For each instruction what is live in at its successors.
fn out_list(alloc: Global, code: &[Line], flow: &Flow, ins: &[u128]) -> Result<List<u128>, NoMemory>
    requires closed { IsClosedCode code.now }
    requires flow { IsFlowOf code.now flow.now }
    requires one_each { length ins.now ≡ length code.now }
    ensures { IfOk result (λ outs. AreOutSets code.now ins.now outs) }
{
    let mut outs = List::new(alloc);
    'lines: for i in 0..code.len() {
        let Ok(()) = outs.push(live_after(code, flow, i, ins)) else {
            return Err(NoMemory);
        };
    }
    Ok(outs)
}

ghost use Rattle.std.specs.Prelude.{◌≡◌, ◌<◌, ◌≤◌, Some, length, slice_get, slice_index_or, IfOk, false};
ghost use Rattle.micro_isa.specs.declared.limits.TheConstants.{MOST_INSTRUCTIONS};
ghost use Rattle.flow_graph.specs.Flows.{successors_in, marks_in, IsFlowOf};
ghost use Rattle.flow_graph.specs.Paths.{IsClosedCode, AreSuccessors};

use crate::flood::reached;
use micro_isa::{Line, List, Next, NoMemory, Program, successors};
use std::alloc::Global;

/// The successors of each instruction of a program, and the instructions that a path from
/// instruction 0 reaches.
#[derive(Debug, Drop)]
pub struct Flow {
    successors: List<Next>,
    marks: List<bool>,
}

impl Flow {
    /// The flow of a program whose every successor is an instruction.
    pub fn of(alloc: Global, program: &Program) -> Result<Flow, NoMemory>
        requires { IsClosedCode program.now.code }
        ensures { IfOk result (λ flow. IsFlowOf program.now.code flow) }
    {
        let successors = successor_list(alloc, program.code.as_slice())?;
        let marks = reached(alloc, successors.as_slice())?;
        Ok(Flow { successors, marks })
    }

    /// The instructions that may follow instruction `i`.
    pub fn successors_of(&self, i: u32) -> Next
        requires { i < length (successors_in self.now) }
        ensures { slice_get (successors_in self.now) i ≡ Some result }
    {
        self.successors.as_slice()[i as usize]
    }

    /// Whether a path from instruction 0 reaches instruction `i`.
    pub fn reachable(&self, i: u32) -> bool
        requires { i < length (marks_in self.now) }
        ensures { result ≡ slice_index_or (marks_in self.now) i false }
    {
        self.marks.as_slice()[i as usize]
    }
}

/// The successors of each instruction.
fn successor_list(alloc: Global, code: &[Line]) -> Result<List<Next>, NoMemory>
    requires { length code.now ≤ MOST_INSTRUCTIONS }
    ensures { IfOk result (λ successors. AreSuccessors code.now successors) }
{
    let mut list = List::new(alloc);
    'lines: for i in 0..code.len() {
        let Ok(()) = list.push(successors(&code[i].instr, i as u32)) else {
            return Err(NoMemory);
        };
    }
    Ok(list)
}

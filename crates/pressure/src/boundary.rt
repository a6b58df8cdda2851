ghost use Rattle.std.specs.Prelude.{IfOk};
ghost use Rattle.flow_graph.specs.Paths.{IsClosedCode};
ghost use Rattle.pressure.specs.Boundaries.{AreBoundaries};

use micro_isa::{List, NoMemory, Program, switches};
use std::alloc::Global;

/// The switching instructions of a program, in order.
pub fn boundaries(alloc: Global, program: &Program) -> Result<List<u32>, NoMemory>
    requires { IsClosedCode program.now.code }
    ensures { IfOk result (λ list. AreBoundaries program.now.code list) }
{
    let mut list = List::new(alloc);
    let code = program.code.as_slice();
    'lines: for i in 0..code.len() {
        if switches(&code[i].instr) {
            let Ok(()) = list.push(i as u32) else {
                return Err(NoMemory);
            };
        }
    }
    Ok(list)
}

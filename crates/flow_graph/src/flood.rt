ghost use Rattle.std.specs.Prelude.{◌≡◌, ℕ, ◌<◌, length, slice_index_or, OnOk, IfOk, true, false};
ghost use Rattle.flow_graph.specs.Floods.{IsReached, IsOpen, marked, stacked};
ghost use Rattle.flow_graph.specs.Paths.{AreWithin, Below};

use micro_isa::{List, Next, NoMemory};
use std::alloc::Global;

/// Marks for the instructions that a path from instruction 0 reaches.
pub fn reached(alloc: Global, successors: &[Next]) -> Result<List<bool>, NoMemory>
    requires some { 0 < length successors.now }
    requires within { AreWithin successors.now }
    ensures { IfOk result (λ marks. IsReached successors.now marks) }
{
    let Ok(mut marks) = Vec::from_elem(alloc, false, successors.len()) else {
        return Err(NoMemory);
    };
    flood_from_start(alloc, successors, &mut marks)?;
    Ok(List::of(marks))
}

fn flood_from_start(alloc: Global, successors: &[Next], marks: &mut [bool]) -> Result<(), NoMemory>
    requires within { AreWithin successors.now }
    requires some { 0 < length successors.now }
    requires one_each { length marks.old ≡ length successors.now }
    requires dark { (i : ℕ) → slice_index_or marks.old i false ≡ false }
    ensures { OnOk result (IsReached successors.now marks.new) }
{
    let mut stack = Vec::new(alloc);
    mark(marks, &mut stack, Some(0))?;
    flood(successors, marks, &mut stack)
}

/// Marks what the marked instructions reach. The stack holds those whose successors wait.
fn flood(successors: &[Next], marks: &mut [bool], stack: &mut Vec<u32>) -> Result<(), NoMemory>
    requires within { AreWithin successors.now }
    requires open { IsOpen successors.now marks.old stack.old.items (length successors.now) }
    requires start { slice_index_or marks.old 0 false ≡ true }
    ensures { OnOk result (IsReached successors.now marks.new) }
{
    'pops: while let Some(i) = stack.pop() {
        let next = successors[i as usize];
        mark(marks, stack, next.fall)?;
        mark(marks, stack, next.jump)?;
    }
    Ok(())
}

/// Marks an instruction, and puts it on the stack where it had no mark.
fn mark(marks: &mut [bool], stack: &mut Vec<u32>, instruction: Option<u32>) -> Result<(), NoMemory>
    requires { Below instruction (length marks.old) }
    ensures marks { OnOk result (marks.new ≡ marked marks.old instruction) }
    ensures stack { OnOk result (stack.new.items ≡ stacked marks.old stack.old.items instruction) }
{
    let Some(j) = instruction else {
        return Ok(());
    };
    if marks[j as usize] {
        return Ok(());
    }
    if stack.push(j).is_err() {
        return Err(NoMemory);
    }
    marks[j as usize] = true;
    Ok(())
}

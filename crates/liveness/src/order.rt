ghost use Rattle.std.specs.Prelude.{◌≡◌, ◌+◌, ◌<◌, ◌≤◌, length, OnOk};
ghost use Rattle.micro_isa.specs.declared.limits.TheConstants.{MOST_INSTRUCTIONS};
ghost use Rattle.flow_graph.specs.Flows.{successors_in};
ghost use Rattle.liveness.specs.Orders.{weight};

use flow_graph::Flow;
use micro_isa::{List, NoMemory};
use std::alloc::Global;

/// A turn at an instruction: on the way in, or when all that it leads to has been visited.
#[derive(Clone, Copy)]
struct Turn {
    instruction: u32,
    leaving: bool,
}

/// The instructions, most of them after those that they lead to. Sweeps in this order need few
/// rounds, and no result rests on it.
pub fn visiting_order(alloc: Global, flow: &Flow, n: usize) -> Result<List<u32>, NoMemory>
    requires whole { n ≡ length (successors_in flow.now) }
    requires few { n ≤ MOST_INSTRUCTIONS }
{
    let Ok(mut marks) = Vec::from_elem(alloc, false, n) else {
        return Err(NoMemory);
    };
    let mut order = List::new(alloc);
    'roots: for root in 0..n {
        if !marks[root] {
            walk(alloc, flow, root as u32, &mut marks, &mut order)?;
        }
    }
    Ok(order)
}

/// Visits what the instruction leads to, depth first.
fn walk(
    alloc: Global,
    flow: &Flow,
    root: u32,
    marks: &mut [bool],
    order: &mut List<u32>,
) -> Result<(), NoMemory>
    requires { length marks.old ≡ length (successors_in flow.now) }
{
    let mut stack = Vec::new(alloc);
    enter(&mut stack, Some(root))?;
    'turns: while let Some(turn) = stack.pop() {
        take_turn(flow, turn, marks, &mut stack, order)?;
    }
    Ok(())
}

fn take_turn(
    flow: &Flow,
    turn: Turn,
    marks: &mut [bool],
    stack: &mut Vec<Turn>,
    order: &mut List<u32>,
) -> Result<(), NoMemory>
    requires { length marks.old ≡ length (successors_in flow.now) }
    ensures { OnOk result (weight marks.new stack.new.items ≤ weight marks.old stack.old.items) }
{
    let i = turn.instruction as usize;
    if turn.leaving {
        return order.push(turn.instruction).or(Err(NoMemory));
    }
    if marks.len() <= i || marks[i] {
        return Ok(());
    }
    marks[i] = true;
    let next = flow.successors_of(turn.instruction);
    push(
        stack,
        Turn {
            instruction: turn.instruction,
            leaving: true,
        },
    )?;
    enter(stack, next.fall)?;
    enter(stack, next.jump)
}

fn enter(stack: &mut Vec<Turn>, instruction: Option<u32>) -> Result<(), NoMemory>
    ensures { OnOk result (length stack.new.items ≤ length stack.old.items + 1) }
{
    match instruction {
        Some(instruction) => push(
            stack,
            Turn {
                instruction,
                leaving: false,
            },
        ),
        None => Ok(()),
    }
}

fn push(stack: &mut Vec<Turn>, turn: Turn) -> Result<(), NoMemory>
    ensures { OnOk result (length stack.new.items ≡ length stack.old.items + 1) }
{
    match stack.push(turn) {
        Ok(()) => Ok(()),
        Err(_) => Err(NoMemory),
    }
}

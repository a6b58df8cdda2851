//! The glue of walks in which no register moves on a fall, counted by their jumps alone. The wanted
//! values are worked by hand.

ghost use Rattle.std.specs.Prelude.{◌≤◌, IfOk};
ghost use Rattle.flow_graph.specs.Paths.{IsClosedCode};
ghost use Rattle.plan.specs.ValidPlans.{IsValidPlan};
ghost use Rattle.point_walk.specs.Settling.{IsSettled};

use crate::bundles::{bundle_of, context_of};
use budget::SIZE_COUNT;
use emit::{glues, jump_glues};
use flow_graph::Flow;
use liveness::Live;
use micro_isa::{MOST_FILE, NoMemory, Program};
use plan::FlatPlan;
use point_walk::{Route, walk_route};
use pressure::pressures;
use std::alloc::Global;
use std::test::Fail;

/// x is made anew at place 2, and jumps back to place 0: one move, and a jump behind it.
const MOVED: &[u8] =
    b"file 4\ncontext a\nli x, 1\nli z, 5\nagain:\nadd y, x, z\nadd z, z, x\nli w, 3\nadd x, y, y\nadd z, z, w\njmp again\n";

/// Nothing moves on the jump back.
const STILL: &[u8] = b"file 4\ncontext a\nli x, 1\nagain:\nadd x, x, x\njmp again\n";

/// The walk at the least sizes, and how many places it has in all.
fn walked(alloc: Global, program: &Program) -> Result<(Route, u32), Fail>
    requires { IsClosedCode program.now.code }
    ensures valid { IfOk result (λ found. IsValidPlan program.now.code found.0.plan) }
    ensures settled { IfOk result (λ found. IsSettled program.now.code found.0) }
    ensures few { IfOk result (λ found. found.1 ≤ MOST_FILE) }
{
    let flow = Flow::of(alloc, program)?;
    let live = Live::of(alloc, program, &flow)?;
    let least = pressures(program, &live);
    if least.all < least.private || MOST_FILE < least.all {
        return Err("sizes that a plan can have".into());
    }
    let room = FlatPlan::new(alloc);
    let route = walk_route(program, &live, least.private, least.all, room)?;
    Ok((route, least.all))
}

/// The glue of a walk by its jumps alone; none where the walk does not tell that it is settled.
fn by_jumps(
    alloc: Global,
    program: &Program,
    route: &Route,
    from: u32,
) -> Result<Option<[u32; SIZE_COUNT]>, NoMemory>
    requires closed { IsClosedCode program.now.code }
    requires valid { IsValidPlan program.now.code route.now.plan }
    requires settled { IsSettled program.now.code route.now }
    requires small { from ≤ MOST_FILE }
{
    if route.settled {
        let glues = jump_glues(alloc, program, &route.plan, from)?;
        Ok(Some(glues))
    } else {
        Ok(None)
    }
}

/// Whether the walk is settled and has this glue, by its jumps and by all edges, for each number of
/// places from its own on.
fn has_glue(alloc: Global, program: &Program, want: &[u32; SIZE_COUNT]) -> Result<bool, Fail>
    requires { IsClosedCode program.now.code }
{
    let (route, from) = walked(alloc, program)?;
    let jumps = by_jumps(alloc, program, &route, from)?;
    let all = glues(alloc, program, &route.plan, from)?;
    Ok(jumps == Some(*want) && all == *want)
}

/// A text, and the glue of its walk.
const CASES: [(&[u8], [u32; SIZE_COUNT]); 2] = [(MOVED, [2; SIZE_COUNT]), (STILL, [0; SIZE_COUNT])];

#[test]
fn jumps_alone_price_a_settled_walk(rt: HostRuntime) -> Result<(), Fail> {
    for (text, want) in &CASES {
        let bundle = bundle_of(rt.alloc(), text)?;
        assert!(rt; has_glue(rt.alloc(), context_of(&bundle, 0)?, want)?);
    }
    Ok(())
}

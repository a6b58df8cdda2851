//! The glue of plans that are written out, for their own number of places and for eight of them. The
//! wanted values are worked by hand: a move is one word, a ring of three takes four with a free place
//! and six without, and the moves of a jump have a jump behind them.

ghost use Rattle.flow_graph.specs.Paths.{IsClosedCode};

use crate::bundles::{SPLIT, bundle_of, context_of};
use crate::rows::{Row, WALKED, plan_of};
use budget::SIZE_COUNT;
use emit::{glue, glues};
use flow_graph::Flow;
use liveness::Live;
use micro_isa::{MOST_FILE, Program};
use plan::{FlatPlan, Plan, check_plan};
use std::alloc::Global;
use std::test::Fail;

/// Both edges of a branch lead to one instruction, at which three registers are live.
const RING: &[u8] =
    b"file 4\noutput out\ncontext a\nli a, 1\nli b, 2\nli c, 3\nbeq a, b, next\nnext:\nadd a, a, b\nadd a, a, c\nsend out, a\nhalt\n";

/// The fit of the split program over each region: one move behind the first yield.
const BY_REGION: &[Row] = &[
    (&[], Some(0)),
    (&[(0, 0)], None),
    (&[(0, 1)], Some(0)),
    (&[(0, 1), (1, 0)], None),
    (&[(1, 0)], None),
    (&[(1, 0)], None),
    (&[], None),
];

/// Behind the branch each of the three registers is where the next one was.
const TURNED: &[Row] = &[
    (&[], Some(0)),
    (&[(0, 0)], Some(1)),
    (&[(0, 0), (1, 1)], Some(2)),
    (&[(0, 0), (1, 1), (2, 2)], None),
    (&[(0, 1), (1, 2), (2, 0)], Some(1)),
    (&[(0, 1), (2, 0)], Some(1)),
    (&[(0, 1)], None),
    (&[], None),
];

/// A text, the rows and the sizes of a plan for it, its glue, and its glue from so many places on.
type Case = (
    &'static [u8],
    &'static [Row],
    (u32, u32),
    u32,
    u32,
    [u32; SIZE_COUNT],
);

const CASES: [Case; 6] = [
    (SPLIT, &WALKED, (1, 2), 3, 2, [3, 3, 3, 3, 3, 3, 3, 3]),
    (SPLIT, BY_REGION, (1, 2), 1, 2, [1, 1, 1, 1, 1, 1, 1, 1]),
    (RING, TURNED, (0, 3), 13, 3, [13, 9, 9, 9, 9, 9, 9, 9]),
    (RING, TURNED, (0, 4), 9, 2, [13, 13, 9, 9, 9, 9, 9, 9]),
    (RING, TURNED, (0, 3), 13, 4, [9, 9, 9, 9, 9, 9, 9, 9]),
    (RING, TURNED, (0, 128), 9, 128, [9, 9, 9, 9, 9, 9, 9, 9]),
];

/// The glue of a plan, which is valid, and its glue by the number of places.
fn glue_of(
    alloc: Global,
    program: &Program,
    plan: &Plan,
    from: u32,
) -> Result<(u32, [u32; SIZE_COUNT]), Fail>
    requires { IsClosedCode program.now.code }
{
    let flow = Flow::of(alloc, program)?;
    let live = Live::of(alloc, program, &flow)?;
    if check_plan(program, &live, plan).is_err() || MOST_FILE < from {
        return Err("a valid plan".into());
    }
    let own = glue(alloc, program, plan)?;
    let flat = FlatPlan::of(alloc, plan)?;
    Ok((own, glues(alloc, program, &flat, from)?))
}

fn holds(alloc: Global, case: &Case) -> Result<bool, Fail> {
    let (text, rows, sizes, own, from, by_size) = *case;
    let bundle = bundle_of(alloc, text)?;
    let plan = plan_of(alloc, rows, sizes)?;
    let glue = glue_of(alloc, context_of(&bundle, 0)?, &plan, from)?;
    Ok(glue == (own, by_size))
}

#[test]
fn glue_of_known_plans(rt: HostRuntime) -> Result<(), Fail> {
    for case in &CASES {
        assert!(rt; holds(rt.alloc(), case)?);
    }
    Ok(())
}

ghost use Rattle.flow_graph.specs.Paths.{IsClosedCode};

use crate::bundles::{SPLIT, bundle_of, context_of};
use crate::rows::{Row, WALKED, plan_of};
use flow_graph::Flow;
use liveness::Live;
use micro_isa::{Program, VReg};
use plan::{Plan, PlanFault, check_plan};
use std::alloc::Global;
use std::test::Fail;

/// The first `n` rows of the walk, with another one at `at`.
fn plan_with(
    alloc: Global,
    sizes: (u32, u32),
    n: usize,
    at: usize,
    other: Row,
) -> Result<Plan, Fail> {
    let mut rows = WALKED;
    if at < rows.len() {
        rows[at] = other;
    }
    plan_of(alloc, &rows[..n.min(7)], sizes)
}

/// What `check_plan` tells of a plan for the split program.
fn told(alloc: Global, plan: &Plan) -> Result<Option<PlanFault>, Fail> {
    let bundle = bundle_of(alloc, SPLIT)?;
    told_of(alloc, context_of(&bundle, 0)?, plan)
}

fn told_of(alloc: Global, program: &Program, plan: &Plan) -> Result<Option<PlanFault>, Fail>
    requires { IsClosedCode program.now.code }
{
    let flow = Flow::of(alloc, program)?;
    let live = Live::of(alloc, program, &flow)?;
    Ok(check_plan(program, &live, plan).err())
}

#[test]
fn the_walk_is_valid(rt: HostRuntime) -> Result<(), Fail> {
    let plan = plan_with(rt.alloc(), (1, 2), 7, 0, WALKED[0])?;
    assert!(rt; told(rt.alloc(), &plan)? == None);
    Ok(())
}

/// Sizes and numbers of rows, and what is told of them.
const SIZES: [((u32, u32), usize, PlanFault); 3] = [
    ((3, 2), 6, PlanFault::Sizes { p: 3, r: 2 }),
    ((1, 129), 6, PlanFault::Sizes { p: 1, r: 129 }),
    ((1, 2), 6, PlanFault::Length { rows: 6, code: 7 }),
];

#[test]
fn sizes_and_length_come_first(rt: HostRuntime) -> Result<(), Fail> {
    for (sizes, n, want) in &SIZES {
        let plan = plan_with(rt.alloc(), *sizes, *n, 0, (&[], None))?;
        assert!(rt; told(rt.alloc(), &plan)? == Some(*want));
    }
    Ok(())
}

const X: VReg = VReg(0);

const Y: VReg = VReg(1);

/// Which row of the walk is replaced, by which one, and what is told then.
const FAULTS: [(usize, Row, PlanFault); 12] = [
    (0, (&[], None), PlanFault::Missing { at: 0, register: X }),
    (
        3,
        (&[(1, 1)], None),
        PlanFault::Missing { at: 3, register: X },
    ),
    (
        4,
        (&[(9, 0), (1, 0), (3, 0)], None),
        PlanFault::Extra { at: 4, register: Y },
    ),
    (
        3,
        (&[(1, 1), (0, 0)], None),
        PlanFault::Extra { at: 3, register: X },
    ),
    (1, (&[(0, 0)], Some(1)), PlanFault::ExtraWrite { at: 1 }),
    (
        3,
        (&[(0, 0), (1, 2)], None),
        PlanFault::Range {
            at: 3,
            register: Y,
            place: 2,
        },
    ),
    (
        2,
        (&[(0, 7)], Some(5)),
        PlanFault::Range {
            at: 2,
            register: X,
            place: 7,
        },
    ),
    (
        2,
        (&[(0, 0)], Some(5)),
        PlanFault::Range {
            at: 2,
            register: Y,
            place: 5,
        },
    ),
    (
        3,
        (&[(0, 1), (1, 1)], None),
        PlanFault::Twice {
            at: 3,
            first: X,
            second: Y,
            place: 1,
        },
    ),
    (
        2,
        (&[(0, 0)], Some(0)),
        PlanFault::Twice {
            at: 2,
            first: X,
            second: Y,
            place: 0,
        },
    ),
    (
        1,
        (&[(0, 1)], None),
        PlanFault::Crossing {
            at: 1,
            register: X,
            place: 1,
        },
    ),
    (
        4,
        (&[(1, 1)], None),
        PlanFault::Crossing {
            at: 4,
            register: Y,
            place: 1,
        },
    ),
];

#[test]
fn each_fault_of_a_row(rt: HostRuntime) -> Result<(), Fail> {
    for (at, row, want) in &FAULTS {
        let plan = plan_with(rt.alloc(), (1, 2), 7, *at, *row)?;
        assert!(rt; told(rt.alloc(), &plan)? == Some(*want));
    }
    Ok(())
}

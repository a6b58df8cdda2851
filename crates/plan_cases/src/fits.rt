ghost use Rattle.flow_graph.specs.Paths.{IsClosedCode};
ghost use Rattle.liveness.specs.Lives.{IsLiveOf};

use crate::bundles::{SPLIT, bundle_of, context_of};
use crate::rows::shown;
use flow_graph::Flow;
use liveness::Live;
use micro_isa::{MOST_FILE, Program};
use plan::{Plan, check_plan};
use pressure::Regions;
use range_colour::{by_region, first_fit};
use std::alloc::Global;
use std::test::Fail;

/// A write that nothing reads has a place too.
const DEAD: &[u8] =
    b"file 3\noutput out\ncontext a\nli x, 1\nli y, 2\nli z, 9\nadd x, x, y\nsend out, x\nhalt\n";

/// The plans of a program's two fits, as far as they fit.
#[derive(Drop)]
struct Fits {
    whole: Option<Plan>,
    regional: Option<Plan>,
}

fn fits_of(alloc: Global, program: &Program, p: u32, r: u32) -> Result<Fits, Fail>
    requires { IsClosedCode program.now.code }
{
    if r < p || MOST_FILE < r {
        return Err("sizes that a plan can have".into());
    }
    let flow = Flow::of(alloc, program)?;
    let live = Live::of(alloc, program, &flow)?;
    let regions = Regions::of(alloc, program, &flow)?;
    let whole = first_fit(alloc, program, &live, p, r)?;
    let regional = by_region(alloc, program, &live, &regions, p, r)?;
    if is_valid(program, &live, &whole) && is_valid(program, &live, &regional) {
        Ok(Fits { whole, regional })
    } else {
        Err("valid plans".into())
    }
}

/// Whether a plan is valid, if there is one.
fn is_valid(program: &Program, live: &Live, plan: &Option<Plan>) -> bool
    requires closed { IsClosedCode program.now.code }
    requires live { IsLiveOf program.now.code live.now }
{
    match plan {
        Some(plan) => check_plan(program, live, plan).is_ok(),
        None => true,
    }
}

/// Whether the rows of a plan are these; `none` where there is no plan.
fn is_shown(alloc: Global, plan: &Option<Plan>, want: &str) -> Result<bool, Fail> {
    match plan {
        Some(plan) => Ok(shown(alloc, plan)?.as_str() == want),
        None => Ok(want == "none"),
    }
}

/// A text, sizes, and the plans of the fit over the whole program and over its regions.
type Case = (&'static [u8], u32, u32, &'static str, &'static str);

const CASES: [Case; 5] = [
    (SPLIT, 1, 2, "none", ">0;0@0 ;0@1 >0;0@1 1@0 ;1@0 ;1@0 ;;"),
    (
        SPLIT,
        2,
        2,
        ">0;0@0 ;0@0 >1;0@0 1@1 ;1@1 ;1@1 ;;",
        ">0;0@0 ;0@1 >0;0@1 1@0 ;1@0 ;1@0 ;;",
    ),
    (SPLIT, 0, 2, "none", "none"),
    (
        DEAD,
        0,
        3,
        ">0;0@0 >1;0@0 1@1 >2;0@0 1@1 >0;0@0 ;;",
        ">0;0@0 >1;0@0 1@1 >2;0@0 1@1 >0;0@0 ;;",
    ),
    (DEAD, 0, 2, "none", "none"),
];

/// Whether the fits of the first context are as a case says.
fn fits_so(alloc: Global, case: &Case) -> Result<bool, Fail> {
    let (text, p, r, whole, regional) = *case;
    let bundle = bundle_of(alloc, text)?;
    let fits = fits_of(alloc, context_of(&bundle, 0)?, p, r)?;
    Ok(is_shown(alloc, &fits.whole, whole)? && is_shown(alloc, &fits.regional, regional)?)
}

#[test]
fn fits_of_known_programs(rt: HostRuntime) -> Result<(), Fail> {
    for case in &CASES {
        assert!(rt; fits_so(rt.alloc(), case)?);
    }
    Ok(())
}

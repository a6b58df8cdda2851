//! The bundles that numbers generate: their texts are read as the same bundles, lines included, and
//! their runs finish.

ghost use Rattle.std.specs.Prelude.{IfOk};
ghost use Rattle.micro_isa.specs.Formed.{IsFormedBundle, IsFormedImage};

use crate::opening::{allocated, ended, opened_on};
use allocate::Allocation;
use asm_print::print_bundle;
use asm_text::read_bundle;
use micro_isa::{Bundle, Image, LONGEST_TEXT, MOST_STEPS};
use ports::Ramp;
use run_journal::Run;
use soak_gen::generated;
use std::alloc::Global;
use std::test::Fail;
use world::{End, View};

/// The bundle that a number generates.
fn bundle_of(alloc: Global, number: u32) -> Result<Bundle, Fail>
    ensures { IfOk result IsFormedBundle }
{
    match generated(alloc, number) {
        Ok(bundle) => Ok(bundle),
        Err(_) => Err("ample memory".into()),
    }
}

/// Whether the canonical text of the bundle of a number is read as that bundle.
fn is_read_again(alloc: Global, number: u32) -> Result<bool, Fail> {
    let bundle = bundle_of(alloc, number)?;
    let text = print_bundle(alloc, &bundle)?;
    is_spelled(alloc, &bundle, text.as_slice())
}

fn is_spelled(alloc: Global, bundle: &Bundle, text: &[u8]) -> Result<bool, Fail> {
    if text.len() > LONGEST_TEXT {
        return Ok(false);
    }
    match read_bundle(alloc, text) {
        Ok(again) => Ok(again == *bundle),
        Err(_) => Ok(false),
    }
}

#[test]
fn is_read_from_its_text(rt: HostRuntime) -> Result<(), Fail> {
    for number in [0, 1, 4_294_967_295] {
        assert!(rt; is_read_again(rt.alloc(), number)?, "{number}");
    }
    Ok(())
}

/// What a run sums up to: the need, the segments, the steps, and the sum of the words that were put out.
type Totals = (u32, usize, u32, u32);

/// Sums of runs, from a program of its own that reads the table.
const TOTALS: [(u32, Totals); 2] = [
    (0, (90, 7864, 31_000, 41_071)),
    (1, (89, 7732, 30_912, 1_035_309_808)),
];

/// What is allocated for the bundle of a number.
fn allocation_of(alloc: Global, number: u32) -> Result<Allocation, Fail>
    ensures { IfOk result (λ allocation. IsFormedImage allocation.image) }
{
    let bundle = bundle_of(alloc, number)?;
    allocated(alloc, &bundle)
}

/// The run of an image with no port, where it finishes.
fn finished(alloc: Global, image: Image) -> Result<Run, Fail>
    requires { IsFormedImage image }
{
    let run = opened_on(alloc, image, MOST_STEPS)?;
    let (run, _ports) = ended(run, Vec::<Ramp>::new(alloc));
    if run.ending() == Some(End::Finished) {
        Ok(run)
    } else {
        Err("a run that finishes".into())
    }
}

/// What the run of the bundle of a number sums up to.
fn totals(alloc: Global, number: u32) -> Result<Totals, Fail> {
    let allocation = allocation_of(alloc, number)?;
    let run = finished(alloc, allocation.image)?;
    totals_of(alloc, allocation.need, &run)
}

fn totals_of(alloc: Global, need: u32, run: &Run) -> Result<Totals, Fail> {
    let view = run.engine().view(alloc)?;
    Ok((need, run.entries().len(), view.steps, sum_of(&view)))
}

fn sum_of(view: &View) -> u32 {
    let mut sum = 0u32;
    for output in view.outputs.as_slice() {
        sum = sum.wrapping_add(output.word);
    }
    sum
}

#[test]
fn sums_up(rt: HostRuntime) -> Result<(), Fail> {
    for (number, wanted) in &TOTALS {
        assert!(rt; totals(rt.alloc(), *number)? == *wanted);
    }
    Ok(())
}

/// A run that does not finish is a failure of its own.
#[test]
fn finishes(rt: HostRuntime) -> Result<(), Fail> {
    for number in 1..21u32 {
        let (need, _segments, _steps, _sum) = totals(rt.alloc(), number)?;
        assert!(rt; need <= 128);
    }
    Ok(())
}

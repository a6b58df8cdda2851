//! The run of a generated bundle, and the summary of it.

ghost use Rattle.std.specs.Prelude.{◌≡◌, IfOk, [], length};
ghost use Rattle.micro_isa.specs.Formed.{IsFormedImage};
ghost use Rattle.run_journal.specs.Histories.{run_ending, bound_of};
ghost use Rattle.report_run.specs.Report.{soak_summary};
ghost use Rattle.soak_gen.specs.Bundles.{generated};
ghost use Rattle.commands.specs.Reports.{status_so_far};
ghost use Rattle.commands.specs.Soaks.{IsSummary, TellsSoak};
ghost use Rattle.commands.specs.Tells.{FitsFile, IsServed};

use crate::image_runs::{attached, outcome, ports_of};
use crate::no_fit::{Allocated, allocation_of};
use crate::reports::status_so_far;
use crate::task::Reply;
use allocate::FlatAllocation;
use context_runner::{Closed, InRounds, Runner};
use micro_isa::{Image, MOST_STEPS, NoMemory};
use ports::Ramp;
use report_run::print_soak;
use run_journal::Run;
use soak_gen::generated;
use std::alloc::Global;

/// The summary of the run of the bundle that a number generates, in round order and with no port.
#[tactic(auto, using(crate::proofs::Soaking::soak_served))]
pub fn perform_soak(alloc: Global, number: u32) -> Result<Reply, NoMemory>
    ensures tells { IfOk result (λ r. TellsSoak number r.status r.text.items) }
    ensures served { IfOk result (λ r. FitsFile (generated number) → IsServed r.status) }
{
    soak(alloc, number)
}

fn soak(alloc: Global, number: u32) -> Result<Reply, NoMemory>
    ensures { IfOk result (λ r. TellsSoak number r.status r.text.items) }
{
    let bundle = generated(alloc, number)?;
    match allocation_of(alloc, &bundle)? {
        Allocated::Fits(allocation) => soak_allocated(alloc, number, allocation),
        Allocated::Short(reply) => Ok(reply),
    }
}

/// The summary of the run of an allocation's image, which is taken out of it.
fn soak_allocated(alloc: Global, number: u32, allocation: FlatAllocation) -> Result<Reply, NoMemory>
    requires { IsFormedImage allocation.image }
    ensures { IfOk result (λ r. IsSummary number allocation.need MOST_STEPS allocation.image r.status r.text.items) }
{
    let need = allocation.need();
    soak_image(alloc, number, need, allocation.into_image())
}

fn soak_image(alloc: Global, number: u32, need: u32, image: Image) -> Result<Reply, NoMemory>
    requires { IsFormedImage image }
    ensures { IfOk result (λ r. IsSummary number need MOST_STEPS image r.status r.text.items) }
{
    let run = Run::of(alloc, image, MOST_STEPS)?;
    soak_run(alloc, number, need, run)
}

/// Brings a run from its opening to its ending, and sums it up.
fn soak_run(alloc: Global, number: u32, need: u32, run: Run) -> Result<Reply, NoMemory>
    requires { run.entries ≡ [] }
    ensures { IfOk result (λ r. IsSummary number need (bound_of run.engine) run.engine.image r.status r.text.items) }
{
    let ports: Vec<Ramp> = Vec::new(alloc);
    let (run, slots) = attached(run, ports);
    match InRounds.bring(alloc, run, slots) {
        Ok(closed) => summary_of_closed(alloc, number, need, closed),
        Err(closed) => {
            drop(ports_of(closed));
            Err(NoMemory)
        }
    }
}

fn summary_of_closed(
    alloc: Global,
    number: u32,
    need: u32,
    closed: Closed<Ramp>,
) -> Result<Reply, NoMemory>
    ensures status { IfOk result (λ r. r.status ≡ status_so_far (run_ending closed.run.engine.core closed.run.idle) closed.run.engine.core.phases) }
    ensures text { IfOk result (λ r. r.text.items ≡ soak_summary number need closed.run.engine.image (length closed.run.entries) closed.run.engine.core.steps closed.run.engine.core.world.outputs (run_ending closed.run.engine.core closed.run.idle)) }
{
    let Closed { run, slots } = closed;
    drop(slots.close());
    summary_of_run(alloc, number, need, &run)
}

fn summary_of_run(alloc: Global, number: u32, need: u32, run: &Run) -> Result<Reply, NoMemory>
    ensures status { IfOk result (λ r. r.status ≡ status_so_far (run_ending run.now.engine.core run.now.idle) run.now.engine.core.phases) }
    ensures text { IfOk result (λ r. r.text.items ≡ soak_summary number need run.now.engine.image (length run.now.entries) run.now.engine.core.steps run.now.engine.core.world.outputs (run_ending run.now.engine.core run.now.idle)) }
{
    let engine = run.engine();
    let last = outcome(alloc, engine, run.ending())?;
    let text = print_soak(alloc, number, need, engine.image(), run.entries(), &last)?;
    Ok(Reply {
        status: status_so_far(last.ending, last.view.phases.as_slice()),
        text,
    })
}

//! The run of an image, and the report of it.

ghost use Rattle.std.specs.Prelude.{◌≡◌, ◌≤◌, IfOk, Some, [], false, length, map, true};
ghost use Rattle.micro_isa.specs.Formed.{IsFormedImage};
ghost use Rattle.semantics.specs.Core.{shown_core};
ghost use Rattle.run_journal.specs.Histories.{run_ending};
ghost use Rattle.report_run.specs.Report.{report_text};
ghost use Rattle.commands.specs.Openings.{IsAttached, IsOpening, IsReported};
ghost use Rattle.commands.specs.Reports.{status_so_far};

use crate::prepared::Opening;
use crate::reports::status_so_far;
use crate::task::Reply;
use context_runner::{Closed, InRounds, Runner, run_in_threads};
use engine_core::Engine;
use micro_isa::{Image, List, MOST_PORTS, MOST_STEPS, NoMemory};
use micro_kit::Gate;
use ports::{Port, Slots};
use report_run::{Outcome, print_report};
use run_journal::Run;
use std::alloc::Global;
use std::sync::Wait;
use std::thread::Threads;
use world::End;

/// The opening of the run of an image.
pub(crate) fn open_run(
    alloc: Global,
    image: Image,
    need: Option<u32>,
    steps: u32,
) -> Result<Opening, NoMemory>
    requires formed { IsFormedImage image }
    requires bound { steps ≤ MOST_STEPS }
    ensures { IfOk result (IsOpening steps image need) }
{
    let run = Run::of(alloc, image, steps)?;
    Ok(Opening { run, need })
}

/// The report of a run with these ports, which goes from its opening to an ending in round order, and
/// the ports.
#[tactic(auto, using(crate::proofs::GivenBack::not_reported))]
pub fn report_in_rounds<P: Port + Send>(
    alloc: Global,
    opening: Opening,
    ports: Vec<P>,
) -> (Result<Reply, NoMemory>, Vec<P>)
    requires opens { opening.run.entries ≡ [] }
    requires few { length ports.items ≤ MOST_PORTS }
    ensures { IsReported true opening (map P.tells ports.items) (map P.tells result.1.items) ports.items result.1.items result.0 }
{
    let (run, slots) = attached(opening.run, ports);
    match InRounds.bring(alloc, run, slots) {
        Ok(closed) => report_of_closed(alloc, opening.need, closed),
        Err(closed) => (Err(NoMemory), ports_of(closed)),
    }
}

/// The same where each context has a thread of its own.
pub fn report_in_threads<P: Port + Send, R: Threads + Wait + Sync, G: Gate + Sync>(
    rt: &R,
    alloc: Global,
    opening: Opening,
    ports: Vec<P>,
    gate: &G,
) -> (Result<Reply, NoMemory>, Vec<P>)
    requires opens { opening.run.entries ≡ [] }
    requires few { length ports.items ≤ MOST_PORTS }
    ensures { IsReported false opening (map P.tells ports.items) (map P.tells result.1.items) ports.items result.1.items result.0 }
{
    let (run, slots) = attached(opening.run, ports);
    match run_in_threads(rt, gate, alloc, run, slots) {
        Ok(closed) => report_of_closed(alloc, opening.need, closed),
        Err(closed) => (Err(NoMemory), ports_of(closed)),
    }
}

/// A run from its opening, and the ports that it has.
pub(crate) fn attached<P: Port>(run: Run, ports: Vec<P>) -> (Run, Slots<P>)
    requires opens { run.entries ≡ [] }
    requires few { length ports.items ≤ MOST_PORTS }
    ensures attached { IsAttached run result.0 result.1 }
    ensures told { result.1.told ≡ map P.tells ports.items }
{
    let mut run = run;
    let slots = Slots::of(ports);
    run.attach(&slots);
    (run, slots)
}

/// The report of a run that came out, and its ports.
fn report_of_closed<P: Port>(
    alloc: Global,
    need: Option<u32>,
    closed: Closed<P>,
) -> (Result<Reply, NoMemory>, Vec<P>)
    ensures status { IfOk result.0 (λ r. r.status ≡ status_so_far (run_ending closed.run.engine.core closed.run.idle) closed.run.engine.core.phases) }
    ensures text { IfOk result.0 (λ r. r.text.items ≡ report_text need (Some closed.run.engine.image) closed.run.engine.image.setting.channels closed.run.entries (record { view = shown_core closed.run.engine.core; file = Some closed.run.engine.file; ending = run_ending closed.run.engine.core closed.run.idle })) }
    ensures ports { map P.tells result.1.items ≡ closed.slots.told }
{
    let Closed { run, slots } = closed;
    (report_of_run(alloc, need, &run), slots.close())
}

pub(crate) fn ports_of<P: Port>(closed: Closed<P>) -> Vec<P>
    ensures { map P.tells result.items ≡ closed.slots.told }
{
    let Closed { run: _, slots } = closed;
    slots.close()
}

/// The report of a run as it stands.
pub(crate) fn report_of_run(alloc: Global, need: Option<u32>, run: &Run) -> Result<Reply, NoMemory>
    ensures status { IfOk result (λ r. r.status ≡ status_so_far (run_ending run.now.engine.core run.now.idle) run.now.engine.core.phases) }
    ensures text { IfOk result (λ r. r.text.items ≡ report_text need (Some run.now.engine.image) run.now.engine.image.setting.channels run.now.entries (record { view = shown_core run.now.engine.core; file = Some run.now.engine.file; ending = run_ending run.now.engine.core run.now.idle })) }
{
    let engine = run.engine();
    let built = engine.image();
    let last = outcome(alloc, engine, run.ending())?;
    let text = print_report(
        alloc,
        need,
        Some(built),
        &built.setting.channels,
        run.entries(),
        &last,
    )?;
    Ok(Reply {
        status: status_so_far(last.ending, last.view.phases.as_slice()),
        text,
    })
}

pub(crate) fn outcome(
    alloc: Global,
    engine: &Engine,
    ending: Option<End>,
) -> Result<Outcome, NoMemory>
    ensures { IfOk result (λ last. last ≡ record { view = shown_core engine.now.core; file = Some engine.now.file; ending = ending }) }
{
    let view = engine.view(alloc)?;
    let file = file_of(alloc, engine)?;
    Ok(Outcome {
        view,
        file: Some(file),
        ending,
    })
}

fn file_of(alloc: Global, engine: &Engine) -> Result<List<u32>, NoMemory>
    ensures { IfOk result (λ file. file ≡ engine.now.file) }
{
    match Vec::from_slice(alloc, engine.file()) {
        Ok(file) => Ok(List::of(file)),
        Err(_) => Err(NoMemory),
    }
}

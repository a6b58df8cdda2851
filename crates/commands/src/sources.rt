//! The run of a bundle over registers of its own, and the report of it.

ghost use Rattle.std.specs.Prelude.{◌≡◌, ◌≤◌, IfOk, None, Some};
ghost use Rattle.micro_isa.specs.Formed.{IsFormedBundle};
ghost use Rattle.semantics.specs.Core.{shown_core};
ghost use Rattle.report_run.specs.Report.{report_text};
ghost use Rattle.commands.specs.Reports.{IsSourceReport, status_of};

use crate::reports::status_of;
use crate::task::Reply;
use micro_isa::{Bundle, MOST_STEPS, NoMemory};
use report_run::{Outcome, print_report};
use round_order::{SourceRounds, run_source};
use source_core::SourceRun;
use std::alloc::Global;
use world::End;

/// The report of a bundle's run over registers of its own, with no port at hand.
#[tactic(auto, using(crate::proofs::Reporting::source_report_is))]
pub(crate) fn run_sources(alloc: Global, bundle: &Bundle, steps: u32) -> Result<Reply, NoMemory>
    requires formed { IsFormedBundle bundle.now }
    requires bound { steps ≤ MOST_STEPS }
    ensures { IfOk result (λ r. IsSourceReport steps bundle.now r.status r.text.items) }
{
    let run = run_source(alloc, bundle, steps)?;
    report_of(alloc, bundle, &run)
}

fn report_of(alloc: Global, bundle: &Bundle, run: &SourceRounds) -> Result<Reply, NoMemory>
    ensures status { IfOk result (λ r. r.status ≡ status_of run.now.end run.now.source.core.phases) }
    ensures text { IfOk result (λ r. r.text.items ≡ report_text None None bundle.now.setting.channels run.now.entries.items (record { view = shown_core run.now.source.core; file = None; ending = Some run.now.end })) }
{
    let last = outcome(alloc, &run.source, run.end)?;
    let text = print_report(
        alloc,
        None,
        None,
        &bundle.setting.channels,
        &run.entries,
        &last,
    )?;
    Ok(Reply {
        status: status_of(run.end, last.view.phases.as_slice()),
        text,
    })
}

fn outcome(alloc: Global, source: &SourceRun, end: End) -> Result<Outcome, NoMemory>
    ensures { IfOk result (λ last. last ≡ record { view = shown_core source.now.core; file = None; ending = Some end }) }
{
    let view = source.view(alloc)?;
    Ok(Outcome {
        view,
        file: None,
        ending: Some(end),
    })
}

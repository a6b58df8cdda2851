//! What each task does with a bundle.

ghost use Rattle.std.specs.Prelude.{◌≡◌, ◌≤◌, IfOk, false};
ghost use Rattle.micro_isa.specs.Formed.{IsFormedBundle};
ghost use Rattle.asm_print.specs.Canonical.{canonical_text};
ghost use Rattle.report_check.specs.Checks.{IsCheckOf};
ghost use Rattle.commands.specs.Openings.{ComesTo, IsReply, ToldOfBundle};
ghost use Rattle.commands.specs.Tells.{steps_of_bundle, runs_bundle};
ghost use Rattle.commands.specs.declared.status.Status.TheVariants as status;

use crate::bundle_images::{build_bundle, run_bundle};
use crate::prepared::Prepared;
use crate::sources::run_sources;
use crate::status::Status;
use crate::task::{BundleTask, Reply};
use asm_print::print_bundle;
use micro_isa::{Bundle, MOST_STEPS, NoMemory};
use report_check::print_check;
use std::alloc::Global;

/// Does a task with a formed bundle, up to what asks ports or hands them anything: only the run of an
/// image does.
#[tactic(auto, using(crate::proofs::Preparing::source_is_told, crate::proofs::Preparing::build_is_told, crate::proofs::Preparing::format_is_told, crate::proofs::Preparing::check_is_told))]
pub fn prepare_bundle(
    alloc: Global,
    task: BundleTask,
    bundle: &Bundle,
) -> Result<Prepared, NoMemory>
    requires formed { IsFormedBundle bundle.now }
    requires bounded { steps_of_bundle task ≤ MOST_STEPS }
    ensures comes { IfOk result (ComesTo (ToldOfBundle task bundle.now)) }
    ensures aside { runs_bundle task ≡ false → IfOk result IsReply }
{
    match task {
        BundleTask::Run { steps, order: _ } => run_bundle(alloc, bundle, steps),
        BundleTask::Source { steps } => Ok(Prepared::Reply(run_sources(alloc, bundle, steps)?)),
        BundleTask::Build => Ok(Prepared::Reply(build_bundle(alloc, bundle)?)),
        BundleTask::Format => Ok(Prepared::Reply(format_bundle(alloc, bundle)?)),
        BundleTask::Check => Ok(Prepared::Reply(check_bundle(alloc, bundle)?)),
    }
}

fn format_bundle(alloc: Global, bundle: &Bundle) -> Result<Reply, NoMemory>
    requires { IsFormedBundle bundle.now }
    ensures { IfOk result (λ r. (r.status ≡ status.Done) × (r.text.items ≡ canonical_text bundle.now)) }
{
    let text = print_bundle(alloc, bundle)?;
    Ok(Reply {
        status: Status::Done,
        text,
    })
}

fn check_bundle(alloc: Global, bundle: &Bundle) -> Result<Reply, NoMemory>
    requires { IsFormedBundle bundle.now }
    ensures { IfOk result (λ r. (r.status ≡ status.Done) × IsCheckOf bundle.now r.text.items) }
{
    let text = print_check(alloc, bundle)?;
    Ok(Reply {
        status: Status::Done,
        text,
    })
}

//! Replies to an input that is read as a bundle's text.

ghost use Rattle.std.specs.Prelude.{◌≡◌, ◌≤◌, IfOk, false, length};
ghost use Rattle.asm_lines.specs.Faults.{At};
ghost use Rattle.commands.specs.Openings.{ComesTo, IsReply};
ghost use Rattle.commands.specs.Tells.{steps_of_bundle, runs_bundle};
ghost use Rattle.commands.specs.declared.status.Status.TheVariants as status;
ghost use Rattle.commands.specs.declared.task.Task.TheVariants.{OfBundle};
ghost use Rattle.micro_cli.specs.Lines.{bad_bundle_line};
ghost use Rattle.micro_cli.specs.Preparing.{SaysBy};

use crate::lines::bad_bundle_line;
use asm_lines::{BundleFault, BundleKind};
use asm_text::read_bundle;
use commands::{BundleTask, Prepared, Reply, Status, prepare_bundle};
use micro_isa::{LONGEST_TEXT, MOST_STEPS, NoMemory};
use std::alloc::Global;

/// What a task comes to for a whole text.
#[tactic(auto, using(crate::proofs::Preparing::text_fault_comes))]
pub(crate) fn prepare(alloc: Global, task: BundleTask, text: &[u8]) -> Result<Prepared, NoMemory>
    requires short { length text.now ≤ LONGEST_TEXT }
    requires bounded { steps_of_bundle task ≤ MOST_STEPS }
    ensures comes { IfOk result (ComesTo (SaysBy (OfBundle task) text.now)) }
    ensures aside { runs_bundle task ≡ false → IfOk result IsReply }
{
    match read_bundle(alloc, text) {
        Ok(bundle) => prepare_bundle(alloc, task, &bundle),
        Err(BundleFault::At { line, kind }) => Ok(Prepared::Reply(bad_bundle(alloc, line, kind)?)),
        Err(BundleFault::NoMemory) => Err(NoMemory),
    }
}

/// The reply to a text with a first fault.
pub(crate) fn bad_bundle(alloc: Global, line: u32, kind: BundleKind) -> Result<Reply, NoMemory>
    ensures { IfOk result (λ r. (r.status ≡ status.BadBundle) × (r.text.items ≡ bad_bundle_line (record { line = line; kind = kind }))) }
{
    let text = bad_bundle_line(alloc, line, kind)?;
    Ok(Reply {
        status: Status::BadBundle,
        text,
    })
}

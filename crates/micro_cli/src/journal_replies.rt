//! Replies to an input that is read as a bundle's text and, behind a line `journal`, a journal.

ghost use Rattle.std.specs.Prelude.{◌≤◌, IfOk, length};
ghost use Rattle.commands.specs.Tells.{steps_of_journal};
ghost use Rattle.commands.specs.declared.status.Status.TheVariants as status;
ghost use Rattle.micro_cli.specs.Answers.{SaysOfJournal, SaysOfParts};

use crate::bundle_replies::bad_bundle;
use crate::lines::too_long;
use asm_lines::BundleFault;
use asm_text::read_bundle;
use commands::{JournalTask, Reply, perform_on_journal};
use journal_text::split_journal;
use micro_isa::{LONGEST_BUNDLE, LONGEST_JOURNAL, MOST_STEPS, NoMemory};
use std::alloc::Global;

/// The reply to a whole input: the part that is a bundle has a limit of its own.
#[tactic(auto, using(crate::proofs::Replies::says_of_long_part, crate::proofs::Replies::says_of_parts))]
pub(crate) fn reply_to_journal(
    alloc: Global,
    task: JournalTask,
    input: &[u8],
) -> Result<Reply, NoMemory>
    requires short { length input.now ≤ LONGEST_JOURNAL }
    requires bounded { steps_of_journal task ≤ MOST_STEPS }
    ensures { IfOk result (λ r. SaysOfJournal task r.status input.now r.text.items) }
{
    let (text, journal) = split_journal(input);
    if LONGEST_BUNDLE < text.len() {
        too_long(alloc, LONGEST_BUNDLE)
    } else {
        reply_to_parts(alloc, task, text, journal)
    }
}

/// The reply to a bundle's text and a journal.
#[tactic(auto, using(crate::proofs::Replies::says_of_journal, crate::proofs::Replies::says_of_bundle_fault))]
fn reply_to_parts(
    alloc: Global,
    task: JournalTask,
    text: &[u8],
    journal: &[u8],
) -> Result<Reply, NoMemory>
    requires short { length text.now ≤ LONGEST_BUNDLE }
    requires journal { length journal.now ≤ LONGEST_JOURNAL }
    requires bounded { steps_of_journal task ≤ MOST_STEPS }
    ensures { IfOk result (λ r. SaysOfParts task r.status text.now journal.now r.text.items) }
{
    match read_bundle(alloc, text) {
        Ok(bundle) => perform_on_journal(alloc, task, &bundle, journal),
        Err(BundleFault::At { line, kind }) => bad_bundle(alloc, line, kind),
        Err(BundleFault::NoMemory) => Err(NoMemory),
    }
}

//! What each task does with a bundle and a journal.

ghost use Rattle.std.specs.Prelude.{◌≡◌, ◌≤◌, IfOk, length};
ghost use Rattle.micro_isa.specs.Formed.{IsFormedBundle, IsFormedImage};
ghost use Rattle.commands.specs.Tells.{steps_of_journal, IsServed};
ghost use Rattle.commands.specs.Journals.{Replayed, TellsOfJournal, FitsJournal, TellsStray, unread_line};
ghost use Rattle.commands.specs.declared.status.Status.TheVariants as status;

use crate::image_runs::report_of_run;
use crate::journal_lines::{differs_line, illegal_line, unread_line};
use crate::no_fit::{Allocated, allocation_of};
use crate::status::Status;
use crate::task::{JournalTask, Reply};
use allocate::FlatAllocation;
use micro_isa::{Bundle, Image, LONGEST_JOURNAL, MOST_STEPS, NoMemory};
use run_journal::{ReplayFault, TextFault, replay_text};
use std::alloc::Global;

/// Does a task with a formed bundle and the text of a journal, which the bundle's image follows where
/// the bundle fits its file.
#[tactic(auto, using(crate::proofs::Replaying::short_tells, crate::proofs::Replaying::short_serves))]
pub fn perform_on_journal(
    alloc: Global,
    task: JournalTask,
    bundle: &Bundle,
    journal: &[u8],
) -> Result<Reply, NoMemory>
    requires formed { IsFormedBundle bundle.now }
    requires bounded { steps_of_journal task ≤ MOST_STEPS }
    requires short { length journal.now ≤ LONGEST_JOURNAL }
    ensures tells { IfOk result (λ r. TellsOfJournal task r.status bundle.now journal.now r.text.items) }
    ensures served { IfOk result (λ r. FitsJournal task bundle.now journal.now → IsServed r.status) }
{
    let steps = steps_of(task);
    match allocation_of(alloc, bundle)? {
        Allocated::Fits(allocation) => replay_allocated(alloc, &allocation, journal, steps),
        Allocated::Short(reply) => Ok(reply),
    }
}

/// The steps of a replay.
fn steps_of(task: JournalTask) -> u32
    ensures { result ≡ steps_of_journal task }
{
    match task {
        JournalTask::Replay { steps } => steps,
    }
}

/// The journal is followed on an allocation's image.
fn replay_allocated(
    alloc: Global,
    allocation: &FlatAllocation,
    journal: &[u8],
    steps: u32,
) -> Result<Reply, NoMemory>
    requires formed { IsFormedImage allocation.now.image }
    requires bound { steps ≤ MOST_STEPS }
    requires short { length journal.now ≤ LONGEST_JOURNAL }
    ensures { IfOk result (λ r. Replayed steps allocation.now.image allocation.now.need journal.now r.status r.text.items) }
{
    let need = allocation.need();
    replay_image(alloc, allocation.image(), need, journal, steps)
}

/// The journal is followed line by line: the report of the run that has its entries, or what strays.
#[tactic(auto, using(crate::proofs::Replaying::told_unread, crate::proofs::Replaying::told_stray))]
fn replay_image(
    alloc: Global,
    image: &Image,
    need: u32,
    journal: &[u8],
    steps: u32,
) -> Result<Reply, NoMemory>
    requires formed { IsFormedImage image.now }
    requires bound { steps ≤ MOST_STEPS }
    requires short { length journal.now ≤ LONGEST_JOURNAL }
    ensures { IfOk result (λ r. Replayed steps image.now need journal.now r.status r.text.items) }
{
    match replay_text(alloc, image, journal, steps) {
        Ok(run) => report_of_run(alloc, Some(need), &run),
        Err(TextFault::Reading { at }) => unread(alloc, at),
        Err(TextFault::Strays(why)) => stray(alloc, why),
    }
}

fn unread(alloc: Global, at: u32) -> Result<Reply, NoMemory>
    ensures { IfOk result (λ r. (r.status ≡ status.BadJournal) × (r.text.items ≡ unread_line at)) }
{
    Ok(bad_journal(unread_line(alloc, at)?))
}

fn bad_journal(text: Vec<u8>) -> Reply
    ensures status { result.status ≡ status.BadJournal }
    ensures text { result.text.items ≡ text.items }
{
    Reply {
        status: Status::BadJournal,
        text,
    }
}

/// The reply to entries that stray.
fn stray(alloc: Global, why: ReplayFault) -> Result<Reply, NoMemory>
    ensures { IfOk result (λ r. (r.status ≡ status.BadJournal) × TellsStray why r.text.items) }
{
    Ok(bad_journal(stray_line(alloc, why)?))
}

fn stray_line(alloc: Global, why: ReplayFault) -> Result<Vec<u8>, NoMemory>
    ensures { IfOk result (λ line. TellsStray why line.items) }
{
    match why {
        ReplayFault::Illegal { at, written } => illegal_line(alloc, at, written),
        ReplayFault::Differs { at, written, found } => differs_line(alloc, at, written, found),
        ReplayFault::NoMemory => Err(NoMemory),
    }
}

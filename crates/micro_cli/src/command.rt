//! What a call comes to before a port is asked: from the job and the input to a reply or a run.

ghost use Rattle.std.specs.Prelude.{◌≡◌, ◌≤◌, ◌+◌, IfOk, IfErr, IfSome, false, length};
ghost use Rattle.commands.specs.Openings.{ComesTo, IsReply};
ghost use Rattle.commands.specs.Tells.{IsBounded, runs_image};
ghost use Rattle.commands.specs.declared.status.Status.TheVariants as status;
ghost use Rattle.micro_cli.specs.declared.command.Silence.TheVariants as silence;
ghost use Rattle.micro_cli.specs.Answers.{TookAtMost, most_read};
ghost use Rattle.micro_cli.specs.Calls.{IsAside};
ghost use Rattle.micro_cli.specs.Words.{IsBoundedJob};
ghost use Rattle.micro_cli.specs.Preparing.{SaysBy, AsksOfInputBy, AsksBy};
ghost use Rattle.micro_cli.specs.Silences.{FailsToRead, IsSilent};
ghost use Rattle.micro_cli.specs.Lines.{usage_line, limit_of};

use crate::journal_replies::reply_to_journal;
use crate::lines::{limit_of, too_long, usage_line};
use crate::{bundle_replies, image_replies};
use commands::{Job, Prepared, Reply, Status, Task, perform_soak};
use micro_isa::NoMemory;
use micro_kit::{ReadFault, Source, read_all};
use std::alloc::Global;

/// Why nothing is to be written.
#[derive(Clone, Copy, Debug, PartialEq, Eq)]
pub(crate) enum Silence {
    ReadFault,
    NoMemory,
}

impl From<NoMemory> for Silence {
    ghost from_gives = { λ _ why. why ≡ silence.NoMemory };

    fn from(_want: NoMemory) -> Silence {
        Silence::NoMemory
    }
}

/// What the job that the words ask for comes to for the input.
#[tactic(auto, using(crate::proofs::Preparing::usage_comes, crate::proofs::Preparing::number_comes, crate::proofs::Preparing::task_comes, crate::proofs::Replies::silent_of_words, crate::proofs::Preparing::took_none, crate::proofs::Preparing::took_of_task))]
pub(crate) fn prepare_job<I: Source>(
    alloc: Global,
    wanted: Option<Job>,
    input: &mut I,
) -> Result<Prepared, Silence>
    requires bounded { IfSome wanted IsBoundedJob }
    ensures comes { IfOk result (ComesTo (AsksBy wanted (I.left input.old) (I.left input.new))) }
    ensures silent { IfErr result (λ why. IsSilent why wanted (I.left input.old) (I.left input.new) (I.faults input.old) (I.faults input.new)) }
    ensures aside { IsAside wanted → IfOk result IsReply }
    ensures taken { TookAtMost (most_read wanted) (I.left input.old) (I.left input.new) }
{
    match wanted {
        Some(Job::OfInput(task)) => prepare_input(alloc, task, input),
        Some(Job::Soak { number }) => Ok(Prepared::Reply(perform_soak(alloc, number)?)),
        None => Ok(Prepared::Reply(usage(alloc)?)),
    }
}

fn usage(alloc: Global) -> Result<Reply, NoMemory>
    ensures { IfOk result (λ r. (r.status ≡ status.Usage) × (r.text.items ≡ usage_line)) }
{
    let text = usage_line(alloc)?;
    Ok(Reply {
        status: Status::Usage,
        text,
    })
}

/// Reads the input to its end, for what the task comes to.
#[tactic(auto, using(crate::proofs::Preparing::input_comes, crate::proofs::Preparing::length_comes, crate::proofs::Preparing::took_whole, crate::proofs::Preparing::took_some, crate::proofs::Preparing::took_more, crate::proofs::Preparing::took_long))]
fn prepare_input<I: Source>(alloc: Global, task: Task, input: &mut I) -> Result<Prepared, Silence>
    requires bounded { IsBounded task }
    ensures comes { IfOk result (ComesTo (AsksOfInputBy task (I.left input.old) (I.left input.new))) }
    ensures silent { IfErr result (λ why. FailsToRead task why (I.left input.old) (I.left input.new) (I.faults input.old) (I.faults input.new)) }
    ensures aside { runs_image task ≡ false → IfOk result IsReply }
    ensures taken { TookAtMost (limit_of task + 1) (I.left input.old) (I.left input.new) }
{
    let limit = limit_of(task);
    match read_all(alloc, input, limit) {
        Ok(bytes) => Ok(prepare_task(alloc, task, bytes)?),
        Err(ReadFault::Failed) => Err(Silence::ReadFault),
        Err(ReadFault::TooLong) => Ok(Prepared::Reply(too_long(alloc, limit)?)),
        Err(ReadFault::NoMemory) => Err(Silence::NoMemory),
    }
}

/// What a task comes to for a whole input, which is read as what the task takes.
#[tactic(auto, using(crate::proofs::Preparing::journal_comes))]
fn prepare_task(alloc: Global, task: Task, bytes: Vec<u8>) -> Result<Prepared, NoMemory>
    requires short { length bytes.items ≤ limit_of task }
    requires bounded { IsBounded task }
    ensures comes { IfOk result (ComesTo (SaysBy task bytes.items)) }
    ensures aside { runs_image task ≡ false → IfOk result IsReply }
{
    match task {
        Task::OfBundle(task) => bundle_replies::prepare(alloc, task, &bytes),
        Task::OfImage(task) => image_replies::prepare(alloc, task, bytes),
        Task::OfJournal(task) => Ok(Prepared::Reply(reply_to_journal(alloc, task, &bytes)?)),
    }
}

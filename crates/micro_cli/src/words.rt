//! The task that the words of the command line ask for.

ghost use Rattle.std.specs.Prelude.{◌≡◌, ◌≤◌, IfOk, IfSome, map, string_bytes, true, false};
ghost use Rattle.micro_isa.specs.declared.limits.TheConstants.{MOST_STEPS};
ghost use Rattle.commands.specs.Tells.{IsBounded, RunsBy, is_round};
ghost use Rattle.micro_cli.specs.Words.{order_for, task_of, job_of, job_asked, IsBoundedJob, JobRunsBy};

use command_words::{Meaning, Turns, Verb, read_words};
use commands::{BundleTask, ImageTask, Job, JournalTask, Order, Task};
use micro_isa::NoMemory;
use std::alloc::Global;

/// The job that these words ask for, if they ask for one that there is. Threads are asked for only
/// where they are served.
pub(crate) fn job_asked(
    alloc: Global,
    words: &[String],
    threads: bool,
) -> Result<Option<Job>, NoMemory>
    ensures job { IfOk result (λ job. job ≡ job_asked threads (map string_bytes words.now)) }
    ensures bounded { IfOk result (λ job. IfSome job IsBoundedJob) }
    ensures rounds { threads ≡ false → IfOk result (λ job. IfSome job (JobRunsBy true)) }
{
    match read_words(alloc, words) {
        Ok(Some(meaning)) => Ok(job_of(&meaning, threads)),
        Ok(None) => Ok(None),
        Err(NoMemory) => Err(NoMemory),
    }
}

fn job_of(meaning: &Meaning, threads: bool) -> Option<Job>
    requires { meaning.now.steps ≤ MOST_STEPS }
    ensures job { result ≡ job_of threads meaning.now }
    ensures bounded { IfSome result IsBoundedJob }
    ensures rounds { threads ≡ false → IfSome result (JobRunsBy true) }
{
    match meaning.number {
        Some(number) => Some(Job::Soak { number }),
        None => match task_of(meaning, threads) {
            Some(task) => Some(Job::OfInput(task)),
            None => None,
        },
    }
}

fn task_of(meaning: &Meaning, threads: bool) -> Option<Task>
    requires { meaning.now.steps ≤ MOST_STEPS }
    ensures task { result ≡ task_of threads meaning.now }
    ensures bounded { IfSome result IsBounded }
    ensures rounds { threads ≡ false → IfSome result (RunsBy true) }
{
    let steps = meaning.steps;
    match (meaning.verb, meaning.turns) {
        (Verb::Run, turns) => {
            let order = order_for(turns, threads)?;
            Some(Task::OfBundle(BundleTask::Run { steps, order }))
        }
        (Verb::Exec, turns) => {
            let order = order_for(turns, threads)?;
            Some(Task::OfImage(ImageTask::Exec { steps, order }))
        }
        (Verb::Source, Turns::Round) => Some(Task::OfBundle(BundleTask::Source { steps })),
        (Verb::Build, Turns::Round) => Some(Task::OfBundle(BundleTask::Build)),
        (Verb::Fmt, Turns::Round) => Some(Task::OfBundle(BundleTask::Format)),
        (Verb::Check, Turns::Round) => Some(Task::OfBundle(BundleTask::Check)),
        (Verb::Replay, Turns::Round) => Some(Task::OfJournal(JournalTask::Replay { steps })),
        _ => None,
    }
}

fn order_for(turns: Turns, threads: bool) -> Option<Order>
    ensures order { result ≡ order_for threads turns }
{
    match (turns, threads) {
        (Turns::Round, _) => Some(Order::Round),
        (Turns::Threads, true) => Some(Order::Threads),
        (Turns::Threads, false) => None,
    }
}

/// Whether a job runs an image in thread order.
pub(crate) fn in_threads(wanted: Option<Job>) -> bool
    ensures threads { result ≡ true → IfSome wanted (JobRunsBy false) }
    ensures rounds { result ≡ false → IfSome wanted (JobRunsBy true) }
{
    match wanted {
        Some(Job::OfInput(task)) => task_in_threads(task),
        Some(Job::Soak { number: _ }) => false,
        None => false,
    }
}

fn task_in_threads(task: Task) -> bool
    ensures threads { result ≡ true → RunsBy false task }
    ensures rounds { result ≡ false → RunsBy true task }
{
    match task {
        Task::OfBundle(BundleTask::Run { steps: _, order }) => is_threads(order),
        Task::OfBundle(BundleTask::Source { steps: _ }) => false,
        Task::OfBundle(BundleTask::Build) => false,
        Task::OfBundle(BundleTask::Format) => false,
        Task::OfBundle(BundleTask::Check) => false,
        Task::OfImage(ImageTask::Exec { steps: _, order }) => is_threads(order),
        Task::OfJournal(_) => false,
    }
}

fn is_threads(order: Order) -> bool
    ensures threads { result ≡ true → is_round order ≡ false }
    ensures rounds { result ≡ false → is_round order ≡ true }
{
    match order {
        Order::Round => false,
        Order::Threads => true,
    }
}

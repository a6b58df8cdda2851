//! Turns one after another, with their journal.

ghost use Rattle.std.specs.Prelude.{◌≡◌, ◌+◌, ◌-◌, ◌<◌, IfOk, IfSome, None, Some, true, false, find};
ghost use Rattle.std.specs.List.{range_with_len};
ghost use Rattle.std.specs.Option.{ForSome};
ghost use Rattle.micro_isa.specs.declared.limits.TheConstants.{MOST_CONTEXTS};
ghost use Rattle.world.specs.WorldState.{has_open_input};
ghost use Rattle.world.specs.declared.event.Event.TheVariants.{Run as RunOf};
ghost use Rattle.semantics.specs.Core.{illegal_of, is_runnable, some_runnable, ending_of};
ghost use Rattle.semantics.specs.Rounds.{next_in_round};
ghost use Rattle.run_state.specs.Segments.{GoesOn};
ghost use Rattle.round_order.specs.Journals.{IsTurn, IsJournalOn, RanAs};
ghost use Rattle.round_order.specs.Openings.{IsOpening};
ghost use Rattle.round_order.specs.RoundRuns.{IsRoundRun};

use crate::opening::{note, unplug_all};
use micro_isa::NoMemory;
use run_state::Interpreter;
use std::alloc::Global;
use world::{End, Entry};

/// A journal and how its run ended.
#[derive(Debug, Drop)]
pub(crate) struct Journal {
    pub entries: Vec<Entry>,
    pub end: End,
}

/// Unplugs the ports, and runs the contexts in round order until the run has an ending.
pub(crate) fn run_rounds<I: Interpreter>(alloc: Global, run: &mut I) -> Result<Journal, NoMemory>
    requires { IsOpening (I.config run.old).core }
    ensures rules { I.rules run.new ≡ I.rules run.old }
    ensures run { IfOk result (λ journal. IsRoundRun (I.rules run.old) (I.config run.old) (I.config run.new) journal.entries.items journal.end) }
{
    let entries = unplug_all(alloc, run)?;
    match take_turns(entries, run) {
        Ok(journal) => Ok(journal),
        Err(NoMemory) => Err(NoMemory),
    }
}

/// Gives turns in round order, behind the entries of the opening.
fn take_turns<I: Interpreter>(entries: Vec<Entry>, run: &mut I) -> Result<Journal, NoMemory>
    requires { has_open_input (I.config run.old).core.world ≡ false }
    ensures rules { I.rules run.new ≡ I.rules run.old }
    ensures run { IfOk result (λ journal. IsJournalOn (I.rules run.old) (I.config run.old) (I.config run.new) entries.items journal.entries.items journal.end) }
{
    let mut entries = entries;
    let mut last = None;
    'turns: loop {
        if let Some(end) = run.ending() {
            return Ok(Journal { entries, end });
        }
        let context = next_context(run, last);
        let entry = turn(run, context);
        note(&mut entries, entry)?;
        last = Some(context);
    }
}

/// One segment of a context, as an entry.
#[tactic(auto, using(crate::proofs::Rounds::turn_is))]
fn turn<I: Interpreter>(run: &mut I, context: u32) -> Entry
    requires { illegal_of (I.config run.old).core (RunOf context) ≡ None }
    ensures rules { I.rules run.new ≡ I.rules run.old }
    ensures goes_on { GoesOn (I.config run.old).core (I.config run.new).core }
    ensures turn { IsTurn (I.rules run.old) (I.config run.old) (I.config run.new) result }
    ensures ran { RanAs context result }
{
    let segment = run.segment(context);
    Entry::Ran {
        context,
        steps: segment.steps,
        end: segment.end,
    }
}

/// The context whose turn is next.
#[tactic(auto, using(crate::proofs::Rounds::somebody_next, crate::proofs::Rounds::next_is_legal))]
fn next_context<I: Interpreter>(run: &I, last: Option<u32>) -> u32
    requires small { ForSome last (λ c. c < MOST_CONTEXTS) }
    requires goes_on { ending_of (I.config run.now).core ≡ None }
    requires closed { has_open_input (I.config run.now).core.world ≡ false }
    ensures next { next_in_round (I.config run.now).core last ≡ Some result }
    ensures legal { illegal_of (I.config run.now).core (RunOf result) ≡ None }
    ensures small { result < MOST_CONTEXTS }
{
    match next_in_round(run, last) {
        Some(context) => context,
        None => unreachable!(),
    }
}

/// The context whose turn is next: the first one that can go on behind the last one that ran, in
/// cyclic order, context 0 at first. None exactly where no context can go on.
#[tactic(auto, using(crate::proofs::Rounds::next_can, crate::proofs::Rounds::nobody_next))]
pub fn next_in_round<I: Interpreter>(run: &I, last: Option<u32>) -> Option<u32>
    requires { ForSome last (λ c. c < MOST_CONTEXTS) }
    ensures next { result ≡ next_in_round (I.config run.now).core last }
    ensures small { IfSome result (λ c. c < MOST_CONTEXTS) }
    ensures can { IfSome result (λ c. is_runnable (I.config run.now).core c ≡ true) }
    ensures nobody { result ≡ None → some_runnable (I.config run.now).core ≡ false }
{
    first_behind(run, last)
}

/// The first runnable context behind the last one that ran, in cyclic order.
fn first_behind<I: Interpreter>(run: &I, last: Option<u32>) -> Option<u32>
    requires { ForSome last (λ c. c < MOST_CONTEXTS) }
    ensures next { result ≡ next_in_round (I.config run.now).core last }
    ensures small { IfSome result (λ c. c < MOST_CONTEXTS) }
{
    match last {
        None => first_runnable(run, 0, run.contexts()),
        Some(last) => next_behind(run, last),
    }
}

fn next_behind<I: Interpreter>(run: &I, last: u32) -> Option<u32>
    requires { last < MOST_CONTEXTS }
    ensures next { result ≡ next_in_round (I.config run.now).core (Some last) }
    ensures small { IfSome result (λ c. c < MOST_CONTEXTS) }
{
    match first_runnable(run, last + 1, run.contexts()) {
        Some(context) => Some(context),
        None => first_runnable(run, 0, last + 1),
    }
}

/// The first runnable context from `from` on and below `to`.
#[tactic(auto, using(crate::proofs::Rounds::range_step, crate::proofs::Rounds::range_none))]
fn first_runnable<I: Interpreter>(run: &I, from: u32, to: u32) -> Option<u32>
    ensures found { result ≡ find (is_runnable (I.config run.now).core) (range_with_len from (to - from)) }
    ensures below { IfSome result (λ c. c < to) }
{
    'contexts: for context in from..to {
        if run.runnable(context) {
            return Some(context);
        }
    }
    None
}

//! The event of a written entry, over the parts of a run.

ghost use Rattle.std.specs.Prelude.{◌≡◌, ◌≤◌, None, vec_capacity};
ghost use Rattle.semantics.specs.Core.{illegal_of};
ghost use Rattle.semantics.specs.Entries.{event_of};
ghost use Rattle.run_journal.specs.Room.{most_entries};
ghost use Rattle.run_journal.specs.Histories.{IsHistory, bound_of};
ghost use Rattle.run_journal.specs.Replays.{Happened};

use crate::parts::{feed, run_on, unplug};
use engine_core::Engine;
use world::{Entry, Event};

/// The event that an entry tells.
pub(crate) fn event_of(entry: Entry) -> Event
    ensures { result ≡ event_of entry }
{
    match entry {
        Entry::Ran { context, .. } => Event::Run(context),
        Entry::Fed { channel, word } => Event::Feed { channel, word },
        Entry::Unplugged { channel } => Event::Unplug { channel },
    }
}

/// Does the event of a written entry, which may happen, and answers the entry that tells it.
#[tactic(auto, using(crate::proofs::Straying::happened_ran, crate::proofs::Straying::happened_fed, crate::proofs::Straying::happened_lost, crate::proofs::Straying::may_be_fed, crate::proofs::Straying::may_be_lost))]
pub(crate) fn happen(engine: &mut Engine, entries: &mut Vec<Entry>, written: Entry) -> Entry
    requires known { IsHistory engine.old entries.old.items }
    requires room { most_entries (bound_of engine.old) ≤ vec_capacity entries.old }
    requires legal { illegal_of engine.old.core (event_of written) ≡ None }
    ensures did { Happened engine.old engine.new entries.old.items entries.new.items written result }
    ensures capacity { vec_capacity entries.new ≡ vec_capacity entries.old }
{
    match written {
        Entry::Ran { context, .. } => {
            let segment = run_on(engine, entries, context);
            Entry::Ran {
                context,
                steps: segment.steps,
                end: segment.end,
            }
        }
        Entry::Fed { channel, word } => {
            feed(engine, entries, channel, word);
            written
        }
        Entry::Unplugged { channel } => {
            unplug(engine, entries, channel);
            written
        }
    }
}

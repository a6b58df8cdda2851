//! The ports at the opening of a run: none was handed in, so each is unplugged.

ghost use Rattle.std.specs.Prelude.{◌≡◌, ◌+◌, ◌<◌, IfOk, OnOk, [], ◌∷◌, ◌++◌, false};
ghost use Rattle.round_order.specs.Openings.{IsOpening};
ghost use Rattle.round_order.specs.Journals.{IsOpened, UnpluggedAt};

use micro_isa::{MOST_CHANNELS, NoMemory};
use run_state::Interpreter;
use std::alloc::Global;
use world::Entry;

/// Unplugs each port that is plugged, in channel order, and tells it.
pub(crate) fn unplug_all<I: Interpreter>(alloc: Global, run: &mut I) -> Result<Vec<Entry>, NoMemory>
    requires { IsOpening (I.config run.old).core }
    ensures rules { I.rules run.new ≡ I.rules run.old }
    ensures opened { IfOk result (λ entries. IsOpened (I.rules run.old) (I.config run.old) MOST_CHANNELS (I.config run.new) entries.items) }
{
    let mut entries = Vec::new(alloc);
    'channels: for channel in 0..MOST_CHANNELS as u8 {
        unplug_at(&mut entries, run, channel)?;
    }
    Ok(entries)
}

/// Unplugs a channel's port, where it is plugged, and tells it.
#[tactic(auto, using(crate::proofs::Unplugging::was_unplugged, crate::proofs::Unplugging::was_not_plugged))]
fn unplug_at<I: Interpreter>(
    entries: &mut Vec<Entry>,
    run: &mut I,
    channel: u8,
) -> Result<(), NoMemory>
    requires { (I.config run.old).core.over ≡ false }
    ensures rules { I.rules run.new ≡ I.rules run.old }
    ensures unplugged { OnOk result (UnpluggedAt (I.rules run.old) (I.config run.old) (I.config run.new) channel entries.old.items entries.new.items) }
{
    if run.plugged(channel) {
        run.unplug(channel);
        note(entries, Entry::Unplugged { channel })
    } else {
        Ok(())
    }
}

/// Appends an entry to a journal.
pub(crate) fn note(entries: &mut Vec<Entry>, entry: Entry) -> Result<(), NoMemory>
    ensures { OnOk result (entries.new.items ≡ entries.old.items ++ entry ∷ []) }
{
    match entries.push(entry) {
        Ok(()) => Ok(()),
        Err(_) => Err(NoMemory),
    }
}

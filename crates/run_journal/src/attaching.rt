//! The opening of a run with its ports.

ghost use Rattle.std.specs.Prelude.{◌≡◌, ◌≤◌, true, false, vec_capacity};
ghost use Rattle.run_journal.specs.Room.{most_entries};
ghost use Rattle.run_journal.specs.Turning.{Fits};
ghost use Rattle.run_journal.specs.Histories.{IsHistory, bound_of, channels_of};
ghost use Rattle.run_journal.specs.Attaching.{has_at, is_missing, Detaches, AttachedTo};

use crate::parts::{port_at, unplug};
use engine_core::Engine;
use micro_isa::MOST_CHANNELS;
use ports::{Port, Slots};
use run_state::Interpreter;
use world::Entry;

/// Unplugs each channel whose port is not there, in channel order.
#[tactic(auto, using(crate::proofs::Openings::attached_none, crate::proofs::Openings::attached_more))]
pub(crate) fn attach<P: Port>(engine: &mut Engine, entries: &mut Vec<Entry>, slots: &Slots<P>)
    requires known { IsHistory engine.old entries.old.items }
    requires room { most_entries (bound_of engine.old) ≤ vec_capacity entries.old }
    requires goes { engine.old.core.over ≡ false }
    ensures attached { AttachedTo engine.old engine.new entries.old.items entries.new.items slots.now MOST_CHANNELS }
    ensures capacity { vec_capacity entries.new ≡ vec_capacity entries.old }
{
    'channels: for channel in 0..MOST_CHANNELS as u8 {
        detach_at(engine, entries, slots, channel);
    }
}

/// Unplugs a channel, if its port is not there.
#[tactic(auto, using(crate::proofs::Openings::detaches_one, crate::proofs::Openings::detaches_none, crate::proofs::Openings::missing_is_plugged))]
fn detach_at<P: Port>(engine: &mut Engine, entries: &mut Vec<Entry>, slots: &Slots<P>, channel: u8)
    requires known { IsHistory engine.old entries.old.items }
    requires room { most_entries (bound_of engine.old) ≤ vec_capacity entries.old }
    requires goes { engine.old.core.over ≡ false }
    ensures did { Detaches engine.old engine.new entries.old.items entries.new.items slots.now channel }
    ensures capacity { vec_capacity entries.new ≡ vec_capacity entries.old }
{
    if is_missing(engine, slots, channel) {
        unplug(engine, entries, channel);
    }
}

/// Whether each channel that is plugged has a port that is there.
#[tactic(auto, using(crate::proofs::Openings::none_below, crate::proofs::Openings::missing_none, crate::proofs::Openings::all_there, crate::proofs::Openings::one_missing))]
pub(crate) fn fits<P: Port>(engine: &Engine, entries: &[Entry], slots: &Slots<P>) -> bool
    requires known { IsHistory engine.now entries.now }
    ensures yes { result ≡ true → Fits (channels_of engine.now) engine.now.core.world slots.now }
    ensures not { result ≡ false → Fits (channels_of engine.now) engine.now.core.world slots.now → ⊥ }
{
    'channels: for channel in 0..MOST_CHANNELS as u8 {
        if is_missing(engine, slots, channel) {
            return false;
        }
    }
    true
}

/// Whether a channel is plugged, and its port is not there.
fn is_missing<P: Port>(engine: &Engine, slots: &Slots<P>, channel: u8) -> bool
    ensures { result ≡ is_missing (channels_of engine.now) engine.now.core.world slots.now channel }
{
    engine.plugged(channel) && !has_at(slots, port_at(engine, channel))
}

fn has_at<P: Port>(slots: &Slots<P>, port: Option<u8>) -> bool
    ensures { result ≡ has_at slots.now port }
{
    match port {
        Some(port) => slots.has(port),
        None => false,
    }
}

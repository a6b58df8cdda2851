//! A pump over the parts of a run.

ghost use Rattle.std.specs.Prelude.{◌≡◌, ◌+◌, ◌<◌, ◌≤◌, None, Some, true, false, vec_capacity, nat_lt, ◌||◌, if◌then◌else◌};
ghost use Rattle.world.specs.WorldState.{can_feed};
ghost use Rattle.semantics.specs.Core.{ending_of, some_runnable};
ghost use Rattle.ports.specs.SlotsState.{has};
ghost use Rattle.run_journal.specs.Room.{most_entries};
ghost use Rattle.run_journal.specs.Turning.{Fits};
ghost use Rattle.run_journal.specs.Pumping.{answered};
ghost use Rattle.run_journal.specs.Histories.{IsHistory, IsIdle, run_ending, bound_of, channels_of};
ghost use Rattle.run_journal.specs.Parts.{AsksOne, Answers, TakesAnswer};
ghost use Rattle.run_journal.specs.Turns.{Pumps, PumpDid, counted, idle_after};

use crate::answers::Pumped;
use crate::parts::{feed, lose, port_at};
use engine_core::Engine;
use micro_isa::MOST_CHANNELS;
use ports::{Polled, Port, Slots};
use run_state::Interpreter;
use world::{End, Entry};

/// After this many pumps in a row that did nothing a run is idle for good.
const MOST_IDLE: u32 = 1000;

/// How a run ended, if it did: as its engine, or idle.
pub(crate) fn ending(engine: &Engine, idle: u32) -> Option<End>
    ensures { result ≡ run_ending engine.now.core idle }
{
    match engine.ending() {
        Some(end) => Some(end),
        None => {
            if idle == MOST_IDLE {
                Some(End::Idle)
            } else {
                None
            }
        }
    }
}

/// A pump, but under an ending.
#[tactic(auto, using(crate::proofs::PumpLoop::goes_on_still, crate::proofs::PumpLoop::under_ending, crate::proofs::PumpLoop::not_ended))]
pub(crate) fn pump_where<P: Port>(
    engine: &mut Engine,
    entries: &mut Vec<Entry>,
    idle: &mut u32,
    slots: &mut Slots<P>,
) -> Pumped
    requires known { IsHistory engine.old entries.old.items }
    requires room { most_entries (bound_of engine.old) ≤ vec_capacity entries.old }
    requires fits { Fits (channels_of engine.old) engine.old.core.world slots.old }
    requires idle { IsIdle engine.old.core idle.old }
    ensures did { PumpDid (record { engine = engine.old; entries = entries.old.items; idle = idle.old }) (record { engine = engine.new; entries = entries.new.items; idle = idle.new }) slots.old slots.new result }
    ensures fits { Fits (channels_of engine.new) engine.new.core.world slots.new }
    ensures capacity { vec_capacity entries.new ≡ vec_capacity entries.old }
{
    match ending(engine, *idle) {
        Some(_) => Pumped {
            asked: 0,
            fed: 0,
            dropped: 0,
        },
        None => pump(engine, entries, idle, slots),
    }
}

/// Asks the port of each input that can be fed, in channel order, and counts on where that changed
/// nothing and no context can go on.
#[tactic(auto, using(crate::proofs::Histories::goes_still))]
fn pump<P: Port>(
    engine: &mut Engine,
    entries: &mut Vec<Entry>,
    idle: &mut u32,
    slots: &mut Slots<P>,
) -> Pumped
    requires known { IsHistory engine.old entries.old.items }
    requires room { most_entries (bound_of engine.old) ≤ vec_capacity entries.old }
    requires fits { Fits (channels_of engine.old) engine.old.core.world slots.old }
    requires goes { ending_of engine.old.core ≡ None }
    requires few { idle.old < 1000 }
    ensures did { Pumps engine.old engine.new entries.old.items entries.new.items slots.old slots.new result }
    ensures idle { idle.new ≡ idle_after engine.old.core result idle.old }
    ensures fits { Fits (channels_of engine.new) engine.new.core.world slots.new }
    ensures capacity { vec_capacity entries.new ≡ vec_capacity entries.old }
{
    let runnable = engine.some_runnable();
    let pumped = pump_ports(engine, entries, slots);
    *idle = idle_after(runnable, pumped, *idle);
    pumped
}

fn idle_after(runnable: bool, pumped: Pumped, idle: u32) -> u32
    requires { idle < 1000 }
    ensures { result ≡ (if runnable || nat_lt 0 pumped.fed || nat_lt 0 pumped.dropped then 0 else idle + 1) }
{
    if runnable || 0 < pumped.fed || 0 < pumped.dropped {
        0
    } else {
        idle + 1
    }
}

/// Asks the port of each input that can be fed, in channel order.
#[tactic(auto, using(crate::proofs::PumpLoop::pumped_none, crate::proofs::PumpLoop::pumped_all))]
fn pump_ports<P: Port>(
    engine: &mut Engine,
    entries: &mut Vec<Entry>,
    slots: &mut Slots<P>,
) -> Pumped
    requires known { IsHistory engine.old entries.old.items }
    requires room { most_entries (bound_of engine.old) ≤ vec_capacity entries.old }
    requires fits { Fits (channels_of engine.old) engine.old.core.world slots.old }
    requires goes { engine.old.core.over ≡ false }
    ensures did { Pumps engine.old engine.new entries.old.items entries.new.items slots.old slots.new result }
    ensures fits { Fits (channels_of engine.new) engine.new.core.world slots.new }
    ensures capacity { vec_capacity entries.new ≡ vec_capacity entries.old }
{
    let mut pumped = Pumped {
        asked: 0,
        fed: 0,
        dropped: 0,
    };
    'channels: for channel in 0..MOST_CHANNELS as u8 {
        let answer = ask_at(engine, entries, slots, channel);
        pumped = counted(pumped, answer);
    }
    pumped
}

/// The counts with one answer more.
fn counted(pumped: Pumped, answer: Option<Polled>) -> Pumped
    requires { (pumped.asked < 100) × (pumped.fed < 100) × (pumped.dropped < 100) }
    ensures { result ≡ counted pumped answer }
{
    match answer {
        None => pumped,
        Some(Polled::Empty) => Pumped {
            asked: pumped.asked + 1,
            ..pumped
        },
        Some(Polled::Word(_)) => Pumped {
            asked: pumped.asked + 1,
            fed: pumped.fed + 1,
            ..pumped
        },
        Some(Polled::Closed | Polled::Failed) => Pumped {
            asked: pumped.asked + 1,
            dropped: pumped.dropped + 1,
            ..pumped
        },
    }
}

/// Asks the port of a channel, if it can be fed, and does what it answers.
#[tactic(auto, using(crate::proofs::PumpKeeping::asks_one, crate::proofs::PumpKeeping::asks_nothing, crate::proofs::PumpKeeping::fed_port, crate::proofs::PumpKeeping::some_port))]
fn ask_at<P: Port>(
    engine: &mut Engine,
    entries: &mut Vec<Entry>,
    slots: &mut Slots<P>,
    channel: u8,
) -> Option<Polled>
    requires known { IsHistory engine.old entries.old.items }
    requires room { most_entries (bound_of engine.old) ≤ vec_capacity entries.old }
    requires goes { engine.old.core.over ≡ false }
    requires fits { Fits (channels_of engine.old) engine.old.core.world slots.old }
    ensures did { AsksOne engine.old engine.new entries.old.items entries.new.items slots.old slots.new channel result }
    ensures capacity { vec_capacity entries.new ≡ vec_capacity entries.old }
{
    if engine.can_feed(channel) {
        match port_at(engine, channel) {
            Some(port) => Some(ask(engine, entries, slots, channel, port)),
            None => unreachable!(),
        }
    } else {
        None
    }
}

/// Asks a port, and does what it answers.
#[tactic(auto, using(crate::proofs::Going::still_there, crate::proofs::PumpKeeping::answers_is))]
fn ask<P: Port>(
    engine: &mut Engine,
    entries: &mut Vec<Entry>,
    slots: &mut Slots<P>,
    channel: u8,
    port: u8,
) -> Polled
    requires known { IsHistory engine.old entries.old.items }
    requires room { most_entries (bound_of engine.old) ≤ vec_capacity entries.old }
    requires goes { engine.old.core.over ≡ false }
    requires can { can_feed engine.old.core.world channel ≡ true }
    requires there { has slots.old port ≡ true }
    ensures did { Answers engine.old engine.new entries.old.items entries.new.items slots.old slots.new channel port result }
    ensures capacity { vec_capacity entries.new ≡ vec_capacity entries.old }
{
    let answer = slots.ask(port);
    take_answer(engine, entries, slots, channel, port, answer);
    answer
}

/// Does what a port answered.
#[tactic(auto, using(crate::proofs::PumpKeeping::took_word, crate::proofs::PumpKeeping::took_nothing, crate::proofs::PumpKeeping::took_closed, crate::proofs::PumpKeeping::took_failed, crate::proofs::Histories::feed_plugged))]
fn take_answer<P: Port>(
    engine: &mut Engine,
    entries: &mut Vec<Entry>,
    slots: &mut Slots<P>,
    channel: u8,
    port: u8,
    answer: Polled,
)
    requires known { IsHistory engine.old entries.old.items }
    requires room { most_entries (bound_of engine.old) ≤ vec_capacity entries.old }
    requires goes { engine.old.core.over ≡ false }
    requires can { can_feed engine.old.core.world channel ≡ true }
    requires there { has slots.old port ≡ true }
    ensures took { TakesAnswer engine.old engine.new entries.old.items entries.new.items slots.old slots.new channel port answer }
    ensures capacity { vec_capacity entries.new ≡ vec_capacity entries.old }
{
    match answer {
        Polled::Word(word) => feed(engine, entries, channel, word),
        Polled::Empty => {}
        Polled::Closed => lose(engine, entries, slots, channel, port),
        Polled::Failed => lose(engine, entries, slots, channel, port),
    }
}

//! What a turn and a pump do, one event at a time, to an engine and its entries.

ghost use Rattle.std.specs.Prelude.{◌≡◌, ◌+◌, ◌<◌, ◌≤◌, ◌++◌, [], ◌∷◌, None, Some, true, false, vec_len, vec_capacity, slice_set};
ghost use Rattle.micro_isa.specs.Formed.{port_of};
ghost use Rattle.world.specs.WorldState.{is_plugged, can_feed, after_feed, after_unplug};
ghost use Rattle.world.specs.declared.event.Event.TheVariants.{Run as RunOf};
ghost use Rattle.world.specs.declared.event.Entry.TheVariants as entry;
ghost use Rattle.world.specs.declared.event.Seen.TheVariants.{Ran as RanOf};
ghost use Rattle.semantics.specs.Core.{illegal_of};
ghost use Rattle.semantics.specs.Events.{fire};
ghost use Rattle.semantics.specs.Machine.{machine_semantics};
ghost use Rattle.engine_core.specs.EngineState.{config_of};
ghost use Rattle.ports.specs.SlotsState.{has};
ghost use Rattle.run_journal.specs.Room.{most_entries};
ghost use Rattle.run_journal.specs.Keeping.{port_at};
ghost use Rattle.run_journal.specs.Turning.{Fits, delivery, loses};
ghost use Rattle.run_journal.specs.Histories.{IsHistory, bound_of, channels_of, is_bound};
ghost use Rattle.run_journal.specs.Parts.{Went, Delivered, Advanced, HandsOver, LosesWhere};

use crate::answers::Delivery;
use engine_core::Engine;
use micro_isa::Channel;
use ports::{Given, Port, Slots};
use run_state::Interpreter;
use world::{Entry, Output, Segment, SegmentEnd};

/// Appends an entry for which there is room.
fn note(entries: &mut Vec<Entry>, entry: Entry)
    requires { vec_len entries.old < vec_capacity entries.old }
    ensures items { entries.new.items ≡ entries.old.items ++ entry ∷ [] }
    ensures capacity { vec_capacity entries.new ≡ vec_capacity entries.old }
{
    entries.push_reserved(entry);
}

/// One segment of a context, with its entry.
#[tactic(auto, using(crate::proofs::Going::room_to_run))]
pub(crate) fn run_on(engine: &mut Engine, entries: &mut Vec<Entry>, context: u32) -> Segment
    requires known { IsHistory engine.old entries.old.items }
    requires room { most_entries (bound_of engine.old) ≤ vec_capacity entries.old }
    requires legal { illegal_of engine.old.core (RunOf context) ≡ None }
    ensures went { Went engine.old engine.new entries.old.items entries.new.items (entry.Ran context result.steps result.end ∷ []) }
    ensures capacity { vec_capacity entries.new ≡ vec_capacity entries.old }
    ensures fire { fire (machine_semantics engine.old.image) (config_of engine.old) (RunOf context) ≡ (config_of engine.new, RanOf result) }
{
    let segment = engine.segment(context);
    note(
        entries,
        Entry::Ran {
            context,
            steps: segment.steps,
            end: segment.end,
        },
    );
    segment
}

/// Feeds a word to an input, with its entry.
#[tactic(auto, using(crate::proofs::Histories::fed_core, crate::proofs::Histories::room_left))]
pub(crate) fn feed(engine: &mut Engine, entries: &mut Vec<Entry>, channel: u8, word: u32)
    requires known { IsHistory engine.old entries.old.items }
    requires room { most_entries (bound_of engine.old) ≤ vec_capacity entries.old }
    requires goes { engine.old.core.over ≡ false }
    requires can { can_feed engine.old.core.world channel ≡ true }
    ensures went { Went engine.old engine.new entries.old.items entries.new.items (entry.Fed channel word ∷ []) }
    ensures capacity { vec_capacity entries.new ≡ vec_capacity entries.old }
    ensures core { engine.new.core ≡ record engine.old.core { world = after_feed engine.old.core.world channel word } }
{
    engine.feed(channel, word);
    note(entries, Entry::Fed { channel, word });
}

/// Unplugs a channel, with its entry.
#[tactic(auto, using(crate::proofs::Histories::lost_core, crate::proofs::Histories::room_left))]
pub(crate) fn unplug(engine: &mut Engine, entries: &mut Vec<Entry>, channel: u8)
    requires known { IsHistory engine.old entries.old.items }
    requires room { most_entries (bound_of engine.old) ≤ vec_capacity entries.old }
    requires goes { engine.old.core.over ≡ false }
    requires plugged { is_plugged engine.old.core.world channel ≡ true }
    ensures went { Went engine.old engine.new entries.old.items entries.new.items (entry.Unplugged channel ∷ []) }
    ensures capacity { vec_capacity entries.new ≡ vec_capacity entries.old }
    ensures core { engine.new.core ≡ record engine.old.core { world = after_unplug engine.old.core.world channel } }
{
    engine.unplug(channel);
    note(entries, Entry::Unplugged { channel });
}

/// Unplugs a channel, with its entry, and retires its port.
pub(crate) fn lose<P: Port>(
    engine: &mut Engine,
    entries: &mut Vec<Entry>,
    slots: &mut Slots<P>,
    channel: u8,
    port: u8,
)
    requires known { IsHistory engine.old entries.old.items }
    requires room { most_entries (bound_of engine.old) ≤ vec_capacity entries.old }
    requires goes { engine.old.core.over ≡ false }
    requires plugged { is_plugged engine.old.core.world channel ≡ true }
    requires there { has slots.old port ≡ true }
    ensures went { Went engine.old engine.new entries.old.items entries.new.items (entry.Unplugged channel ∷ []) }
    ensures capacity { vec_capacity entries.new ≡ vec_capacity entries.old }
    ensures core { engine.new.core ≡ record engine.old.core { world = after_unplug engine.old.core.world channel } }
    ensures told { slots.new.told ≡ slots.old.told }
    ensures retired { slots.new.retired ≡ slice_set slots.old.retired port true }
{
    unplug(engine, entries, channel);
    slots.retire(port);
}

fn port_of(channel: &Channel) -> Option<u8>
    ensures { result ≡ port_of channel.now }
{
    match channel {
        Channel::Inner { .. } => None,
        Channel::Input { port: None, .. } => None,
        Channel::Input {
            port: Some(port),
            ..
        } => Some(port.number),
        Channel::Output { port } => *port,
    }
}

/// The number of the port of a channel.
pub(crate) fn port_at(engine: &Engine, channel: u8) -> Option<u8>
    ensures { result ≡ port_at (channels_of engine.now) channel }
{
    match engine
        .image()
        .setting
        .channels
        .as_slice()
        .get(channel as usize)
    {
        Some(channel) => port_of(channel),
        None => None,
    }
}

/// The word that a segment put out, and the port that it goes to, if its channel is plugged.
fn delivery(engine: &Engine, sent: Option<Output>) -> Option<Delivery>
    ensures { result ≡ delivery (channels_of engine.now) engine.now.core.world sent }
{
    match sent {
        Some(output) => delivery_on(engine, output),
        None => None,
    }
}

fn delivery_on(engine: &Engine, output: Output) -> Option<Delivery>
    ensures { result ≡ delivery (channels_of engine.now) engine.now.core.world (Some output) }
{
    if engine.plugged(output.channel) {
        match port_at(engine, output.channel) {
            Some(port) => Some(Delivery {
                channel: output.channel,
                port,
                word: output.word,
            }),
            None => None,
        }
    } else {
        None
    }
}

fn is_bound(end: SegmentEnd) -> bool
    ensures { result ≡ is_bound end }
{
    matches!(end, SegmentEnd::Bound)
}

fn loses(answer: Given, cut: bool) -> bool
    ensures { result ≡ loses answer cut }
{
    match answer {
        Given::Took => false,
        Given::Failed => !cut,
    }
}

/// One segment of a context, and what follows it at the port of the word that it put out.
#[tactic(auto, using(crate::proofs::Going::advanced, crate::proofs::Going::fits_middle, crate::proofs::Going::fits_advanced, crate::proofs::Histories::cut_end))]
pub(crate) fn advance<P: Port>(
    engine: &mut Engine,
    entries: &mut Vec<Entry>,
    slots: &mut Slots<P>,
    context: u32,
) -> Entry
    requires known { IsHistory engine.old entries.old.items }
    requires room { most_entries (bound_of engine.old) ≤ vec_capacity entries.old }
    requires legal { illegal_of engine.old.core (RunOf context) ≡ None }
    requires fits { Fits (channels_of engine.old) engine.old.core.world slots.old }
    ensures did { Advanced engine.old engine.new entries.old.items entries.new.items slots.old slots.new context result }
    ensures fits { Fits (channels_of engine.new) engine.new.core.world slots.new }
    ensures capacity { vec_capacity entries.new ≡ vec_capacity entries.old }
{
    let segment = run_on(engine, entries, context);
    deliver(engine, entries, slots, segment);
    Entry::Ran {
        context,
        steps: segment.steps,
        end: segment.end,
    }
}

/// Hands the word that a segment put out to its port.
#[tactic(auto, using(crate::proofs::Going::delivered_one, crate::proofs::Going::delivered_none, crate::proofs::Going::delivers_to))]
fn deliver<P: Port>(
    engine: &mut Engine,
    entries: &mut Vec<Entry>,
    slots: &mut Slots<P>,
    segment: Segment,
)
    requires known { IsHistory engine.old entries.old.items }
    requires room { most_entries (bound_of engine.old) ≤ vec_capacity entries.old }
    requires cut { is_bound segment.end ≡ engine.old.core.over }
    requires fits { Fits (channels_of engine.old) engine.old.core.world slots.old }
    ensures did { Delivered engine.old engine.new entries.old.items entries.new.items slots.old slots.new segment.sent }
    ensures capacity { vec_capacity entries.new ≡ vec_capacity entries.old }
{
    match delivery(engine, segment.sent) {
        Some(delivery) => hand_over(engine, entries, slots, delivery, is_bound(segment.end)),
        None => {}
    }
}

/// Hands a word to its port; a port that fails is lost, but where the bound cut the segment.
#[tactic(auto, using(crate::proofs::Going::hands_over, crate::proofs::Going::not_over, crate::proofs::Going::still_there))]
fn hand_over<P: Port>(
    engine: &mut Engine,
    entries: &mut Vec<Entry>,
    slots: &mut Slots<P>,
    delivery: Delivery,
    cut: bool,
)
    requires known { IsHistory engine.old entries.old.items }
    requires room { most_entries (bound_of engine.old) ≤ vec_capacity entries.old }
    requires cut { cut ≡ engine.old.core.over }
    requires plugged { is_plugged engine.old.core.world delivery.channel ≡ true }
    requires there { has slots.old delivery.port ≡ true }
    ensures did { HandsOver engine.old engine.new entries.old.items entries.new.items slots.old slots.new delivery }
    ensures capacity { vec_capacity entries.new ≡ vec_capacity entries.old }
{
    let answer = slots.hand(delivery.port, delivery.word);
    lose_where(engine, entries, slots, delivery, loses(answer, cut));
}

/// Unplugs the channel of a delivery where its port is lost.
#[tactic(auto, using(crate::proofs::Going::loses_one, crate::proofs::Going::loses_none))]
fn lose_where<P: Port>(
    engine: &mut Engine,
    entries: &mut Vec<Entry>,
    slots: &mut Slots<P>,
    delivery: Delivery,
    lost: bool,
)
    requires known { IsHistory engine.old entries.old.items }
    requires room { most_entries (bound_of engine.old) ≤ vec_capacity entries.old }
    requires goes { lost ≡ true → engine.old.core.over ≡ false }
    requires plugged { is_plugged engine.old.core.world delivery.channel ≡ true }
    requires there { has slots.old delivery.port ≡ true }
    ensures did { LosesWhere lost engine.old engine.new entries.old.items entries.new.items slots.old slots.new delivery }
    ensures told { slots.new.told ≡ slots.old.told }
    ensures capacity { vec_capacity entries.new ≡ vec_capacity entries.old }
{
    if lost {
        lose(engine, entries, slots, delivery.channel, delivery.port);
    }
}

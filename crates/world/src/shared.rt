ghost use Rattle.std.specs.Prelude.{◌≡◌, ◌<◌, ◌↔◌, IfOk, IfErr, IsOk, IsSome, Some, true, length, map, option_map, replicate, slice_get, slice_set};
ghost use Rattle.world.specs.WorldState.{can_receive, can_send, can_feed, is_plugged, received_from, after_receive, after_send, put_out, after_feed, after_unplug, has_open_input, changed_at, holds_at, is_open_input};
ghost use Rattle.std.specs.List.{list_any};
ghost use Rattle.std.specs.Option.{option_copied};
ghost use Rattle.world.specs.Opening.{opening_world, opened_channel};
ghost use Rattle.world.specs.Views.{view_of, loaded};
ghost use Rattle.world.specs.Channels.{has_room, with_word};

use crate::channel::{ChannelKind, ChannelQueue};
use crate::copies::{copied, shown};
use crate::event::{Output, Phase, Trap, View};
use micro_isa::{Channel, List, NoMemory, Setting};
use std::alloc::Global;
use std::marker::Model;

/// Memory, channels and outputs of a run. Opening it takes all the memory that it will need; the
/// calls after that take none.
#[derive(Drop)]
pub struct World {
    memory: Vec<u32>,
    channels: Vec<ChannelQueue>,
    outputs: Vec<Output>,
    bound: u32,
}

impl Model for World {
    ghost use Rattle.std.specs.Prelude.{◌≤◌, vec_capacity};
    ghost use Rattle.world.specs.WorldState.{WorldState};

    ghost Value = { WorldState };

    ghost view = { λ w. record { memory = w.memory.items; channels = w.channels.items; outputs = w.outputs.items; bound = w.bound } };

    ghost invariant = { λ w. w.bound ≤ vec_capacity w.outputs };
}

impl World {
    /// The world at the opening of a run of at most `bound` steps.
    pub fn open(alloc: Global, setting: &Setting, bound: u32) -> Result<World, NoMemory>
        ensures { IfOk result (λ world. world ≡ opening_world setting.now bound) }
    {
        let memory = zeros(alloc, setting.memory)?;
        let channels = open_channels(alloc, setting.channels.as_slice())?;
        match Vec::with_capacity(alloc, bound as usize) {
            Ok(outputs) => Ok(World {
                memory,
                channels,
                outputs,
                bound,
            }),
            Err(_) => Err(NoMemory),
        }
    }

    /// The lists of this world as a run shows them, with these steps and phases.
    pub fn view(&self, alloc: Global, steps: u32, phases: List<Phase>) -> Result<View, NoMemory>
        ensures { IfOk result (λ view. view ≡ view_of self.now steps phases) }
    {
        let memory = copied(alloc, &self.memory)?;
        let channels = shown(alloc, &self.channels)?;
        let outputs = copied(alloc, &self.outputs)?;
        Ok(View {
            memory,
            left: channels.left,
            rings: channels.rings,
            plugged: channels.plugged,
            outputs,
            steps,
            phases,
        })
    }

    /// How many words may be put out, which is the bound of the run's steps.
    pub fn bound(&self) -> u32
        ensures { result ≡ self.now.bound }
    {
        self.bound
    }

    /// A channel by its number; none where there is no such channel.
    pub fn channel(&self, channel: u8) -> Option<&ChannelQueue>
        ensures { option_copied result ≡ slice_get self.now.channels channel }
    {
        self.channels.get(channel as usize)
    }

    /// The words of memory.
    pub fn memory(&self) -> &[u32]
        ensures { result.now ≡ self.now.memory }
    {
        self.memory.as_slice()
    }

    /// The number of words of memory.
    pub fn memory_size(&self) -> usize
        ensures { result ≡ length self.now.memory }
    {
        self.memory.len()
    }

    /// The word at an address; a trap exactly where the address is not below the memory size.
    pub fn load(&self, address: u32) -> Result<u32, Trap>
        ensures { result ≡ loaded self.now address }
    {
        match self.memory.get(address as usize) {
            Some(word) => Ok(*word),
            None => Err(Trap::Address),
        }
    }

    /// Writes a word; a trap exactly where the address is not below the memory size, and then
    /// nothing changes.
    pub fn store(&mut self, address: u32, word: u32) -> Result<(), Trap>
        ensures ok { IsOk result ↔ (address < length self.old.memory) }
        ensures trap { IfErr result (λ trap. trap ≡ Trap.Address) }
        ensures stored { self.new ≡ record self.old { memory = slice_set self.old.memory address word } }
    {
        let address = address as usize;
        if address < self.memory.len() {
            self.memory[address] = word;
            Ok(())
        } else {
            Err(Trap::Address)
        }
    }

    /// Whether there is a word of this channel to receive.
    pub fn can_receive(&self, channel: u8) -> bool
        ensures { result ≡ can_receive self.now channel }
    {
        match self.channels.get(channel as usize) {
            Some(queue) => queue.has_word(),
            None => false,
        }
    }

    /// Takes the next word of a channel: of an input the initial words first, then the fed ones.
    pub fn receive(&mut self, channel: u8) -> u32
        requires { can_receive self.old channel ≡ true }
        ensures word { Some result ≡ received_from self.old channel }
        ensures rest { self.new ≡ after_receive self.old channel }
    {
        match self.channels.get_mut(channel as usize) {
            Some(queue) => queue.receive(),
            None => unreachable!(),
        }
    }

    /// Whether a context can send to this channel: false of an inner channel whose ring is full.
    pub fn can_send(&self, channel: u8) -> bool
        ensures { result ≡ can_send self.now channel }
    {
        match self.channels.get(channel as usize) {
            Some(queue) => queue.takes_word(),
            None => false,
        }
    }

    /// Sends a word to a channel that takes it, and says what that put out.
    pub fn send(&mut self, channel: u8, word: u32) -> Option<Output>
        requires takes { can_send self.old channel ≡ true }
        requires room { IsSome (put_out self.old channel word) → length self.old.outputs < self.old.bound }
        ensures sent { self.new ≡ after_send self.old channel word }
        ensures output { result ≡ put_out self.old channel word }
    {
        match kind_at(&self.channels, channel) {
            Some(ChannelKind::Inner) => {
                append_to(&mut self.channels, channel, word);
                None
            }
            Some(ChannelKind::Outgoing) => {
                let output = Output { channel, word };
                self.outputs.push_reserved(output);
                Some(output)
            }
            _ => unreachable!(),
        }
    }

    /// Whether the channel's port is plugged.
    pub fn plugged(&self, channel: u8) -> bool
        ensures { result ≡ is_plugged self.now channel }
    {
        match self.channels.get(channel as usize) {
            Some(queue) => queue.is_plugged(),
            None => false,
        }
    }

    /// Whether a word can be fed: the channel is a plugged input whose ring has room.
    pub fn can_feed(&self, channel: u8) -> bool
        ensures { result ≡ can_feed self.now channel }
    {
        match self.channels.get(channel as usize) {
            Some(queue) => queue.takes_feed(),
            None => false,
        }
    }

    /// Appends a word to the ring of an input that can be fed.
    pub fn feed(&mut self, channel: u8, word: u32)
        requires { can_feed self.old channel ≡ true }
        ensures { self.new ≡ after_feed self.old channel word }
    {
        append_to(&mut self.channels, channel, word);
    }

    /// Unplugs the port of a channel.
    pub fn unplug(&mut self, channel: u8)
        requires { is_plugged self.old channel ≡ true }
        ensures { self.new ≡ after_unplug self.old channel }
    {
        if let Some(queue) = self.channels.get_mut(channel as usize) {
            queue.unplug();
        }
    }

    /// The words that were put out, in order.
    pub fn outputs(&self) -> &[Output]
        ensures { result.now ≡ self.now.outputs }
    {
        self.outputs.as_slice()
    }

    /// Whether a word can still come from outside: an input is plugged.
    pub fn has_open_input(&self) -> bool
        ensures { result ≡ has_open_input self.now }
    {
        any_open_input(&self.channels)
    }
}

fn zeros(alloc: Global, size: u32) -> Result<Vec<u32>, NoMemory>
    ensures { IfOk result (λ words. words.items ≡ replicate size 0) }
{
    match vec![in alloc; 0; size as usize] {
        Ok(words) => Ok(words),
        Err(_) => Err(NoMemory),
    }
}

fn open_channels(alloc: Global, channels: &[Channel]) -> Result<Vec<ChannelQueue>, NoMemory>
    ensures { IfOk result (λ queues. queues.items ≡ map opened_channel channels.now) }
{
    let mut queues = Vec::new(alloc);
    for channel in channels {
        let queue = ChannelQueue::open(alloc, channel)?;
        if queues.push(queue).is_err() {
            return Err(NoMemory);
        }
    }
    Ok(queues)
}

fn kind_at(channels: &[ChannelQueue], channel: u8) -> Option<ChannelKind>
    ensures { result ≡ option_map (λ ch. ch.kind) (slice_get channels.now channel) }
{
    match channels.get(channel as usize) {
        Some(queue) => Some(queue.kind()),
        None => None,
    }
}

fn append_to(channels: &mut Vec<ChannelQueue>, channel: u8, word: u32)
    requires { holds_at has_room (slice_get channels.old.items channel) ≡ true }
    ensures { channels.new.items ≡ changed_at (with_word word) channels.old.items channel (slice_get channels.old.items channel) }
{
    if let Some(queue) = channels.get_mut(channel as usize) {
        queue.append(word);
    }
}

fn any_open_input(channels: &[ChannelQueue]) -> bool
    ensures { result ≡ list_any is_open_input channels.now }
{
    channels.iter().any(|queue| is_open_input(queue))
}

fn is_open_input(queue: &ChannelQueue) -> bool
    ensures { result ≡ is_open_input queue.now }
{
    matches!(queue.kind(), ChannelKind::Incoming) && queue.is_plugged()
}

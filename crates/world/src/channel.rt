ghost use Rattle.std.specs.Prelude.{◌≡◌, ◌<◌, ◌≤◌, IfOk, Some, true, []};
ghost use Rattle.world.specs.Channels.{has_word, has_room, has_plugged_port, takes_word, takes_feed, head_of, without_head, with_word, without_port};
ghost use Rattle.world.specs.Opening.{opened_channel};

use circular_buffer::HeapCircularBuffer;
use micro_isa::{Channel, List, NoMemory};
use std::alloc::Global;
use std::marker::Model;

/// Which way the words of a channel go.
#[derive(Clone, Copy, Debug, PartialEq, Eq)]
pub enum ChannelKind {
    /// Between contexts.
    Inner,
    /// From outside to the contexts.
    Incoming,
    /// From the contexts to the outside.
    Outgoing,
}

/// The port of a channel.
#[derive(Clone, Copy, Debug, PartialEq, Eq)]
pub enum PortState {
    /// The channel has no port.
    Absent,
    /// Words go through it.
    Plugged,
    /// It is gone, for good.
    Unplugged,
}

/// The words of one channel. Initial words are kept as they were given, with the number of those
/// received; words sent or fed stand in a ring of fixed capacity.
#[derive(Drop)]
pub struct ChannelQueue {
    kind: ChannelKind,
    port: PortState,
    initial: Vec<u32>,
    received: usize,
    ring: HeapCircularBuffer<u32>,
}

impl Model for ChannelQueue {
    ghost use Rattle.std.specs.Prelude.{drop, ◌≤◌, vec_len};
    ghost use Rattle.world.specs.Channels.{ChannelState};

    ghost Value = { ChannelState };

    ghost view = { λ q. record { kind = q.kind; port = q.port; capacity = q.ring.capacity; left = drop q.received q.initial.items; ring = q.ring.items } };

    ghost invariant = { λ q. q.received ≤ vec_len q.initial };
}

impl ChannelQueue {
    /// The channel at the opening of a run.
    pub fn open(alloc: Global, channel: &Channel) -> Result<ChannelQueue, NoMemory>
        ensures { IfOk result (λ queue. queue ≡ opened_channel channel.now) }
    {
        match channel {
            Channel::Inner { capacity } => {
                queue(alloc, ChannelKind::Inner, PortState::Absent, &[], *capacity)
            }
            Channel::Input { words, port: None } => {
                queue(
                    alloc,
                    ChannelKind::Incoming,
                    PortState::Absent,
                    words.as_slice(),
                    0,
                )
            }
            Channel::Input {
                words,
                port: Some(port),
            } => queue(
                alloc,
                ChannelKind::Incoming,
                PortState::Plugged,
                words.as_slice(),
                port.capacity,
            ),
            Channel::Output { port: None } => {
                queue(alloc, ChannelKind::Outgoing, PortState::Absent, &[], 0)
            }
            Channel::Output { port: Some(_) } => {
                queue(alloc, ChannelKind::Outgoing, PortState::Plugged, &[], 0)
            }
        }
    }

    /// Which way its words go.
    pub fn kind(&self) -> ChannelKind
        ensures { result ≡ self.now.kind }
    {
        self.kind
    }

    /// What became of its port.
    pub fn port(&self) -> PortState
        ensures { result ≡ self.now.port }
    {
        self.port
    }

    /// Whether its port is plugged.
    pub fn is_plugged(&self) -> bool
        ensures { result ≡ has_plugged_port self.now }
    {
        matches!(self.port, PortState::Plugged)
    }

    /// Whether there is a word to receive.
    pub fn has_word(&self) -> bool
        ensures { result ≡ has_word self.now }
    {
        self.received < self.initial.len() || 0 < self.ring.len()
    }

    /// Whether the ring can hold one word more.
    pub fn has_room(&self) -> bool
        ensures { result ≡ has_room self.now }
    {
        self.ring.len() < self.ring.capacity()
    }

    /// Whether a context can send to it.
    pub fn takes_word(&self) -> bool
        ensures { result ≡ takes_word self.now }
    {
        match self.kind {
            ChannelKind::Inner => self.has_room(),
            ChannelKind::Incoming => false,
            ChannelKind::Outgoing => true,
        }
    }

    /// Whether a word can be fed to it.
    pub fn takes_feed(&self) -> bool
        ensures { result ≡ takes_feed self.now }
    {
        matches!(self.kind, ChannelKind::Incoming) && self.is_plugged() && self.has_room()
    }

    /// Takes the next word: an initial one first.
    pub fn receive(&mut self) -> u32
        requires { has_word self.old ≡ true }
        ensures word { Some result ≡ head_of self.old.left self.old.ring }
        ensures rest { self.new ≡ without_head self.old }
    {
        match self.initial.get(self.received) {
            Some(word) => {
                let word = *word;
                self.received += 1;
                word
            }
            None => match self.ring.pop_front() {
                Some(word) => word,
                None => unreachable!(),
            },
        }
    }

    /// Appends a word to the ring.
    pub fn append(&mut self, word: u32)
        requires { has_room self.old ≡ true }
        ensures { self.new ≡ with_word word self.old }
    {
        self.ring.push_back(word);
    }

    /// The initial words that were not yet received.
    pub fn left(&self, alloc: Global) -> Result<List<u32>, NoMemory>
        ensures { IfOk result (λ words. words ≡ self.now.left) }
    {
        match Vec::from_slice(alloc, &self.initial[self.received..]) {
            Ok(words) => Ok(List::of(words)),
            Err(_) => Err(NoMemory),
        }
    }

    /// The words that were sent or fed and not yet received.
    pub fn ring(&self, alloc: Global) -> Result<List<u32>, NoMemory>
        ensures { IfOk result (λ words. words ≡ self.now.ring) }
    {
        match self.ring.to_vec(alloc) {
            Ok(words) => Ok(List::of(words)),
            Err(_) => Err(NoMemory),
        }
    }

    /// Unplugs its port.
    pub fn unplug(&mut self)
        requires { has_plugged_port self.old ≡ true }
        ensures { self.new ≡ without_port self.old }
    {
        self.port = PortState::Unplugged;
    }
}

fn queue(
    alloc: Global,
    kind: ChannelKind,
    port: PortState,
    words: &[u32],
    capacity: u32,
) -> Result<ChannelQueue, NoMemory>
    ensures { IfOk result (λ queue. queue ≡ record { kind = kind; port = port; capacity = capacity; left = words.now; ring = [] }) }
{
    let Ok(initial) = Vec::from_slice(alloc, words) else {
        return Err(NoMemory);
    };
    let Ok(ring) = HeapCircularBuffer::with_capacity(alloc, capacity as usize) else {
        return Err(NoMemory);
    };
    Ok(ChannelQueue {
        kind,
        port,
        initial,
        received: 0,
        ring,
    })
}

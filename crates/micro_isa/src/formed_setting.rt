//! Whether a setting is formed, and whether an instruction fits its channels.

ghost use Rattle.std.specs.Prelude.{◌≡◌, ◌↔◌, IsTrue, nat_eq, nat_le, sum, map, false, option_map};
ghost use Rattle.std.specs.List.{list_any, list_all, filter_map};
ghost use Rattle.std.specs.Option.{option_map_or};
ghost use Rattle.micro_isa.specs.Formed.{IsFormedSetting, all_below, is_distinct, port_of, initial_count, is_ring_size, has_formed_ring, gives_words, takes_words, fits_channels};
ghost use Rattle.micro_isa.specs.FormedTests.{setting_test, setting_size_test, channel_test};

use crate::instr::Instr;
use crate::limits::{MOST_CHANNELS, MOST_INITIAL_WORDS, MOST_MEMORY, MOST_PORTS, MOST_RING};
use crate::operands::{Extra, operands_of};
use crate::program::{Channel, Setting};

impl Setting {
    /// Whether the setting is formed: what the calls that take one ask for.
    pub fn is_formed(&self) -> bool
        ensures { IsTrue result ↔ IsFormedSetting self.now }
    {
        passes(self)
    }
}

pub(crate) fn passes(setting: &Setting) -> bool
    ensures { result ≡ setting_test setting.now }
{
    has_formed_sizes(setting) && are_formed(setting.channels.as_slice())
}

fn has_formed_sizes(setting: &Setting) -> bool
    ensures { result ≡ setting_size_test setting.now }
{
    let channels = setting.channels.as_slice();
    setting.memory <= MOST_MEMORY && channels.len() <= MOST_CHANNELS && have_few_words(channels)
}

fn are_formed(channels: &[Channel]) -> bool
    ensures { result ≡ channel_test channels.now }
{
    have_formed_rings(channels) && have_ports_below(channels) && have_distinct_ports(channels)
}

fn have_formed_rings(channels: &[Channel]) -> bool
    ensures { result ≡ list_all has_formed_ring channels.now }
{
    channels.iter().all(|channel| has_formed_ring(channel))
}

fn has_formed_ring(channel: &Channel) -> bool
    ensures { result ≡ has_formed_ring channel.now }
{
    match channel {
        Channel::Inner { capacity } => is_ring_size(*capacity),
        Channel::Input {
            port: Some(port),
            ..
        } => is_ring_size(port.capacity),
        Channel::Input { port: None, .. } | Channel::Output { .. } => true,
    }
}

/// Whether a channel may have this capacity.
pub fn is_ring_size(capacity: u32) -> bool
    ensures { result ≡ is_ring_size capacity }
{
    1 <= capacity && capacity <= MOST_RING
}

/// The number of a channel's port, if it has one.
pub fn port_of(channel: &Channel) -> Option<u8>
    ensures { result ≡ port_of channel.now }
{
    match channel {
        Channel::Inner { .. } | Channel::Input { port: None, .. } => None,
        Channel::Input {
            port: Some(port),
            ..
        } => Some(port.number),
        Channel::Output { port } => *port,
    }
}

fn have_ports_below(channels: &[Channel]) -> bool
    ensures { result ≡ all_below MOST_PORTS (filter_map port_of channels.now) }
{
    channels
        .iter()
        .filter_map(|channel| port_of(channel))
        .all(|port| usize::from(port) < MOST_PORTS)
}

fn have_distinct_ports(channels: &[Channel]) -> bool
    ensures { result ≡ is_distinct nat_eq (filter_map port_of channels.now) }
{
    let mut rest = channels;
    while let Some((first, after)) = rest.split_first() {
        if have_port(after, port_of(first)) {
            return false;
        }
        rest = after;
    }
    true
}

fn have_port(channels: &[Channel], port: Option<u8>) -> bool
    ensures { result ≡ option_map_or (λ p. list_any (nat_eq p) (filter_map port_of channels.now)) port false }
{
    match port {
        Some(port) => uses_port(channels, port),
        None => false,
    }
}

/// Whether a channel has this port.
pub fn uses_port(channels: &[Channel], port: u8) -> bool
    ensures { result ≡ list_any (nat_eq port) (filter_map port_of channels.now) }
{
    channels
        .iter()
        .filter_map(|channel| port_of(channel))
        .any(|used| port == used)
}

fn have_few_words(channels: &[Channel]) -> bool
    ensures { result ≡ nat_le (sum (map initial_count channels.now)) MOST_INITIAL_WORDS }
{
    let mut left = MOST_INITIAL_WORDS;
    for channel in channels {
        let count = initial_count(channel);
        if left < count {
            return false;
        }
        left -= count;
    }
    true
}

/// How many initial words a channel has.
pub fn initial_count(channel: &Channel) -> usize
    ensures { result ≡ initial_count channel.now }
{
    match channel {
        Channel::Input { words, .. } => words.len(),
        _ => 0,
    }
}

/// Whether the channel that an instruction names, if any, is there and of the right kind.
pub fn fits_channels<R: Copy>(channels: &[Channel], instr: &Instr<R>) -> bool
    ensures { result ≡ fits_channels channels.now instr.now }
{
    match operands_of(instr).extra {
        Extra::Receive(channel) => gives_words(channels.get(channel as usize)),
        Extra::Send(channel) => takes_words(channels.get(channel as usize)),
        _ => true,
    }
}

/// Whether words are received from such a channel.
pub fn gives_words(channel: Option<&Channel>) -> bool
    ensures { result ≡ gives_words (option_map (λ c. c.now) channel.entry) }
{
    matches!(channel, Some(Channel::Inner { .. } | Channel::Input { .. }))
}

/// Whether words are sent to such a channel.
pub fn takes_words(channel: Option<&Channel>) -> bool
    ensures { result ≡ takes_words (option_map (λ c. c.now) channel.entry) }
{
    matches!(
        channel,
        Some(Channel::Inner { .. } | Channel::Output { .. })
    )
}

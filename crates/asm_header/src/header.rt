ghost use Rattle.std.specs.Prelude.{◌≡◌, ◌+◌, ◌++◌, ◌<◌, ◌≤◌, [], ◌∷◌, OnOk, Some, None, map};
ghost use Rattle.micro_isa.specs.declared.limits.TheConstants.{MOST_INITIAL_WORDS, MOST_PORTS};
ghost use Rattle.asm_lines.specs.Numbers.{number_or};
ghost use Rattle.asm_lines.specs.Tables.{words_seen, declare, place_of, one};
ghost use Rattle.asm_header.specs.Headers.{no_header, filled, filled_at, with_form, PortFits};
ghost use Rattle.asm_header.specs.Views.{seen_form, seen_header};
ghost use Rattle.micro_isa.specs.declared.program.Channel.TheVariants as channel_of;

use crate::form::HeaderForm;
use asm_lines::{declare, number_or, place_of};
use indexmap::IndexSet;
use micro_isa::{Channel, List, NoMemory, PortUse};
use std::alloc::Global;

/// What the lines before the first context say: sizes, the channels with their names, and how many initial
/// words there are in all.
#[derive(Drop)]
pub struct Header<'a> {
    pub file: Option<u32>,
    pub memory: Option<u32>,
    pub names: IndexSet<&'a [u8]>,
    pub channels: Vec<Channel>,
    pub words: usize,
}

pub fn no_header<'a>(alloc: Global) -> Header<'a>
    ensures { seen_header result ≡ no_header }
{
    Header {
        file: None,
        memory: None,
        names: IndexSet::new(alloc),
        channels: Vec::new(alloc),
        words: 0,
    }
}

fn push_numbers(words: &mut List<u32>, numbers: &[&[u8]]) -> Result<(), NoMemory>
    ensures { OnOk result (words.new ≡ words.old ++ map number_or (words_seen numbers.now)) }
{
    for number in numbers {
        match words.push(number_or(number)) {
            Ok(()) => {}
            Err(_) => return Err(NoMemory),
        }
    }
    Ok(())
}

fn fill(channel: &mut Channel, numbers: &[&[u8]]) -> Result<(), NoMemory>
    ensures { OnOk result (channel.new ≡ filled (map number_or (words_seen numbers.now)) channel.old) }
{
    match channel {
        Channel::Input { words, .. } => push_numbers(words, numbers),
        _ => Ok(()),
    }
}

fn fill_at(channels: &mut Vec<Channel>, at: usize, numbers: &[&[u8]]) -> Result<(), NoMemory>
    ensures { OnOk result (channels.new.items ≡ filled_at channels.old.items at (map number_or (words_seen numbers.now))) }
{
    match channels.get_mut(at) {
        Some(channel) => fill(channel, numbers),
        None => Ok(()),
    }
}

fn add_channel<'a>(
    names: &mut IndexSet<&'a [u8]>,
    channels: &mut Vec<Channel>,
    name: &'a [u8],
    channel: Channel,
) -> Result<(), NoMemory>
    ensures names { OnOk result (words_seen names.new.keys ≡ declare (words_seen names.old.keys) name.now) }
    ensures channels { OnOk result (channels.new.items ≡ channels.old.items ++ channel ∷ []) }
{
    declare(names, name)?;
    match channels.push(channel) {
        Ok(()) => Ok(()),
        Err(_) => Err(NoMemory),
    }
}

fn port_number(port: &[u8]) -> u8
    requires { number_or port.now < MOST_PORTS }
    ensures { result ≡ number_or port.now }
{
    number_or(port) as u8
}

fn port_input(alloc: Global, port: &[u8], capacity: &[u8]) -> Channel
    requires { number_or port.now < MOST_PORTS }
    ensures { result ≡ channel_of.Input [] (Some (record { number = number_or port.now; capacity = number_or capacity.now })) }
{
    Channel::Input {
        words: List::new(alloc),
        port: Some(PortUse {
            number: port_number(port),
            capacity: number_or(capacity),
        }),
    }
}

/// Notes one more line, whose port number, if it has one, is below 16.
pub fn note<'a>(
    alloc: Global,
    header: &mut Header<'a>,
    form: HeaderForm<'a, '_>,
) -> Result<(), NoMemory>
    requires port { PortFits (seen_form form) }
    requires words { header.old.words ≤ MOST_INITIAL_WORDS }
    ensures { OnOk result (seen_header header.new ≡ with_form (seen_header header.old) (seen_form form.entry)) }
{
    let names = &mut header.names;
    let channels = &mut header.channels;
    match form {
        HeaderForm::File { size } => {
            header.file = Some(number_or(size));
            Ok(())
        }
        HeaderForm::Memory { size } => {
            header.memory = Some(number_or(size));
            Ok(())
        }
        HeaderForm::Inner { name, capacity } => {
            let capacity = number_or(capacity);
            add_channel(names, channels, name, Channel::Inner { capacity })
        }
        HeaderForm::Input { name } => {
            let words = List::new(alloc);
            add_channel(names, channels, name, Channel::Input { words, port: None })
        }
        HeaderForm::PortInput {
            name,
            port,
            capacity,
        } => add_channel(names, channels, name, port_input(alloc, port, capacity)),
        HeaderForm::Output { name } => {
            add_channel(names, channels, name, Channel::Output { port: None })
        }
        HeaderForm::PortOutput { name, port } => {
            let port = Some(port_number(port));
            add_channel(names, channels, name, Channel::Output { port })
        }
        HeaderForm::Initial { name, numbers } => {
            header.words += numbers.len();
            let at = place_of(names, name);
            fill_at(channels, at, numbers)
        }
        _ => Ok(()),
    }
}

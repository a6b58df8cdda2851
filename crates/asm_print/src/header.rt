//! The lines before the first context.

ghost use Rattle.std.specs.Prelude.{◌≡◌, [], ◌∷◌, ◌++◌, Some, codes, decimal, map, OnOk};
ghost use Rattle.micro_isa.specs.declared.program.Channel.TheVariants.{Inner};
ghost use Rattle.asm_print.specs.Rows.{Flush, led_by, line_text, rows_text};
ghost use Rattle.asm_print.specs.Canonical.{words_rows, input_row, output_row, channel_rows, channels_rows, header_rows};

use crate::row::{put_flush, put_spaced};
use itoa::Buffer;
use micro_isa::{Bundle, Channel, List, Name, NoMemory, PortUse};
use micro_kit::{put_bytes, put_number};

pub(crate) fn put_header(text: &mut Vec<u8>, bundle: &Bundle) -> Result<(), NoMemory>
    ensures { OnOk result (text.new.items ≡ text.old.items ++ rows_text (header_rows bundle.now)) }
{
    put_number_line(text, b"file", bundle.file)?;
    put_number_line(text, b"memory", bundle.setting.memory)?;
    put_channels(
        text,
        bundle.names.as_slice(),
        bundle.setting.channels.as_slice(),
    )
}

fn put_number_line(text: &mut Vec<u8>, word: &[u8], n: u32) -> Result<(), NoMemory>
    ensures { OnOk result (text.new.items ≡ text.old.items ++ line_text (Flush (word.now ∷ decimal n ∷ []))) }
{
    let mut buffer = Buffer::new();
    put_flush(text, &[word, buffer.format(n).as_bytes()])
}

fn put_channels(text: &mut Vec<u8>, names: &[Name], channels: &[Channel]) -> Result<(), NoMemory>
    ensures { OnOk result (text.new.items ≡ text.old.items ++ rows_text (channels_rows names.now channels.now)) }
{
    for (name, channel) in names.iter().zip(channels) {
        put_channel(text, name.bytes(), channel)?;
    }
    Ok(())
}

fn put_channel(text: &mut Vec<u8>, name: &[u8], channel: &Channel) -> Result<(), NoMemory>
    ensures { OnOk result (text.new.items ≡ text.old.items ++ rows_text (channel_rows name.now channel.now)) }
{
    match channel {
        Channel::Inner { capacity } => put_inner(text, name, *capacity),
        Channel::Input { words, port } => {
            put_input(text, name, *port)?;
            put_words(text, name, words.as_slice())
        }
        Channel::Output { port } => put_output(text, name, *port),
    }
}

fn put_inner(text: &mut Vec<u8>, name: &[u8], capacity: u32) -> Result<(), NoMemory>
    ensures { OnOk result (text.new.items ≡ text.old.items ++ rows_text (channel_rows name.now (Inner capacity))) }
{
    let mut buffer = Buffer::new();
    put_flush(text, &[b"inner", name, buffer.format(capacity).as_bytes()])
}

fn put_input(text: &mut Vec<u8>, name: &[u8], port: Option<PortUse>) -> Result<(), NoMemory>
    ensures { OnOk result (text.new.items ≡ text.old.items ++ line_text (input_row name.now port)) }
{
    match port {
        None => put_flush(text, &[b"input", name]),
        Some(port) => put_input_port(text, name, port),
    }
}

fn put_input_port(text: &mut Vec<u8>, name: &[u8], port: PortUse) -> Result<(), NoMemory>
    ensures { OnOk result (text.new.items ≡ text.old.items ++ line_text (input_row name.now (Some port))) }
{
    let mut number = Buffer::new();
    let number = number.format(port.number).as_bytes();
    let mut capacity = Buffer::new();
    let capacity = capacity.format(port.capacity).as_bytes();
    put_flush(text, &[b"input", name, b"port", number, capacity])
}

fn put_output(text: &mut Vec<u8>, name: &[u8], port: Option<u8>) -> Result<(), NoMemory>
    ensures { OnOk result (text.new.items ≡ text.old.items ++ line_text (output_row name.now port)) }
{
    match port {
        None => put_flush(text, &[b"output", name]),
        Some(port) => put_output_port(text, name, port),
    }
}

fn put_output_port(text: &mut Vec<u8>, name: &[u8], port: u8) -> Result<(), NoMemory>
    ensures { OnOk result (text.new.items ≡ text.old.items ++ line_text (output_row name.now (Some port))) }
{
    let mut buffer = Buffer::new();
    put_flush(
        text,
        &[b"output", name, b"port", buffer.format(port).as_bytes()],
    )
}

/// The initial words of an input, where it has any.
fn put_words(text: &mut Vec<u8>, name: &[u8], words: &[u32]) -> Result<(), NoMemory>
    ensures { OnOk result (text.new.items ≡ text.old.items ++ rows_text (words_rows name.now words.now)) }
{
    if words.is_empty() {
        return Ok(());
    }
    put_spaced(text, &[b"words", name])?;
    put_numbers(text, words)?;
    put_bytes(text, b"\n")
}

/// Each number, behind a space.
fn put_numbers(text: &mut Vec<u8>, words: &[u32]) -> Result<(), NoMemory>
    ensures { OnOk result (text.new.items ≡ text.old.items ++ led_by (codes " ") (map decimal words.now)) }
{
    for n in words {
        put_bytes(text, b" ")?;
        put_number(text, *n)?;
    }
    Ok(())
}

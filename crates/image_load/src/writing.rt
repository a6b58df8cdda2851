//! Writes an image.

ghost use Rattle.std.specs.Prelude.{◌≡◌, ◌≤◌, ◌<◌, ◌^◌, ◌++◌, [], length, IfOk, OnOk};
ghost use Rattle.std.specs.List.{flat_map, AllByRecursion};
ghost use Rattle.byteorder.specs.Endian.{little_bytes};
ghost use Rattle.micro_isa.specs.Formed.{IsFormedImage, Each};
ghost use Rattle.micro_isa.specs.WordBytes.{word_bytes, FitsWord};
ghost use Rattle.image_load.specs.Spelling.{part_of, part_bytes, initial_words, number_bytes, channel_bytes, range_bytes, code_bytes, header_bytes, FitsChannel, FitsCode, Spells};
ghost use Rattle.image_load.specs.Writing.{IsSmallPart, IsSmallCode};

use crate::channels::Part;
use crate::header::MAGIC;
use byteorder::{ByteOrder, LittleEndian};
use micro_isa::{
    Channel, Code, Image, MOST_CHANNELS, MOST_CONTEXTS, MOST_FILE, NoMemory, Range, Word,
    encode_word,
};
use std::alloc::Global;

fn put(out: &mut Vec<u8>, bytes: &[u8]) -> Result<(), NoMemory>
    ensures { OnOk result (out.new.items ≡ out.old.items ++ bytes.now) }
{
    match out.extend_from_slice(bytes) {
        Ok(()) => Ok(()),
        Err(_) => Err(NoMemory),
    }
}

fn put_2(out: &mut Vec<u8>, n: u32) -> Result<(), NoMemory>
    requires { n < 65536 }
    ensures { OnOk result (out.new.items ≡ out.old.items ++ little_bytes 2 n) }
{
    let mut bytes = [0, 0];
    LittleEndian::write_u16(&mut bytes, n as u16);
    put(out, &bytes)
}

fn put_4(out: &mut Vec<u8>, n: u32) -> Result<(), NoMemory>
    ensures { OnOk result (out.new.items ≡ out.old.items ++ little_bytes 4 n) }
{
    let mut bytes = [0, 0, 0, 0];
    LittleEndian::write_u32(&mut bytes, n);
    put(out, &bytes)
}

fn put_range(out: &mut Vec<u8>, range: &Range) -> Result<(), NoMemory>
    requires start { range.now.start < 65536 }
    requires size { range.now.size < 65536 }
    ensures { OnOk result (out.new.items ≡ out.old.items ++ range_bytes range.now) }
{
    put_2(out, range.start)?;
    put_2(out, range.size)
}

/// No bytes yet, and room for so many.
fn with_room(alloc: Global, size: usize) -> Result<Vec<u8>, NoMemory>
    ensures { IfOk result (λ v. v.items ≡ []) }
{
    match Vec::with_capacity(alloc, size) {
        Ok(out) => Ok(out),
        Err(_) => Err(NoMemory),
    }
}

/// The number of bytes that an image spells, as room to reserve: nothing rests on it.
fn size_of(image: &Image) -> usize {
    let mut size = 20usize;
    for channel in image.setting.channels.as_slice() {
        let words = initial_words(channel).len().saturating_mul(4);
        size = size.saturating_add(8).saturating_add(words);
    }
    for code in image.contexts.as_slice() {
        let words = code.words.len().saturating_mul(12);
        size = size.saturating_add(8).saturating_add(words);
    }
    size
}

fn put_header(out: &mut Vec<u8>, image: &Image) -> Result<(), NoMemory>
    requires contexts { length image.now.contexts ≤ MOST_CONTEXTS }
    requires channels { length image.now.setting.channels ≤ MOST_CHANNELS }
    requires file { image.now.file ≤ MOST_FILE }
    requires start { image.now.shared.start ≤ MOST_FILE }
    requires size { image.now.shared.size ≤ MOST_FILE }
    ensures { OnOk result (out.new.items ≡ out.old.items ++ header_bytes image.now) }
{
    put_4(out, MAGIC)?;
    put_2(out, 1)?;
    put_2(out, image.contexts.len() as u32)?;
    put_2(out, image.file)?;
    put_2(out, image.setting.channels.len() as u32)?;
    put_4(out, image.setting.memory)?;
    put_range(out, &image.shared)
}

fn part_of(channel: &Channel) -> Part
    requires { IsSmallPart channel.now }
    ensures { result ≡ part_of channel.now }
{
    match channel {
        Channel::Inner { capacity } => part(0, 255, *capacity, 0),
        Channel::Input { words, port: None } => part(1, 255, 0, words.len() as u32),
        Channel::Input {
            words,
            port: Some(port),
        } => part(1, port.number, port.capacity, words.len() as u32),
        Channel::Output { port: None } => part(2, 255, 0, 0),
        Channel::Output { port: Some(port) } => part(2, *port, 0, 0),
    }
}

fn part(kind: u8, port: u8, capacity: u32, count: u32) -> Part
    ensures { result ≡ record { kind = kind; port = port; capacity = capacity; count = count } }
{
    Part {
        kind,
        port,
        capacity,
        count,
    }
}

fn initial_words(channel: &Channel) -> &[u32]
    ensures { result.now ≡ initial_words channel.now }
{
    match channel {
        Channel::Input { words, .. } => words.as_slice(),
        _ => &[],
    }
}

fn put_part(out: &mut Vec<u8>, part: &Part) -> Result<(), NoMemory>
    requires { part.now.capacity < 65536 }
    ensures { OnOk result (out.new.items ≡ out.old.items ++ part_bytes part.now) }
{
    put(out, &[part.kind, part.port])?;
    put_2(out, part.capacity)?;
    put_4(out, part.count)
}

fn put_numbers(out: &mut Vec<u8>, numbers: &[u32]) -> Result<(), NoMemory>
    ensures bytes { OnOk result (out.new.items ≡ out.old.items ++ flat_map number_bytes numbers.now) }
    ensures fits { OnOk result (AllByRecursion (λ n. n < 2 ^ 32) numbers.now) }
{
    for number in numbers {
        put_4(out, *number)?;
    }
    Ok(())
}

fn put_channel(out: &mut Vec<u8>, channel: &Channel) -> Result<(), NoMemory>
    requires { IsSmallPart channel.now }
    ensures bytes { OnOk result (out.new.items ≡ out.old.items ++ channel_bytes channel.now) }
    ensures fits { OnOk result (FitsChannel channel.now) }
{
    put_part(out, &part_of(channel))?;
    put_numbers(out, initial_words(channel))
}

fn put_channels(out: &mut Vec<u8>, channels: &[Channel]) -> Result<(), NoMemory>
    requires { Each channels.now IsSmallPart }
    ensures bytes { OnOk result (out.new.items ≡ out.old.items ++ flat_map channel_bytes channels.now) }
    ensures fits { OnOk result (AllByRecursion FitsChannel channels.now) }
{
    for channel in channels {
        put_channel(out, channel)?;
    }
    Ok(())
}

fn put_word(out: &mut Vec<u8>, word: &Word) -> Result<(), NoMemory>
    ensures bytes { OnOk result (out.new.items ≡ out.old.items ++ word_bytes word.now) }
    ensures fits { FitsWord word.now }
{
    put(out, &encode_word(word))
}

fn put_words(out: &mut Vec<u8>, words: &[Word]) -> Result<(), NoMemory>
    ensures bytes { OnOk result (out.new.items ≡ out.old.items ++ flat_map word_bytes words.now) }
    ensures fits { OnOk result (AllByRecursion FitsWord words.now) }
{
    for word in words {
        put_word(out, word)?;
    }
    Ok(())
}

fn put_code(out: &mut Vec<u8>, code: &Code) -> Result<(), NoMemory>
    requires { IsSmallCode code.now }
    ensures bytes { OnOk result (out.new.items ≡ out.old.items ++ code_bytes code.now) }
    ensures fits { OnOk result (FitsCode code.now) }
{
    put_range(out, &code.private)?;
    put_4(out, code.words.len() as u32)?;
    put_words(out, code.words.as_slice())
}

fn put_codes(out: &mut Vec<u8>, codes: &[Code]) -> Result<(), NoMemory>
    requires { Each codes.now IsSmallCode }
    ensures bytes { OnOk result (out.new.items ≡ out.old.items ++ flat_map code_bytes codes.now) }
    ensures fits { OnOk result (AllByRecursion FitsCode codes.now) }
{
    for code in codes {
        put_code(out, code)?;
    }
    Ok(())
}

/// The bytes that spell a formed image, laid out as `docs/FORMATS.md` says: no others do.
pub fn write_image(alloc: Global, image: &Image) -> Result<Vec<u8>, NoMemory>
    requires formed { IsFormedImage image.now }
    ensures { IfOk result (λ v. Spells v.items image.now) }
{
    let mut out = with_room(alloc, size_of(image))?;
    put_header(&mut out, image)?;
    put_channels(&mut out, image.setting.channels.as_slice())?;
    put_codes(&mut out, image.contexts.as_slice())?;
    Ok(out)
}

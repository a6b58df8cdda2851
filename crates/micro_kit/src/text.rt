//! Pieces of text that are appended. After a refusal a part of the piece may stand in the text.

ghost use Rattle.std.specs.Prelude.{◌≡◌, ◌++◌, decimal, OnOk};
ghost use Rattle.micro_kit.specs.Text.{numbers, number_line};

use crate::number::put_number;
use itoa::Buffer;
use micro_isa::NoMemory;

/// Appends bytes.
pub fn put_bytes(text: &mut Vec<u8>, bytes: &[u8]) -> Result<(), NoMemory>
    ensures { OnOk result (text.new.items ≡ text.old.items ++ bytes.now) }
{
    text.extend_from_slice(bytes).map_err(|_| NoMemory)
}

/// Appends the decimal text of a place or a count.
pub fn put_count(text: &mut Vec<u8>, n: usize) -> Result<(), NoMemory>
    ensures { OnOk result (text.new.items ≡ text.old.items ++ decimal n) }
{
    let mut buffer = Buffer::new();
    put_bytes(text, buffer.format(n).as_bytes())
}

/// Appends a word and a number, with nothing between.
pub fn put_named(text: &mut Vec<u8>, word: &[u8], n: u32) -> Result<(), NoMemory>
    ensures { OnOk result (text.new.items ≡ text.old.items ++ (word.now ++ decimal n)) }
{
    put_bytes(text, word)?;
    put_number(text, n)
}

/// Appends each number, after a space.
pub fn put_numbers(text: &mut Vec<u8>, words: &[u32]) -> Result<(), NoMemory>
    ensures { OnOk result (text.new.items ≡ text.old.items ++ numbers words.now) }
{
    for n in words {
        put_bytes(text, b" ")?;
        put_number(text, *n)?;
    }
    Ok(())
}

/// Appends a line of a word and a number.
pub fn put_number_line(text: &mut Vec<u8>, word: &[u8], n: u32) -> Result<(), NoMemory>
    ensures { OnOk result (text.new.items ≡ text.old.items ++ number_line word.now n) }
{
    put_bytes(text, word)?;
    put_number(text, n)?;
    put_bytes(text, b"\n")
}

/// Appends a line of a word and a count.
pub fn put_count_line(text: &mut Vec<u8>, word: &[u8], n: usize) -> Result<(), NoMemory>
    ensures { OnOk result (text.new.items ≡ text.old.items ++ number_line word.now n) }
{
    put_bytes(text, word)?;
    put_count(text, n)?;
    put_bytes(text, b"\n")
}

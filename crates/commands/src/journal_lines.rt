//! The lines that tell why a journal is refused.

ghost use Rattle.std.specs.Prelude.{◌≡◌, IfOk};
ghost use Rattle.commands.specs.Journals.{unread_line, illegal_line, differs_line};

use journal_text::put_entry_words;
use micro_isa::NoMemory;
use micro_kit::{put_bytes, put_named};
use std::alloc::Global;
use world::Entry;

pub(crate) fn unread_line(alloc: Global, at: u32) -> Result<Vec<u8>, NoMemory>
    ensures { IfOk result (λ line. line.items ≡ unread_line at) }
{
    let mut text = Vec::new(alloc);
    put_named(&mut text, b"journal ", at)?;
    put_bytes(&mut text, b" reading\n")?;
    Ok(text)
}

pub(crate) fn illegal_line(alloc: Global, at: u32, written: Entry) -> Result<Vec<u8>, NoMemory>
    ensures { IfOk result (λ line. line.items ≡ illegal_line at written) }
{
    let mut text = Vec::new(alloc);
    put_named(&mut text, b"journal ", at)?;
    put_bytes(&mut text, b" illegal ")?;
    put_entry_words(&mut text, &written)?;
    put_bytes(&mut text, b"\n")?;
    Ok(text)
}

pub(crate) fn differs_line(
    alloc: Global,
    at: u32,
    written: Entry,
    found: Entry,
) -> Result<Vec<u8>, NoMemory>
    ensures { IfOk result (λ line. line.items ≡ differs_line at written found) }
{
    let mut text = Vec::new(alloc);
    put_named(&mut text, b"journal ", at)?;
    put_bytes(&mut text, b" differs ")?;
    put_entry_words(&mut text, &written)?;
    put_bytes(&mut text, b" found ")?;
    put_entry_words(&mut text, &found)?;
    put_bytes(&mut text, b"\n")?;
    Ok(text)
}

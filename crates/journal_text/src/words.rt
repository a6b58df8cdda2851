//! Entries read from their lines.

ghost use Rattle.std.specs.Prelude.{◌≡◌, IfSome, IfNone, option_map};
ghost use Rattle.journal_text.specs.Entries.{entry_words, IsFitting, IsNoEntry};
ghost use Rattle.journal_text.specs.Reading.{after, plain_number, byte_number, trapped_of, end_of, stretch_of, ran_of, fed_of, unplugged_of, entry_of};

use crate::lines::cut;
use micro_kit::read_number;
use world::{Entry, SegmentEnd, Trap};

/// The entry that a line tells. Numbers are decimal, without leading zeros.
#[tactic(auto, using(crate::proofs::Spelling::some_entry, crate::proofs::Spelling::none_entry))]
pub fn read_entry(line: &[u8]) -> Option<Entry>
    ensures some { IfSome result (λ e. IsFitting e × (line.now ≡ entry_words e)) }
    ensures none { IfNone result (IsNoEntry line.now) }
{
    entry_of(line)
}

fn entry_of(line: &[u8]) -> Option<Entry>
    ensures { result ≡ entry_of line.now }
{
    if let Some(rest) = after(line, b"run ") {
        return ran_of(rest);
    }
    if let Some(rest) = after(line, b"feed ") {
        return fed_of(rest);
    }
    match after(line, b"unplug ") {
        Some(rest) => unplugged_of(rest),
        None => None,
    }
}

/// What follows these bytes, where a text begins with them.
pub(crate) fn after<'a>(text: &'a [u8], prefix: &[u8]) -> Option<&'a [u8]>
    ensures { option_map (λ rest. rest.now) result ≡ after prefix.now text.now }
{
    text.strip_prefix(prefix)
}

fn ran_of(text: &[u8]) -> Option<Entry>
    ensures { result ≡ ran_of text.now }
{
    let (context, rest) = cut(text, b' ')?;
    let context = plain_number(context)?;
    let (steps, end) = stretch_of(rest)?;
    Some(Entry::Ran {
        context,
        steps,
        end,
    })
}

fn stretch_of(text: &[u8]) -> Option<(u32, SegmentEnd)>
    ensures { result ≡ stretch_of text.now }
{
    let (steps, end) = cut(text, b' ')?;
    let steps = plain_number(steps)?;
    let end = end_of(end)?;
    Some((steps, end))
}

fn fed_of(text: &[u8]) -> Option<Entry>
    ensures { result ≡ fed_of text.now }
{
    let (channel, word) = cut(text, b' ')?;
    let channel = byte_number(channel)?;
    let word = plain_number(word)?;
    Some(Entry::Fed { channel, word })
}

fn unplugged_of(text: &[u8]) -> Option<Entry>
    ensures { result ≡ unplugged_of text.now }
{
    let channel = byte_number(text)?;
    Some(Entry::Unplugged { channel })
}

pub(crate) fn plain_number(word: &[u8]) -> Option<u32>
    ensures { result ≡ plain_number word.now }
{
    match word {
        [b'0', _, ..] => None,
        _ => read_number(word),
    }
}

fn byte_number(word: &[u8]) -> Option<u8>
    ensures { result ≡ byte_number word.now }
{
    let n = plain_number(word)?;
    u8::try_from(n).ok()
}

fn end_of(word: &[u8]) -> Option<SegmentEnd>
    ensures { result ≡ end_of word.now }
{
    if word == b"load".as_slice() {
        return Some(SegmentEnd::Load);
    }
    if word == b"store".as_slice() {
        return Some(SegmentEnd::Store);
    }
    if word == b"yield".as_slice() {
        return Some(SegmentEnd::Yield);
    }
    if word == b"recv".as_slice() {
        return Some(SegmentEnd::Recv);
    }
    if word == b"send".as_slice() {
        return Some(SegmentEnd::Send);
    }
    if word == b"halt".as_slice() {
        return Some(SegmentEnd::Halt);
    }
    if word == b"bound".as_slice() {
        return Some(SegmentEnd::Bound);
    }
    trapped_of(word)
}

fn trapped_of(word: &[u8]) -> Option<SegmentEnd>
    ensures { result ≡ trapped_of word.now }
{
    if word == b"divide".as_slice() {
        return Some(SegmentEnd::Trap(Trap::Divide));
    }
    if word == b"address".as_slice() {
        return Some(SegmentEnd::Trap(Trap::Address));
    }
    None
}

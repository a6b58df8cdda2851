//! The first entry of a text.

ghost use Rattle.std.specs.Prelude.{◌≡◌, ◌<◌, ◌++◌, ◌∷◌, ◌^◌, decimal, length, IfSome, IfNone};
ghost use Rattle.world.specs.declared.event.Entry.TheVariants.{Ran};
ghost use Rattle.journal_text.specs.Entries.{end_word};
ghost use Rattle.journal_text.specs.Firsts.{IsFirstEntry, BeginsAstray};

use crate::lines::{cut, first_line};
use crate::words::{after, plain_number, read_entry};
use world::{Entry, SegmentEnd, Trap};

/// The entry of a text's first line, and the text behind that line; none exactly where the line is no
/// entry.
#[inline(always)]
pub fn first_entry<'a>(text: &'a [u8]) -> Option<(Entry, &'a [u8])>
    requires { 0 < length text.now }
    ensures some { IfSome result (λ p. IsFirstEntry text.now p.0 p.1.now) }
    ensures none { IfNone result (BeginsAstray text.now) }
{
    let Some((context, steps, end, behind)) = ran_front(text) else {
        return line_first(text);
    };
    let entry = Entry::Ran {
        context,
        steps,
        end,
    };
    Some((entry, behind))
}

/// The same, by the first line as a whole.
#[inline(never)]
#[tactic(auto, using(crate::proofs::Fronts::line_first, crate::proofs::Fronts::line_astray))]
fn line_first<'a>(text: &'a [u8]) -> Option<(Entry, &'a [u8])>
    requires { 0 < length text.now }
    ensures some { IfSome result (λ p. IsFirstEntry text.now p.0 p.1.now) }
    ensures none { IfNone result (BeginsAstray text.now) }
{
    let (line, behind) = first_line(text);
    match read_entry(line) {
        Some(entry) => Some((entry, behind)),
        None => None,
    }
}

/// The context, the steps and the end of a segment whose line a newline ends, read from front to back, as
/// most lines of a journal can be, and the text behind the line. None says nothing of the line.
#[inline(always)]
fn ran_front<'a>(text: &'a [u8]) -> Option<(u32, u32, SegmentEnd, &'a [u8])>
    ensures { IfSome result (λ p. IsFirstEntry text.now (Ran p.0 p.1 p.2) p.3.now) }
{
    let rest = after(text, b"run ")?;
    let (context, rest) = number_front(rest)?;
    let (steps, rest) = number_front(rest)?;
    let (end, behind) = end_front(rest)?;
    Some((context, steps, end, behind))
}

/// The number before the first space, and the text behind it. Most numbers of a journal have one digit.
#[inline(always)]
fn number_front<'a>(text: &'a [u8]) -> Option<(u32, &'a [u8])>
    ensures { IfSome result (λ p. (p.0 < 2 ^ 32) × (text.now ≡ decimal p.0 ++ (32 ∷ p.1.now))) }
{
    match text {
        [digit @ b'0'..=b'9', b' ', rest @ ..] => Some(((*digit - b'0') as u32, rest)),
        _ => wide_front(text),
    }
}

/// The same for a number of any width.
#[tactic(auto, using(crate::proofs::Fronts::number_front))]
fn wide_front<'a>(text: &'a [u8]) -> Option<(u32, &'a [u8])>
    ensures { IfSome result (λ p. (p.0 < 2 ^ 32) × (text.now ≡ decimal p.0 ++ (32 ∷ p.1.now))) }
{
    let (word, rest) = cut(text, b' ')?;
    let n = plain_number(word)?;
    Some((n, rest))
}

/// The end that a text names before its first newline, and the text behind it. None says nothing: the
/// bound ends one segment of a run at most.
#[inline(always)]
#[tactic(auto, using(crate::proofs::Fronts::end_front))]
fn end_front<'a>(text: &'a [u8]) -> Option<(SegmentEnd, &'a [u8])>
    ensures { IfSome result (λ p. text.now ≡ end_word p.0 ++ (10 ∷ p.1.now)) }
{
    if let Some(behind) = after(text, b"load\n") {
        return Some((SegmentEnd::Load, behind));
    }
    if let Some(behind) = after(text, b"yield\n") {
        return Some((SegmentEnd::Yield, behind));
    }
    if let Some(behind) = after(text, b"send\n") {
        return Some((SegmentEnd::Send, behind));
    }
    if let Some(behind) = after(text, b"recv\n") {
        return Some((SegmentEnd::Recv, behind));
    }
    match after(text, b"store\n") {
        Some(behind) => Some((SegmentEnd::Store, behind)),
        None => None,
    }
}

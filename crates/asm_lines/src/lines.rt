ghost use Rattle.std.specs.Prelude.{◌≡◌, ◌<◌, ◌≤◌, ◌∷◌, [], length, MatchOption};
ghost use Rattle.asm_lines.specs.Cutting.{lines_from, text_lines};
ghost use Rattle.asm_lines.specs.Sections.{IsDone, Takes, IsAtEnd, TakesInside};

use crate::cutting::Row;
use std::marker::Model;

/// The lines of a text that are still to be read. Each is cut as it is asked for, and none is kept.
#[derive(Drop)]
pub struct Lines<'a> {
    rest: &'a [u8],
    number: u32,
}

impl<'a> Model for Lines<'a> {
    ghost use Rattle.std.specs.Prelude.{[], ◌+◌, ◌≤◌, length};
    ghost use Rattle.asm_lines.specs.Cutting.{lines_from, numbered};
    ghost use Rattle.asm_lines.specs.Sections.{LinesLeft};

    ghost Value = { LinesLeft };

    ghost view = { λ l. record { number = l.number; lines = numbered l.number (lines_from [] l.rest.now) } };

    ghost invariant = { λ l. l.number + length l.rest.now ≤ 4294967295 };
}

impl<'a> Lines<'a> {
    /// The lines of a text, from its first one on.
    #[tactic(auto, using(crate::proofs::Counting::few_lines))]
    pub fn of(text: &'a [u8]) -> Lines<'a>
        requires { length text.now < 4294967295 }
        ensures lines { result ≡ record { number = 1; lines = text_lines text.now } }
        ensures few { length (text_lines text.now) ≤ length text.now }
    {
        Lines {
            rest: text,
            number: 1,
        }
    }

    /// The same lines, to be read once more.
    #[inline(always)]
    pub fn again(&self) -> Lines<'a>
        ensures { result ≡ self.now }
    {
        Lines {
            rest: self.rest,
            number: self.number,
        }
    }

    /// The number of the next line, or of the line after the last.
    #[inline(always)]
    pub fn number(&self) -> u32
        ensures { result ≡ self.now.number }
    {
        self.number
    }

    /// The next line.
    #[inline(always)]
    pub fn next(&mut self) -> Option<Row<'a>>
        ensures { MatchOption result (IsDone self.old self.new) (λ row. Takes self.old row self.new) }
    {
        if self.rest.is_empty() {
            return None;
        }
        let (line, rest) = first_line(self.rest);
        let row = Row::of(self.number, line);
        self.rest = rest;
        self.number += 1;
        Some(row)
    }

    /// The next line, where it begins no context.
    #[inline(always)]
    pub fn next_inside(&mut self) -> Option<Row<'a>>
        ensures { MatchOption result (IsAtEnd self.old self.new) (λ row. TakesInside self.old row self.new) }
    {
        let mut after = self.again();
        let Some(row) = after.next() else {
            return None;
        };
        if row.starts() {
            return None;
        }
        *self = after;
        Some(row)
    }
}

/// A text's first line, and what follows it.
#[inline(always)]
fn first_line<'a>(text: &'a [u8]) -> (&'a [u8], &'a [u8])
    requires { 0 < length text.now }
    ensures cut { lines_from [] text.now ≡ result.0.now ∷ lines_from [] result.1.now }
    ensures less { length result.1.now < length text.now }
{
    for i in 0..text.len() {
        if text[i] == b'\n' {
            return (&text[..i], &text[i + 1..]);
        }
    }
    (text, &text[text.len()..])
}

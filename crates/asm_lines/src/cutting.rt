ghost use Rattle.std.specs.Prelude.{◌≡◌, ◌∷◌, [], IfOk, MatchOption};
ghost use Rattle.std.specs.List.{list_all};
ghost use Rattle.asm_lines.specs.Cutting.{is_gap, is_allowed, told, words_from, line_of};
ghost use Rattle.asm_lines.specs.Heads.{has_some, head_of, seen_head};
ghost use Rattle.asm_lines.specs.Sections.{starts};
ghost use Rattle.asm_lines.specs.Tables.{words_seen};

use micro_isa::NoMemory;
use smallvec::SmallVec;
use std::alloc::Global;
use std::marker::Model;

/// A line of a text: its number, counted from 1, and its bytes. Its words are cut as they are asked for.
#[derive(Drop)]
pub struct Row<'a> {
    number: u32,
    line: &'a [u8],
}

impl<'a> Model for Row<'a> {
    ghost use Rattle.asm_lines.specs.Cutting.{TextLine, line_of};

    ghost Value = { TextLine };

    ghost view = { λ r. line_of r.number r.line.now };
}

/// The words of a line.
#[derive(Drop)]
pub struct LineWords<'a> {
    words: SmallVec<&'a [u8], 4, Global>,
}

impl<'a> Model for LineWords<'a> {
    ghost use Rattle.asm_lines.specs.Cutting.{Words};
    ghost use Rattle.asm_lines.specs.Tables.{words_seen};

    ghost Value = { Words };

    ghost view = { λ w. words_seen w.words.items };
}

impl<'a> LineWords<'a> {
    #[inline(always)]
    pub fn as_slice(&self) -> &[&'a [u8]]
        ensures { words_seen result.now ≡ self.now }
    {
        self.words.as_slice()
    }
}

/// The first word of a line, and whether it has another.
#[derive(Clone, Copy)]
pub struct Head<'a> {
    pub first: Option<&'a [u8]>,
    pub more: bool,
}

impl<'a> Row<'a> {
    /// The line of these bytes.
    #[inline(always)]
    pub(crate) fn of(number: u32, line: &'a [u8]) -> Row<'a>
        ensures { result ≡ line_of number line.now }
    {
        Row { number, line }
    }

    /// The number of the line, counted from 1.
    #[inline(always)]
    pub fn number(&self) -> u32
        ensures { result ≡ self.now.number }
    {
        self.number
    }

    /// Whether all bytes of the line are allowed, those of a comment too.
    #[inline(always)]
    pub fn fair(&self) -> bool
        ensures { result ≡ self.now.fair }
    {
        are_allowed(self.line)
    }

    /// The words of the line up to its comment.
    #[inline(always)]
    pub fn words(&self, alloc: Global) -> Result<LineWords<'a>, NoMemory>
        ensures { IfOk result (λ words. words ≡ self.now.words) }
    {
        let words = words_of(alloc, self.line)?;
        Ok(LineWords { words })
    }

    /// The first word of the line, and whether it has another.
    #[inline(always)]
    pub fn head(&self) -> Head<'a>
        ensures { seen_head result ≡ head_of self.now.words }
    {
        match split_word(self.line) {
            None => Head {
                first: None,
                more: false,
            },
            Some((first, rest)) => Head {
                first: Some(first),
                more: has_word(rest),
            },
        }
    }

    /// Whether the line begins a context.
    #[inline(always)]
    pub fn starts(&self) -> bool
        ensures { result ≡ starts self.now.words }
    {
        match split_word(self.line) {
            None => false,
            Some((first, _)) => first == b"context".as_slice(),
        }
    }
}

#[inline(always)]
fn is_gap(c: u8) -> bool
    ensures { result ≡ is_gap c }
{
    c == b' ' || c == b'\t' || c == b','
}

#[inline(always)]
fn is_allowed(c: u8) -> bool
    ensures { result ≡ is_allowed c }
{
    c == b'\t' || (32 <= c && c <= 126)
}

/// All bytes are looked at, whatever the first ones are: the walk has no exit that a compiler must keep.
#[inline(always)]
fn are_allowed(line: &[u8]) -> bool
    ensures { result ≡ list_all is_allowed line.now }
{
    let mut fair = true;
    for c in line {
        fair &= is_allowed(*c);
    }
    fair
}

/// The first word of a line, and what follows it.
#[inline(always)]
fn split_word<'a>(line: &'a [u8]) -> Option<(&'a [u8], &'a [u8])>
    ensures { MatchOption result (words_from [] (told line.now) ≡ []) (λ r. words_from [] (told line.now) ≡ r.0.now ∷ words_from [] (told r.1.now)) }
{
    let mut start = 0;
    for i in 0..line.len() {
        if line[i] == b'#' {
            return if start < i {
                Some((&line[start..i], &line[i..]))
            } else {
                None
            };
        }
        if !is_gap(line[i]) {
            continue;
        }
        if start < i {
            return Some((&line[start..i], &line[i + 1..]));
        }
        start = i + 1;
    }
    if start < line.len() {
        Some((&line[start..], &line[line.len()..]))
    } else {
        None
    }
}

#[inline(always)]
fn has_word(line: &[u8]) -> bool
    ensures { result ≡ has_some (words_from [] (told line.now)) }
{
    split_word(line).is_some()
}

/// The words of a line up to its comment.
#[inline(always)]
fn words_of<'a>(alloc: Global, line: &'a [u8]) -> Result<SmallVec<&'a [u8], 4, Global>, NoMemory>
    ensures { IfOk result (λ v. words_seen v.items ≡ words_from [] (told line.now)) }
{
    let mut words = SmallVec::new(alloc);
    let mut rest = line;
    'words: while let Some((word, behind)) = split_word(rest) {
        match words.push(word) {
            Ok(()) => {}
            Err(_) => return Err(NoMemory),
        }
        rest = behind;
    }
    Ok(words)
}

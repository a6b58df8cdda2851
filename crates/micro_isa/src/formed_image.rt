//! Whether a word or an image is formed.

ghost use Rattle.std.specs.Prelude.{◌≡◌, ◌↔◌, ◌-◌, ◌+◌, true, IsTrue, Some, length, slice_get};
ghost use Rattle.std.specs.List.{list_all};
ghost use Rattle.std.specs.Option.{option_map};
ghost use Rattle.micro_isa.specs.Formed.{IsFormedImage, lies_in, are_apart, is_glue, is_counted_at, goes_to_counted, glue_fits, writes_within, last_never_falls};
ghost use Rattle.micro_isa.specs.FormedTests.{word_test, code_test, code_size_test, image_test, image_size_test, codes_apart, range_test};

use crate::arithmetic::AluOp;
use crate::formed_setting;
use crate::formed_setting::fits_channels;
use crate::image::{Code, Image, PReg, Range, Word};
use crate::instr::{Instr, writes};
use crate::limits::{MOST_CONTEXTS, MOST_FILE, MOST_WORDS};
use crate::numbers::{names_below, never_falls};

impl Word {
    /// Whether the word is formed. Each word is: its instruction has just its own fields.
    pub fn is_formed(&self) -> bool
        ensures { result ≡ true }
    {
        true
    }
}

impl Image {
    /// Whether the image is formed: what the calls that take one ask for.
    pub fn is_formed(&self) -> bool
        ensures { IsTrue result ↔ IsFormedImage self.now }
    {
        passes(self)
    }
}

fn passes(image: &Image) -> bool
    ensures { result ≡ image_test image.now }
{
    has_formed_sizes(image)
        && has_formed_ranges(image)
        && formed_setting::passes(&image.setting)
        && all_codes_pass(image, image.contexts.as_slice())
}

fn has_formed_sizes(image: &Image) -> bool
    ensures { result ≡ image_size_test image.now }
{
    let contexts = image.contexts.len();
    1 <= image.file && image.file <= MOST_FILE && 1 <= contexts && contexts <= MOST_CONTEXTS
}

fn has_formed_ranges(image: &Image) -> bool
    ensures { result ≡ range_test image.now }
{
    let contexts = image.contexts.as_slice();
    end(&image.shared) <= u64::from(image.file)
        && is_apart_from_all(&image.shared, contexts)
        && are_all_apart(contexts)
}

fn all_codes_pass(image: &Image, contexts: &[Code]) -> bool
    ensures { result ≡ list_all (code_test image.now) contexts.now }
{
    contexts.iter().all(|code| code_passes(image, code))
}

/// The number of the register behind a range's last one.
fn end(range: &Range) -> u64
    ensures { result ≡ range.now.start + range.now.size }
{
    u64::from(range.start) + u64::from(range.size)
}

fn are_all_apart(contexts: &[Code]) -> bool
    ensures { result ≡ codes_apart contexts.now }
{
    let mut rest = contexts;
    while let Some((first, after)) = rest.split_first() {
        if !is_apart_from_all(&first.private, after) {
            return false;
        }
        rest = after;
    }
    true
}

fn is_apart_from_all(range: &Range, contexts: &[Code]) -> bool
    ensures { result ≡ list_all (λ code. are_apart range.now code.private) contexts.now }
{
    contexts.iter().all(|code| are_apart(range, &code.private))
}

/// Whether two ranges have no register in common; an empty one meets none.
pub fn are_apart(a: &Range, b: &Range) -> bool
    ensures { result ≡ are_apart a.now b.now }
{
    a.size == 0 || b.size == 0 || end(a) <= u64::from(b.start) || end(b) <= u64::from(a.start)
}

fn code_passes(image: &Image, code: &Code) -> bool
    ensures { result ≡ code_test image.now code.now }
{
    let words = code.words.as_slice();
    has_formed_size(image, code) && all_words_pass(image, code, words) && has_formed_end(words)
}

fn has_formed_size(image: &Image, code: &Code) -> bool
    ensures { result ≡ code_size_test image.now code.now }
{
    let size = code.words.len();
    1 <= size && size <= MOST_WORDS && end(&code.private) <= u64::from(image.file)
}

fn all_words_pass(image: &Image, code: &Code, words: &[Word]) -> bool
    ensures { result ≡ list_all (word_test image.now code.now) words.now }
{
    words.iter().all(|word| word_passes(image, code, word))
}

fn word_passes(image: &Image, code: &Code, word: &Word) -> bool
    ensures { result ≡ word_test image.now code.now word.now }
{
    let words = code.words.as_slice();
    names_below(&word.instr, image.file as usize, words.len())
        && writes_within(&code.private, &image.shared, writes(&word.instr))
        && glue_fits(words, word)
        && fits_channels(image.setting.channels.as_slice(), &word.instr)
}

/// Whether the register written, if any, lies in one of these ranges.
pub fn writes_within(own: &Range, shared: &Range, written: Option<PReg>) -> bool
    ensures { result ≡ writes_within own.now shared.now written }
{
    match written {
        Some(register) => lies_in(own, register) || lies_in(shared, register),
        None => true,
    }
}

fn lies_in(range: &Range, register: PReg) -> bool
    ensures { result ≡ lies_in range.now register.0 }
{
    range.start <= u32::from(register.0) && u64::from(register.0) < end(range)
}

fn glue_fits(words: &[Word], word: &Word) -> bool
    ensures { result ≡ glue_fits words.now word.now }
{
    word.counted || (is_glue(&word.instr) && goes_to_counted(words, &word.instr))
}

/// Whether a word that is not counted may hold the instruction: a move, an exclusive or, or a jump.
pub fn is_glue(instr: &Instr<PReg>) -> bool
    ensures { result ≡ is_glue instr.now }
{
    matches!(
        instr,
        Instr::Mov { .. } | Instr::Alu { op: AluOp::Xor, .. } | Instr::Jmp { .. }
    )
}

/// Whether an instruction, where it is a jump, goes to a counted word.
pub fn goes_to_counted(words: &[Word], instr: &Instr<PReg>) -> bool
    ensures { result ≡ goes_to_counted words.now instr.now }
{
    match instr {
        Instr::Jmp { target } => is_counted_at(words, *target as usize),
        _ => true,
    }
}

fn is_counted_at(words: &[Word], target: usize) -> bool
    ensures { result ≡ is_counted_at words.now (Some target) }
{
    match words.get(target) {
        Some(word) => word.counted,
        None => false,
    }
}

fn has_formed_end(words: &[Word]) -> bool
    ensures { result ≡ last_never_falls (option_map (λ w. w.instr) (slice_get words.now (length words.now - 1))) }
{
    match words {
        [.., last] => never_falls(&last.instr),
        [] => false,
    }
}

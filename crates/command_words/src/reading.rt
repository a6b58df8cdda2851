ghost use Rattle.std.specs.Prelude.{◌≡◌, ◌≤◌, ℕ, List, None, IfOk, IfSome, map, string_bytes, option_map};
ghost use Rattle.command_words.specs.Command.{given_parts};
ghost use Rattle.command_words.specs.Spellings.{MovesToFront, Attaches, GivesTwice, HasStray};
ghost use Rattle.command_words.specs.Meaning.{verb_of, number_for, is_bounded, steps_for, is_ordered, turns_of, turns_for, meaning_for, meaning_of, words_meaning};

use crate::meaning::{Meaning, Turns, Verb};
use crate::split::{Given, split_words};
use micro_isa::{MOST_STEPS, NoMemory};
use micro_kit::read_number;
use std::alloc::Global;

/// The bound of the steps where none is given.
const DEFAULT_STEPS: u32 = 100_000;

/// What the words behind the program's name mean. None exactly where they are no use of it.
#[tactic(auto, using(crate::proofs::Laws::read_placed, crate::proofs::Laws::read_spelt, crate::proofs::Laws::read_once))]
pub fn read_words(alloc: Global, words: &[String]) -> Result<Option<Meaning>, NoMemory>
    ensures meaning { IfOk result (λ meaning. meaning ≡ words_meaning (map string_bytes words.now)) }
    ensures bounded { IfOk result (λ meaning. IfSome meaning (λ m. m.steps ≤ MOST_STEPS)) }

    // An option means the same wherever it stands, and with its value attached or behind it.
    ensures placed { IfOk result (λ meaning. (others : List (List ℕ)) → MovesToFront (map string_bytes words.now) others → meaning ≡ words_meaning others) }
    ensures spelt { IfOk result (λ meaning. (others : List (List ℕ)) → Attaches (map string_bytes words.now) others → meaning ≡ words_meaning others) }

    // An option that is given twice leaves no meaning, and neither does a stray word.
    ensures once { IfOk result (λ meaning. GivesTwice (map string_bytes words.now) → meaning ≡ None) }
    ensures strays { IfOk result (λ meaning. HasStray (map string_bytes words.now) → meaning ≡ None) }
{
    meaning_in(alloc, words)
}

fn meaning_in(alloc: Global, words: &[String]) -> Result<Option<Meaning>, NoMemory>
    ensures meaning { IfOk result (λ meaning. meaning ≡ words_meaning (map string_bytes words.now)) }
    ensures bounded { IfOk result (λ meaning. IfSome meaning (λ m. m.steps ≤ MOST_STEPS)) }
{
    match split_words(alloc, words) {
        Ok(Some(given)) => Ok(meaning_of(&given)),
        Ok(None) => Ok(None),
        Err(NoMemory) => Err(NoMemory),
    }
}

fn meaning_of(given: &Given) -> Option<Meaning>
    ensures meaning { result ≡ meaning_of (given_parts given.now) }
    ensures bounded { IfSome result (λ m. m.steps ≤ MOST_STEPS) }
{
    let command = given.command?;
    let verb = verb_of(command.as_bytes())?;
    meaning_for(verb, given)
}

fn meaning_for(verb: Verb, given: &Given) -> Option<Meaning>
    ensures meaning { result ≡ meaning_for verb (given_parts given.now) }
    ensures bounded { IfSome result (λ m. m.steps ≤ MOST_STEPS) }
{
    let number = number_for(verb, given.number)?;
    let steps = steps_for(verb, given.steps)?;
    let turns = turns_for(verb, given.order)?;
    Some(Meaning {
        verb,
        number,
        steps,
        turns,
    })
}

fn verb_of(word: &[u8]) -> Option<Verb>
    ensures { result ≡ verb_of word.now }
{
    if word == b"check".as_slice() {
        return Some(Verb::Check);
    }
    if word == b"fmt".as_slice() {
        return Some(Verb::Fmt);
    }
    if word == b"build".as_slice() {
        return Some(Verb::Build);
    }
    if word == b"run".as_slice() {
        return Some(Verb::Run);
    }
    if word == b"exec".as_slice() {
        return Some(Verb::Exec);
    }
    if word == b"source".as_slice() {
        return Some(Verb::Source);
    }
    if word == b"replay".as_slice() {
        return Some(Verb::Replay);
    }
    if word == b"soak".as_slice() {
        return Some(Verb::Soak);
    }
    None
}

/// The number of `soak`; no other command has one.
fn number_for(verb: Verb, number: Option<&str>) -> Option<Option<u32>>
    ensures { result ≡ number_for verb (option_map (λ t. t.now) number.entry) }
{
    match (verb, number) {
        (Verb::Soak, Some(text)) => match read_number(text.as_bytes()) {
            Some(n) => Some(Some(n)),
            None => None,
        },
        (Verb::Soak, None) => None,
        (_, Some(_)) => None,
        (_, None) => Some(None),
    }
}

fn is_bounded(verb: Verb) -> bool
    ensures { result ≡ is_bounded verb }
{
    matches!(verb, Verb::Run | Verb::Exec | Verb::Source | Verb::Replay)
}

/// The bound of the steps, where the command has one or none is given.
fn steps_for(verb: Verb, steps: Option<&str>) -> Option<u32>
    ensures steps { result ≡ steps_for verb (option_map (λ t. t.now) steps.entry) }
    ensures bounded { IfSome result (λ n. n ≤ MOST_STEPS) }
{
    let Some(text) = steps else {
        return Some(DEFAULT_STEPS);
    };
    if !is_bounded(verb) {
        return None;
    }
    match read_number(text.as_bytes()) {
        Some(n) if n <= MOST_STEPS => Some(n),
        _ => None,
    }
}

fn is_ordered(verb: Verb) -> bool
    ensures { result ≡ is_ordered verb }
{
    matches!(verb, Verb::Run | Verb::Exec)
}

fn turns_of(word: &[u8]) -> Option<Turns>
    ensures { result ≡ turns_of word.now }
{
    if word == b"round".as_slice() {
        return Some(Turns::Round);
    }
    if word == b"threads".as_slice() {
        return Some(Turns::Threads);
    }
    None
}

/// The order of turns, where the command has one or none is given.
fn turns_for(verb: Verb, order: Option<&str>) -> Option<Turns>
    ensures { result ≡ turns_for verb (option_map (λ t. t.now) order.entry) }
{
    let Some(text) = order else {
        return Some(Turns::Round);
    };
    if is_ordered(verb) {
        turns_of(text.as_bytes())
    } else {
        None
    }
}

ghost use Rattle.std.specs.Prelude.{◌≡◌, false, IfOk, map, string_bytes, option_map};
ghost use Rattle.std.specs.List.{list_all};
ghost use Rattle.clap.specs.Words.{app_of, rule_of};
ghost use Rattle.command_words.specs.Command.{command_app, given_parts, option_rule, plain_rule};
ghost use Rattle.command_words.specs.Hyphens.{is_fit};
ghost use Rattle.command_words.specs.Meaning.{words_parts};

use clap::error::ErrorKind;
use clap::{Arg, ArgAction, Command};
use micro_isa::NoMemory;
use std::alloc::{AllocError, Global};

/// The texts of a command line: two plain words, and the values of the options.
#[derive(Drop)]
pub(crate) struct Given<'a> {
    pub command: Option<&'a str>,
    pub number: Option<&'a str>,
    pub steps: Option<&'a str>,
    pub order: Option<&'a str>,
}

/// A plain word of the command line.
fn plain_word<'a>(alloc: Global, id: &'a str) -> Arg<'a>
    ensures { (rule_of result ≡ plain_rule id.entry.now) × (result.global ≡ false) }
{
    Arg::new(alloc, id).action(ArgAction::Set)
}

/// An option of the command line, with a value.
fn valued_option<'a>(alloc: Global, id: &'a str) -> Arg<'a>
    ensures { (rule_of result ≡ option_rule id.entry.now) × (result.global ≡ false) }
{
    Arg::new(alloc, id).long(id).action(ArgAction::Set)
}

/// The command line that `clap` splits: two plain words and two options, all of them texts.
fn command_line<'a>(alloc: Global) -> Result<Command<'a>, AllocError>
    ensures { IfOk result (λ c. app_of c ≡ command_app) }
{
    let command = Command::new(alloc, "micro")
        .no_binary_name(true)
        .disable_help_flag(true)
        .disable_version_flag(true)
        .arg(plain_word(alloc, "command"))?
        .arg(plain_word(alloc, "number"))?
        .arg(valued_option(alloc, "steps"))?
        .arg(valued_option(alloc, "order"))?;
    Ok(command)
}

/// `--` and words with a single hyphen mean something to `clap`, and nothing here.
fn is_fit_word(word: &[u8]) -> bool
    ensures { result ≡ is_fit word.now }
{
    match word {
        [b'-', b'-', _, ..] => true,
        [b'-', ..] => false,
        _ => true,
    }
}

fn are_fit(words: &[String]) -> bool
    ensures { result ≡ list_all (λ w. is_fit (string_bytes w)) words.now }
{
    words.iter().all(|w| is_fit_word(w.as_bytes()))
}

/// The parts of these words. None exactly where a third plain word, an option twice, an option
/// without a value or any other word with a hyphen is among them.
pub(crate) fn split_words<'a>(
    alloc: Global,
    words: &'a [String],
) -> Result<Option<Given<'a>>, NoMemory>
    ensures { IfOk result (λ given. option_map given_parts given ≡ words_parts (map string_bytes words.now)) }
{
    if !are_fit(words) {
        return Ok(None);
    }
    let Ok(command) = command_line(alloc) else {
        return Err(NoMemory);
    };
    match command.try_get_matches_from(words) {
        Ok(matches) => Ok(Some(Given {
            command: matches.get_str("command"),
            number: matches.get_str("number"),
            steps: matches.get_str("steps"),
            order: matches.get_str("order"),
        })),
        Err(error) => match error.kind() {
            ErrorKind::OutOfMemory => Err(NoMemory),
            _ => Ok(None),
        },
    }
}

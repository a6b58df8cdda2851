//! What words mean as commands.

use command_words::{Meaning, Turns, Verb, read_words};
use std::alloc::Global;
use std::test::Fail;

/// The meaning of a line's words, which single blanks part.
fn meaning_of_line(alloc: Global, line: &str) -> Result<Option<Meaning>, Fail> {
    let mut words = Vec::new(alloc);
    if !line.is_empty() {
        for word in line.split(' ') {
            words.push(String::from_str(alloc, word)?)?;
        }
    }
    Ok(read_words(alloc, &words)?)
}

/// A line of words, and its command, number, bound of steps and order of turns.
type Row = (&'static str, Verb, Option<u32>, u32, Turns);

const MEANINGS: [Row; 15] = [
    ("check", Verb::Check, None, 100_000, Turns::Round),
    ("fmt", Verb::Fmt, None, 100_000, Turns::Round),
    ("build", Verb::Build, None, 100_000, Turns::Round),
    ("run", Verb::Run, None, 100_000, Turns::Round),
    ("exec", Verb::Exec, None, 100_000, Turns::Round),
    ("source", Verb::Source, None, 100_000, Turns::Round),
    ("replay", Verb::Replay, None, 100_000, Turns::Round),
    ("soak 007", Verb::Soak, Some(7), 100_000, Turns::Round),
    (
        "soak 4294967295",
        Verb::Soak,
        Some(4_294_967_295),
        100_000,
        Turns::Round,
    ),
    (
        "run --order=round --steps 5",
        Verb::Run,
        None,
        5,
        Turns::Round,
    ),
    ("--steps 0 run", Verb::Run, None, 0, Turns::Round),
    (
        "--order threads run --steps=1048576",
        Verb::Run,
        None,
        1_048_576,
        Turns::Threads,
    ),
    (
        "exec --steps 007 --order threads",
        Verb::Exec,
        None,
        7,
        Turns::Threads,
    ),
    ("source --steps=9", Verb::Source, None, 9, Turns::Round),
    ("replay --steps 9", Verb::Replay, None, 9, Turns::Round),
];

/// Whether a line means what its row says.
fn means(alloc: Global, row: &Row) -> Result<bool, Fail> {
    let (line, verb, number, steps, turns) = *row;
    let meaning = Meaning {
        verb,
        number,
        steps,
        turns,
    };
    Ok(meaning_of_line(alloc, line)? == Some(meaning))
}

#[test]
fn reads_what_the_words_mean(rt: HostRuntime) -> Result<(), Fail> {
    for row in &MEANINGS {
        assert!(rt; means(rt.alloc(), row)?);
    }
    Ok(())
}

const MEANINGLESS: [&str; 52] = [
    "",
    " ",
    "run ",
    "RUN",
    "--help",
    "help",
    "run -h",
    "--version",
    "run 1",
    "run fast",
    "run run",
    "walk",
    "run --order Round",
    "run --order round --order=round",
    "run --order fast",
    "run --order",
    "run --order=",
    "check --order round",
    "replay --order=round",
    "source --order round",
    "run --step 5",
    "run -",
    "soak",
    "soak 4294967296",
    "soak one",
    "soak 1 --steps 5",
    "soak 1 2",
    "run --steps 0x10",
    "run --steps -5",
    "run --steps=-5",
    "--steps 5",
    "run --steps 1048577",
    "run --steps 5 --steps=5",
    "build --steps 5",
    "check --steps 5",
    "fmt --steps 5",
    "run --steps=",
    "run --steps +5",
    "run --steps",
    "run --steps --order=round",
    "run --",
    "--",
    "-- run",
    "run --fast",
    "run --steps=5=5",
    "run --stepsx=5",
    "slim 1",
    "slim --steps 5",
    "bounds --steps=5",
    "flow --steps 5",
    "trace",
    "trace 1 --order round",
];

#[test]
fn finds_no_meaning(rt: HostRuntime) -> Result<(), Fail> {
    for line in &MEANINGLESS {
        assert!(rt; meaning_of_line(rt.alloc(), line)?.is_none());
    }
    Ok(())
}

//! Whole runs with a port of each kind: the lines of the entries, the ending, and what the port took.

ghost use Rattle.std.specs.Prelude.{◌≤◌, length};
ghost use Rattle.micro_isa.specs.declared.limits.TheConstants.{MOST_PORTS};
ghost use Rattle.ports.specs.Answers.{closes_for_good};

use crate::opening::{ended, opened};
use journal_text::put_entry;
use ports::{Given, Polled, Port, Ramp, Script, Tally};
use run_journal::Run;
use std::alloc::Global;
use std::test::Fail;
use world::End;

/// Sends on what it receives.
pub(crate) const ECHO: &[u8] =
    b"file 2\ninput rx port 0 4\noutput tx\ncontext a\nloop:\nrecv x, rx\nsend tx, x\njmp loop\n";
/// Sends 1, 2, 3 and so on.
const COUNT: &[u8] =
    b"file 2\noutput tx port 0\ncontext a\nli one, 1\nloop:\nadd x, x, one\nsend tx, x\njmp loop\n";
/// Sends 0 again and again.
const NOUGHTS: &[u8] = b"file 1\noutput tx port 0\ncontext a\nloop:\nsend tx, x\njmp loop\n";

/// A bundle with the bound of its run, the lines of the entries that it must have, and how it must end.
#[derive(Clone, Copy)]
struct Row {
    text: &'static [u8],
    bound: u32,
    lines: &'static [u8],
    end: End,
}

/// The ports of a run of a bundle in round order, where it shows what its row says.
fn brought<P: Port>(alloc: Global, row: Row, ports: Vec<P>) -> Result<Vec<P>, Fail>
    requires { length ports.items ≤ MOST_PORTS }
{
    let run = opened(alloc, row.text, row.bound)?;
    let (run, ports) = ended(run, ports);
    if shows(alloc, &run, row)? {
        Ok(ports)
    } else {
        Err("other entries, or another ending".into())
    }
}

fn shows(alloc: Global, run: &Run, row: Row) -> Result<bool, Fail> {
    let mut lines = Vec::new(alloc);
    for entry in run.entries() {
        put_entry(&mut lines, entry)?;
    }
    Ok(lines.as_slice() == row.lines && run.ending() == Some(row.end))
}

/// Whether a run with a port that answers so shows what its row says, and the port took just these words.
fn follows(
    alloc: Global,
    row: Row,
    polls: &[Polled],
    gives: &[Given],
    taken: &[u32],
) -> Result<bool, Fail>
    requires { closes_for_good polls.now }
{
    let polls = Vec::from_slice(alloc, polls)?;
    let script = Script::of(polls, Vec::from_slice(alloc, gives)?, 2)?;
    takes(alloc, row, script, taken)
}

fn takes(alloc: Global, row: Row, script: Script, taken: &[u32]) -> Result<bool, Fail> {
    let ports = brought(alloc, row, vec![in alloc; script]?)?;
    Ok(match ports.as_slice() {
        [script] => script.taken() == taken,
        _ => false,
    })
}

/// An input's port that gives two words and then fails.
const TWO_WORDS: Row = Row {
    text: ECHO,
    bound: 1000,
    lines: b"run 0 1 recv\nfeed 0 4\nrun 0 1 send\nrun 0 2 recv\nfeed 0 5\nrun 0 1 send\nrun 0 2 recv\nunplug 0\n",
    end: End::Stuck,
};

#[test]
fn fails_behind_two_words(rt: HostRuntime) -> Result<(), Fail> {
    let polls = [Polled::Word(4), Polled::Word(5), Polled::Failed];
    assert!(rt; follows(rt.alloc(), TWO_WORDS, &polls, &[], &[])?);
    Ok(())
}

/// An input's port that is lost before it gave a word.
const LOST: Row = Row {
    text: ECHO,
    bound: 1000,
    lines: b"run 0 1 recv\nunplug 0\n",
    end: End::Stuck,
};

#[test]
fn fails_at_its_first_poll(rt: HostRuntime) -> Result<(), Fail> {
    assert!(rt; follows(rt.alloc(), LOST, &[Polled::Failed], &[], &[])?);
    Ok(())
}

/// Puts that fail: what the port answers, what it takes, and what the run shows.
const PUTS: &[(&[Given], &[u32], Row)] = &[
    // At a later put.
    (
        &[Given::Took, Given::Failed],
        &[0],
        Row {
            text: NOUGHTS,
            bound: 5,
            lines: b"run 0 1 send\nrun 0 2 send\nrun 0 2 send\nunplug 0\nrun 0 0 bound\n",
            end: End::Bound,
        },
    ),
    // In the segment that the bound cuts.
    (
        &[Given::Took, Given::Failed],
        &[0],
        Row {
            text: NOUGHTS,
            bound: 3,
            lines: b"run 0 1 send\nrun 0 2 send\nrun 0 0 bound\n",
            end: End::Bound,
        },
    ),
    // At the first.
    (
        &[Given::Failed],
        &[],
        Row {
            text: NOUGHTS,
            bound: 5,
            lines: b"run 0 1 send\nrun 0 2 send\nunplug 0\nrun 0 2 send\nrun 0 0 bound\n",
            end: End::Bound,
        },
    ),
    // Without room for a third word.
    (
        &[],
        &[1, 2],
        Row {
            text: COUNT,
            bound: 12,
            lines: b"run 0 3 send\nrun 0 3 send\nrun 0 3 send\nrun 0 3 send\nunplug 0\nrun 0 0 bound\n",
            end: End::Bound,
        },
    ),
];

#[test]
fn puts_fail(rt: HostRuntime) -> Result<(), Fail> {
    for (gives, taken, row) in PUTS {
        assert!(rt; follows(rt.alloc(), *row, &[], gives, taken)?);
    }
    Ok(())
}

/// Whether a run whose port has no word so many times, and is then closed, shows what its row says.
#[tactic(auto, using(crate::proofs::Silence::silent_closes))]
fn waits(alloc: Global, times: usize, row: Row) -> Result<bool, Fail> {
    let polls = vec![in alloc; Polled::Empty; times]?;
    let script = Script::of(polls, Vec::new(alloc), 0)?;
    takes(alloc, row, script, &[])
}

/// So many empty pumps, and what the run shows.
const PUMPS: &[(usize, Row)] = &[
    (
        1000,
        Row {
            text: ECHO,
            bound: 1000,
            lines: b"run 0 1 recv\n",
            end: End::Idle,
        },
    ),
    (999, LOST),
];

#[test]
fn is_idle_after_a_thousand_pumps(rt: HostRuntime) -> Result<(), Fail> {
    for (times, row) in PUMPS {
        assert!(rt; waits(rt.alloc(), *times, *row)?);
    }
    Ok(())
}

/// The words 0 and 1 come in, and then none.
const RAMP: Row = Row {
    text: ECHO,
    bound: 1000,
    lines: b"run 0 1 recv\nfeed 0 0\nrun 0 1 send\nrun 0 2 recv\nfeed 0 1\nrun 0 1 send\nrun 0 2 recv\nunplug 0\n",
    end: End::Stuck,
};

#[test]
fn counts_up(rt: HostRuntime) -> Result<(), Fail> {
    let ports = brought(rt.alloc(), RAMP, vec![in rt.alloc(); Ramp::of(2)]?)?;
    assert!(rt; ports.len() == 1);
    Ok(())
}

/// The words 1, 2 and 3 go out.
const TALLY: Row = Row {
    text: COUNT,
    bound: 9,
    lines: b"run 0 3 send\nrun 0 3 send\nrun 0 3 send\nrun 0 0 bound\n",
    end: End::Bound,
};

#[test]
fn sums_up_words(rt: HostRuntime) -> Result<(), Fail> {
    let ports = brought(rt.alloc(), TALLY, vec![in rt.alloc(); Tally::new()]?)?;
    assert!(rt; matches!(ports.as_slice(), [tally] if tally.count() == 3 && tally.sum() == 6));
    Ok(())
}

/// No port is there, so that the input is unplugged as the run begins.
const NONE: Row = Row {
    text: ECHO,
    bound: 1000,
    lines: b"unplug 0\nrun 0 1 recv\n",
    end: End::Stuck,
};

#[test]
fn runs_without_a_port(rt: HostRuntime) -> Result<(), Fail> {
    let ports = brought(rt.alloc(), NONE, Vec::<Tally>::new(rt.alloc()))?;
    assert!(rt; ports.is_empty());
    Ok(())
}

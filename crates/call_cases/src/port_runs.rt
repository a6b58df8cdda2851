//! Runs by the top call with a port in memory.

ghost use Rattle.ports.specs.Answers.{closes_for_good};

use crate::calls::{sink_of, source_of, words_of};
use micro_cli::{Status, plain_call};
use micro_isa::MOST_PORTS;
use ports::{Given, Polled, Port, Script};
use std::alloc::Global;
use std::test::Fail;

/// A bundle, the words of a call behind `run`, its status, and the text that it must write.
#[derive(Clone, Copy)]
struct Row {
    bundle: &'static [u8],
    steps: &'static str,
    status: Status,
    text: &'static [u8],
}

/// Words come from port 0, and go out on a channel without a port.
const ECHO: &[u8] =
    b"file 2\ninput rx port 0 4\noutput tx\ncontext a\nloop:\nrecv x, rx\nsend tx, x\njmp loop\n";

/// Zeros go out to port 0.
const NOUGHTS: &[u8] = b"file 1\noutput tx port 0\ncontext a\nloop:\nsend tx, x\njmp loop\n";

/// Whether a call with these ports gives as many back, and has the status and the text of its row.
fn calls(alloc: Global, row: Row, ports: Vec<Box<dyn Port + Send>>) -> Result<bool, Fail> {
    let count = ports.len();
    if count > MOST_PORTS {
        return Err("few ports".into());
    }
    let words = words_of(alloc, &["run", row.steps])?;
    let mut source = source_of(alloc, row.bundle, &[])?;
    let mut sink = sink_of(alloc, &[])?;
    let finish = plain_call(alloc, &words, &mut source, &mut sink, ports);
    Ok(finish.ports.len() == count && finish.status == row.status && sink.wrote_bytes() == row.text)
}

/// Whether a call with one port that answers so is as its row says.
fn answers(alloc: Global, row: Row, polls: Vec<Polled>, gives: &[Given]) -> Result<bool, Fail>
    requires { closes_for_good polls.items }
{
    let script = Script::of(polls, Vec::from_slice(alloc, gives)?, 10)?;
    let mut ports: Vec<Box<dyn Port + Send>> = Vec::new(alloc);
    ports.push(Box::new(alloc, script)?)?;
    calls(alloc, row, ports)
}

/// The port gives two words and then fails.
const TWO_WORDS: Row = Row {
    bundle: ECHO,
    steps: "--steps=100",
    status: Status::Stuck,
    text: b"need 1\nbudget private 0 shared 1\nglue 0\nrun 0 1 recv\nfeed 0 4\nrun 0 1 send\nrun 0 2 recv\nfeed 0 5\nrun 0 1 send\nrun 0 2 recv\nunplug 0\noutput 1 4 5\ncontext 0 receive 0\nfile 5 0\nsteps 7\nend stuck\n",
};

#[test]
fn takes_words_until_the_port_fails(rt: HostRuntime) -> Result<(), Fail> {
    let polls = vec![in rt.alloc(); Polled::Word(4), Polled::Word(5), Polled::Failed]?;
    assert!(rt; answers(rt.alloc(), TWO_WORDS, polls, &[])?);
    Ok(())
}

/// No port is handed in.
const NONE: Row = Row {
    bundle: ECHO,
    steps: "--steps=100",
    status: Status::Stuck,
    text: b"need 1\nbudget private 0 shared 1\nglue 0\nunplug 0\nrun 0 1 recv\noutput 1\ncontext 0 receive 0\nfile 0 0\nsteps 1\nend stuck\n",
};

#[test]
fn begins_without_a_port(rt: HostRuntime) -> Result<(), Fail> {
    assert!(rt; calls(rt.alloc(), NONE, Vec::new(rt.alloc()))?);
    Ok(())
}

/// The port gives nothing so many times, and is then closed.
const WAITS: &[(usize, Row)] = &[
    (
        1000,
        Row {
            bundle: ECHO,
            steps: "--steps=100",
            status: Status::Idle,
            text: b"need 1\nbudget private 0 shared 1\nglue 0\nrun 0 1 recv\noutput 1\ncontext 0 receive 0\nfile 0 0\nsteps 1\nend idle\n",
        },
    ),
    (
        999,
        Row {
            bundle: ECHO,
            steps: "--steps=100",
            status: Status::Stuck,
            text: b"need 1\nbudget private 0 shared 1\nglue 0\nrun 0 1 recv\nunplug 0\noutput 1\ncontext 0 receive 0\nfile 0 0\nsteps 1\nend stuck\n",
        },
    ),
];

#[tactic(auto, using(crate::proofs::Silence::silent_closes))]
fn waits(alloc: Global, times: usize, row: Row) -> Result<bool, Fail> {
    let polls = vec![in alloc; Polled::Empty; times]?;
    answers(alloc, row, polls, &[])
}

#[test]
fn is_idle_after_a_thousand_empty_answers(rt: HostRuntime) -> Result<(), Fail> {
    for (times, row) in WAITS {
        assert!(rt; waits(rt.alloc(), *times, *row)?);
    }
    Ok(())
}

/// The second put fails: the channel is unplugged, but where the bound cuts that segment.
const PUTS: &[Row] = &[
    Row {
        bundle: NOUGHTS,
        steps: "--steps=5",
        status: Status::Bound,
        text: b"need 1\nbudget private 1 shared 0\nglue 0\nrun 0 1 send\nrun 0 2 send\nrun 0 2 send\nunplug 0\nrun 0 0 bound\noutput 0 0 0 0\ncontext 0 ready\nfile 0\nsteps 5\nend bound\n",
    },
    Row {
        bundle: NOUGHTS,
        steps: "--steps=3",
        status: Status::Bound,
        text: b"need 1\nbudget private 1 shared 0\nglue 0\nrun 0 1 send\nrun 0 2 send\nrun 0 0 bound\noutput 0 0 0\ncontext 0 ready\nfile 0\nsteps 3\nend bound\n",
    },
];

#[test]
fn hands_words_until_the_port_fails(rt: HostRuntime) -> Result<(), Fail> {
    for row in PUTS {
        let polls = Vec::new(rt.alloc());
        assert!(rt; answers(rt.alloc(), *row, polls, &[Given::Took, Given::Failed])?);
    }
    Ok(())
}

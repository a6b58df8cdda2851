use crate::meeting::Meeting;
use crate::reports::{has_lines, puts_each_once};
use micro_cli::{Status, micro};
use micro_kit::{MemSink, MemSource};
use std::alloc::Global;
use std::sync::Wait;
use std::test::Fail;
use std::thread::Threads;

/// Two contexts that make three segments each.
const PAIR: &[u8] =
    b"file 3\noutput out\ncontext a\nli x, 7\nyield\nli y, 1\nadd x, x, y\nsend out, x\nhalt\ncontext b\nli x, 7\nyield\nli y, 1\nadd x, x, y\nsend out, x\nhalt\n";

const PAIR_LINES: [&str; 5] = [
    "output 0 8 8",
    "context 0 halted",
    "context 1 halted",
    "steps 12",
    "end finished",
];

/// Four contexts that forward 16 words each from one input to one output, doubled, and count each in
/// memory: 65 segments each.
const FORWARDER_HEAD: &[u8] =
    b"file 32\nmemory 64\ninput rx\nwords rx 1 2 3 4 5 6 7 8 9 10 11 12 13 14 15 16 17 18 19 20 21 22 23 24 25 26 27 28 29 30 31 32 33 34 35 36 37 38 39 40 41 42 43 44 45 46 47 48 49 50 51 52 53 54 55 56 57 58 59 60 61 62 63 64\noutput tx\n";

const FORWARDER_NAMES: [&[u8]; 4] = [
    b"context a\n",
    b"context b\n",
    b"context c\n",
    b"context d\n",
];

const FORWARDER_CODE: &[u8] =
    b"li n, 16\nli one, 1\nli mask, 63\nloop:\nrecv w, rx\nand a, w, mask\nload t, a\nadd t, t, one\nstore a, t\nshl w, w, one\nsend tx, w\nsub n, n, one\nbne n, zero, loop\nhalt\n";

const FORWARDER_LINES: [&str; 6] = [
    "context 0 halted",
    "context 1 halted",
    "context 2 halted",
    "context 3 halted",
    "steps 592",
    "end finished",
];

// Two wrong versions of `context_runner::run_threads` were tried by hand. One that has the workers work
// one after another fails both tests: the first worker never sees the others. One that leaves all turns
// to the moves in round order after the workers fails `four_contexts_meet`: nobody arrives, and no
// segment is counted.

#[test]
fn two_contexts_meet(rt: HostRuntime) -> Result<(), Fail> {
    let gate = Meeting::of(0b11);
    let text = Vec::from_slice(rt.alloc(), PAIR)?;
    let sink = report_at(&rt, rt.alloc(), text, &gate)?;
    let report = str::from_utf8(sink.wrote_bytes())?;
    assert!(rt; gate.is_met(2, 3) && has_lines(report, &PAIR_LINES));
    Ok(())
}

#[test]
fn four_contexts_meet(rt: HostRuntime) -> Result<(), Fail> {
    let gate = Meeting::of(0b1111);
    let text = forwarder(rt.alloc())?;
    let sink = report_at(&rt, rt.alloc(), text, &gate)?;
    let report = str::from_utf8(sink.wrote_bytes())?;
    let told = has_lines(report, &FORWARDER_LINES) && puts_each_once(report, "output 1 ");
    assert!(rt; gate.is_met(4, 65) && told);
    Ok(())
}

fn forwarder(alloc: Global) -> Result<Vec<u8>, Fail> {
    let mut text = Vec::from_slice(alloc, FORWARDER_HEAD)?;
    for name in FORWARDER_NAMES {
        text.extend_from_slice(name)?;
        text.extend_from_slice(FORWARDER_CODE)?;
    }
    Ok(text)
}

/// What `run --order threads` writes of a bundle's text, at this gate, where the run finished.
fn report_at<R: Threads + Wait + Sync>(
    rt: &R,
    alloc: Global,
    text: Vec<u8>,
    gate: &Meeting,
) -> Result<MemSink, Fail> {
    let words = words_of(alloc)?;
    let mut source = MemSource::of(text, 4096, Vec::new(alloc));
    let Ok(mut sink) = MemSink::of(alloc, 4096, Vec::new(alloc), 65536) else {
        return Err(Fail::from("ample memory"));
    };
    let finish = micro(
        rt,
        alloc,
        &words,
        &mut source,
        &mut sink,
        Vec::new(alloc),
        gate,
    );
    if finish.status == Status::Done {
        Ok(sink)
    } else {
        Err(Fail::from("another status"))
    }
}

fn words_of(alloc: Global) -> Result<Vec<String>, Fail> {
    let mut words = Vec::new(alloc);
    for word in ["run", "--order", "threads"] {
        words.push(String::from_str(alloc, word)?)?;
    }
    Ok(words)
}

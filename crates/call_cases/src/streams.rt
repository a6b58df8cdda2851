//! Each read of a call fails in turn, and each write; pieces of one byte, and a sink that becomes full.

use crate::calls::{EXAMPLE, REPORT, answers, sink_of, source_of, words_of};
use micro_cli::Status;
use micro_kit::{MemSink, MemSource};
use std::alloc::Global;
use std::test::Fail;

/// Whether a run whose read of this number fails answers so.
fn reads_so(alloc: Global, failing: u64, status: Status, wrote: &[u8]) -> Result<bool, Fail> {
    let words = words_of(alloc, &["run"])?;
    let source = source_of(alloc, EXAMPLE, &[failing])?;
    let sink = sink_of(alloc, &[])?;
    Ok(answers(alloc, &words, source, sink, status, wrote))
}

/// The 73 bytes are read by ten calls, and the eleventh tells the end.
#[test]
fn each_read_fails_in_turn(rt: HostRuntime) -> Result<(), Fail> {
    for failing in 0..11u64 {
        assert!(rt; reads_so(rt.alloc(), failing, Status::ReadFault, b"")?);
    }
    Ok(())
}

/// No call of this number comes.
#[test]
fn reads_eleven_times(rt: HostRuntime) -> Result<(), Fail> {
    assert!(rt; reads_so(rt.alloc(), 11, Status::Done, REPORT)?);
    Ok(())
}

/// The first bytes of the report, so many.
fn front(count: usize) -> &'static [u8] {
    let (front, _) = REPORT.split_at(count.min(REPORT.len()));
    front
}

/// Whether a run whose write of this number fails answers so, and writes what the calls before it took.
fn writes_so(alloc: Global, failing: u32, status: Status) -> Result<bool, Fail> {
    let words = words_of(alloc, &["run"])?;
    let source = source_of(alloc, EXAMPLE, &[])?;
    let sink = sink_of(alloc, &[u64::from(failing)])?;
    let wrote = front((failing as usize).saturating_mul(4));
    Ok(answers(alloc, &words, source, sink, status, wrote))
}

/// The 124 bytes are written by 31 calls.
#[test]
fn each_write_fails_in_turn(rt: HostRuntime) -> Result<(), Fail> {
    for failing in 0..31u32 {
        assert!(rt; writes_so(rt.alloc(), failing, Status::WriteFault)?);
    }
    Ok(())
}

#[test]
fn writes_thirty_one_times(rt: HostRuntime) -> Result<(), Fail> {
    assert!(rt; writes_so(rt.alloc(), 31, Status::Done)?);
    Ok(())
}

/// How many bytes a sink takes in all, and how a run is answered.
const ROOMS: [(usize, Status); 4] = [
    (0, Status::WriteFault),
    (10, Status::WriteFault),
    (123, Status::WriteFault),
    (124, Status::Done),
];

/// Whether a run in pieces of one byte, with room for so many bytes, answers so and fills the room.
fn fills_so(alloc: Global, room: usize, status: Status) -> Result<bool, Fail> {
    let words = words_of(alloc, &["run"])?;
    let source = MemSource::of(Vec::from_slice(alloc, EXAMPLE)?, 1, Vec::new(alloc));
    let sink = MemSink::of(alloc, 1, Vec::new(alloc), room)?;
    Ok(answers(alloc, &words, source, sink, status, front(room)))
}

#[test]
fn fills_the_room(rt: HostRuntime) -> Result<(), Fail> {
    for (room, status) in &ROOMS {
        assert!(rt; fills_so(rt.alloc(), *room, *status)?);
    }
    Ok(())
}

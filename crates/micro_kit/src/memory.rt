ghost use Rattle.std.specs.Prelude.{◌≡◌, ◌≤◌, ◌<◌, length, take, IfOk, Some};
ghost use Rattle.micro_kit.specs.Memory.{source_of, given, after_read, sink_of, taken, after_write};
ghost use Rattle.micro_kit.specs.Streams.{Reads, Writes};

use crate::stream::{Got, Put, Sink, Source};
use micro_isa::NoMemory;
use std::alloc::Global;
use std::marker::Model;

/// A source in memory. The calls whose numbers, counted from 0, are in `failing` fail.
#[derive(Debug, Drop)]
pub struct MemSource {
    bytes: Vec<u8>,
    at: usize,
    piece: usize,
    failing: Vec<u64>,
    calls: u64,
    faults: u64,
}

impl Model for MemSource {
    ghost use Rattle.std.specs.Prelude.{◌≤◌, drop, vec_len};
    ghost use Rattle.micro_kit.specs.Memory.{SourceState};

    ghost Value = { SourceState };

    ghost view = { λ s. record { left = drop s.at s.bytes.items; piece = s.piece; failing = s.failing.items; calls = s.calls; faults = s.faults } };

    ghost invariant = { λ s. (1 ≤ s.piece) × (s.at ≤ vec_len s.bytes) };
}

impl MemSource {
    /// Gives these bytes, at most `piece` a call.
    pub fn of(bytes: Vec<u8>, piece: usize, failing: Vec<u64>) -> MemSource
        requires { 1 ≤ piece }
        ensures { result ≡ source_of bytes.items piece failing.items }
    {
        MemSource {
            bytes,
            at: 0,
            piece,
            failing,
            calls: 0,
            faults: 0,
        }
    }
}

impl Source for MemSource {
    ghost left = { λ s. Some s.left };

    ghost faults = { λ s. s.faults };

    fn read(&mut self, into: &mut [u8]) -> Got
        requires { 0 < length into.old }
        ensures read { Reads result (Some self.old.left) (Some self.new.left) self.old.faults self.new.faults into.new }
        ensures later { self.old.faults ≤ self.new.faults }
        ensures given { result ≡ given self.old (length into.old) }
        ensures after { self.new ≡ after_read self.old result }
    {
        let fails = self.failing.contains(&self.calls);
        self.calls = self.calls.saturating_add(1);
        if fails {
            self.faults = self.faults.saturating_add(1);
            return Got::Failed;
        }
        let rest = &self.bytes[self.at..];
        let n = self.piece.min(into.len()).min(rest.len());
        if n == 0 {
            return Got::End;
        }
        copy_front(into, rest, n);
        self.at += n;
        Got::Bytes(n)
    }
}

/// Copies the first `n` bytes.
fn copy_front(into: &mut [u8], from: &[u8], n: usize)
    requires room { n ≤ length into.old }
    requires there { n ≤ length from.now }
    ensures { take n into.new ≡ take n from.now }
{
    into[..n].copy_from_slice(&from[..n]);
}

/// A sink in memory. The calls whose numbers, counted from 0, are in `failing` fail.
#[derive(Debug, Drop)]
pub struct MemSink {
    bytes: Vec<u8>,
    room: usize,
    piece: usize,
    failing: Vec<u64>,
    calls: u64,
    faults: u64,
}

impl Model for MemSink {
    ghost use Rattle.std.specs.Prelude.{◌≤◌, ◌+◌, vec_len, vec_capacity};
    ghost use Rattle.micro_kit.specs.Memory.{SinkState};

    ghost Value = { SinkState };

    ghost view = { λ s. record { wrote = s.bytes.items; room = s.room; piece = s.piece; failing = s.failing.items; calls = s.calls; faults = s.faults } };

    ghost invariant = { λ s. (1 ≤ s.piece) × (vec_len s.bytes + s.room ≤ vec_capacity s.bytes) };
}

impl MemSink {
    /// Takes at most `piece` bytes a call, and `room` bytes in all. Only this call wants memory.
    pub fn of(
        alloc: Global,
        piece: usize,
        failing: Vec<u64>,
        room: usize,
    ) -> Result<MemSink, NoMemory>
        requires { 1 ≤ piece }
        ensures { IfOk result (λ sink. sink ≡ sink_of piece failing.items room) }
    {
        match Vec::with_capacity(alloc, room) {
            Ok(bytes) => Ok(MemSink {
                bytes,
                room,
                piece,
                failing,
                calls: 0,
                faults: 0,
            }),
            Err(_) => Err(NoMemory),
        }
    }

    /// The bytes taken so far.
    pub fn wrote_bytes(&self) -> &[u8]
        ensures { result.now ≡ self.now.wrote }
    {
        self.bytes.as_slice()
    }
}

impl Sink for MemSink {
    ghost wrote = { λ s. Some s.wrote };

    ghost faults = { λ s. s.faults };

    fn write(&mut self, from: &[u8]) -> Put
        requires { 0 < length from.now }
        ensures write { Writes result (Some self.old.wrote) (Some self.new.wrote) self.old.faults self.new.faults from.now }
        ensures later { self.old.faults ≤ self.new.faults }
        ensures taken { result ≡ taken self.old (length from.now) }
        ensures after { self.new ≡ after_write self.old result from.now }
    {
        let fails = self.failing.contains(&self.calls);
        self.calls = self.calls.saturating_add(1);
        let n = self.piece.min(from.len()).min(self.room);
        if fails || n == 0 {
            self.faults = self.faults.saturating_add(1);
            return Put::Failed;
        }
        if self.bytes.extend_from_slice(&from[..n]).is_err() {
            unreachable!();
        }
        self.room -= n;
        Put::Took(n)
    }
}

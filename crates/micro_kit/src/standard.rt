ghost use Rattle.std.specs.Prelude.{◌≡◌, ◌≤◌, ◌<◌, length, None};
ghost use Rattle.micro_kit.specs.Standard.{ReadsFrom, WritesTo};
ghost use Rattle.micro_kit.specs.Streams.{Reads, Writes};

use crate::stream::{Got, Put, Sink, Source};
use std::io::{Read, Write};

/// A source over a reader. As a source it tells nothing of the bytes; each error is one fault.
#[derive(Drop)]
pub struct StdSource<R> {
    reader: R,
    faults: u64,
}

impl<R> StdSource<R> {
    /// No read has failed yet.
    pub fn of(reader: R) -> StdSource<R>
        ensures { result ≡ record { reader = reader; faults = 0 } }
    {
        StdSource { reader, faults: 0 }
    }
}

impl<R: Read> Source for StdSource<R> {
    ghost left = { λ _. None };

    ghost faults = { λ s. s.faults };

    // Where the reader tells its bytes, just those that it lost were given.
    fn read(&mut self, into: &mut [u8]) -> Got
        requires { 0 < length into.old }
        ensures read { Reads result None None self.old.faults self.new.faults into.new }
        ensures later { self.old.faults ≤ self.new.faults }
        ensures from { ReadsFrom result (R.remaining self.old.reader) (R.remaining self.new.reader) into.new }
    {
        match self.reader.read(into) {
            Ok(0) => Got::End,
            Ok(n) => Got::Bytes(n),
            Err(_) => {
                self.faults = self.faults.saturating_add(1);
                Got::Failed
            }
        }
    }
}

/// A sink over a writer. As a sink it tells nothing of the bytes; each error, and each write that
/// takes nothing, is one fault.
#[derive(Drop)]
pub struct StdSink<W> {
    writer: W,
    faults: u64,
}

impl<W> StdSink<W> {
    /// No write has failed yet.
    pub fn of(writer: W) -> StdSink<W>
        ensures { result ≡ record { writer = writer; faults = 0 } }
    {
        StdSink { writer, faults: 0 }
    }
}

impl<W: Write> Sink for StdSink<W> {
    ghost wrote = { λ _. None };

    ghost faults = { λ s. s.faults };

    // Where the writer tells its bytes, just those that were taken were appended.
    fn write(&mut self, from: &[u8]) -> Put
        requires { 0 < length from.now }
        ensures write { Writes result None None self.old.faults self.new.faults from.now }
        ensures later { self.old.faults ≤ self.new.faults }
        ensures to { WritesTo result (W.contents self.old.writer) (W.contents self.new.writer) from.now }
    {
        match self.writer.write(from) {
            Ok(n) if 0 < n => Put::Took(n),
            _ => {
                self.faults = self.faults.saturating_add(1);
                Put::Failed
            }
        }
    }
}

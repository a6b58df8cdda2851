//! A call of the program, with its input and output in memory.

use micro_cli::{Status, plain_call};
use micro_kit::{MemSink, MemSource};
use std::alloc::Global;
use std::test::Fail;

/// A bundle of one context that sends 5.
pub(crate) const EXAMPLE: &[u8] =
    b"file 2\noutput out\ncontext a\nli x, 2\nli y, 3\nadd x, x, y\nsend out, x\nhalt\n";

/// What `run` writes for it.
pub(crate) const REPORT: &[u8] =
    b"need 2\nbudget private 0 shared 2\nglue 0\nrun 0 4 send\nrun 0 1 halt\noutput 0 5\ncontext 0 halted\nfile 5 3\nsteps 5\nend finished\n";

/// The image that it is built to.
pub(crate) const IMAGE: &[u8] =
    b"UREG\x01\0\x01\0\x02\0\x01\0\0\0\0\0\0\0\x02\0\x02\xff\0\0\0\0\0\0\0\0\0\0\x05\0\0\0\x81\0\0\0\x02\0\0\0\x04\0\0\0\x81\x01\0\0\x03\0\0\0\x05\0\0\0\x83\0\0\x01\0\0\0\0\x06\0\0\0\x99\0\0\0\0\0\0\0\x07\0\0\0\x9a\0\0\0\0\0\0\0\x08\0\0\0";

/// The same bundle over a file that is too small.
pub(crate) const NO_FIT: &[u8] =
    b"file 1\noutput out\ncontext a\nli x, 2\nli y, 3\nadd x, x, y\nsend out, x\nhalt\n";

pub(crate) const USAGE: &[u8] =
    b"usage: micro COMMAND [NUMBER] [--steps N] [--order round|threads]\n";

/// The words of a call.
pub(crate) fn words_of(alloc: Global, words: &[&str]) -> Result<Vec<String>, Fail> {
    let mut all = Vec::new(alloc);
    for word in words {
        all.push(String::from_str(alloc, word)?)?;
    }
    Ok(all)
}

/// A source of these bytes, eight at a time; the reads whose numbers are given fail.
pub(crate) fn source_of(alloc: Global, input: &[u8], failing: &[u64]) -> Result<MemSource, Fail> {
    let bytes = Vec::from_slice(alloc, input)?;
    Ok(MemSource::of(bytes, 8, Vec::from_slice(alloc, failing)?))
}

/// A sink that takes four bytes at a time; the writes whose numbers are given fail.
pub(crate) fn sink_of(alloc: Global, failing: &[u64]) -> Result<MemSink, Fail> {
    let failing = Vec::from_slice(alloc, failing)?;
    Ok(MemSink::of(alloc, 4, failing, 1000)?)
}

/// Whether a call answers with this status and writes just these bytes.
pub(crate) fn answers(
    alloc: Global,
    words: &[String],
    source: MemSource,
    sink: MemSink,
    status: Status,
    wrote: &[u8],
) -> bool {
    let mut source = source;
    let mut sink = sink;
    let answer = called(alloc, words, &mut source, &mut sink);
    answer == status && sink.wrote_bytes() == wrote
}

fn called(alloc: Global, words: &[String], source: &mut MemSource, sink: &mut MemSink) -> Status {
    plain_call(alloc, words, source, sink, Vec::new(alloc)).status
}

/// The same where no read and no write fails.
pub(crate) fn tells(
    alloc: Global,
    words: &[&str],
    input: &[u8],
    status: Status,
    wrote: &[u8],
) -> Result<bool, Fail> {
    let words = words_of(alloc, words)?;
    let source = source_of(alloc, input, &[])?;
    let sink = sink_of(alloc, &[])?;
    Ok(answers(alloc, &words, source, sink, status, wrote))
}

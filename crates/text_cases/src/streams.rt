//! Bytes in pieces, in and out, and numbers.

ghost use Rattle.std.specs.Prelude.{◌≤◌, length};

use micro_kit::{
    MemSink, MemSource, ReadFault, StdSink, StdSource, WriteFault, put_number, read_all,
    read_number, write_all,
};
use std::alloc::Global;
use std::io;
use std::io::{Cursor, Read};
use std::test::Fail;

/// Seven bytes, which are told in pieces of so many, and the calls that fail.
fn letters(alloc: Global, piece: usize, failing: &[u64]) -> Result<MemSource, Fail>
    requires { 1 ≤ piece }
{
    let bytes = Vec::from_slice(alloc, b"abcdefg")?;
    Ok(MemSource::of(bytes, piece, Vec::from_slice(alloc, failing)?))
}

/// Whether reading up to a limit fails so, and then gives what is left.
fn reads_so(
    alloc: Global,
    source: &mut MemSource,
    limit: usize,
    fault: ReadFault,
    rest: &[u8],
) -> Result<bool, Fail>
    requires limit { limit ≤ 7 }
    requires rest { length rest.now ≤ 7 }
{
    if read_all(alloc, source, limit) != Err(fault) {
        return Ok(false);
    }
    let bytes = read_all(alloc, source, rest.len())?;
    Ok(bytes.as_slice() == rest)
}

#[test]
fn reads_pieces_up_to_the_end(rt: HostRuntime) -> Result<(), Fail> {
    let mut source = letters(rt.alloc(), 3, &[1])?;
    assert!(rt; reads_so(rt.alloc(), &mut source, 7, ReadFault::Failed, b"defg")?);
    Ok(())
}

#[test]
fn refuses_more_than_the_limit(rt: HostRuntime) -> Result<(), Fail> {
    let mut source = letters(rt.alloc(), 5, &[])?;
    assert!(rt; reads_so(rt.alloc(), &mut source, 3, ReadFault::TooLong, b"efg")?);
    Ok(())
}

/// Whether a write is told as it should be: all was taken, or so many bytes.
fn writes_so(sink: &mut MemSink, bytes: &[u8], taken: Option<usize>) -> bool {
    match (write_all(sink, bytes), taken) {
        (Ok(()), None) => true,
        (Err(fault), Some(count)) => fault.taken == count,
        _ => false,
    }
}

#[test]
fn writes_pieces_while_there_is_room(rt: HostRuntime) -> Result<(), Fail> {
    let failing = Vec::from_slice(rt.alloc(), &[1])?;
    let mut sink = MemSink::of(rt.alloc(), 3, failing, 5)?;
    for (bytes, taken) in &WRITES {
        assert!(rt; writes_so(&mut sink, bytes, *taken));
    }
    assert!(rt; sink.wrote_bytes() == b"abcde".as_slice());
    Ok(())
}

/// Bytes that are written, and how many of them are taken where not all are.
const WRITES: [(&[u8], Option<usize>); 3] = [(b"abcdef", Some(3)), (b"de", None), (b"f", Some(0))];

/// A reader that fails.
#[derive(Drop)]
struct Broken;

impl Read for Broken {
    fn read(&mut self, _buf: &mut [u8]) -> io::Result<usize> {
        Err(io::Error::from(io::ErrorKind::Other))
    }
}

#[test]
fn reads_what_a_reader_gives(rt: HostRuntime) -> Result<(), Fail> {
    let mut source = StdSource::of(b"abcdefg".as_slice());
    let bytes = read_all(rt.alloc(), &mut source, 100)?;
    assert!(rt; bytes.as_slice() == b"abcdefg".as_slice());
    Ok(())
}

#[test]
fn tells_that_a_reader_fails(rt: HostRuntime) {
    let mut broken = StdSource::of(Broken);
    assert!(rt; read_all(rt.alloc(), &mut broken, 100) == Err(ReadFault::Failed));
}

#[test]
fn writes_what_a_writer_takes(rt: HostRuntime) {
    let mut cursor = Cursor::new([0u8; 4]);
    let mut sink = StdSink::of(&mut cursor);
    assert!(rt; write_all(&mut sink, b"abc") == Ok(()));
    assert!(rt; write_all(&mut sink, b"defg") == Err(WriteFault { taken: 1 }));
    assert!(rt; cursor.into_inner() == [97, 98, 99, 100]);
}

/// Whether a number has this text, and is read from it again.
fn is_text(alloc: Global, n: u32, want: &[u8]) -> Result<bool, Fail> {
    let mut text = Vec::new(alloc);
    put_number(&mut text, n)?;
    Ok(text.as_slice() == want && read_number(want) == Some(n))
}

const NUMBERS: [(u32, &[u8]); 4] = [
    (0, b"0"),
    (7, b"7"),
    (120, b"120"),
    (4294967295, b"4294967295"),
];

#[test]
fn numbers_are_decimal_texts(rt: HostRuntime) -> Result<(), Fail> {
    for (n, text) in &NUMBERS {
        assert!(rt; is_text(rt.alloc(), *n, text)?);
    }
    Ok(())
}

/// Texts and the numbers that are read from them, if any.
const READ: [(&[u8], Option<u32>); 7] = [
    (b"0007", Some(7)),
    (b"", None),
    (b"4294967296", None),
    (b"0x5", None),
    (b"-1", None),
    (b" 1", None),
    (b"1a", None),
];

#[test]
fn numbers_are_read(rt: HostRuntime) {
    for (text, number) in &READ {
        assert!(rt; read_number(text) == *number);
    }
}

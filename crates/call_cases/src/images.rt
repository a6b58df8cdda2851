//! Images that are cut, changed in one byte, or too long by one.

use crate::calls::{IMAGE, tells};
use micro_cli::Status;
use std::alloc::Global;
use std::test::Fail;

/// Whether the first bytes of the image are short at their end.
fn is_short(alloc: Global, count: usize) -> Result<bool, Fail> {
    let line = format!(in alloc; "image {count} short\n")?;
    let (front, _) = IMAGE.split_at(count.min(IMAGE.len()));
    tells(alloc, &["exec"], front, Status::BadImage, line.as_bytes())
}

#[test]
fn every_front_is_short(rt: HostRuntime) -> Result<(), Fail> {
    for count in 0..96usize {
        assert!(rt; is_short(rt.alloc(), count)?);
    }
    Ok(())
}

/// What `exec` writes for the image, which has no need to tell.
const EXECUTED: &[u8] =
    b"budget private 0 shared 2\nglue 0\nrun 0 4 send\nrun 0 1 halt\noutput 0 5\ncontext 0 halted\nfile 5 3\nsteps 5\nend finished\n";

/// The same where its channel has a port, which is not there.
const UNPLUGGED: &[u8] =
    b"budget private 0 shared 2\nglue 0\nunplug 0\nrun 0 4 send\nrun 0 1 halt\noutput 0 5\ncontext 0 halted\nfile 5 3\nsteps 5\nend finished\n";

/// Its last word is a jump to its first.
const AGAIN: &[u8] =
    b"budget private 0 shared 2\nglue 0\nrun 0 4 send\nrun 0 2 bound\noutput 0 5\ncontext 0 ready\nfile 2 3\nsteps 6\nend bound\n";

/// A byte of the image, what it is set to, and how a run of six steps is answered then.
type Change = (usize, u8, Status, &'static [u8]);

const CHANGES: [Change; 31] = [
    (0, b'U', Status::Done, EXECUTED),
    (0, 0, Status::BadImage, b"image 0 magic\n"),
    (4, 2, Status::BadImage, b"image 4 version\n"),
    (6, 9, Status::BadImage, b"image 6 count\n"),
    (6, 2, Status::BadImage, b"image 96 short\n"),
    (8, 0, Status::BadImage, b"image 8 count\n"),
    (8, 129, Status::BadImage, b"image 8 count\n"),
    (8, 1, Status::BadImage, b"image 16 overlap\n"),
    (10, 17, Status::BadImage, b"image 10 count\n"),
    (14, 2, Status::BadImage, b"image 12 count\n"),
    (18, 3, Status::BadImage, b"image 16 overlap\n"),
    (20, 3, Status::BadImage, b"image 20 channel\n"),
    (20, 0, Status::BadImage, b"image 22 count\n"),
    (21, 16, Status::BadImage, b"image 20 channel\n"),
    (21, 15, Status::Done, UNPLUGGED),
    (24, 1, Status::BadImage, b"image 20 channel\n"),
    (30, 1, Status::BadImage, b"image 28 overlap\n"),
    (32, 0, Status::BadImage, b"image 32 count\n"),
    (32, 4, Status::BadImage, b"image 84 trailing\n"),
    (36, 127, Status::BadImage, b"image 36 opcode\n"),
    (36, 0x80, Status::BadImage, b"image 36 opcode\n"),
    (36, 1, Status::BadImage, b"image 36 glue\n"),
    (37, 2, Status::BadImage, b"image 36 register\n"),
    (38, 1, Status::BadImage, b"image 36 field\n"),
    (76, 1, Status::BadImage, b"image 72 channel\n"),
    (77, 1, Status::BadImage, b"image 72 field\n"),
    (84, 0x90, Status::Bound, AGAIN),
    (84, 0x99, Status::BadImage, b"image 84 falls-off\n"),
    (84, 0x97, Status::BadImage, b"image 84 falls-off\n"),
    (84, 0xff, Status::BadImage, b"image 84 opcode\n"),
    (96, 0, Status::BadImage, b"image 96 trailing\n"),
];

/// Whether the image with one byte set, or put after its last, is answered so.
fn is_answered(alloc: Global, change: &Change) -> Result<bool, Fail> {
    let (at, byte, status, wrote) = *change;
    let bytes = changed(alloc, at, byte)?;
    tells(alloc, &["exec", "--steps=6"], &bytes, status, wrote)
}

fn changed(alloc: Global, at: usize, byte: u8) -> Result<Vec<u8>, Fail> {
    let (front, rest) = IMAGE.split_at(at.min(IMAGE.len()));
    let mut bytes = Vec::from_slice(alloc, front)?;
    bytes.push(byte)?;
    if let Some((_, after)) = rest.split_first() {
        bytes.extend_from_slice(after)?;
    }
    Ok(bytes)
}

#[test]
fn each_changed_byte_is_told(rt: HostRuntime) -> Result<(), Fail> {
    for change in &CHANGES {
        assert!(rt; is_answered(rt.alloc(), change)?);
    }
    Ok(())
}

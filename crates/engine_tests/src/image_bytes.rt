//! The bytes of an image, both ways; what is told of each of its fronts and of bytes that were changed.

ghost use Rattle.std.specs.Prelude.{IfOk};
ghost use Rattle.micro_isa.specs.Formed.{IsFormedImage};

use image_load::{ImageFault, ImageKind, read_image, write_image};
use micro_isa::Image;
use std::alloc::Global;
use std::test::Fail;

/// One context that adds 2 and 3 and sends the sum, over a file of two shared registers.
const ADDING: [u8; 96] = [
    0x55, 0x52, 0x45, 0x47, 1, 0, 1, 0, 2, 0, 1, 0, 0, 0, 0, 0, 0, 0, 2, 0, // header
    2, 0xff, 0, 0, 0, 0, 0, 0, // channel 0
    0, 0, 0, 0, 5, 0, 0, 0, // context 0
    0x81, 0, 0, 0, 2, 0, 0, 0, 4, 0, 0, 0, // li
    0x81, 1, 0, 0, 3, 0, 0, 0, 5, 0, 0, 0, // li
    0x83, 0, 0, 1, 0, 0, 0, 0, 6, 0, 0, 0, // add
    0x99, 0, 0, 0, 0, 0, 0, 0, 7, 0, 0, 0, // send
    0x9a, 0, 0, 0, 0, 0, 0, 0, 8, 0, 0, 0, // halt
];

/// A byte that is changed, what it is changed to, and the fault that is told, if there is one.
type Change = (usize, u8, Option<(u32, ImageKind)>);

const CHANGES: [Change; 29] = [
    (0, 0, Some((0, ImageKind::Magic))),
    (4, 2, Some((4, ImageKind::Version))),
    (6, 9, Some((6, ImageKind::Count))),
    (6, 2, Some((96, ImageKind::Short))),
    (8, 0, Some((8, ImageKind::Count))),
    (8, 129, Some((8, ImageKind::Count))),
    (8, 1, Some((16, ImageKind::Overlap))),
    (10, 17, Some((10, ImageKind::Count))),
    (14, 2, Some((12, ImageKind::Count))),
    (18, 3, Some((16, ImageKind::Overlap))),
    (20, 3, Some((20, ImageKind::Channel))),
    (20, 0, Some((22, ImageKind::Count))),
    (21, 16, Some((20, ImageKind::Channel))),
    (21, 15, None),
    (24, 1, Some((20, ImageKind::Channel))),
    (30, 1, Some((28, ImageKind::Overlap))),
    (32, 0, Some((32, ImageKind::Count))),
    (32, 4, Some((84, ImageKind::Trailing))),
    (36, 127, Some((36, ImageKind::Opcode))),
    (36, 0x80, Some((36, ImageKind::Opcode))),
    (36, 1, Some((36, ImageKind::Glue))),
    (37, 2, Some((36, ImageKind::Register))),
    (38, 1, Some((36, ImageKind::Field))),
    (76, 1, Some((72, ImageKind::Channel))),
    (77, 1, Some((72, ImageKind::Field))),
    (84, 0x90, None),
    (84, 0x99, Some((84, ImageKind::FallsOff))),
    (84, 0x97, Some((84, ImageKind::FallsOff))),
    (84, 0xff, Some((84, ImageKind::Opcode))),
];

/// The fault that is told of bytes, if any.
fn told(alloc: Global, bytes: &[u8]) -> Option<(u32, ImageKind)> {
    if bytes.len() > 200 {
        return None;
    }
    match read_image(alloc, bytes) {
        Err(ImageFault::At { offset, kind }) => Some((offset, kind)),
        _ => None,
    }
}

/// The image that at most 200 bytes spell.
pub(crate) fn image_in(alloc: Global, bytes: &[u8]) -> Result<Image, Fail>
    ensures { IfOk result IsFormedImage }
{
    if bytes.len() > 200 {
        return Err("few bytes".into());
    }
    match read_image(alloc, bytes) {
        Ok(image) => Ok(image),
        Err(_) => Err("bytes without a fault".into()),
    }
}

/// The bytes of an image.
fn bytes_of(alloc: Global, image: &Image) -> Result<Vec<u8>, Fail>
    requires { IsFormedImage image.now }
{
    match write_image(alloc, image) {
        Ok(bytes) => Ok(bytes),
        Err(_) => Err("ample memory".into()),
    }
}

#[test]
fn one_image_both_ways(rt: HostRuntime) -> Result<(), Fail> {
    let image = image_in(rt.alloc(), &ADDING)?;
    assert!(rt; image.file == 2 && image.contexts.len() == 1 && image.is_formed());
    let bytes = bytes_of(rt.alloc(), &image)?;
    assert!(rt; bytes.as_slice() == ADDING.as_slice());
    Ok(())
}

#[test]
fn a_front_is_short_at_its_end(rt: HostRuntime) {
    for n in 0..96u32 {
        let front = &ADDING[..n as usize];
        assert!(rt; told(rt.alloc(), front) == Some((n, ImageKind::Short)));
    }
}

/// The bytes with one that is changed.
fn changed(place: usize, byte: u8) -> [u8; 96] {
    let mut bytes = ADDING;
    if place < 96 {
        bytes[place] = byte;
    }
    bytes
}

#[test]
fn a_changed_byte_is_told(rt: HostRuntime) {
    for (place, byte, fault) in &CHANGES {
        let bytes = changed(*place, *byte);
        assert!(rt; told(rt.alloc(), &bytes) == *fault);
    }
}

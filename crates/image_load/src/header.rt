//! The header of an image.

ghost use Rattle.std.specs.Prelude.{◌≡◌, ◌≤◌, ◌+◌, length, None};
ghost use Rattle.image_load.specs.Faults.{first_of};
ghost use Rattle.image_load.specs.Loading.{header_in, header_fault, field_tests, shared_tests};

use crate::fault::{At, ImageKind, fault_at};
use crate::field::{number_2, number_4, outside, range_in};
use micro_isa::{LONGEST_IMAGE, MOST_CHANNELS, MOST_CONTEXTS, MOST_FILE, MOST_MEMORY, Range};

/// `UREG`, the first four bytes of an image.
pub(crate) const MAGIC: u32 = 1_195_725_397;

/// The numbers of a header.
#[derive(Clone, Copy, Debug, PartialEq, Eq)]
pub(crate) struct Header {
    pub contexts: u32,
    pub file: u32,
    pub channels: u32,
    pub memory: u32,
    pub shared: Range,
}

pub(crate) fn header_in(bytes: &[u8]) -> Header
    requires { 20 ≤ length bytes.now }
    ensures { result ≡ header_in bytes.now }
{
    Header {
        contexts: number_2(bytes, 6),
        file: number_2(bytes, 8),
        channels: number_2(bytes, 10),
        memory: number_4(bytes, 12),
        shared: range_in(bytes, 16),
    }
}

/// The first fault of the header, field by field.
#[tactic(auto, unfolding(crate::specs::Loading::header_fault))]
pub(crate) fn header_fault(bytes: &[u8]) -> Option<At>
    requires short { length bytes.now ≤ LONGEST_IMAGE }
    ensures first { result ≡ header_fault bytes.now }
    ensures long { result ≡ None → 20 ≤ length bytes.now }
{
    if let Some(found) = wide_fault(bytes, 0, ImageKind::Magic, MAGIC, MAGIC) {
        return Some(found);
    }
    if let Some(found) = small_fault(bytes, 4, ImageKind::Version, 1, 1) {
        return Some(found);
    }
    if let Some(found) = small_fault(bytes, 6, ImageKind::Count, 1, MOST_CONTEXTS as u32) {
        return Some(found);
    }
    if let Some(found) = small_fault(bytes, 8, ImageKind::Count, 1, MOST_FILE) {
        return Some(found);
    }
    if let Some(found) = small_fault(bytes, 10, ImageKind::Count, 0, MOST_CHANNELS as u32) {
        return Some(found);
    }
    if let Some(found) = wide_fault(bytes, 12, ImageKind::Count, 0, MOST_MEMORY) {
        return Some(found);
    }
    shared_fault(bytes)
}

/// The fault of a field of two bytes, whose number is to be from `least` to `most`.
fn small_fault(bytes: &[u8], place: usize, kind: ImageKind, least: u32, most: u32) -> Option<At>
    requires short { length bytes.now ≤ LONGEST_IMAGE }
    requires front { place ≤ 20 }
    ensures { result ≡ first_of (field_tests bytes.now place 2 kind least most) }
{
    if bytes.len() < place + 2 {
        return Some(fault_at(bytes.len(), ImageKind::Short));
    }
    if outside(least, most, number_2(bytes, place)) {
        return Some(fault_at(place, kind));
    }
    None
}

/// The same of a field of four bytes.
fn wide_fault(bytes: &[u8], place: usize, kind: ImageKind, least: u32, most: u32) -> Option<At>
    requires short { length bytes.now ≤ LONGEST_IMAGE }
    requires front { place ≤ 20 }
    ensures { result ≡ first_of (field_tests bytes.now place 4 kind least most) }
{
    if bytes.len() < place + 4 {
        return Some(fault_at(bytes.len(), ImageKind::Short));
    }
    if outside(least, most, number_4(bytes, place)) {
        return Some(fault_at(place, kind));
    }
    None
}

/// The fault of the shared range.
fn shared_fault(bytes: &[u8]) -> Option<At>
    requires short { length bytes.now ≤ LONGEST_IMAGE }
    ensures first { result ≡ first_of (shared_tests bytes.now) }
    ensures long { result ≡ None → 20 ≤ length bytes.now }
{
    if bytes.len() < 20 {
        return Some(fault_at(bytes.len(), ImageKind::Short));
    }
    let header = header_in(bytes);
    if u64::from(header.file) < u64::from(header.shared.start) + u64::from(header.shared.size) {
        return Some(fault_at(16, ImageKind::Overlap));
    }
    None
}

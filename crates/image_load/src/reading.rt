//! Reads an image.

ghost use Rattle.std.specs.Prelude.{◌≡◌, ◌≤◌, length, None, IfOk, IfErr, OnOk};
ghost use Rattle.image_load.specs.Faults.{Gives, Causes};
ghost use Rattle.image_load.specs.Spelling.{Spells, SpellsAlone};
ghost use Rattle.image_load.specs.Laws.{IsShortWhereCut, IsTrailingBehind, StaysWhateverFollows};
ghost use Rattle.image_load.specs.Loading.{front_at, image_read, image_fault, Unspelled};

use crate::channels::channels_at;
use crate::contexts::contexts_at;
use crate::fault::{ImageFault, ImageKind, fault_at, told};
use crate::field::behind;
use crate::header::{header_fault, header_in};
use crate::second_pass::codes_fault;
use micro_isa::{Image, LONGEST_IMAGE, Setting};
use std::alloc::Global;

/// What the first pass reads, and where the contexts begin.
#[tactic(auto, unfolding(crate::specs::Loading::front_at))]
fn front_at(alloc: Global, bytes: &[u8]) -> Result<(Image, usize), ImageFault>
    requires short { length bytes.now ≤ LONGEST_IMAGE }
    ensures { Gives (λ x. (x.0, x.1)) result (front_at bytes.now) }
{
    let size = bytes.len();
    if let Some(found) = header_fault(bytes) {
        return Err(told(found));
    }
    let header = header_in(bytes);
    let (channels, rest) = match channels_at(alloc, size, header.channels, behind(bytes, 20)) {
        Ok(read) => read,
        Err(why) => return Err(why),
    };
    let start = size.saturating_sub(rest.len());
    let (contexts, rest) = match contexts_at(alloc, size, &header, rest) {
        Ok(read) => read,
        Err(why) => return Err(why),
    };
    if !rest.is_empty() {
        return Err(told(fault_at(size.saturating_sub(rest.len()), ImageKind::Trailing)));
    }
    let setting = Setting {
        memory: header.memory,
        channels,
    };
    Ok((
        Image {
            file: header.file,
            setting,
            shared: header.shared,
            contexts,
        },
        start,
    ))
}

/// Both passes.
#[tactic(auto, unfolding(crate::specs::Loading::image_read))]
fn read(alloc: Global, bytes: &[u8]) -> Result<Image, ImageFault>
    requires short { length bytes.now ≤ LONGEST_IMAGE }
    ensures { Gives (λ m. m) result (image_read bytes.now) }
{
    match front_at(alloc, bytes) {
        Ok((image, start)) => match codes_fault(&image, start) {
            Some(found) => Err(told(found)),
            None => Ok(image),
        },
        Err(why) => Err(why),
    }
}

/// The image that bytes spell, of at most 167,772,160, or their first fault in the order of `docs/FORMATS.md`.
pub fn read_image(alloc: Global, bytes: &[u8]) -> Result<Image, ImageFault>
    requires short { length bytes.now ≤ LONGEST_IMAGE }
    ensures spelled { IfOk result (Spells bytes.now) }
    ensures alone { IfOk result (SpellsAlone bytes.now) }
    // The fault is the first one, in the order of the two passes.
    ensures cause { IfErr result (λ why. Causes why (image_fault bytes.now)) }
    ensures free { OnOk result (image_fault bytes.now ≡ None) }
    // Where a fault is told, the bytes spell no image.
    ensures unspelled { IfErr result (λ why. Unspelled why bytes.now) }
    // Every front of a spelling is short at its end, and what stands behind a spelling is told.
    ensures cut { IsShortWhereCut bytes.now }
    ensures behind { IsTrailingBehind bytes.now }
    // A fault that is found from front to back stays whatever follows.
    ensures stays { StaysWhateverFollows bytes.now }
{
    read(alloc, bytes)
}

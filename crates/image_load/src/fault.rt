//! Why bytes are no image.

ghost use Rattle.std.specs.Prelude.{◌≡◌, ◌≤◌};
ghost use Rattle.image_load.specs.Faults.{kind_text, fault_at};
ghost use Rattle.image_load.specs.declared.fault.ImageFault.TheVariants as fault;
ghost use Rattle.image_load.specs.declared.fault.ImageKind.TheVariants as kind;

use thiserror::Error;

/// The kinds of faults that an image's bytes can have. `docs/FORMATS.md` says when each is told.
#[derive(Clone, Copy, Debug, PartialEq, Eq)]
pub enum ImageKind {
    /// The bytes end inside a field, a part or a word.
    Short,
    /// The first four bytes are not those of an image.
    Magic,
    /// There is no such version.
    Version,
    /// A number is outside its limit.
    Count,
    /// A channel has a port, a capacity or initial words that it cannot have; or a word names a channel that is
    /// not there, or is of the wrong kind.
    Channel,
    /// A range of registers ends past the file, or meets another.
    Overlap,
    /// There is no such opcode.
    Opcode,
    /// A field that the instruction does not have is not 0, or a channel is above 255.
    Field,
    /// There are bytes behind the last part.
    Trailing,
    /// A word that spends no step is no move, or jumps to another such word.
    Glue,
    /// A register is not in the file, or a written one is neither the context's own nor shared.
    Register,
    /// A jump goes behind the last word.
    Target,
    /// The last word of a context is neither `jmp` nor `halt`.
    FallsOff,
}

/// Why no image was read.
#[derive(Clone, Copy, Debug, PartialEq, Eq, Error)]
pub enum ImageFault {
    /// The first fault of the bytes, and the byte where it is told, counted from 0.
    #[error("byte {offset}: {kind:?}")]
    At { offset: u32, kind: ImageKind },
    /// Memory was wanting.
    #[error("out of memory")]
    NoMemory,
}

/// A fault and the byte where it is told.
#[derive(Clone, Copy, Debug, PartialEq, Eq)]
pub(crate) struct At {
    pub offset: u32,
    pub kind: ImageKind,
}

/// The fault at this byte.
pub(crate) fn fault_at(offset: usize, kind: ImageKind) -> At
    requires { offset ≤ 4294967295 }
    ensures { result ≡ fault_at offset kind }
{
    At {
        offset: offset as u32,
        kind,
    }
}

/// The answer that tells a fault.
pub(crate) fn told(found: At) -> ImageFault
    ensures { result ≡ fault.At found.offset found.kind }
{
    ImageFault::At {
        offset: found.offset,
        kind: found.kind,
    }
}

/// The fault of bytes, `size` in all, that end too soon.
pub(crate) fn short(size: usize) -> ImageFault
    requires { size ≤ 4294967295 }
    ensures { result ≡ fault.At size kind.Short }
{
    told(fault_at(size, ImageKind::Short))
}

/// The word by which a kind is told.
pub fn kind_text(kind: ImageKind) -> &'static [u8]
    ensures { result.now ≡ kind_text kind }
{
    match kind {
        ImageKind::Short => b"short",
        ImageKind::Magic => b"magic",
        ImageKind::Version => b"version",
        ImageKind::Count => b"count",
        ImageKind::Channel => b"channel",
        ImageKind::Overlap => b"overlap",
        ImageKind::Opcode => b"opcode",
        ImageKind::Field => b"field",
        ImageKind::Trailing => b"trailing",
        ImageKind::Glue => b"glue",
        ImageKind::Register => b"register",
        ImageKind::Target => b"target",
        ImageKind::FallsOff => b"falls-off",
    }
}

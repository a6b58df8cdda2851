ghost use Rattle.std.specs.Prelude.{◌≡◌};
ghost use Rattle.asm_lines.specs.Faults.{kind_text};

use micro_isa::NoMemory;
use thiserror::Error;

/// The kinds of faults that a bundle's text can have, in the order in which those of one line are told.
#[derive(Clone, Copy, Debug, PartialEq, Eq)]
pub enum BundleKind {
    Byte,
    Directive,
    Operands,
    Name,
    Number,
    Limit,
    Port,
    Repeated,
    Missing,
    LabelTwice,
    ChannelUnknown,
    ChannelKind,
    LabelUnknown,
    Empty,
    FallsOff,
}

/// Why no bundle was read. Lines are counted from 1.
#[derive(Clone, Copy, Debug, PartialEq, Eq, Error)]
pub enum BundleFault {
    #[error("line {line}: {kind:?}")]
    At { line: u32, kind: BundleKind },
    #[error("out of memory")]
    NoMemory,
}

impl From<NoMemory> for BundleFault {
    ghost use Rattle.asm_lines.specs.declared.fault.BundleFault.TheVariants as fault;

    ghost from_gives = { λ _ why. why ≡ fault.NoMemory };

    fn from(_want: NoMemory) -> BundleFault {
        BundleFault::NoMemory
    }
}

/// The kinds in their order, each with the word by which it is told.
pub const KINDS: [(BundleKind, &'static [u8]); 15] = [
    (BundleKind::Byte, b"byte"),
    (BundleKind::Directive, b"directive"),
    (BundleKind::Operands, b"operands"),
    (BundleKind::Name, b"name"),
    (BundleKind::Number, b"number"),
    (BundleKind::Limit, b"limit"),
    (BundleKind::Port, b"port"),
    (BundleKind::Repeated, b"repeated"),
    (BundleKind::Missing, b"missing"),
    (BundleKind::LabelTwice, b"label-twice"),
    (BundleKind::ChannelUnknown, b"channel-unknown"),
    (BundleKind::ChannelKind, b"channel-kind"),
    (BundleKind::LabelUnknown, b"label-unknown"),
    (BundleKind::Empty, b"empty"),
    (BundleKind::FallsOff, b"falls-off"),
];

/// The word by which a kind is told.
pub fn kind_text(kind: BundleKind) -> &'static [u8]
    ensures { result.now ≡ kind_text kind }
{
    KINDS[kind as usize].1
}

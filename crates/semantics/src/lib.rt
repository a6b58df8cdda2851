//! What a bundle means, what an image means, and when the two agree. The definitions stand in
//! `specs/`; the crates above run them.
#![tactic(auto)]

ghost use Rattle.std.specs.Prelude.{◌≡◌};
ghost use Rattle.semantics.specs.Effects.{onward, stops};

/// Why a stretch of instructions ended: what its last instruction asks of the world. `line` is the
/// source line of an instruction that may trap.
#[derive(Clone, Copy, Debug, PartialEq, Eq)]
pub enum SegmentExit {
    Yield,
    Load { address: u32, line: u32 },
    Store { address: u32, word: u32, line: u32 },
    Recv { channel: u8 },
    Send { channel: u8, word: u32 },
    Halt,
    /// A division by 0.
    Divide { line: u32 },
    /// The steps came to their bound.
    Bound,
}

/// What an instruction changes of its context at once.
#[derive(Clone, Copy, Debug, PartialEq, Eq)]
pub enum Change<R> {
    Nothing,
    /// A register holds another value.
    Register { to: R, value: u32 },
}

/// How an instruction ends a stretch: why, and the register that the word of the completion goes
/// to, if any.
#[derive(Clone, Copy, Debug, PartialEq, Eq)]
pub struct Stopped<R> {
    pub why: SegmentExit,
    pub pending: Option<R>,
}

/// What an instruction does: a change, the place of the next one, and the end of the stretch, where
/// it ends it.
#[derive(Clone, Copy, Debug, PartialEq, Eq)]
pub struct Effect<R> {
    pub change: Change<R>,
    pub next: u32,
    pub stopped: Option<Stopped<R>>,
}

impl<R> Effect<R> {
    /// A change, after which the next place comes.
    pub fn onward(change: Change<R>, next: u32) -> Effect<R>
        ensures { result ≡ onward change next }
    {
        Effect {
            change,
            next,
            stopped: None,
        }
    }

    /// A stop, the register that the word of the completion goes to, if any, and the next place.
    pub fn stops(why: SegmentExit, pending: Option<R>, next: u32) -> Effect<R>
        ensures { result ≡ stops why pending next }
    {
        Effect {
            change: Change::Nothing,
            next,
            stopped: Some(Stopped { why, pending }),
        }
    }
}

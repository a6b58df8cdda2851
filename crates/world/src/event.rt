use micro_isa::List;

/// Why an instruction ended its context for good.
#[derive(Clone, Copy, Debug, PartialEq, Eq)]
pub enum Trap {
    /// A division by 0.
    Divide,
    /// An address that is not below the memory size.
    Address,
}

/// What may happen to a run: a segment of a context, a word for an input channel, or the end of a
/// channel's port.
#[derive(Clone, Copy, Debug, PartialEq, Eq)]
pub enum Event {
    Run(u32),
    Feed { channel: u8, word: u32 },
    Unplug { channel: u8 },
}

/// What a segment ended with.
#[derive(Clone, Copy, Debug, PartialEq, Eq)]
pub enum SegmentEnd {
    Load,
    Store,
    Yield,
    Recv,
    Send,
    Halt,
    Trap(Trap),
    /// The steps of the whole run came to their bound.
    Bound,
}

/// A word that was put out, and its channel.
#[derive(Clone, Copy, Debug, PartialEq, Eq)]
pub struct Output {
    pub channel: u8,
    pub word: u32,
}

/// What a segment did: the steps that it spent, its end, and the word that its completion put out.
#[derive(Clone, Copy, Debug, PartialEq, Eq)]
pub struct Segment {
    pub steps: u32,
    pub end: SegmentEnd,
    pub sent: Option<Output>,
}

/// What is seen of an event.
#[derive(Clone, Copy, Debug, PartialEq, Eq)]
pub enum Seen {
    Ran(Segment),
    Fed,
    Unplugged,
}

/// The first cause for which an event may not happen, in the order in which they are asked.
#[derive(Clone, Copy, Debug, PartialEq, Eq)]
pub enum Illegal {
    /// A segment was cut by the bound.
    Over,
    /// There is no such context.
    NoContext,
    NotRunnable,
    /// There is no such channel, it has no port, or it is an output that is to be fed.
    NoPort,
    /// The port was unplugged before.
    Unplugged,
    /// The ring has no room.
    Full,
}

/// An event of a run as its journal tells it.
#[derive(Clone, Copy, Debug, PartialEq, Eq)]
pub enum Entry {
    Ran {
        context: u32,
        steps: u32,
        end: SegmentEnd,
    },
    Fed {
        channel: u8,
        word: u32,
    },
    Unplugged {
        channel: u8,
    },
}

/// How a run ended.
#[derive(Clone, Copy, Debug, PartialEq, Eq)]
pub enum End {
    /// Every context halted or trapped.
    Finished,
    /// No context can go on, and no word can come.
    Stuck,
    /// The steps came to their bound.
    Bound,
    /// The ports gave nothing for too long.
    Idle,
}

/// What a context waits for.
#[derive(Clone, Copy, Debug, PartialEq, Eq)]
pub enum Phase {
    Ready,
    /// The word that a load read, which goes to its register when the context runs again.
    Due(u32),
    /// A word of this channel.
    Receiving(u8),
    /// Until the channel takes the word.
    Sending { channel: u8, word: u32 },
    Halted,
    /// Ended by the instruction of this source line.
    Trapped { trap: Trap, line: u32 },
}

/// What a run shows: no place, address or register. `left`, `rings` and `plugged` have one item a
/// channel: initial words not yet received, words sent or fed, and whether its port is plugged.
#[derive(Clone, Debug, Drop, PartialEq)]
pub struct View {
    pub memory: List<u32>,
    pub left: List<List<u32>>,
    pub rings: List<List<u32>>,
    pub plugged: List<bool>,
    pub outputs: List<Output>,
    pub steps: u32,
    pub phases: List<Phase>,
}

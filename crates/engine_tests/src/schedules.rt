//! Schedules of one and two contexts, each event with what both interpreters must answer.

use crate::cases::{Expected, Last, Row, holds};
use std::test::Fail;
use world::{End, Event, Illegal, Phase, SegmentEnd, Trap};

/// The text of a bundle, the bound and the rows of a run, and its end.
struct Case {
    text: &'static [u8],
    bound: u32,
    rows: &'static [Row],
    last: Last<'static>,
}

/// A load takes its word before the other context stores there.
const LATCHED: Case = Case {
    text: b"file 16\nmemory 4\noutput out\ncontext a\nload x, y\nsend out, x\nhalt\ncontext b\nli x, 9\nstore y, x\nhalt\n",
    bound: 100,
    rows: &[
        (Event::Run(0), Expected::Ran(1, SegmentEnd::Load, None)),
        (Event::Run(1), Expected::Ran(2, SegmentEnd::Store, None)),
        (Event::Run(0), Expected::Ran(1, SegmentEnd::Send, None)),
        (Event::Run(1), Expected::Ran(1, SegmentEnd::Halt, None)),
        (Event::Run(0), Expected::Ran(1, SegmentEnd::Halt, Some(0))),
    ],
    last: Last {
        memory: &[9, 0, 0, 0],
        queued: 0,
        phases: &[Phase::Halted, Phase::Halted],
        ending: Some(End::Finished),
    },
};

/// No step is left at the start.
const CUT_AT_ONCE: Case = Case {
    text: b"file 16\noutput out\ninput in port 0 1\nwords in 7\ninner ring 1\noutput sink port 1\ncontext a\nrecv x, in\nhalt\n",
    bound: 0,
    rows: &[
        (Event::Run(0), Expected::Ran(0, SegmentEnd::Bound, None)),
        (Event::Run(9), Expected::Not(Illegal::Over)),
        (
            Event::Feed {
                channel: 9,
                word: 5,
            },
            Expected::Not(Illegal::Over),
        ),
        (Event::Unplug { channel: 1 }, Expected::Not(Illegal::Over)),
    ],
    last: Last {
        memory: &[],
        queued: 1,
        phases: &[Phase::Ready],
        ending: Some(End::Bound),
    },
};

/// The completion of a switch takes its word, though no step is left.
const CUT_AT_A_SWITCH: Case = Case {
    text: b"file 16\noutput out\ninput in port 0 1\nwords in 7\ninner ring 1\noutput sink port 1\ncontext a\nrecv x, in\nhalt\n",
    bound: 1,
    rows: &[
        (Event::Run(0), Expected::Ran(1, SegmentEnd::Recv, None)),
        (Event::Run(0), Expected::Ran(0, SegmentEnd::Bound, None)),
    ],
    last: Last {
        memory: &[],
        queued: 0,
        phases: &[Phase::Ready],
        ending: Some(End::Bound),
    },
};

/// The instruction on the fifth line divided by 0.
const DIVIDED: Phase = Phase::Trapped {
    trap: Trap::Divide,
    line: 5,
};

/// One context traps, and the other goes on to its end.
const ONE_TRAPS: Case = Case {
    text: b"file 16\noutput out\ncontext a\nli x, 6\ndiv x, x, z\nhalt\ncontext b\nyield\nctx x\nsend out, x\nhalt\n",
    bound: 100,
    rows: &[
        (
            Event::Run(0),
            Expected::Ran(2, SegmentEnd::Trap(Trap::Divide), None),
        ),
        (Event::Run(1), Expected::Ran(1, SegmentEnd::Yield, None)),
        (Event::Run(1), Expected::Ran(2, SegmentEnd::Send, None)),
        (Event::Run(1), Expected::Ran(1, SegmentEnd::Halt, Some(1))),
    ],
    last: Last {
        memory: &[],
        queued: 0,
        phases: &[DIVIDED, Phase::Halted],
        ending: Some(End::Finished),
    },
};

/// The ring holds a word already.
const WAITING: Phase = Phase::Sending {
    channel: 2,
    word: 8,
};

/// Each cause for which an event may not happen.
const ILLEGAL: Case = Case {
    text: b"file 16\noutput out\ninput in port 0 1\nwords in 7\ninner ring 1\noutput sink port 1\ncontext a\nrecv x, in\nsend ring, x\nrecv x, in\nsend ring, x\nhalt\n",
    bound: 100,
    rows: &[
        (Event::Run(1), Expected::Not(Illegal::NoContext)),
        (
            Event::Feed {
                channel: 0,
                word: 5,
            },
            Expected::Not(Illegal::NoPort),
        ),
        (
            Event::Feed {
                channel: 2,
                word: 5,
            },
            Expected::Not(Illegal::NoPort),
        ),
        (
            Event::Feed {
                channel: 3,
                word: 5,
            },
            Expected::Not(Illegal::NoPort),
        ),
        (
            Event::Feed {
                channel: 4,
                word: 5,
            },
            Expected::Not(Illegal::NoPort),
        ),
        (Event::Unplug { channel: 2 }, Expected::Not(Illegal::NoPort)),
        (Event::Unplug { channel: 4 }, Expected::Not(Illegal::NoPort)),
        (
            Event::Feed {
                channel: 1,
                word: 8,
            },
            Expected::Done,
        ),
        (
            Event::Feed {
                channel: 1,
                word: 9,
            },
            Expected::Not(Illegal::Full),
        ),
        (Event::Unplug { channel: 3 }, Expected::Done),
        (
            Event::Unplug { channel: 3 },
            Expected::Not(Illegal::Unplugged),
        ),
        (Event::Run(0), Expected::Ran(1, SegmentEnd::Recv, None)),
        (Event::Run(0), Expected::Ran(1, SegmentEnd::Send, None)),
        (Event::Run(0), Expected::Ran(1, SegmentEnd::Recv, None)),
        (Event::Run(0), Expected::Ran(1, SegmentEnd::Send, None)),
        (Event::Run(0), Expected::Not(Illegal::NotRunnable)),
        (Event::Unplug { channel: 1 }, Expected::Done),
        (
            Event::Feed {
                channel: 1,
                word: 9,
            },
            Expected::Not(Illegal::Unplugged),
        ),
    ],
    last: Last {
        memory: &[],
        queued: 1,
        phases: &[WAITING],
        ending: Some(End::Stuck),
    },
};

#[test]
fn each_schedule(rt: HostRuntime) -> Result<(), Fail> {
    for case in &[LATCHED, CUT_AT_ONCE, CUT_AT_A_SWITCH, ONE_TRAPS, ILLEGAL] {
        assert!(rt; holds(rt.alloc(), case.text, case.bound, case.rows, &case.last)?);
    }
    Ok(())
}

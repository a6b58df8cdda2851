//! Journals that are followed on the image of two contexts.

use crate::opening::image_of;
use run_journal::{ReplayFault, Run, replay};
use std::alloc::Global;
use std::test::Fail;
use world::{End, Entry, SegmentEnd};

/// Two contexts that share one register: each yields, sends 8 and halts.
const PAIR: &[u8] = b"file 3\noutput out\n\
context a\nli x, 7\nyield\nli y, 1\nadd x, x, y\nsend out, x\nhalt\n\
context b\nli x, 7\nyield\nli y, 1\nadd x, x, y\nsend out, x\nhalt\n";

/// The segments of the first context, in order.
const YIELDS: Entry = Entry::Ran {
    context: 0,
    steps: 2,
    end: SegmentEnd::Yield,
};

const SENDS: Entry = Entry::Ran {
    context: 0,
    steps: 3,
    end: SegmentEnd::Send,
};

const HALTS: Entry = Entry::Ran {
    context: 0,
    steps: 1,
    end: SegmentEnd::Halt,
};

/// The segments of the second context, in order.
const YIELDS_TOO: Entry = Entry::Ran {
    context: 1,
    steps: 2,
    end: SegmentEnd::Yield,
};

const SENDS_TOO: Entry = Entry::Ran {
    context: 1,
    steps: 3,
    end: SegmentEnd::Send,
};

const HALTS_TOO: Entry = Entry::Ran {
    context: 1,
    steps: 1,
    end: SegmentEnd::Halt,
};

/// How a journal is answered: its run with this ending, or a fault.
type Answer = Result<Option<End>, ReplayFault>;

/// Journals, each with how it is answered.
const JOURNALS: &[(&[Entry], Answer)] = &[
    (
        &[YIELDS, YIELDS_TOO, SENDS, SENDS_TOO, HALTS, HALTS_TOO],
        Ok(Some(End::Finished)),
    ),
    (&[], Ok(None)),
    (
        &[YIELDS, YIELDS],
        Err(ReplayFault::Differs {
            at: 2,
            written: YIELDS,
            found: SENDS,
        }),
    ),
    (
        &[YIELDS, SENDS, HALTS, HALTS],
        Err(ReplayFault::Illegal {
            at: 4,
            written: HALTS,
        }),
    ),
];

/// Whether a journal is answered so, and its run has just its entries.
fn is_answered(alloc: Global, entries: &[Entry], answer: Answer) -> Result<bool, Fail> {
    let image = image_of(alloc, PAIR)?;
    Ok(match replay(alloc, &image, entries, 1000) {
        Ok(run) => answer == Ok(run.ending()) && run.entries() == entries,
        Err(why) => answer == Err(why),
    })
}

#[test]
fn follows_journals(rt: HostRuntime) -> Result<(), Fail> {
    for (entries, answer) in JOURNALS {
        assert!(rt; is_answered(rt.alloc(), entries, *answer)?);
    }
    Ok(())
}

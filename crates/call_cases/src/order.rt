//! Calls in which several causes stand together: the first in the order of refusals is told, and a write
//! that fails takes the place of any of them.

use crate::calls::{EXAMPLE, NO_FIT, USAGE, answers, sink_of, source_of, words_of};
use micro_cli::Status;
use std::alloc::Global;
use std::test::Fail;

/// The words of a call and its input, the reads and the writes that fail, and what must be written, with
/// which status.
struct Case {
    words: &'static [&'static str],
    input: &'static [u8],
    reads: &'static [u64],
    writes: &'static [u64],
    wrote: &'static [u8],
    status: Status,
}

const CASES: [Case; 9] = [
    // Words that mean nothing, and a read that would fail: nothing is read.
    Case {
        words: &["run", "fast"],
        input: EXAMPLE,
        reads: &[0],
        writes: &[],
        wrote: USAGE,
        status: Status::Usage,
    },
    // A failed read, and a text with a fault.
    Case {
        words: &["run"],
        input: b"file 2\ncontext a\nli x\nhalt\n",
        reads: &[1],
        writes: &[],
        wrote: b"",
        status: Status::ReadFault,
    },
    // A text with a fault, and too small a file.
    Case {
        words: &["run"],
        input: b"file 1\ncontext a\nli x, 2\nli y, 3\nadd x, x, y\nli x\nhalt\n",
        reads: &[],
        writes: &[],
        wrote: b"bundle 6 operands\n",
        status: Status::BadBundle,
    },
    // Too small a file, and a line that is no entry.
    Case {
        words: &["replay"],
        input: b"file 1\noutput out\ncontext a\nli x, 2\nli y, 3\nadd x, x, y\nsend out, x\nhalt\njournal\nwhat\n",
        reads: &[],
        writes: &[],
        wrote: b"nofit need 2 file 1\n",
        status: Status::NoFit,
    },
    // A line that is no entry, behind an entry that is not what the image does.
    Case {
        words: &["replay"],
        input: b"file 2\noutput out\ncontext a\nli x, 2\nli y, 3\nadd x, x, y\nsend out, x\nhalt\njournal\nrun 0 1 halt\nwhat\n",
        reads: &[],
        writes: &[],
        wrote: b"journal 2 reading\n",
        status: Status::BadJournal,
    },
    // A failed write of the line of each refusal.
    Case {
        words: &["run", "fast"],
        input: EXAMPLE,
        reads: &[0],
        writes: &[0],
        wrote: b"",
        status: Status::WriteFault,
    },
    Case {
        words: &["run"],
        input: NO_FIT,
        reads: &[],
        writes: &[1],
        wrote: b"nofi",
        status: Status::WriteFault,
    },
    Case {
        words: &["exec"],
        input: EXAMPLE,
        reads: &[],
        writes: &[2],
        wrote: b"image 0 ",
        status: Status::WriteFault,
    },
    Case {
        words: &["replay"],
        input: b"file 2\noutput out\ncontext a\nli x, 2\nli y, 3\nadd x, x, y\nsend out, x\nhalt\njournal\nrun 0 1 halt\n",
        reads: &[],
        writes: &[3],
        wrote: b"journal 1 di",
        status: Status::WriteFault,
    },
];

fn is_answered(alloc: Global, case: &Case) -> Result<bool, Fail> {
    let words = words_of(alloc, case.words)?;
    let source = source_of(alloc, case.input, case.reads)?;
    let sink = sink_of(alloc, case.writes)?;
    Ok(answers(alloc, &words, source, sink, case.status, case.wrote))
}

#[test]
fn the_first_cause_is_told(rt: HostRuntime) -> Result<(), Fail> {
    for case in &CASES {
        assert!(rt; is_answered(rt.alloc(), case)?);
    }
    Ok(())
}

//! What each command answers.

use crate::calls::{EXAMPLE, IMAGE, NO_FIT, REPORT, USAGE, answers, sink_of, tells, words_of};
use micro_cli::Status;
use micro_kit::MemSource;
use std::alloc::Global;
use std::test::Fail;

const SOURCE: &[u8] =
    b"run 0 4 send\nrun 0 1 halt\noutput 0 5\ncontext 0 halted\nsteps 5\nend finished\n";

const LOOSE: &[u8] =
    b"memory 0x10\nfile 02 # small\noutput out\ncontext a\ntop: li x 0xFF\n send out x\n jmp top\n";

const CANONICAL: &[u8] =
    b"file 2\nmemory 16\noutput out\ncontext a\ntop:\n  li x, 255\n  send out, x\n  jmp top\n";

const PORTED: &[u8] =
    b"file 2\ninput rx port 0 4\noutput tx\ncontext a\nloop:\nrecv x, rx\nsend tx, x\njmp loop\n";

const PORTED_REPORT: &[u8] =
    b"unplug 0\nrun 0 1 recv\noutput 1\ncontext 0 receive 0\nsteps 1\nend stuck\n";

const PORTED_RUN: &[u8] =
    b"need 1\nbudget private 0 shared 1\nglue 0\nunplug 0\nrun 0 1 recv\noutput 1\ncontext 0 receive 0\nfile 0 0\nsteps 1\nend stuck\n";

/// No step is left at the first instruction.
const CUT_AT_ONCE: &[u8] =
    b"need 2\nbudget private 0 shared 2\nglue 0\nrun 0 0 bound\noutput 0\ncontext 0 ready\nfile 0 0\nsteps 0\nend bound\n";

const RECEIVES: &[u8] =
    b"file 1\ninput rx\nwords rx 7\noutput out\ncontext a\nrecv x, rx\nsend out, x\nhalt\n";

/// No step is left behind the switch, and the word was taken.
const CUT_AT_A_SWITCH: &[u8] =
    b"need 1\nbudget private 0 shared 1\nglue 0\nrun 0 1 recv\nrun 0 0 bound\noutput 1\ncontext 0 ready\nfile 7\nsteps 1\nend bound\n";

/// The second of three instructions is not reached.
const JUMPS_OVER: &[u8] = b"file 1\ncontext a\njmp end\nli x, 1\nend: halt\n";

const JUMPS_OVER_CHECK: &[u8] =
    b"context 0 private 0 all 1 regions 1\nunreachable 0 4\nneed 1 file 1\n";

/// One context divides by zero, and the other goes on to its end.
const DIVIDES: &[u8] =
    b"file 4\noutput out\ncontext a\nli x, 6\nli y, 1\ndiv x, x, z\nhalt\ncontext b\nyield\nli w, 9\nsend out, w\nhalt\n";

const DIVIDES_REPORT: &[u8] =
    b"need 3\nbudget private 1 0 shared 2\nglue 0\nrun 0 3 divide\nrun 1 1 yield\nrun 1 2 send\nrun 1 1 halt\noutput 0 9\ncontext 0 divide 6\ncontext 1 halted\nfile 0 9 1 0\nsteps 7\nend finished\n";

/// The words of a call and its input, what it must write, and with which status.
struct Case {
    words: &'static [&'static str],
    input: &'static [u8],
    wrote: &'static [u8],
    status: Status,
}

const CASES: [Case; 20] = [
    Case {
        words: &["run"],
        input: EXAMPLE,
        wrote: REPORT,
        status: Status::Done,
    },
    Case {
        words: &["--order=round", "run", "--steps", "5"],
        input: EXAMPLE,
        wrote: REPORT,
        status: Status::Done,
    },
    Case {
        words: &["run"],
        input: NO_FIT,
        wrote: b"nofit need 2 file 1\n",
        status: Status::NoFit,
    },
    Case {
        words: &["run"],
        input: b"file 2\ncontext a\nli x\nhalt\n",
        wrote: b"bundle 3 operands\n",
        status: Status::BadBundle,
    },
    Case {
        words: &["source"],
        input: EXAMPLE,
        wrote: SOURCE,
        status: Status::Done,
    },
    Case {
        words: &["build"],
        input: EXAMPLE,
        wrote: IMAGE,
        status: Status::Done,
    },
    Case {
        words: &["build"],
        input: NO_FIT,
        wrote: b"nofit need 2 file 1\n",
        status: Status::NoFit,
    },
    Case {
        words: &["exec"],
        input: EXAMPLE,
        wrote: b"image 0 magic\n",
        status: Status::BadImage,
    },
    Case {
        words: &["run"],
        input: IMAGE,
        wrote: b"bundle 1 byte\n",
        status: Status::BadBundle,
    },
    Case {
        words: &["run"],
        input: PORTED,
        wrote: PORTED_RUN,
        status: Status::Stuck,
    },
    Case {
        words: &["run"],
        input: DIVIDES,
        wrote: DIVIDES_REPORT,
        status: Status::Trapped,
    },
    Case {
        words: &["run", "--steps", "0"],
        input: EXAMPLE,
        wrote: CUT_AT_ONCE,
        status: Status::Bound,
    },
    Case {
        words: &["run", "--steps=1"],
        input: RECEIVES,
        wrote: CUT_AT_A_SWITCH,
        status: Status::Bound,
    },
    Case {
        words: &["check"],
        input: JUMPS_OVER,
        wrote: JUMPS_OVER_CHECK,
        status: Status::Done,
    },
    Case {
        words: &["source"],
        input: PORTED,
        wrote: PORTED_REPORT,
        status: Status::Stuck,
    },
    Case {
        words: &["fmt"],
        input: LOOSE,
        wrote: CANONICAL,
        status: Status::Done,
    },
    Case {
        words: &["check"],
        input: EXAMPLE,
        wrote: b"context 0 private 0 all 2 regions 2\nneed 2 file 2\n",
        status: Status::Done,
    },
    Case {
        words: &["fast"],
        input: EXAMPLE,
        wrote: USAGE,
        status: Status::Usage,
    },
    Case {
        words: &[],
        input: EXAMPLE,
        wrote: USAGE,
        status: Status::Usage,
    },
    Case {
        words: &["run", "--order", "threads"],
        input: EXAMPLE,
        wrote: USAGE,
        status: Status::Usage,
    },
];

#[test]
fn serves_and_refuses(rt: HostRuntime) -> Result<(), Fail> {
    for case in &CASES {
        assert!(rt; tells(rt.alloc(), case.words, case.input, case.status, case.wrote)?);
    }
    Ok(())
}

/// Whether a `check` of this many newlines answers so.
fn checks_so(alloc: Global, count: usize, status: Status, wrote: &[u8]) -> Result<bool, Fail> {
    let words = words_of(alloc, &["check"])?;
    let input = vec![in alloc; b'\n'; count]?;
    let source = MemSource::of(input, 4096, Vec::new(alloc));
    let sink = sink_of(alloc, &[])?;
    Ok(answers(alloc, &words, source, sink, status, wrote))
}

#[test]
fn reads_as_much_as_the_limit(rt: HostRuntime) -> Result<(), Fail> {
    assert!(rt;
        checks_so(
            rt.alloc(),
            1_048_576,
            Status::BadBundle,
            b"bundle 1048577 missing\n"
        )?
    );
    Ok(())
}

#[test]
fn refuses_more_than_the_limit(rt: HostRuntime) -> Result<(), Fail> {
    assert!(rt; checks_so(rt.alloc(), 1_048_577, Status::TooLong, b"toolong 1048576\n")?);
    Ok(())
}

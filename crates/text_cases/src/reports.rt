//! Reports of runs, and the lines of a journal.

use journal_text::put_entry;
use micro_isa::{Channel, Code, Image, Instr, List, PReg, Range, Setting, Word};
use report_run::{Outcome, print_report};
use std::alloc::Global;
use std::test::Fail;
use world::{End, Entry, Output, Phase, SegmentEnd, Trap, View};

fn list<T: Copy>(alloc: Global, items: &[T]) -> Result<List<T>, Fail> {
    Ok(List::of(Vec::from_slice(alloc, items)?))
}

fn lists(alloc: Global, items: &[&[u32]]) -> Result<List<List<u32>>, Fail> {
    let mut lists = Vec::new(alloc);
    for words in items {
        lists.push(list(alloc, words)?)?;
    }
    Ok(List::of(lists))
}

/// Halts, of which the marked ones are counted.
fn code(alloc: Global, size: u32, counted: &[bool]) -> Result<Code, Fail> {
    let mut words = Vec::new(alloc);
    for counted in counted {
        words.push(Word {
            instr: Instr::Halt::<PReg>,
            counted: *counted,
            line: 0,
        })?;
    }
    Ok(Code {
        private: Range { start: 0, size },
        words: List::of(words),
    })
}

fn image(contexts: Vec<Code>, channels: Vec<Channel>, shared: u32) -> Image {
    Image {
        file: 8,
        setting: Setting {
            memory: 0,
            channels: List::of(channels),
        },
        shared: Range {
            start: 0,
            size: shared,
        },
        contexts: List::of(contexts),
    }
}

const FIRST: [Entry; 2] = [
    Entry::Ran {
        context: 0,
        steps: 4,
        end: SegmentEnd::Send,
    },
    Entry::Ran {
        context: 0,
        steps: 1,
        end: SegmentEnd::Halt,
    },
];

/// Whether this is what is reported of a run.
fn is_reported(
    alloc: Global,
    need: Option<u32>,
    image: &Image,
    entries: &[Entry],
    last: &Outcome,
    want: &[u8],
) -> Result<bool, Fail> {
    let channels = &image.setting.channels;
    let text = print_report(alloc, need, Some(image), channels, entries, last)?;
    Ok(text.as_slice() == want)
}

/// One context, whose five words are counted, over two shared registers.
fn first_image(alloc: Global) -> Result<Image, Fail> {
    let mut contexts = Vec::new(alloc);
    contexts.push(code(alloc, 0, &[true; 5])?)?;
    let mut channels = Vec::new(alloc);
    channels.push(Channel::Output { port: None })?;
    Ok(image(contexts, channels, 2))
}

const FIVE: [Output; 1] = [Output {
    channel: 0,
    word: 5,
}];

fn first_view(alloc: Global) -> Result<View, Fail> {
    Ok(View {
        memory: List::new(alloc),
        left: lists(alloc, &[&[]])?,
        rings: lists(alloc, &[&[]])?,
        plugged: list(alloc, &[false])?,
        outputs: list(alloc, &FIVE)?,
        steps: 5,
        phases: list(alloc, &[Phase::Halted])?,
    })
}

fn first_outcome(alloc: Global) -> Result<Outcome, Fail> {
    Ok(Outcome {
        view: first_view(alloc)?,
        file: Some(list(alloc, &[5, 3])?),
        ending: Some(End::Finished),
    })
}

const FIRST_REPORT: &[u8] =
    b"need 2\nbudget private 0 shared 2\nglue 0\nrun 0 4 send\nrun 0 1 halt\noutput 0 5\ncontext 0 halted\nfile 5 3\nsteps 5\nend finished\n";

#[test]
fn reports_a_run_at_the_exact_fit(rt: HostRuntime) -> Result<(), Fail> {
    let image = first_image(rt.alloc())?;
    let last = first_outcome(rt.alloc())?;
    assert!(rt; is_reported(rt.alloc(), Some(2), &image, &FIRST, &last, FIRST_REPORT)?);
    Ok(())
}

const EVERY: [Entry; 5] = [
    Entry::Unplugged { channel: 2 },
    Entry::Ran {
        context: 3,
        steps: 12,
        end: SegmentEnd::Trap(Trap::Address),
    },
    Entry::Fed {
        channel: 1,
        word: 4294967295,
    },
    Entry::Ran {
        context: 10,
        steps: 0,
        end: SegmentEnd::Trap(Trap::Divide),
    },
    Entry::Ran {
        context: 1,
        steps: 0,
        end: SegmentEnd::Bound,
    },
];

const PHASES: [Phase; 7] = [
    Phase::Ready,
    Phase::Due(7),
    Phase::Receiving(1),
    Phase::Sending {
        channel: 0,
        word: 8,
    },
    Phase::Halted,
    Phase::Trapped {
        trap: Trap::Divide,
        line: 6,
    },
    Phase::Trapped {
        trap: Trap::Address,
        line: 11,
    },
];

/// Two inner channels, of which one holds a word, an input and two outputs.
fn channels(alloc: Global) -> Result<Vec<Channel>, Fail> {
    let mut channels = Vec::new(alloc);
    channels.push(Channel::Inner { capacity: 2 })?;
    channels.push(Channel::Input {
        words: list(alloc, &[3, 4])?,
        port: None,
    })?;
    channels.push(Channel::Output { port: Some(1) })?;
    channels.push(Channel::Inner { capacity: 1 })?;
    channels.push(Channel::Output { port: None })?;
    Ok(channels)
}

const SENT: [Output; 2] = [
    Output {
        channel: 4,
        word: 9,
    },
    Output {
        channel: 4,
        word: 10,
    },
];

fn every_view(alloc: Global) -> Result<View, Fail> {
    Ok(View {
        memory: list(alloc, &[0, 9, 0, 1])?,
        left: lists(alloc, &[&[], &[4], &[], &[], &[]])?,
        rings: lists(alloc, &[&[8], &[5, 6], &[], &[], &[]])?,
        plugged: list(alloc, &[false; 5])?,
        outputs: list(alloc, &SENT)?,
        steps: 1048576,
        phases: list(alloc, &PHASES)?,
    })
}

/// Two contexts, some of whose words are not counted.
fn every_image(alloc: Global) -> Result<Image, Fail> {
    let mut contexts = Vec::new(alloc);
    contexts.push(code(alloc, 1, &[true, false, true])?)?;
    contexts.push(code(alloc, 2, &[false, false])?)?;
    Ok(image(contexts, channels(alloc)?, 4))
}

fn every_outcome(alloc: Global) -> Result<Outcome, Fail> {
    Ok(Outcome {
        view: every_view(alloc)?,
        file: Some(list(alloc, &[0, 4294967295])?),
        ending: None,
    })
}

const EVERY_REPORT: &[u8] =
    b"budget private 1 2 shared 4\nglue 3\nunplug 2\nrun 3 12 address\nfeed 1 4294967295\nrun 10 0 divide\nrun 1 0 bound\noutput 2\noutput 4 9 10\nqueue 0 8\nqueue 1 4 5 6\nmemory 1 9\nmemory 3 1\ncontext 0 ready\ncontext 1 due 7\ncontext 2 receive 1\ncontext 3 send 0 8\ncontext 4 halted\ncontext 5 divide 6\ncontext 6 address 11\nfile 0 4294967295\nsteps 1048576\nend open\n";

#[test]
fn reports_every_kind_of_line(rt: HostRuntime) -> Result<(), Fail> {
    let image = every_image(rt.alloc())?;
    let last = every_outcome(rt.alloc())?;
    assert!(rt; is_reported(rt.alloc(), None, &image, &EVERY, &last, EVERY_REPORT)?);
    Ok(())
}

/// The line of a segment of one step that ended so.
fn end_line(alloc: Global, end: SegmentEnd) -> Result<Vec<u8>, Fail> {
    let mut text = Vec::new(alloc);
    let entry = Entry::Ran {
        context: 0,
        steps: 1,
        end,
    };
    put_entry(&mut text, &entry)?;
    Ok(text)
}

const ENDS: [(SegmentEnd, &[u8]); 4] = [
    (SegmentEnd::Load, b"run 0 1 load\n"),
    (SegmentEnd::Store, b"run 0 1 store\n"),
    (SegmentEnd::Yield, b"run 0 1 yield\n"),
    (SegmentEnd::Recv, b"run 0 1 recv\n"),
];

#[test]
fn names_each_end(rt: HostRuntime) -> Result<(), Fail> {
    for (end, line) in &ENDS {
        let text = end_line(rt.alloc(), *end)?;
        assert!(rt; text.as_slice() == *line);
    }
    Ok(())
}

fn empty_view(alloc: Global) -> View {
    View {
        memory: List::new(alloc),
        left: List::new(alloc),
        rings: List::new(alloc),
        plugged: List::new(alloc),
        outputs: List::new(alloc),
        steps: 0,
        phases: List::new(alloc),
    }
}

/// The report of a run of nothing that ended so.
fn ending_lines(alloc: Global, ending: End) -> Result<Vec<u8>, Fail> {
    let last = Outcome {
        view: empty_view(alloc),
        file: None,
        ending: Some(ending),
    };
    Ok(print_report(alloc, None, None, &List::new(alloc), &[], &last)?)
}

const ENDINGS: [(End, &[u8]); 3] = [
    (End::Stuck, b"steps 0\nend stuck\n"),
    (End::Bound, b"steps 0\nend bound\n"),
    (End::Idle, b"steps 0\nend idle\n"),
];

#[test]
fn names_each_ending(rt: HostRuntime) -> Result<(), Fail> {
    for (ending, lines) in &ENDINGS {
        let text = ending_lines(rt.alloc(), *ending)?;
        assert!(rt; text.as_slice() == *lines);
    }
    Ok(())
}

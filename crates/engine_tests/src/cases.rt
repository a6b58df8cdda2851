//! Runs of small bundles, as rows: the events of a run with what must be seen of each, and what is shown at its end.

use crate::pair::{Answer, Pair, agreed, ending, opened, shown};
use micro_isa::List;
use std::alloc::Global;
use std::test::Fail;
use world::{End, Event, Illegal, Phase, Seen, Segment, SegmentEnd, View};

/// What must be seen of an event.
#[derive(Clone, Copy)]
pub(crate) enum Expected {
    /// A segment: its steps, its end, and the word that its completion put out.
    Ran(u32, SegmentEnd, Option<u32>),
    /// It is done.
    Done,
    /// It may not happen.
    Not(Illegal),
}

/// An event, and what must be seen of it.
pub(crate) type Row = (Event, Expected);

/// What a run must show at its end.
#[derive(Clone, Copy)]
pub(crate) struct Last<'a> {
    pub memory: &'a [u32],
    /// How many words wait in the channels.
    pub queued: usize,
    pub phases: &'a [Phase],
    pub ending: Option<End>,
}

/// Whether both interpreters run the bundle of a text, under a bound, as rows and the end tell. A difference
/// between the two is a failure.
pub(crate) fn holds(
    alloc: Global,
    text: &[u8],
    bound: u32,
    rows: &[Row],
    last: &Last,
) -> Result<bool, Fail> {
    let mut pair = opened(alloc, text, bound)?;
    for (event, expected) in rows {
        let answer = agreed(alloc, &mut pair, *event)?;
        if !is_as_told(answer, *expected) {
            return Ok(false);
        }
    }
    ends_so(alloc, &pair, last)
}

fn ends_so(alloc: Global, pair: &Pair, last: &Last) -> Result<bool, Fail> {
    let view = shown(alloc, pair)?;
    Ok(ending(pair)? == last.ending && shows(&view, last))
}

fn shows(view: &View, last: &Last) -> bool {
    view.memory.as_slice() == last.memory
        && view.phases.as_slice() == last.phases
        && queued_in(&view.left).saturating_add(queued_in(&view.rings)) == last.queued
}

fn queued_in(channels: &List<List<u32>>) -> usize {
    let mut count = 0usize;
    for words in channels.as_slice() {
        count = count.saturating_add(words.len());
    }
    count
}

fn is_as_told(answer: Answer, expected: Expected) -> bool {
    match expected {
        Expected::Ran(steps, end, word) => ran_so(answer, steps, end, word),
        Expected::Done => matches!(answer, Ok(Seen::Fed | Seen::Unplugged)),
        Expected::Not(cause) => answer == Err(cause),
    }
}

fn ran_so(answer: Answer, steps: u32, end: SegmentEnd, word: Option<u32>) -> bool {
    match answer {
        Ok(Seen::Ran(segment)) => {
            segment.steps == steps && segment.end == end && sent_word(&segment) == word
        }
        _ => false,
    }
}

fn sent_word(segment: &Segment) -> Option<u32> {
    match segment.sent {
        Some(output) => Some(output.word),
        None => None,
    }
}

/// The words that the first context of a bundle puts out, up to its end, on both interpreters.
pub(crate) fn words_of(alloc: Global, text: &[u8]) -> Result<Vec<u32>, Fail> {
    let mut pair = opened(alloc, text, 1000)?;
    for _ in 0..100u32 {
        if ending(&pair)?.is_none() {
            let _answer = agreed(alloc, &mut pair, Event::Run(0))?;
        }
    }
    let view = shown(alloc, &pair)?;
    sent_in(alloc, &view)
}

fn sent_in(alloc: Global, view: &View) -> Result<Vec<u32>, Fail> {
    let mut words = Vec::new(alloc);
    for output in view.outputs.as_slice() {
        words.push(output.word)?;
    }
    Ok(words)
}

/// Runs the contexts of an order, one segment each, on both interpreters; where one may not run, both
/// say so. A difference is a failure.
pub(crate) fn follow(alloc: Global, text: &[u8], bound: u32, order: &[u32]) -> Result<(), Fail> {
    let mut pair = opened(alloc, text, bound)?;
    for context in order {
        let _answer = agreed(alloc, &mut pair, Event::Run(*context))?;
    }
    Ok(())
}

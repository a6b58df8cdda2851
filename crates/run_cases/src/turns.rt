//! Turns and pumps, one by one.

use crate::opening::opened;
use crate::runs::ECHO;
use ports::{Polled, Script, Slots};
use run_journal::{Pumped, Run, TurnAnswer};
use std::alloc::Global;
use std::test::Fail;
use world::{End, Entry, SegmentEnd};

/// What is done, and what must be answered.
#[derive(Clone, Copy)]
enum Step {
    /// A turn of context 0, which runs so many steps to this end.
    Runs(u32, SegmentEnd),
    /// A turn of a context that runs nothing.
    Turn(u32, TurnAnswer),
    /// A pump: how many ports it asks, words it feeds, and ports it loses.
    Pump(u32, u32, u32),
}

/// The turns and pumps of a run whose port gives one word, then none, and is closed.
const STEPS: &[Step] = &[
    Step::Runs(1, SegmentEnd::Recv),
    Step::Turn(0, TurnAnswer::NotReady(1)),
    // There is no such context.
    Step::Turn(7, TurnAnswer::NotReady(1)),
    Step::Pump(1, 1, 0),
    Step::Runs(1, SegmentEnd::Send),
    Step::Runs(2, SegmentEnd::Recv),
    Step::Pump(1, 0, 0),
    Step::Pump(1, 0, 1),
    Step::Turn(0, TurnAnswer::Over(End::Stuck)),
    Step::Pump(0, 0, 0),
];

fn is_answered(run: &mut Run, slots: &mut Slots<Script>, step: Step) -> bool {
    if !run.fits(slots) {
        return false;
    }
    match step {
        Step::Runs(steps, end) => run.turn(slots, 0) == ran(steps, end),
        Step::Turn(context, answer) => run.turn(slots, context) == answer,
        Step::Pump(asked, fed, dropped) => {
            let pumped = Pumped {
                asked,
                fed,
                dropped,
            };
            run.pump(slots) == pumped
        }
    }
}

fn ran(steps: u32, end: SegmentEnd) -> TurnAnswer {
    TurnAnswer::Ran(Entry::Ran {
        context: 0,
        steps,
        end,
    })
}

/// Whether each step is answered so.
fn are_answered(run: &mut Run, slots: &mut Slots<Script>, steps: &[Step]) -> bool {
    for step in steps {
        if !is_answered(run, slots, *step) {
            return false;
        }
    }
    true
}

/// A port that gives one word, then none, and is closed.
fn one_word(alloc: Global) -> Result<Slots<Script>, Fail> {
    let polls = vec![in alloc; Polled::Word(7), Polled::Empty]?;
    let script = Script::of(polls, Vec::new(alloc), 0)?;
    Ok(Slots::of(vec![in alloc; script]?))
}

#[test]
fn answers_turns_and_pumps(rt: HostRuntime) -> Result<(), Fail> {
    let mut run = opened(rt.alloc(), ECHO, 1000)?;
    let mut slots = one_word(rt.alloc())?;
    run.attach(&slots);
    let told = are_answered(&mut run, &mut slots, STEPS);
    let _ports = slots.close();
    assert!(rt; told);
    Ok(())
}

#[test]
fn misses_a_port(rt: HostRuntime) -> Result<(), Fail> {
    let run = opened(rt.alloc(), ECHO, 1000)?;
    let slots = Slots::of(Vec::<Script>::new(rt.alloc()));
    let fits = run.fits(&slots);
    let _ports = slots.close();
    assert!(rt; !fits);
    Ok(())
}

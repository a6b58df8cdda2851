//! Ports by themselves, and in their slots.

use ports::{Given, Polled, Port, Ramp, Script, Slots, Tally};
use std::test::Fail;

/// Whether a port answers so many polls and puts so.
fn answers<P: Port>(port: &mut P, polls: &[Polled], gives: &[Given]) -> bool {
    let mut same = true;
    for poll in polls {
        same = port.poll() == *poll && same;
    }
    let mut word = 0u32;
    for given in gives {
        word = word.wrapping_add(1 << 31).wrapping_add(3);
        same = port.put(word) == *given && same;
    }
    same
}

#[test]
fn ramp_counts_up(rt: HostRuntime) {
    let polls = [
        Polled::Word(0),
        Polled::Word(1),
        Polled::Closed,
        Polled::Closed,
    ];
    assert!(rt; answers(&mut Ramp::of(2), &polls, &[Given::Failed]));
}

#[test]
fn tally_sums_up(rt: HostRuntime) {
    let mut tally = Tally::new();
    let gives = [Given::Took, Given::Took, Given::Took];
    let told = answers(&mut tally, &[Polled::Closed], &gives);
    assert!(rt; told && tally.count() == 3 && tally.sum() == 18);
}

#[test]
fn script_answers_its_lists(rt: HostRuntime) -> Result<(), Fail> {
    let polls = vec![in rt.alloc();
        Polled::Empty,
        Polled::Word(9),
        Polled::Closed,
        Polled::Empty,
    ]?;
    let gives = vec![in rt.alloc(); Given::Failed, Given::Took]?;
    let mut script = Script::of(polls, gives, 2)?;
    let told = answers(
        &mut script,
        &[
            Polled::Empty,
            Polled::Word(9),
            Polled::Closed,
            Polled::Empty,
            Polled::Closed,
        ],
        &[Given::Failed, Given::Took, Given::Took, Given::Failed],
    );
    assert!(rt; told && script.taken() == [6, (1 << 31) + 9].as_slice());
    Ok(())
}

/// Whether a slot keeps a port that was retired as it was, and the others go on.
fn are_kept(slots: &mut Slots<Ramp>) -> bool {
    if !(slots.has(0) && slots.has(1)) || slots.has(2) || slots.ask(1) != Polled::Word(0) {
        return false;
    }
    if !slots.has(0) || slots.hand(0, 5) != Given::Failed || !slots.has(0) {
        return false;
    }
    slots.retire(0);
    !slots.has(0) && slots.has(1) && slots.ask(1) == Polled::Closed
}

#[test]
fn keeps_ports_in_their_slots(rt: HostRuntime) -> Result<(), Fail> {
    let ports = vec![in rt.alloc(); Ramp::of(3), Ramp::of(1)]?;
    let mut slots = Slots::of(ports);
    let kept = are_kept(&mut slots);
    let ports = slots.close();
    assert!(rt; kept && ports.len() == 2);
    Ok(())
}

#[test]
fn boxes_a_port(rt: HostRuntime) -> Result<(), Fail> {
    let mut port: Box<dyn Port + Send> = Box::new(rt.alloc(), Ramp::of(1))?;
    let polls = [Polled::Word(0), Polled::Closed];
    assert!(rt; answers(&mut port, &polls, &[Given::Failed]));
    Ok(())
}

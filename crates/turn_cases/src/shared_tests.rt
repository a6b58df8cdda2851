ghost use Rattle.baton.specs.Passes.{IsOfBaton, IsIdle};
ghost use Rattle.context_runner.specs.Sharing.{beginning};

use crate::images::{ECHO, TWO_CONTEXTS};
use crate::sharing::{closes_with, put_back, run_of, share};
use context_runner::{ContextPass, Shared, TryAnswer};
use ports::{Polled, Script};
use run_journal::Pumped;
use std::sync::Wait;
use std::test::Fail;
use world::{Entry, SegmentEnd};

/// A segment of two steps that yields.
fn yielded(context: u32) -> Entry {
    Entry::Ran {
        context,
        steps: 2,
        end: SegmentEnd::Yield,
    }
}

/// A segment of a step that waits for a word.
const WAITS: Entry = Entry::Ran {
    context: 0,
    steps: 1,
    end: SegmentEnd::Recv,
};

/// Whether a turn of pass 1 is seen in the length, and pass 2 makes its own after it learnt of it.
fn meet(
    shared: &Shared<Script>,
    one: &mut ContextPass<Script>,
    two: &mut ContextPass<Script>,
) -> bool
    requires one { IsOfBaton beginning shared.now.baton.table.shared one.old.seat × IsIdle one.old.seat }
    requires two { IsOfBaton beginning shared.now.baton.table.shared two.old.seat × IsIdle two.old.seat }
    ensures one { IsOfBaton beginning shared.now.baton.table.shared one.new.seat × IsIdle one.new.seat }
    ensures two { IsOfBaton beginning shared.now.baton.table.shared two.new.seat × IsIdle two.new.seat }
{
    let first = shared.try_turn(one);
    let length = shared.length(one);
    let Ok(note) = shared.note(one) else {
        return false;
    };
    shared.learn(two, note);
    let second = shared.try_turn(two);
    first == TryAnswer::Ran(yielded(0)) && length == 1 && second == TryAnswer::Ran(yielded(1))
}

#[test]
fn two_contexts_take_turns(rt: HostRuntime) -> Result<(), Fail> {
    let run = run_of(rt.alloc(), &TWO_CONTEXTS)?;
    let Some((shared, passes)) = share(rt.alloc(), run, Vec::new(rt.alloc())) else {
        panic!(rt; "no memory")
    };
    let mut passes = passes.into_vec();
    let Some(mut two) = passes.pop() else {
        panic!(rt; "two passes")
    };
    let Some(mut one) = passes.pop() else {
        panic!(rt; "two passes")
    };
    let met = meet(&shared, &mut one, &mut two);
    let passes = put_back(&shared, passes, one);
    let passes = put_back(&shared, passes, two);
    let closed = closes_with(&rt, shared, passes, &[yielded(0), yielded(1)]);
    assert!(rt; met && closed);
    Ok(())
}

/// Whether a turn that waits for a word is followed by a pump, which asks the one port and feeds one.
fn pumps<R: Wait>(rt: &R, shared: &Shared<Script>, pass: &mut ContextPass<Script>) -> bool
    requires { IsOfBaton beginning shared.now.baton.table.shared pass.old.seat × IsIdle pass.old.seat }
    ensures { IsOfBaton beginning shared.now.baton.table.shared pass.new.seat × IsIdle pass.new.seat }
{
    let turned = shared.try_turn(pass);
    let pumped = shared.pump(rt, pass);
    let wanted = Pumped {
        asked: 1,
        fed: 1,
        dropped: 0,
    };
    turned == TryAnswer::Ran(WAITS) && pumped == wanted
}

#[test]
fn a_pump_asks_the_port(rt: HostRuntime) -> Result<(), Fail> {
    let run = run_of(rt.alloc(), &ECHO)?;
    let polls = vec![in rt.alloc(); Polled::Word(4), Polled::Word(5), Polled::Failed]?;
    let script = Script::of(polls, Vec::new(rt.alloc()), 0)?;
    let ports = vec![in rt.alloc(); script]?;
    let Some((shared, passes)) = share(rt.alloc(), run, ports) else {
        panic!(rt; "no memory")
    };
    let mut passes = passes.into_vec();
    let Some(mut pass) = passes.pop() else {
        panic!(rt; "one pass")
    };
    let pumped = pumps(&rt, &shared, &mut pass);
    let passes = put_back(&shared, passes, pass);
    let closed = closes_with(
        &rt,
        shared,
        passes,
        &[
            WAITS,
            Entry::Fed {
                channel: 0,
                word: 4,
            },
        ],
    );
    assert!(rt; pumped && closed);
    Ok(())
}

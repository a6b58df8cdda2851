ghost use Rattle.std.specs.Prelude.{◌≡◌, ◌<◌, List, None, Some, false, true};
ghost use Rattle.std.specs.Option.{is_some};
ghost use Rattle.ports.specs.declared.told.Told.{Told};
ghost use Rattle.run_journal.specs.Turning.{Fits};
ghost use Rattle.run_journal.specs.Histories.{IsHistory, IsIdle, channels_of, run_ending};
ghost use Rattle.run_journal.specs.Turns.{to_come};
ghost use Rattle.semantics.specs.Core.{is_runnable, some_runnable};
ghost use Rattle.semantics.specs.Moves.{last_of};
ghost use Rattle.semantics.specs.Rounds.{next_in_round};
ghost use Rattle.context_runner.specs.Benches.{IsBench};
ghost use Rattle.context_runner.specs.Endings.{Brought};
ghost use Rattle.context_runner.specs.Moving.{Moved, Stays, IsLast, context_of};

use crate::closed::Closed;
use ports::{Port, Slots};
use round_order::next_in_round;
use run_journal::Run;
use run_state::Interpreter;
use world::Entry;

/// Brings a run with its ports to an ending, by moves in round order: the context whose turn is next
/// has it; where none can go on, a pump comes. It takes no memory.
#[tactic(auto, using(crate::proofs::Going::moved_start, crate::proofs::Going::moved_more, crate::proofs::Going::brought_is))]
pub fn run_round<P: Port>(run: Run, slots: Slots<P>) -> Closed<P>
    requires { Fits (channels_of run.engine) run.engine.core.world slots }
    ensures brought { Brought true run result.run }
    ensures bench { (start : List Told) → IsBench start run slots → IsBench start result.run result.slots }
{
    let mut run = run;
    let mut slots = slots;
    let mut last = last_context(&run);
    'moves: loop {
        if has_ended(&run) {
            return Closed { run, slots };
        }
        last = make_move(&mut run, &mut slots, last);
    }
}

/// Whether a run has an ending.
fn has_ended(run: &Run) -> bool
    ensures ended { result ≡ is_some (run_ending run.now.engine.core run.now.idle) }
    ensures known { IsHistory run.now.engine run.now.entries }
    ensures quiet { IsIdle run.now.engine.core run.now.idle }
{
    let _engine = run.engine();
    run.ending().is_some()
}

/// The last context that ran, if any.
#[tactic(auto, using(crate::proofs::Going::last_is))]
fn last_context(run: &Run) -> Option<u32>
    ensures { IsLast run.now result }
{
    let _contexts = run.engine().contexts();
    last_in(run.entries())
}

#[tactic(auto, using(crate::proofs::Going::last_ran, crate::proofs::Going::last_other))]
fn last_in(entries: &[Entry]) -> Option<u32>
    ensures { result ≡ last_of None entries.now }
{
    let mut rest = entries;
    'entries: while let Some((entry, before)) = rest.split_last() {
        match context_of(entry) {
            Some(context) => return Some(context),
            None => rest = before,
        }
    }
    None
}

/// The context whose segment an entry tells, if it tells one.
fn context_of(entry: &Entry) -> Option<u32>
    ensures { result ≡ context_of entry.now }
{
    match entry {
        Entry::Ran { context, .. } => Some(*context),
        Entry::Fed { .. } => None,
        Entry::Unplugged { .. } => None,
    }
}

/// Makes the move that comes next in round order, and answers the last context that ran.
#[tactic(auto, using(crate::proofs::Going::last_after))]
fn make_move<P: Port>(run: &mut Run, slots: &mut Slots<P>, last: Option<u32>) -> Option<u32>
    requires fits { Fits (channels_of run.old.engine) run.old.engine.core.world slots.old }
    requires goes { run_ending run.old.engine.core run.old.idle ≡ None }
    requires last { IsLast run.old last }
    ensures moved { Moved run.old run.new }
    ensures stays { Stays run.old run.new slots.old slots.new }
    ensures fits { Fits (channels_of run.new.engine) run.new.engine.core.world slots.new }
    ensures last { IsLast run.new result }
    ensures lowers { to_come run.new.engine.core run.new.idle < to_come run.old.engine.core run.old.idle }
{
    match next_in_round(run.engine(), last) {
        Some(context) => {
            take_turn(run, slots, context);
            Some(context)
        }
        None => {
            make_pump(run, slots);
            last
        }
    }
}

/// A turn of the context that is next.
#[tactic(auto, using(crate::proofs::Turning::turn_moves, crate::proofs::Turning::turn_last, crate::proofs::Turning::turn_lowers, crate::proofs::Going::not_over, crate::proofs::Going::stays_is))]
fn take_turn<P: Port>(run: &mut Run, slots: &mut Slots<P>, context: u32)
    requires fits { Fits (channels_of run.old.engine) run.old.engine.core.world slots.old }
    requires goes { run_ending run.old.engine.core run.old.idle ≡ None }
    requires next { next_in_round run.old.engine.core (last_of None run.old.entries) ≡ Some context }
    requires can { is_runnable run.old.engine.core context ≡ true }
    ensures moved { Moved run.old run.new }
    ensures ran { last_of None run.new.entries ≡ Some context }
    ensures stays { Stays run.old run.new slots.old slots.new }
    ensures fits { Fits (channels_of run.new.engine) run.new.engine.core.world slots.new }
    ensures lowers { to_come run.new.engine.core run.new.idle < to_come run.old.engine.core run.old.idle }
{
    run.turn(slots, context);
}

/// A pump, where nobody is next.
#[tactic(auto, using(crate::proofs::Pumping::pump_moves, crate::proofs::Pumping::pump_last, crate::proofs::Going::stays_is))]
fn make_pump<P: Port>(run: &mut Run, slots: &mut Slots<P>)
    requires fits { Fits (channels_of run.old.engine) run.old.engine.core.world slots.old }
    requires goes { run_ending run.old.engine.core run.old.idle ≡ None }
    requires next { next_in_round run.old.engine.core (last_of None run.old.entries) ≡ None }
    requires nobody { some_runnable run.old.engine.core ≡ false }
    requires quiet { IsIdle run.old.engine.core run.old.idle }
    ensures moved { Moved run.old run.new }
    ensures none { last_of None run.new.entries ≡ last_of None run.old.entries }
    ensures stays { Stays run.old run.new slots.old slots.new }
    ensures fits { Fits (channels_of run.new.engine) run.new.engine.core.world slots.new }
    ensures lowers { to_come run.new.engine.core run.new.idle < to_come run.old.engine.core run.old.idle }
{
    run.pump(slots);
}

//! A turn over the parts of a run.

ghost use Rattle.std.specs.Prelude.{◌≡◌, ◌≤◌, None, vec_capacity, length};
ghost use Rattle.semantics.specs.Core.{ending_of};
ghost use Rattle.semantics.specs.Machine.{machine_semantics};
ghost use Rattle.engine_core.specs.EngineState.{config_of};
ghost use Rattle.run_journal.specs.Room.{most_entries};
ghost use Rattle.run_journal.specs.Turning.{Fits};
ghost use Rattle.run_journal.specs.Histories.{IsHistory, bound_of, channels_of};
ghost use Rattle.run_journal.specs.Turns.{turn_answer, TurnDid};

use crate::answers::TurnAnswer;
use crate::parts::advance;
use engine_core::Engine;
use ports::{Port, Slots};
use run_state::Interpreter;
use world::Entry;

/// A turn of a context.
#[tactic(auto, using(crate::proofs::TurnKeeping::over_answer))]
pub(crate) fn turn<P: Port>(
    engine: &mut Engine,
    entries: &mut Vec<Entry>,
    idle: &mut u32,
    slots: &mut Slots<P>,
    context: u32,
) -> TurnAnswer
    requires known { IsHistory engine.old entries.old.items }
    requires room { most_entries (bound_of engine.old) ≤ vec_capacity entries.old }
    requires fits { Fits (channels_of engine.old) engine.old.core.world slots.old }
    ensures answered { result ≡ turn_answer (machine_semantics engine.old.image) (config_of engine.old) (length entries.old.items) context }
    ensures did { TurnDid result (record { engine = engine.old; entries = entries.old.items; idle = idle.old }) (record { engine = engine.new; entries = entries.new.items; idle = idle.new }) slots.old slots.new context }
    ensures capacity { vec_capacity entries.new ≡ vec_capacity entries.old }
{
    match engine.ending() {
        Some(end) => TurnAnswer::Over(end),
        None => open_turn(engine, entries, idle, slots, context),
    }
}

/// A turn of a context where the run has no ending.
#[tactic(auto, using(crate::proofs::Histories::run_may, crate::proofs::TurnKeeping::ready_is, crate::proofs::TurnKeeping::not_ready_is, crate::proofs::TurnKeeping::few_entries))]
fn open_turn<P: Port>(
    engine: &mut Engine,
    entries: &mut Vec<Entry>,
    idle: &mut u32,
    slots: &mut Slots<P>,
    context: u32,
) -> TurnAnswer
    requires known { IsHistory engine.old entries.old.items }
    requires room { most_entries (bound_of engine.old) ≤ vec_capacity entries.old }
    requires fits { Fits (channels_of engine.old) engine.old.core.world slots.old }
    requires goes { ending_of engine.old.core ≡ None }
    ensures answered { result ≡ turn_answer (machine_semantics engine.old.image) (config_of engine.old) (length entries.old.items) context }
    ensures did { TurnDid result (record { engine = engine.old; entries = entries.old.items; idle = idle.old }) (record { engine = engine.new; entries = entries.new.items; idle = idle.new }) slots.old slots.new context }
    ensures capacity { vec_capacity entries.new ≡ vec_capacity entries.old }
{
    if engine.runnable(context) {
        let entry = advance(engine, entries, slots, context);
        *idle = 0;
        TurnAnswer::Ran(entry)
    } else {
        TurnAnswer::NotReady(entries.len() as u32)
    }
}

ghost use Rattle.std.specs.Prelude.{◌≡◌, length, replicate, false};
ghost use Rattle.micro_isa.specs.declared.limits.TheConstants.{MOST_PORTS};
ghost use Rattle.run_journal.specs.Attaching.{IsFresh};
ghost use Rattle.run_journal.specs.Turning.{Fits};
ghost use Rattle.run_journal.specs.Histories.{channels_of};
ghost use Rattle.context_runner.specs.Benches.{IsBench};
ghost use Rattle.context_runner.specs.Moving.{Stays};
ghost use Rattle.context_runner.specs.Sharing.{beginning, Turned, PumpedOn};

use crate::beginning::Beginning;
use crate::closed::Closed;
use baton::Storied;
use ports::{Port, Slots};
use run_journal::{Pumped, Run, TurnAnswer};
use std::marker::Model;
use std::snapshot::Snapshot;
use world::Entry;

/// A run with its ports, as callers share it. The type keeps that the ports fit the run, and that each
/// tells what it must after what it told at the start.
pub struct Bench<P: Port> {
    run: Run,
    slots: Slots<P>,
    start: Snapshot<Slots<P>>,
}

impl<P: Port> Model for Bench<P> {
    ghost use Rattle.context_runner.specs.Benches.{IsBench};
    ghost use Rattle.context_runner.specs.Sharing.{BenchState};

    ghost Value = { BenchState };

    ghost view = { λ b. record { run = b.run; slots = b.slots; start = b.start.value.told } };

    ghost invariant = { λ b. IsBench b.start.value.told b.run b.slots };
}

impl<P: Port> Storied for Bench<P> {
    ghost use Rattle.context_runner.specs.Sharing.{beginning};

    type Entry = Entry;

    type Origin = Beginning;

    ghost history = { λ b. b.run.entries };

    ghost origin = { beginning };

    fn length(&self) -> u64 {
        self.run.entries().len() as u64
    }
}

impl<P: Port> Bench<P> {
    /// A run that has just its ports.
    pub(crate) fn of(run: Run, slots: Slots<P>) -> Bench<P>
        requires fresh { IsFresh run slots }
        requires whole { slots.retired ≡ replicate MOST_PORTS false }
        ensures { result ≡ record { run = run; slots = slots; start = slots.told } }
    {
        let start = Snapshot::of(&slots);
        Bench { run, slots, start }
    }

    /// A turn of a context.
    pub(crate) fn turn(&mut self, context: u32) -> TurnAnswer
        ensures turned { Turned result self.old.run self.new.run context }
        ensures origin { beginning self.new ≡ beginning self.old }
    {
        turn_of(&mut self.run, &mut self.slots, context)
    }

    /// A pump.
    pub(crate) fn pump(&mut self) -> Pumped
        ensures pumped { PumpedOn result self.old.run self.new.run }
        ensures origin { beginning self.new ≡ beginning self.old }
    {
        pump_of(&mut self.run, &mut self.slots)
    }

    /// The run and its ports, apart.
    pub(crate) fn close(self) -> Closed<P>
        ensures run { result.run ≡ self.run }
        ensures slots { result.slots ≡ self.slots }
        ensures bench { IsBench self.start result.run result.slots }
    {
        let Bench { run, slots, start } = self;
        drop(start);
        Closed { run, slots }
    }
}

#[tactic(auto, using(crate::proofs::SharedTurns::turned_is, crate::proofs::Going::stays_is))]
fn turn_of<P: Port>(run: &mut Run, slots: &mut Slots<P>, context: u32) -> TurnAnswer
    requires { Fits (channels_of run.old.engine) run.old.engine.core.world slots.old }
    ensures turned { Turned result run.old run.new context }
    ensures stays { Stays run.old run.new slots.old slots.new }
{
    run.turn(slots, context)
}

#[tactic(auto, using(crate::proofs::SharedTurns::pumped_is, crate::proofs::Going::stays_is))]
fn pump_of<P: Port>(run: &mut Run, slots: &mut Slots<P>) -> Pumped
    requires { Fits (channels_of run.old.engine) run.old.engine.core.world slots.old }
    ensures pumped { PumpedOn result run.old run.new }
    ensures stays { Stays run.old run.new slots.old slots.new }
{
    let _engine = run.engine();
    run.pump(slots)
}

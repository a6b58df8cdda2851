ghost use Rattle.std.specs.Prelude.{◌≡◌, ◌≤◌, IfOk, IfErr, OnOk, Some, [], List, length, ◌↔◌, IsTrue};
ghost use Rattle.micro_isa.specs.declared.limits.TheConstants.{MOST_CHANNELS, MOST_STEPS};
ghost use Rattle.micro_isa.specs.Formed.{IsFormedImage};
ghost use Rattle.semantics.specs.Machine.{machine_semantics};
ghost use Rattle.engine_core.specs.EngineState.{config_of};
ghost use Rattle.ports.specs.declared.told.Told.{Told};
ghost use Rattle.run_journal.specs.Keeping.{PortsKept};
ghost use Rattle.run_journal.specs.Turning.{Fits};
ghost use Rattle.run_journal.specs.Histories.{IsHistory, IsIdle, bound_of, channels_of, run_ending};
ghost use Rattle.run_journal.specs.Attaching.{detached, IsFresh};
ghost use Rattle.run_journal.specs.Replays.{Followed, StraysAfter};
ghost use Rattle.run_journal.specs.Turns.{turn_answer, TurnDid, PumpDid, TurnLowers, PumpLowers};

use crate::answers::{Pumped, TurnAnswer};
use crate::replaying::ReplayFault;
use crate::room::ENTRIES_BESIDE;
use crate::{attaching, following, pumps, turns};
use engine_core::Engine;
use micro_isa::{Image, NoMemory};
use ports::{Port, Slots};
use run_state::Interpreter;
use std::alloc::Global;
use std::marker::Model;
use world::{End, Entry};

/// A run of an image with its journal: the type keeps that its engine is the replay of its
/// entries, and that there is room for all entries that can come.
#[derive(Drop)]
pub struct Run {
    engine: Engine,
    entries: Vec<Entry>,
    idle: u32,
}

impl Model for Run {
    ghost use Rattle.std.specs.Prelude.{◌≤◌, vec_capacity};
    ghost use Rattle.run_journal.specs.Room.{most_entries};
    ghost use Rattle.run_journal.specs.Histories.{RunState, IsHistory, IsIdle, bound_of};

    ghost Value = { RunState };

    ghost view = { λ r. record { engine = r.engine; entries = r.entries.items; idle = r.idle } };

    ghost invariant = { λ r. IsHistory r.engine r.entries.items × IsIdle r.engine.core r.idle × (most_entries (bound_of r.engine) ≤ vec_capacity r.entries) };
}

impl Run {
    /// The opening of a formed image, to be run for at most `bound` steps. The run keeps a copy of
    /// the image.
    pub fn open(alloc: Global, image: &Image, bound: u32) -> Result<Run, NoMemory>
        requires formed { IsFormedImage image.now }
        requires bound { bound ≤ MOST_STEPS }
        ensures image { IfOk result (λ run. run.engine.image ≡ image.now) }
        ensures bound { IfOk result (λ run. bound_of run.engine ≡ bound) }
        ensures entries { IfOk result (λ run. run.entries ≡ []) }
        ensures idle { IfOk result (λ run. run.idle ≡ 0) }
    {
        match image.copy(alloc) {
            Ok(image) => Run::of(alloc, image, bound),
            Err(NoMemory) => Err(NoMemory),
        }
    }

    /// The same over an image that is taken.
    #[tactic(auto, using(crate::proofs::TurnKeeping::opening_known))]
    pub fn of(alloc: Global, image: Image, bound: u32) -> Result<Run, NoMemory>
        requires formed { IsFormedImage image }
        requires bound { bound ≤ MOST_STEPS }
        ensures image { IfOk result (λ run. run.engine.image ≡ image) }
        ensures bound { IfOk result (λ run. bound_of run.engine ≡ bound) }
        ensures entries { IfOk result (λ run. run.entries ≡ []) }
        ensures idle { IfOk result (λ run. run.idle ≡ 0) }
    {
        let engine = Engine::of(alloc, image, bound)?;
        match Vec::with_capacity(alloc, 2 * bound as usize + ENTRIES_BESIDE) {
            Ok(entries) => Ok(Run {
                engine,
                entries,
                idle: 0,
            }),
            Err(_) => Err(NoMemory),
        }
    }

    /// The entries so far: the engine is their replay.
    pub fn entries(&self) -> &[Entry]
        ensures entries { result.now ≡ self.now.entries }
        ensures known { IsHistory self.now.engine self.now.entries }
    {
        self.entries.as_slice()
    }

    /// The engine, which is the replay of the entries.
    pub fn engine(&self) -> &Engine
        ensures engine { result.now ≡ self.now.engine }
        ensures known { IsHistory self.now.engine self.now.entries }
        ensures quiet { IsIdle self.now.engine.core self.now.idle }
    {
        &self.engine
    }

    /// How the run ended, if it did.
    pub fn ending(&self) -> Option<End>
        ensures { result ≡ run_ending self.now.engine.core self.now.idle }
    {
        pumps::ending(&self.engine, self.idle)
    }

    /// Attaches ports to a run that has no entries: each channel whose port is not there is
    /// unplugged, in channel order.
    #[tactic(auto, using(crate::proofs::Openings::opens_on))]
    pub fn attach<P: Port>(&mut self, slots: &Slots<P>)
        requires { self.old.entries ≡ [] }
        ensures known { IsHistory self.old.engine self.old.entries }
        ensures after { IsHistory self.new.engine self.new.entries }
        ensures entries { self.new.entries ≡ detached (channels_of self.old.engine) self.old.engine.core.world slots.now MOST_CHANNELS }
        ensures fresh { IsFresh self.new slots.now }
        ensures image { self.new.engine.image ≡ self.old.engine.image }
        ensures bound { bound_of self.new.engine ≡ bound_of self.old.engine }
    {
        self.idle = 0;
        attaching::attach(&mut self.engine, &mut self.entries, slots);
    }

    /// Whether each channel that is plugged has its port there.
    pub fn fits<P: Port>(&self, slots: &Slots<P>) -> bool
        ensures { IsTrue result ↔ Fits (channels_of self.now.engine) self.now.engine.core.world slots.now }
    {
        attaching::fits(&self.engine, self.entries.as_slice(), slots)
    }

    /// A turn of a context.
    pub fn turn<P: Port>(&mut self, slots: &mut Slots<P>, context: u32) -> TurnAnswer
        requires fits { Fits (channels_of self.old.engine) self.old.engine.core.world slots.old }
        ensures known { IsHistory self.old.engine self.old.entries }
        ensures answered { result ≡ turn_answer (machine_semantics self.old.engine.image) (config_of self.old.engine) (length self.old.entries) context }
        ensures did { TurnDid result self.old self.new slots.old slots.new context }
        ensures lowers { TurnLowers result self.old self.new }
        ensures fits { Fits (channels_of self.new.engine) self.new.engine.core.world slots.new }
        ensures image { self.new.engine.image ≡ self.old.engine.image }
        ensures bound { bound_of self.new.engine ≡ bound_of self.old.engine }
        ensures kept { (start : List Told) → PortsKept (channels_of self.old.engine) self.old.entries self.old.engine.core self.old.idle start slots.old.told → PortsKept (channels_of self.new.engine) self.new.entries self.new.engine.core self.new.idle start slots.new.told }
    {
        turns::turn(
            &mut self.engine,
            &mut self.entries,
            &mut self.idle,
            slots,
            context,
        )
    }

    /// A pump: asks the port of each input that can be fed, in channel order.
    pub fn pump<P: Port>(&mut self, slots: &mut Slots<P>) -> Pumped
        requires fits { Fits (channels_of self.old.engine) self.old.engine.core.world slots.old }
        ensures known { IsHistory self.old.engine self.old.entries }
        ensures did { PumpDid self.old self.new slots.old slots.new result }
        ensures lowers { PumpLowers self.old self.new }
        ensures fits { Fits (channels_of self.new.engine) self.new.engine.core.world slots.new }
        ensures image { self.new.engine.image ≡ self.old.engine.image }
        ensures bound { bound_of self.new.engine ≡ bound_of self.old.engine }
        ensures kept { (start : List Told) → PortsKept (channels_of self.old.engine) self.old.entries self.old.engine.core self.old.idle start slots.old.told → PortsKept (channels_of self.new.engine) self.new.entries self.new.engine.core self.new.idle start slots.new.told }
    {
        pumps::pump_where(&mut self.engine, &mut self.entries, &mut self.idle, slots)
    }

    /// Follows a written entry: its event happens, and the entry that tells it is appended and
    /// answered. None exactly where the event may not happen; then nothing changed.
    pub fn follow(&mut self, written: Entry) -> Option<Entry>
        ensures known { IsHistory self.old.engine self.old.entries }
        ensures did { Followed result self.old self.new written }
    {
        match self.engine.illegal(following::event_of(written)) {
            Some(_) => None,
            None => {
                self.idle = 0;
                Some(following::happen(&mut self.engine, &mut self.entries, written))
            }
        }
    }

    /// Follows a written entry, which must tell just what happens.
    pub(crate) fn follow_as(&mut self, written: Entry) -> Result<(), ReplayFault>
        ensures known { IsHistory self.old.engine self.old.entries }
        ensures did { OnOk result (Followed (Some written) self.old self.new written) }
        ensures strays { IfErr result (λ why. StraysAfter why self.old written) }
    {
        let at = self.entries.len() as u32 + 1;
        match self.follow(written) {
            Some(found) => {
                if found == written {
                    Ok(())
                } else {
                    Err(ReplayFault::Differs { at, written, found })
                }
            }
            None => Err(ReplayFault::Illegal { at, written }),
        }
    }
}

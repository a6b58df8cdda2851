ghost use Rattle.std.specs.Prelude.{◌≡◌, ◌<◌, ◌≤◌, ◌+◌, [], ℕ, false, All, AllPairs, IfOk, IfErr, IsOk, length, replicate, slice_index_or};
ghost use mathlib.Core.List.{IsPrefix};
ghost use Rattle.micro_isa.specs.declared.limits.TheConstants.{MOST_PORTS};
ghost use Rattle.run_journal.specs.Attaching.{IsFresh};
ghost use Rattle.baton.specs.Views.{Stands, Apart, opened_view, looked_view};
ghost use Rattle.baton.specs.Passes.{IsOfBaton, IsIdle, Learnt};
ghost use Rattle.context_runner.specs.Benches.{IsBench};
ghost use Rattle.context_runner.specs.Sharing.{beginning, TurnTold, PumpTold};
ghost use Rattle.context_runner.specs.Trying.{TryTold};

use crate::bench::Bench;
use crate::closed::Closed;
use crate::taking::{pump_on, try_turn_on, turn_on};
use baton::{Baton, Note, Pass};
use micro_isa::{List, NoMemory};
use ports::{Port, Slots};
use run_journal::{Pumped, Run, TurnAnswer};
use run_state::Interpreter;
use std::alloc::Global;
use std::sync::Wait;
use world::{End, Entry};

/// The pass of a context: context c has the pass of number c + 1.
pub type ContextPass<P> = Pass<Bench<P>>;

/// A run with its ports that callers with passes share: nobody waits for another but by `turn`, `pump`
/// and `close`.
pub struct Shared<P: Port> {
    pub(crate) baton: Baton<Bench<P>>,
}

/// What a turn that waits for nobody is answered.
#[derive(Clone, Copy, Debug, PartialEq, Eq)]
pub enum TryAnswer {
    /// A segment ran, and this entry tells it.
    Ran(Entry),
    /// The context cannot go on after so many entries.
    NotReady(u32),
    /// The run has an ending.
    Over(End),
    /// Another pass held the run.
    Busy { holder: u32 },
}

impl<P: Port> Shared<P> {
    /// Shares a run that has just its ports, and gives each of its contexts a pass, in their order. A
    /// refusal is want of memory and gives both back.
    #[tactic(auto, using(crate::proofs::Contexts::as_many, crate::proofs::Contexts::some_context))]
    pub fn open(
        alloc: Global,
        run: Run,
        slots: Slots<P>,
    ) -> Result<(Shared<P>, List<ContextPass<P>>), Closed<P>>
        requires fresh { IsFresh run slots }
        requires whole { slots.retired ≡ replicate MOST_PORTS false }
        ensures count { IfOk result (λ r. length r.1 ≡ length run.engine.image.contexts) }
        ensures passes { IfOk result (λ r. (i : ℕ) (d : _) → i < length r.1 → (slice_index_or r.1 i d).seat.me ≡ (opened_view (i + 1) (length run.engine.image.contexts) run.entries (beginning (record { run = run; slots = slots; start = slots.told })), [])) }
        ensures some { IfOk result (λ r. 0 < length r.1) }
        ensures of { IfOk result (λ r. All (λ p. IsOfBaton beginning r.0.baton.table.shared p.seat × IsIdle p.seat) r.1) }
        ensures bench { IfOk result (λ r. r.0.baton.table.shared.key.value.value ≡ record { run = run; slots = slots; start = slots.told }) }
        ensures back { IfErr result (λ closed. (closed.run ≡ run) × (closed.slots ≡ slots)) }
    {
        let contexts = run.engine().contexts();
        match Baton::open(alloc, Bench::of(run, slots), contexts) {
            Ok((baton, passes)) => Ok((Shared { baton }, passes)),
            Err(bench) => Err(bench.close()),
        }
    }

    /// A turn of the pass's context, where no other pass holds the run. It waits for nobody.
    pub fn try_turn(&self, pass: &mut ContextPass<P>) -> TryAnswer
        requires of { IsOfBaton beginning self.now.baton.table.shared pass.old.seat × IsIdle pass.old.seat }
        ensures of { IsOfBaton beginning self.now.baton.table.shared pass.new.seat × IsIdle pass.new.seat }
        ensures told { TryTold (beginning self.now.baton.table.shared.key.value.value) result pass.old.seat.me.0 pass.new.seat.me.0 }
    {
        match try_turn_on(&self.baton, pass) {
            Ok(TurnAnswer::Ran(entry)) => TryAnswer::Ran(entry),
            Ok(TurnAnswer::NotReady(entries)) => TryAnswer::NotReady(entries),
            Ok(TurnAnswer::Over(end)) => TryAnswer::Over(end),
            Err(busy) => TryAnswer::Busy {
                holder: busy.holder,
            },
        }
    }

    /// A turn of the pass's context. It waits until no other pass holds the run.
    pub fn turn<R: Wait>(&self, rt: &R, pass: &mut ContextPass<P>) -> TurnAnswer
        requires of { IsOfBaton beginning self.now.baton.table.shared pass.old.seat × IsIdle pass.old.seat }
        ensures of { IsOfBaton beginning self.now.baton.table.shared pass.new.seat × IsIdle pass.new.seat }
        ensures told { TurnTold (beginning self.now.baton.table.shared.key.value.value) result pass.old.seat.me.0 pass.new.seat.me.0 }
    {
        turn_on(rt, &self.baton, pass)
    }

    /// A pump: asks the port of each input that can be fed, in channel order. It waits until no other
    /// pass holds the run.
    pub fn pump<R: Wait>(&self, rt: &R, pass: &mut ContextPass<P>) -> Pumped
        requires of { IsOfBaton beginning self.now.baton.table.shared pass.old.seat × IsIdle pass.old.seat }
        ensures of { IsOfBaton beginning self.now.baton.table.shared pass.new.seat × IsIdle pass.new.seat }
        ensures told { PumpTold (beginning self.now.baton.table.shared.key.value.value) result pass.old.seat.me.0 pass.new.seat.me.0 }
    {
        pump_on(rt, &self.baton, pass)
    }

    /// How many entries the journal had when this call looked: no less than the pass had seen.
    pub fn length(&self, pass: &mut ContextPass<P>) -> u64
        requires of { IsOfBaton beginning self.now.baton.table.shared pass.old.seat }
        ensures of { IsOfBaton beginning self.now.baton.table.shared pass.new.seat }
        ensures looked { pass.new.seat.me ≡ (looked_view pass.old.seat.me.0 result, pass.old.seat.me.1) }
        ensures longer { length pass.old.seat.me.0.seen ≤ result }
        ensures idle { IsIdle pass.old.seat → IsIdle pass.new.seat }
    {
        self.baton.length(pass)
    }

    /// A note of what the pass has seen. It takes no memory, so it is always there.
    pub fn note(&self, pass: &mut ContextPass<P>) -> Result<Note<Bench<P>>, NoMemory>
        requires of { IsOfBaton beginning self.now.baton.table.shared pass.old.seat }
        ensures of { IsOfBaton beginning self.now.baton.table.shared pass.new.seat }
        ensures there { IsOk result }
        ensures note { IfOk result (λ n. IsOfBaton beginning self.now.baton.table.shared n.seat × (n.seat.me.0.seen ≡ pass.old.seat.me.0.seen)) }
        ensures same { pass.new.seat.me ≡ pass.old.seat.me }
        ensures idle { IsIdle pass.old.seat → IsIdle pass.new.seat }
    {
        self.baton.note(pass)
    }

    /// Afterwards the pass has seen what it had seen and what the note tells.
    pub fn learn(&self, pass: &mut ContextPass<P>, note: Note<Bench<P>>)
        requires of { IsOfBaton beginning self.now.baton.table.shared pass.old.seat × IsOfBaton beginning self.now.baton.table.shared note.seat }
        ensures of { IsOfBaton beginning self.now.baton.table.shared pass.new.seat }
        ensures before { IsPrefix pass.old.seat.me.0.seen pass.new.seat.me.0.seen }
        ensures theirs { IsPrefix note.seat.me.0.seen pass.new.seat.me.0.seen }
        ensures same { Learnt pass.old.seat.me.0 pass.new.seat.me.0 × (pass.new.seat.me.1 ≡ pass.old.seat.me.1) }
        ensures idle { IsIdle pass.old.seat → IsIdle pass.new.seat }
    {
        self.baton.learn(pass, note);
    }

    /// Waits for the run and gives it back with its ports. Its journal begins with what each of the
    /// passes had seen and has the own entries of each at their places, which never meet.
    pub fn close<R: Wait>(self, rt: &R, passes: List<ContextPass<P>>) -> Closed<P>
        requires some { 0 < length passes }
        requires of { All (λ p. IsOfBaton beginning self.baton.table.shared p.seat × IsIdle p.seat) passes }
        ensures seen { All (λ p. IsPrefix p.seat.me.0.seen result.run.entries) passes }
        ensures stands { All (λ p. Stands p.seat.me.0.mine result.run.entries) passes }
        ensures apart { AllPairs (λ p q. Apart p.seat.me.0.mine q.seat.me.0.mine) passes }
        ensures origin { beginning (record { run = result.run; slots = result.slots; start = self.baton.table.shared.key.value.value.start }) ≡ beginning self.baton.table.shared.key.value.value }
        ensures bench { IsBench self.baton.table.shared.key.value.value.start result.run result.slots }
    {
        let Shared { baton } = self;
        baton.close(rt, passes).close()
    }
}

ghost use Rattle.std.specs.Prelude.{◌≡◌, ◌<◌, false, All, IfOk, IfErr, IfSome, length, replicate};
ghost use mathlib.Core.List.{IsPrefix};
ghost use Rattle.micro_isa.specs.declared.limits.TheConstants.{MOST_PORTS};
ghost use Rattle.run_journal.specs.Attaching.{IsFresh};
ghost use Rattle.baton.specs.Passes.{IsOfBaton, IsIdle};
ghost use Rattle.context_runner.specs.Benches.{IsBench};
ghost use Rattle.context_runner.specs.Endings.{Brought};
ghost use Rattle.context_runner.specs.Sharing.{beginning, Ended};

use crate::bench::Bench;
use crate::closed::Closed;
use crate::rounds::run_round;
use crate::shared::{ContextPass, Shared};
use crate::taking::{pump_on, turn_on};
use baton::{Baton, Worker, work_all};
use micro_isa::List;
use micro_kit::Gate;
use ports::{Port, Slots};
use run_journal::{Run, TurnAnswer};
use std::alloc::Global;
use std::sync::Wait;
use std::thread::Threads;

/// After this many answers in a row that its context cannot go on a worker stops.
const MOST_WAITS: u32 = 100_000;

/// Brings a shared run to an ending: each of these passes' contexts has a worker in a thread of its own,
/// and when all have stopped, moves in round order go on. Where no thread can be made the workers run
/// one after another. It takes no memory.
#[tactic(auto, using(crate::proofs::Ends::threads_end))]
pub fn run_threads<P: Port + Send, R: Threads + Wait + Sync, G: Gate + Sync>(
    rt: &R,
    shared: Shared<P>,
    passes: List<ContextPass<P>>,
    gate: &G,
) -> Closed<P>
    requires some { 0 < length passes }
    requires of { All (λ p. IsOfBaton beginning shared.baton.table.shared p.seat × IsIdle p.seat) passes }
    ensures ended { Ended (beginning shared.baton.table.shared.key.value.value) result.run result.slots }
    ensures seen { All (λ p. IsPrefix p.seat.me.0.seen result.run.entries) passes }
{
    let mut passes = passes.into_vec();
    let worker = ContextWorker { rt, gate };
    work_all(rt, &shared.baton, passes.as_mut_slice(), &worker);
    let Closed { run, slots } = shared.close(rt, List::of(passes));
    run_round(run, slots)
}

/// Shares a run that has just its ports, and brings it to an ending by a worker for each context. A
/// refusal is want of memory and gives both back as they were.
pub fn run_in_threads<P: Port + Send, R: Threads + Wait + Sync, G: Gate + Sync>(
    rt: &R,
    gate: &G,
    alloc: Global,
    run: Run,
    slots: Slots<P>,
) -> Result<Closed<P>, Closed<P>>
    requires fresh { IsFresh run slots }
    requires whole { slots.retired ≡ replicate MOST_PORTS false }
    ensures brought { IfOk result (λ closed. Brought false run closed.run) }
    ensures bench { IfOk result (λ closed. IsBench slots.told closed.run closed.slots) }
    ensures same_run { IfErr result (λ closed. closed.run ≡ run) }
    ensures same_slots { IfErr result (λ closed. closed.slots ≡ slots) }
{
    match Shared::open(alloc, run, slots) {
        Ok((shared, passes)) => Ok(run_threads(rt, shared, passes, gate)),
        Err(closed) => Err(closed),
    }
}

/// Makes the turns of a context, one after another, and pumps where it cannot go on.
#[derive(Drop)]
struct ContextWorker<'a, R, G> {
    rt: &'a R,
    gate: &'a G,
}

impl<'a, P: Port, R: Wait, G: Gate> Worker<Bench<P>> for ContextWorker<'a, R, G> {
    fn work(&self, baton: &Baton<Bench<P>>, pass: &mut ContextPass<P>) {
        let context = pass.number() - 1;
        self.gate.arrive(self.rt, context);
        make_turns(self.rt, self.gate, baton, pass, context);
    }
}

fn make_turns<P: Port, R: Wait, G: Gate>(
    rt: &R,
    gate: &G,
    baton: &Baton<Bench<P>>,
    pass: &mut ContextPass<P>,
    context: u32,
)
    requires of { IsOfBaton beginning baton.now.table.shared pass.old.seat × IsIdle pass.old.seat }
    ensures of { IsOfBaton beginning baton.now.table.shared pass.new.seat × IsIdle pass.new.seat }
    ensures later { IsPrefix pass.old.seat.me.0.seen pass.new.seat.me.0.seen }
{
    let mut waits = 0;
    for _ in rt.forever() {
        match turn_or_pump(rt, gate, baton, pass, context, waits) {
            Some(more) => waits = more,
            None => return,
        }
    }
}

/// A turn, and a pump where the context cannot go on. It answers how many turns in a row found that it
/// cannot; none where the worker stops.
#[tactic(auto, using(crate::proofs::SharedTurns::turn_later))]
fn turn_or_pump<P: Port, R: Wait, G: Gate>(
    rt: &R,
    gate: &G,
    baton: &Baton<Bench<P>>,
    pass: &mut ContextPass<P>,
    context: u32,
    waits: u32,
) -> Option<u32>
    requires of { IsOfBaton beginning baton.now.table.shared pass.old.seat × IsIdle pass.old.seat }
    requires few { waits < MOST_WAITS }
    ensures of { IsOfBaton beginning baton.now.table.shared pass.new.seat × IsIdle pass.new.seat }
    ensures later { IsPrefix pass.old.seat.me.0.seen pass.new.seat.me.0.seen }
    ensures few { IfSome result (λ more. more < MOST_WAITS) }
{
    match turn_on(rt, baton, pass) {
        TurnAnswer::Ran(_) => {
            gate.made(context);
            Some(0)
        }
        TurnAnswer::NotReady(_) => pump_more(rt, baton, pass, waits + 1),
        TurnAnswer::Over(_) => None,
    }
}

/// A pump after so many turns in a row that found that the context cannot go on, but after the last.
#[tactic(auto, using(crate::proofs::SharedTurns::pump_later))]
fn pump_more<P: Port, R: Wait>(
    rt: &R,
    baton: &Baton<Bench<P>>,
    pass: &mut ContextPass<P>,
    waits: u32,
) -> Option<u32>
    requires of { IsOfBaton beginning baton.now.table.shared pass.old.seat × IsIdle pass.old.seat }
    ensures of { IsOfBaton beginning baton.now.table.shared pass.new.seat × IsIdle pass.new.seat }
    ensures later { IsPrefix pass.old.seat.me.0.seen pass.new.seat.me.0.seen }
    ensures few { IfSome result (λ more. more < MOST_WAITS) }
{
    if waits >= MOST_WAITS {
        return None;
    }
    pump_on(rt, baton, pass);
    Some(waits)
}

ghost use Rattle.std.specs.Prelude.{◌≡◌, ◌<◌, ◌≤◌, ◌++◌, ◌∷◌, [], IfOk, IfErr};
ghost use Rattle.baton.specs.Views.{busy_view};
ghost use Rattle.baton.specs.Passes.{IsOfBaton, IsIdle, IsHolding};
ghost use Rattle.context_runner.specs.Sharing.{beginning, TurnTold, PumpTold, HasTaken};

use crate::bench::Bench;
use crate::shared::ContextPass;
use baton::{Baton, Busy, Held};
use ports::Port;
use run_journal::{Pumped, TurnAnswer};
use std::sync::Wait;
use std::thread;

/// A turn of the pass's context, where no other pass holds the run.
pub(crate) fn try_turn_on<P: Port>(
    baton: &Baton<Bench<P>>,
    pass: &mut ContextPass<P>,
) -> Result<TurnAnswer, Busy>
    requires of { IsOfBaton beginning baton.now.table.shared pass.old.seat × IsIdle pass.old.seat }
    ensures of { IsOfBaton beginning baton.now.table.shared pass.new.seat × IsIdle pass.new.seat }
    ensures told { IfOk result (λ answer. TurnTold (beginning baton.now.table.shared.key.value.value) answer pass.old.seat.me.0 pass.new.seat.me.0) }
    ensures reads { IfOk result (λ answer. pass.new.seat.me.0.reads ≡ pass.old.seat.me.0.reads ++ 0 ∷ []) }
    ensures busy { IfErr result (λ b. pass.new.seat.me.0 ≡ busy_view pass.old.seat.me.0 b.holder) }
    ensures holder { IfErr result (λ b. (0 < b.holder) × (b.holder ≤ pass.old.seat.me.0.callers)) }
{
    match baton.try_take(pass) {
        Ok(held) => {
            let answer = turn_held(baton, pass, held);
            Ok(answer)
        }
        Err(busy) => Err(busy),
    }
}

/// A turn of the pass's context, once no other pass holds the run.
pub(crate) fn turn_on<P: Port, R: Wait>(
    rt: &R,
    baton: &Baton<Bench<P>>,
    pass: &mut ContextPass<P>,
) -> TurnAnswer
    requires of { IsOfBaton beginning baton.now.table.shared pass.old.seat × IsIdle pass.old.seat }
    ensures of { IsOfBaton beginning baton.now.table.shared pass.new.seat × IsIdle pass.new.seat }
    ensures told { TurnTold (beginning baton.now.table.shared.key.value.value) result pass.old.seat.me.0 pass.new.seat.me.0 }
{
    let held = take_on(rt, baton, pass);
    turn_held(baton, pass, held)
}

/// A pump, once no other pass holds the run.
pub(crate) fn pump_on<P: Port, R: Wait>(
    rt: &R,
    baton: &Baton<Bench<P>>,
    pass: &mut ContextPass<P>,
) -> Pumped
    requires of { IsOfBaton beginning baton.now.table.shared pass.old.seat × IsIdle pass.old.seat }
    ensures of { IsOfBaton beginning baton.now.table.shared pass.new.seat × IsIdle pass.new.seat }
    ensures told { PumpTold (beginning baton.now.table.shared.key.value.value) result pass.old.seat.me.0 pass.new.seat.me.0 }
{
    let held = take_on(rt, baton, pass);
    pump_held(baton, pass, held)
}

/// Takes the run, once no other pass holds it.
fn take_on<P: Port, R: Wait>(
    rt: &R,
    baton: &Baton<Bench<P>>,
    pass: &mut ContextPass<P>,
) -> Held<Bench<P>>
    requires of { IsOfBaton beginning baton.now.table.shared pass.old.seat × IsIdle pass.old.seat }
    ensures of { IsOfBaton beginning baton.now.table.shared pass.new.seat }
    ensures holding { IsHolding pass.new.seat }
    ensures taken { HasTaken pass.old.seat.me.0 pass.new.seat.me.0 result.value.run.entries }
    ensures origin { beginning result.value ≡ beginning baton.now.table.shared.key.value.value }
{
    for _ in rt.forever() {
        match baton.try_take(pass) {
            Ok(held) => return held,
            Err(_) => thread::yield_now(),
        }
    }
    unreachable!()
}

/// A turn of the context of the pass that holds the run, which is then put back.
fn turn_held<P: Port>(
    baton: &Baton<Bench<P>>,
    pass: &mut ContextPass<P>,
    held: Held<Bench<P>>,
) -> TurnAnswer
    requires of { IsOfBaton beginning baton.now.table.shared pass.old.seat }
    requires holding { IsHolding pass.old.seat }
    requires seen { pass.old.seat.me.0.seen ≡ held.value.run.entries }
    requires origin { beginning held.value ≡ beginning baton.now.table.shared.key.value.value }
    ensures of { IsOfBaton beginning baton.now.table.shared pass.new.seat × IsIdle pass.new.seat }
    ensures told { TurnTold (beginning baton.now.table.shared.key.value.value) result pass.old.seat.me.0 pass.new.seat.me.0 }
    ensures reads { pass.new.seat.me.0.reads ≡ pass.old.seat.me.0.reads }
{
    let mut held = held;
    let context = pass.number() - 1;
    let answer = held.value_mut().turn(context);
    baton.put(pass, held);
    answer
}

/// A pump by the pass that holds the run, which is then put back.
fn pump_held<P: Port>(
    baton: &Baton<Bench<P>>,
    pass: &mut ContextPass<P>,
    held: Held<Bench<P>>,
) -> Pumped
    requires of { IsOfBaton beginning baton.now.table.shared pass.old.seat }
    requires holding { IsHolding pass.old.seat }
    requires seen { pass.old.seat.me.0.seen ≡ held.value.run.entries }
    requires origin { beginning held.value ≡ beginning baton.now.table.shared.key.value.value }
    ensures of { IsOfBaton beginning baton.now.table.shared pass.new.seat × IsIdle pass.new.seat }
    ensures told { PumpTold (beginning baton.now.table.shared.key.value.value) result pass.old.seat.me.0 pass.new.seat.me.0 }
{
    let mut held = held;
    let pumped = held.value_mut().pump();
    baton.put(pass, held);
    pumped
}

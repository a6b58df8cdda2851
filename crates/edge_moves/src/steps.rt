ghost use Rattle.std.specs.Prelude.{◌≡◌, ℕ, ◌<◌, ◌≤◌, ◌==◌, ◌&&◌, not, ◌∷◌, [], ◌++◌, Some, None, false, IfOk, OnOk, length, slice_index_or, if◌then◌else◌};
ghost use Rattle.micro_isa.specs.declared.image.PReg.{PReg as PRegister};
ghost use Rattle.edge_moves.specs.MoveSteps.{moving, first_free, without, renamed, joined, open_cycle, turn, move_steps};
ghost use Rattle.edge_moves.specs.ParallelMove.{AreDistinct, IsFree, ParallelMove};
ghost use Rattle.edge_moves.specs.Remaining.{Remains, AreSources, IsMovedAt};
ghost use Rattle.edge_moves.specs.Within.{KeepsWithin};
ghost use Rattle.edge_moves.specs.Costs.{most_steps};

use crate::register_set::{RegisterSet, add, take_out};
use crate::remaining::{first_free, sources_of, target_of};
use crate::step::Step;
use micro_isa::{NoMemory, PReg};
use smallvec::SmallVec;
use std::alloc::Global;

/// The steps that do these moves, each from a source to a target, as if at once. The free register,
/// where there is one, may change, and no other register but the targets. The only error is want of
/// memory.
#[tactic(auto, using(crate::proofs::Parallel::parallel_move, crate::proofs::Bounds::keeps_within, crate::proofs::CostLaw::steps_few))]
pub fn sequence(
    alloc: Global,
    pairs: &[(PReg, PReg)],
    free: Option<PReg>,
) -> Result<SmallVec<Step, 16, Global>, NoMemory>
    requires distinct { AreDistinct pairs.now }
    requires free { IsFree pairs.now free }
    ensures steps { IfOk result (λ done. done.items ≡ move_steps pairs.now free) }
    ensures moves { IfOk result (λ done. ParallelMove pairs.now free done.items) }
    ensures within { IfOk result (λ done. KeepsWithin pairs.now free done.items) }
    ensures few { IfOk result (λ done. length done.items ≤ most_steps (length pairs.now)) }
{
    steps_of(alloc, pairs, free)
}

/// Turn after turn, until no pair remains. The set of the sources is kept from turn to turn.
fn steps_of(
    alloc: Global,
    pairs: &[(PReg, PReg)],
    free: Option<PReg>,
) -> Result<SmallVec<Step, 16, Global>, NoMemory>
    requires distinct { AreDistinct pairs.now }
    requires free { IsFree pairs.now free }
    ensures { IfOk result (λ done. done.items ≡ move_steps pairs.now free) }
{
    let mut left = moving(alloc, pairs)?;
    let mut sources = sources_of(left.as_slice());
    let mut steps = SmallVec::new(alloc);
    for _ in 0..pairs.len() {
        turn(&mut left, &mut sources, &mut steps, free)?;
    }
    Ok(steps)
}

/// The pairs that move something.
fn moving(alloc: Global, pairs: &[(PReg, PReg)]) -> Result<Vec<(PReg, PReg)>, NoMemory>
    ensures { IfOk result (λ left. left.items ≡ moving pairs.now) }
{
    let mut left = Vec::new(alloc);
    for pair in pairs {
        if pair.0.0 != pair.1.0 && left.push(*pair).is_err() {
            return Err(NoMemory);
        }
    }
    Ok(left)
}

/// One move whose target is no source, or else what opens a cycle.
fn turn(
    left: &mut Vec<(PReg, PReg)>,
    sources: &mut RegisterSet,
    steps: &mut SmallVec<Step, 16, Global>,
    free: Option<PReg>,
) -> Result<(), NoMemory>
    requires remains { Remains free left.old.items }
    requires sources { AreSources left.old.items sources.old }
    ensures left { OnOk result (left.new.items ≡ (turn free left.old.items).left) }
    ensures steps { OnOk result (steps.new.items ≡ steps.old.items ++ (turn free left.old.items).steps) }
    ensures sources { OnOk result (AreSources left.new.items sources.new) }
{
    match first_free(left.as_slice(), sources) {
        Some(at) => {
            move_at(left, sources, steps, at)?;
            Ok(())
        }
        None => {
            open_cycle(left, sources, steps, free)?;
            Ok(())
        }
    }
}

/// The move of the pair at this place, whose target is no source.
fn move_at(
    left: &mut Vec<(PReg, PReg)>,
    sources: &mut RegisterSet,
    steps: &mut SmallVec<Step, 16, Global>,
    at: usize,
) -> Result<(), NoMemory>
    requires distinct { AreDistinct left.old.items }
    requires sources { AreSources left.old.items sources.old }
    requires here { at < length left.old.items }
    ensures moved { OnOk result (IsMovedAt left.old.items at left.new.items steps.old.items steps.new.items) }
    ensures sources { OnOk result (AreSources left.new.items sources.new) }
{
    let (from, to) = left.remove(at);
    take_out(sources, from);
    push(steps, Step::Mov { to, from })?;
    Ok(())
}

/// Opens a cycle at the first remaining pair: with the free register, or by an exchange.
fn open_cycle(
    left: &mut Vec<(PReg, PReg)>,
    sources: &mut RegisterSet,
    steps: &mut SmallVec<Step, 16, Global>,
    free: Option<PReg>,
) -> Result<(), NoMemory>
    requires remains { Remains free left.old.items }
    requires sources { AreSources left.old.items sources.old }
    requires stuck { first_free left.old.items left.old.items ≡ None }
    ensures left { OnOk result (left.new.items ≡ (open_cycle free left.old.items).left) }
    ensures steps { OnOk result (steps.new.items ≡ steps.old.items ++ (open_cycle free left.old.items).steps) }
    ensures sources { OnOk result (AreSources left.new.items sources.new) }
{
    if left.is_empty() {
        return Ok(());
    }
    let (from, to) = left.remove(0);
    match free {
        Some(free) => {
            push(steps, Step::Mov { to: free, from: to })?;
            push(steps, Step::Mov { to, from })?;
            rename(left, to, free);
            take_out(sources, from);
            take_out(sources, to);
            add(sources, free);
            Ok(())
        }
        None => {
            push(steps, Step::Xor { to: from, with: to })?;
            push(steps, Step::Xor { to, with: from })?;
            push(steps, Step::Xor { to: from, with: to })?;
            let target = target_of(left.as_slice(), to);
            take_out(sources, to);
            take_out_if_last(sources, from, target);
            join(left, from, target)?;
            Ok(())
        }
    }
}

/// Takes the source of an exchange out, where the value that came there need go no further.
fn take_out_if_last(sources: &mut RegisterSet, source: PReg, target: Option<PReg>)
    ensures { (u : PRegister) → target ≡ Some u → (q : ℕ) → slice_index_or sources.new q false
        ≡ (if u.0 == source.0 then (not (source.0 == q) && slice_index_or sources.old q false) else slice_index_or sources.old q false) }
{
    if let Some(target) = target
        && target.0 == source.0
    {
        take_out(sources, source);
    }
}

fn push(steps: &mut SmallVec<Step, 16, Global>, step: Step) -> Result<(), NoMemory>
    ensures { OnOk result (steps.new.items ≡ steps.old.items ++ step ∷ []) }
{
    if steps.push(step).is_err() {
        return Err(NoMemory);
    }
    Ok(())
}

/// Drops the pair with this target.
fn remove_to(left: &mut Vec<(PReg, PReg)>, to: PReg)
    ensures { left.new.items ≡ without to.0 left.old.items }
{
    left.retain(|pair| pair.1.0 != to.0);
}

/// Gives each pair with the source `old` the source `new`.
fn rename(left: &mut Vec<(PReg, PReg)>, old: PReg, new: PReg)
    ensures { left.new.items ≡ renamed old.0 new left.old.items }
{
    for pair in left.iter_mut() {
        if pair.0.0 == old.0 {
            pair.0 = new;
        }
    }
}

/// After an exchange: the pair from `source` to the target takes the place of both.
fn join(left: &mut Vec<(PReg, PReg)>, source: PReg, target: Option<PReg>) -> Result<(), NoMemory>
    ensures { OnOk result (left.new.items ≡ joined source left.old.items target) }
{
    let Some(target) = target else {
        return Ok(());
    };
    remove_to(left, target);
    if target.0 != source.0 && left.insert(0, (source, target)).is_err() {
        return Err(NoMemory);
    }
    Ok(())
}

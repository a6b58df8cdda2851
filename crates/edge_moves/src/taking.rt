ghost use Rattle.std.specs.Prelude.{ℕ, ◌≡◌, ◌<◌, List, ◌∷◌, true, false, None, length};
ghost use Rattle.edge_moves.specs.MoveSteps.{Pair, moving, is_source, first_free};
ghost use Rattle.edge_moves.specs.ParallelMove.{AreDistinct, is_target};
ghost use Rattle.edge_moves.specs.Tally.{Holds, left_of, inside, openings, TakenBack, CycleTaken};

use crate::remaining::sources_of;
use crate::source_table::{SourceTable, take};
use micro_isa::PReg;

/// Takes the pairs outside cycles: each is on a chain whose last target is no source.
pub fn take_outside(pairs: &[(PReg, PReg)], sources: &mut SourceTable)
    requires distinct { AreDistinct pairs.now }
    requires left { left_of sources.old pairs.now ≡ moving pairs.now }
    requires holds { Holds sources.old (moving pairs.now) }
    ensures left { left_of sources.new pairs.now ≡ inside (length pairs.now) (moving pairs.now) }
    ensures holds { Holds sources.new (left_of sources.new pairs.now) }
{
    let all = sources_of(pairs);
    for (_, target) in pairs {
        if !all[target.0 as usize] {
            take_back(sources, *target);
        }
    }
}

/// Takes the cycles that remain, and counts them.
pub fn take_cycles(pairs: &[(PReg, PReg)], sources: &mut SourceTable) -> usize
    requires distinct { AreDistinct pairs.now }
    requires holds { Holds sources.old (left_of sources.old pairs.now) }
    requires cycles { first_free (left_of sources.old pairs.now) (left_of sources.old pairs.now) ≡ None }
    ensures { result ≡ openings (length (left_of sources.old pairs.now)) (left_of sources.old pairs.now) }
{
    let mut cycles = 0;
    for pair in pairs {
        if take_cycle(sources, *pair) {
            cycles += 1;
        }
    }
    cycles
}

/// Takes the cycle that begins with this pair, if that remains, and tells whether it did.
fn take_cycle(sources: &mut SourceTable, pair: (PReg, PReg)) -> bool
    ensures { (pairs rest : List Pair)
        → AreDistinct pairs
        → Holds sources.old (left_of sources.old pairs)
        → first_free (left_of sources.old pairs) (left_of sources.old pairs) ≡ None
        → left_of sources.old (pair ∷ rest) ≡ left_of sources.old pairs
        → CycleTaken pairs rest sources.old sources.new result }
{
    match take(sources, pair.1) {
        None => false,
        Some(_) => {
            take_back(sources, pair.0);
            true
        }
    }
}

/// Takes the pair with this target, then the pair whose target is the source of that, and so on.
fn take_back(sources: &mut SourceTable, last: PReg)
    ensures { (pairs : List Pair)
        → AreDistinct pairs
        → Holds sources.old (left_of sources.old pairs)
        → is_source (left_of sources.old pairs) last.0 ≡ false
        → (hole : ℕ) × TakenBack pairs sources.old last.0 sources.new hole × (is_target (left_of sources.new pairs) hole ≡ false) }
{
    let mut target = last;
    'back: while let Some(source) = take(sources, target) {
        target = source;
    }
}

/// How many pairs remain.
pub fn count_left(pairs: &[(PReg, PReg)], sources: &SourceTable) -> usize
    ensures number { result ≡ length (left_of sources.now pairs.now) }
    ensures registers { (q : ℕ) → is_target pairs.now q ≡ true → q < 256 }
{
    let mut left = 0;
    for (_, target) in pairs {
        if sources[target.0 as usize].is_some() {
            left += 1;
        }
    }
    left
}

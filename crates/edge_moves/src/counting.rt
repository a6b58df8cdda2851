ghost use Rattle.std.specs.Prelude.{◌≡◌, ◌+◌, ◌≤◌, true, false, Option, Some, None, length, is_some};
ghost use Rattle.micro_isa.specs.declared.image.PReg.{PReg};
ghost use Rattle.edge_moves.specs.MoveSteps.{move_steps};
ghost use Rattle.edge_moves.specs.ParallelMove.{AreDistinct, IsFree};
ghost use Rattle.edge_moves.specs.Costs.{most_steps, CostsByCycle};
ghost use Rattle.edge_moves.specs.Tally.{sum_of, counted};

use crate::both::Costs;
use crate::source_table::sources_to;
use crate::taking::{count_left, take_cycles, take_outside};
use micro_isa::PReg;

/// How many steps `sequence` gives for these pairs, with a free register or without: one a pair
/// outside cycles, and for a cycle of n pairs n + 1 with a free register and 3 (n - 1) without. So
/// they are at most 3 (n - 1) for n pairs, or one for one.
#[tactic(auto, using(crate::proofs::CostLaw::cost_is, crate::proofs::CostLaw::cost_law, crate::proofs::CostLaw::cost_few))]
pub fn cost(pairs: &[(PReg, PReg)], has_free: bool) -> u32
    requires { AreDistinct pairs.now }
    ensures steps { (free : Option PReg) → IsFree pairs.now free → is_some free ≡ has_free → result ≡ length (move_steps pairs.now free) }
    ensures law { CostsByCycle pairs.now has_free result }
    ensures few { result ≤ most_steps (length pairs.now) }
{
    counted(pairs, has_free)
}

/// How many steps `sequence` gives for these pairs with a free register that is none of theirs, and
/// how many without, at once: in time that grows with the pairs, and at most as many as `cost` says.
#[tactic(auto, using(crate::proofs::CostLaw::cost_is, crate::proofs::CostLaw::cost_law, crate::proofs::CostLaw::cost_few))]
pub fn costs(pairs: &[(PReg, PReg)]) -> Costs
    requires { AreDistinct pairs.now }
    ensures with_free { (free : PReg) → IsFree pairs.now (Some free) → result.with_free ≡ length (move_steps pairs.now (Some free)) }
    ensures without { result.without ≡ length (move_steps pairs.now None) }
    ensures law_with_free { CostsByCycle pairs.now true result.with_free }
    ensures law_without { CostsByCycle pairs.now false result.without }
    ensures few_with_free { result.with_free ≤ most_steps (length pairs.now) }
    ensures few_without { result.without ≤ most_steps (length pairs.now) }
{
    both_counted(pairs)
}

fn counted(pairs: &[(PReg, PReg)], has_free: bool) -> u32
    requires { AreDistinct pairs.now }
    ensures { result ≡ counted has_free pairs.now }
{
    let both = both_counted(pairs);
    if has_free {
        both.with_free
    } else {
        both.without
    }
}

fn both_counted(pairs: &[(PReg, PReg)]) -> Costs
    requires { AreDistinct pairs.now }
    ensures with_free { result.with_free ≡ counted true pairs.now }
    ensures without { result.without ≡ counted false pairs.now }
{
    let mut sources = sources_to(pairs);
    let moving = count_left(pairs, &sources);
    take_outside(pairs, &mut sources);
    let on_cycles = count_left(pairs, &sources);
    let cycles = take_cycles(pairs, &mut sources);
    sums(moving - on_cycles, on_cycles, cycles)
}

/// The steps for the pairs outside cycles and for those on so many cycles.
fn sums(outside: usize, on_cycles: usize, cycles: usize) -> Costs
    requires pairs { outside + on_cycles ≤ 256 }
    requires cycles { cycles ≤ on_cycles }
    ensures with_free { result.with_free ≡ sum_of true outside on_cycles cycles }
    ensures without { result.without ≡ sum_of false outside on_cycles cycles }
{
    Costs {
        with_free: (outside + on_cycles + cycles) as u32,
        without: (outside + 3 * (on_cycles - cycles)) as u32,
    }
}

ghost use Rattle.std.specs.Prelude.{ℕ, ◌≡◌, ◌==◌, ◌<◌, List, true, None, is_some, slice_index_or, if◌then◌else◌};
ghost use Rattle.edge_moves.specs.MoveSteps.{Pair, moving, without};
ghost use Rattle.edge_moves.specs.ParallelMove.{AreDistinct};
ghost use Rattle.edge_moves.specs.Tally.{Holds, left_of, filled};

use micro_isa::PReg;

/// The source of the remaining pair with each target, by the target's number.
pub type SourceTable = [Option<PReg>; 256];

/// The table of the pairs that move something.
#[tactic(auto, using(crate::proofs::Tables::left_moving))]
pub fn sources_to(pairs: &[(PReg, PReg)]) -> SourceTable
    requires { AreDistinct pairs.now }
    ensures left { left_of result pairs.now ≡ moving pairs.now }
    ensures holds { Holds result (moving pairs.now) }
{
    let mut sources: SourceTable = [None; 256];
    for (source, target) in pairs {
        if source.0 != target.0 {
            sources[target.0 as usize] = Some(*source);
        }
    }
    sources
}

/// Takes the pair with this target, if it remains, and tells its source.
pub fn take(sources: &mut SourceTable, target: PReg) -> Option<PReg>
    ensures found { result ≡ slice_index_or sources.old target.0 None }
    ensures left { (pairs : List Pair) → left_of sources.new pairs ≡ without target.0 (left_of sources.old pairs) }
    ensures others { (q : ℕ) → slice_index_or sources.new q None ≡ (if q == target.0 then None else slice_index_or sources.old q None) }
    ensures fewer { is_some result ≡ true → filled sources.new < filled sources.old }
{
    let source = sources[target.0 as usize];
    sources[target.0 as usize] = None;
    source
}

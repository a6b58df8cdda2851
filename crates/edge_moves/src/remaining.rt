ghost use Rattle.std.specs.Prelude.{◌≡◌};
ghost use Rattle.edge_moves.specs.MoveSteps.{target_of};
ghost use Rattle.edge_moves.specs.Remaining.{AreSources, IsFirstAt};

use crate::register_set::{RegisterSet, add};
use micro_isa::PReg;

/// The sources of the remaining pairs.
#[tactic(auto, using(crate::proofs::Sources::none_marked, crate::proofs::Sources::source_next))]
pub fn sources_of(left: &[(PReg, PReg)]) -> RegisterSet
    ensures { AreSources left.now result }
{
    let mut sources = [false; 256];
    for (source, _) in left {
        add(&mut sources, *source);
    }
    sources
}

/// The place of the first pair whose target is no source.
pub fn first_free(left: &[(PReg, PReg)], sources: &RegisterSet) -> Option<usize>
    requires { AreSources left.now sources.now }
    ensures { IsFirstAt left.now result }
{
    'places: for i in 0..left.len() {
        let (_, target) = left[i];
        if !sources[target.0 as usize] {
            return Some(i);
        }
    }
    None
}

/// Where the value in this register is to go.
pub fn target_of(left: &[(PReg, PReg)], register: PReg) -> Option<PReg>
    ensures { result ≡ target_of left.now register.0 }
{
    for (source, target) in left {
        if source.0 == register.0 {
            return Some(*target);
        }
    }
    None
}

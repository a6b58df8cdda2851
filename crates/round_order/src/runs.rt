ghost use Rattle.std.specs.Prelude.{◌≤◌, IfOk};
ghost use Rattle.micro_isa.specs.declared.limits.TheConstants.{MOST_STEPS};
ghost use Rattle.micro_isa.specs.Formed.{IsFormedBundle};
ghost use Rattle.semantics.specs.Source.{source_semantics, source_open};
ghost use Rattle.source_core.specs.SourceState.{config_of};
ghost use Rattle.round_order.specs.RoundRuns.{IsRoundRun};

use crate::order::run_rounds;
use micro_isa::{Bundle, NoMemory};
use source_core::SourceRun;
use std::alloc::Global;
use world::{End, Entry};

/// The run of a bundle over registers of its own: its last state, its journal, and how it ended.
#[derive(Drop)]
pub struct SourceRounds {
    pub source: SourceRun,
    pub entries: Vec<Entry>,
    pub end: End,
}

/// Runs a formed bundle from its opening to an ending, for at most `bound` steps, with unbounded
/// private registers for each context and no port at hand: the ports are unplugged first, in channel
/// order, and then the contexts run in round order.
pub fn run_source(alloc: Global, bundle: &Bundle, bound: u32) -> Result<SourceRounds, NoMemory>
    requires formed { IsFormedBundle bundle.now }
    requires bound { bound ≤ MOST_STEPS }
    ensures { IfOk result (λ run. IsRoundRun (source_semantics bundle.now) (source_open bundle.now bound) (config_of run.source) run.entries.items run.end) }
{
    let mut source = SourceRun::open(alloc, bundle, bound)?;
    let journal = run_rounds(alloc, &mut source)?;
    Ok(SourceRounds {
        source,
        entries: journal.entries,
        end: journal.end,
    })
}

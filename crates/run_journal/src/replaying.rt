//! A journal that is followed entry by entry.

ghost use Rattle.std.specs.Prelude.{◌≡◌, ◌≤◌, [], IfOk, IfErr};
ghost use Rattle.micro_isa.specs.declared.limits.TheConstants.{MOST_STEPS};
ghost use Rattle.micro_isa.specs.Formed.{IsFormedImage};
ghost use Rattle.semantics.specs.Entries.{LeadsTo};
ghost use Rattle.semantics.specs.Machine.{machine_semantics, machine_open};
ghost use Rattle.engine_core.specs.EngineState.{config_of};
ghost use Rattle.run_journal.specs.Histories.{bound_of};
ghost use Rattle.run_journal.specs.Replays.{Replays, StraysBy, IsRefused};

use crate::run::Run;
use micro_isa::{Image, NoMemory};
use std::alloc::Global;
use thiserror::Error;
use world::Entry;

/// Why entries are not those of a run. They are numbered from 1.
#[derive(Clone, Copy, Debug, PartialEq, Eq, Error)]
pub enum ReplayFault {
    /// The first entry whose event may not happen where it stands.
    #[error("entry {at} may not happen: {written:?}")]
    Illegal {
        at: u32,
        written: Entry,
    },
    /// The first entry whose segment has other steps or another end, which `found` tells.
    #[error("entry {at} differs: {written:?}, found {found:?}")]
    Differs {
        at: u32,
        written: Entry,
        found: Entry,
    },
    #[error("out of memory")]
    NoMemory,
}

/// The run of an image that has these entries, under this bound of steps. The run keeps a copy of
/// the image.
pub fn replay(
    alloc: Global,
    image: &Image,
    entries: &[Entry],
    bound: u32,
) -> Result<Run, ReplayFault>
    requires formed { IsFormedImage image.now }
    requires bound { bound ≤ MOST_STEPS }
    ensures replays { IfOk result (λ run. Replays run image.now bound entries.now) }
    ensures legal { IfOk result (λ run. LeadsTo (machine_semantics image.now) (machine_open image.now bound) entries.now (config_of run.engine)) }
    ensures strays { IfErr result (λ why. StraysBy why image.now bound entries.now) }
    ensures refused { IfErr result (λ why. IsRefused why image.now bound entries.now) }
{
    match image.copy(alloc) {
        Ok(image) => replay_of(alloc, image, entries, bound),
        Err(NoMemory) => Err(ReplayFault::NoMemory),
    }
}

/// The same over an image that is taken.
pub fn replay_of(
    alloc: Global,
    image: Image,
    entries: &[Entry],
    bound: u32,
) -> Result<Run, ReplayFault>
    requires formed { IsFormedImage image }
    requires bound { bound ≤ MOST_STEPS }
    ensures replays { IfOk result (λ run. Replays run image bound entries.now) }
    ensures legal { IfOk result (λ run. LeadsTo (machine_semantics image) (machine_open image bound) entries.now (config_of run.engine)) }
    ensures strays { IfErr result (λ why. StraysBy why image bound entries.now) }
    ensures refused { IfErr result (λ why. IsRefused why image bound entries.now) }
{
    match Run::of(alloc, image, bound) {
        Ok(run) => follow_all(run, entries),
        Err(NoMemory) => Err(ReplayFault::NoMemory),
    }
}

/// Follows entries from an opening on.
#[tactic(auto, using(crate::proofs::Straying::followed_none, crate::proofs::Straying::followed_more))]
fn follow_all(run: Run, entries: &[Entry]) -> Result<Run, ReplayFault>
    requires fresh { run.entries ≡ [] }
    requires idle { run.idle ≡ 0 }
    ensures replays { IfOk result (λ after. Replays after run.engine.image (bound_of run.engine) entries.now) }
    ensures strays { IfErr result (λ why. StraysBy why run.engine.image (bound_of run.engine) entries.now) }
    ensures refused { IfErr result (λ why. IsRefused why run.engine.image (bound_of run.engine) entries.now) }
{
    let mut run = run;
    for written in entries {
        match run.follow_as(*written) {
            Ok(()) => {}
            Err(why) => return Err(why),
        }
    }
    Ok(run)
}

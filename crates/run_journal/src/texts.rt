//! A journal's text that is followed line by line.

ghost use Rattle.std.specs.Prelude.{◌≡◌, ◌≤◌, ◌+◌, [], length, IfOk, IfErr};
ghost use Rattle.micro_isa.specs.declared.limits.TheConstants.{MOST_STEPS, LONGEST_JOURNAL};
ghost use Rattle.micro_isa.specs.Formed.{IsFormedImage};
ghost use Rattle.semantics.specs.Entries.{LeadsTo};
ghost use Rattle.semantics.specs.Machine.{machine_semantics, machine_open};
ghost use Rattle.engine_core.specs.EngineState.{config_of};
ghost use Rattle.run_journal.specs.Histories.{bound_of};
ghost use Rattle.run_journal.specs.TextReplays.{ReplaysText, StraysInText, CausesBehind};

use crate::replaying::ReplayFault;
use crate::run::Run;
use journal_text::{first_entry, first_stray};
use micro_isa::{Image, NoMemory};
use std::alloc::Global;
use thiserror::Error;

/// Why a text is not the journal of a run.
#[derive(Clone, Copy, Debug, PartialEq, Eq, Error)]
pub enum TextFault {
    /// The line of this number, counted from 1, is the first that is no entry.
    #[error("line {at} is no entry")]
    Reading { at: u32 },
    /// Each line is an entry, and the entries are not those of a run.
    #[error("{0:?}")]
    Strays(ReplayFault),
}

/// The run of an image whose entries the lines of a text are, under this bound of steps: what reading the
/// text and `replay` of its entries give, without a list of what was read. The run keeps a copy of the image.
#[tactic(auto, using(crate::proofs::TextFollowing::followed_legal))]
pub fn replay_text(alloc: Global, image: &Image, text: &[u8], bound: u32) -> Result<Run, TextFault>
    requires formed { IsFormedImage image.now }
    requires bound { bound ≤ MOST_STEPS }
    requires short { length text.now ≤ LONGEST_JOURNAL }
    ensures replays { IfOk result (λ run. ReplaysText run image.now bound text.now) }
    ensures legal { IfOk result (λ run. LeadsTo (machine_semantics image.now) (machine_open image.now bound) run.entries (config_of run.engine)) }
    ensures strays { IfErr result (λ why. StraysInText why image.now bound text.now) }
{
    match Run::open(alloc, image, bound) {
        Ok(run) => follow_text(run, text),
        Err(NoMemory) => Err(TextFault::Strays(ReplayFault::NoMemory)),
    }
}

/// Follows the entries of a text from an opening on.
#[tactic(auto, using(crate::proofs::TextFollowing::followed_none, crate::proofs::TextFollowing::followed_more, crate::proofs::TextFollowing::followed_all))]
fn follow_text(run: Run, text: &[u8]) -> Result<Run, TextFault>
    requires fresh { run.entries ≡ [] }
    requires idle { run.idle ≡ 0 }
    requires short { length text.now ≤ LONGEST_JOURNAL }
    ensures replays { IfOk result (λ after. ReplaysText after run.engine.image (bound_of run.engine) text.now) }
    ensures strays { IfErr result (λ why. StraysInText why run.engine.image (bound_of run.engine) text.now) }
{
    let mut run = run;
    let mut rest = text;
    'lines: while !rest.is_empty() {
        let at = run.entries().len() as u32 + 1;
        match first_entry(rest) {
            Some((written, behind)) => match run.follow_as(written) {
                Ok(()) => rest = behind,
                Err(why) => return Err(first_cause(why, at, behind)),
            },
            None => return Err(TextFault::Reading { at }),
        }
    }
    Ok(run)
}

/// Where the entry of this number strays: a line behind it that is no entry is told before it.
fn first_cause(why: ReplayFault, at: u32, behind: &[u8]) -> TextFault
    requires short { at + length behind.now ≤ LONGEST_JOURNAL }
    ensures { CausesBehind result why at behind.now }
{
    match first_stray(behind) {
        Some(line) => TextFault::Reading { at: at + line },
        None => TextFault::Strays(why),
    }
}

//! The status and the last state of a run, as its report tells them.

ghost use Rattle.std.specs.Prelude.{◌≡◌, if◌then◌else◌};
ghost use Rattle.std.specs.List.{list_any};
ghost use Rattle.commands.specs.Reports.{has_trapped, status_of, status_so_far};

use crate::status::Status;
use world::{End, Phase};

pub(crate) fn status_of(end: End, phases: &[Phase]) -> Status
    ensures { result ≡ status_of end phases.now }
{
    match end {
        End::Finished => finished_status(phases),
        End::Stuck => Status::Stuck,
        End::Bound => Status::Bound,
        End::Idle => Status::Idle,
    }
}

/// The status of a run that may go on.
pub(crate) fn status_so_far(ending: Option<End>, phases: &[Phase]) -> Status
    ensures { result ≡ status_so_far ending phases.now }
{
    match ending {
        Some(end) => status_of(end, phases),
        None => Status::Done,
    }
}

fn finished_status(phases: &[Phase]) -> Status
    ensures { result ≡ (if list_any has_trapped phases.now then Status.Trapped else Status.Done) }
{
    if some_trapped(phases) {
        Status::Trapped
    } else {
        Status::Done
    }
}

fn some_trapped(phases: &[Phase]) -> bool
    ensures { result ≡ list_any has_trapped phases.now }
{
    phases.iter().any(|phase| has_trapped(*phase))
}

fn has_trapped(phase: Phase) -> bool
    ensures { result ≡ has_trapped phase }
{
    matches!(phase, Phase::Trapped { .. })
}

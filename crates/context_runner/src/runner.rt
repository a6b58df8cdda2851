ghost use Rattle.std.specs.Prelude.{◌≡◌, Bool, IfOk, IfErr, false, true, replicate};
ghost use Rattle.std.specs.Result.{is_ok};
ghost use Rattle.micro_isa.specs.declared.limits.TheConstants.{MOST_PORTS};
ghost use Rattle.run_journal.specs.Attaching.{IsFresh};
ghost use Rattle.context_runner.specs.Benches.{IsBench};
ghost use Rattle.context_runner.specs.Endings.{Brought};

use crate::closed::Closed;
use crate::rounds::run_round;
use ports::{Port, Slots};
use run_journal::Run;
use std::alloc::Global;

/// A way to bring a run with its ports to an ending.
pub trait Runner {
    /// Whether it goes by moves in round order.
    ghost in_rounds: { Bool };

    /// Brings a run that has just its ports to an ending. Where memory is wanting the run and its
    /// ports come back as they were; a way in round order takes none.
    fn bring<P: Port + Send>(
        &self,
        alloc: Global,
        run: Run,
        slots: Slots<P>,
    ) -> Result<Closed<P>, Closed<P>>
        requires fresh { IsFresh run slots }
        requires whole { slots.retired ≡ replicate MOST_PORTS false }
        ensures brought { IfOk result (λ closed. Brought in_rounds run closed.run) }
        ensures bench { IfOk result (λ closed. IsBench slots.told closed.run closed.slots) }
        ensures same_run { IfErr result (λ closed. closed.run ≡ run) }
        ensures same_slots { IfErr result (λ closed. closed.slots ≡ slots) }
        ensures always { in_rounds ≡ true → is_ok result ≡ true };
}

/// Moves in round order, one after another.
#[derive(Drop)]
pub struct InRounds;

impl Runner for InRounds {
    ghost in_rounds = { true };

    fn bring<P: Port + Send>(
        &self,
        alloc: Global,
        run: Run,
        slots: Slots<P>,
    ) -> Result<Closed<P>, Closed<P>> {
        let _ = alloc;
        Ok(run_round(run, slots))
    }
}

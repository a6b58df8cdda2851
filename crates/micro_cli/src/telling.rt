//! Writes what a call came to.

ghost use Rattle.std.specs.Prelude.{◌≡◌};
ghost use Rattle.micro_cli.specs.Written.{IsTold, IsToldOrFree, status_of_silence};

use crate::command::Silence;
use commands::{Reply, Status};
use micro_isa::NoMemory;
use micro_kit::{Sink, write_all};

/// Writes a reply. Its status is told unless a write fails.
#[tactic(auto, using(crate::proofs::Finishing::told_whole, crate::proofs::Finishing::told_in_part))]
pub(crate) fn tell<O: Sink>(output: &mut O, reply: &Reply) -> Status
    ensures { IsTold reply.now.status reply.now.text.items (O.wrote output.old) (O.wrote output.new) (O.faults output.old) (O.faults output.new) result }
{
    match write_all(output, &reply.text) {
        Ok(()) => reply.status,
        Err(_) => Status::WriteFault,
    }
}

/// Writes a report, if there was memory for it.
pub(crate) fn tell_report<O: Sink>(output: &mut O, report: Result<Reply, NoMemory>) -> Status
    ensures { IsToldOrFree report (O.wrote output.old) (O.wrote output.new) (O.faults output.old) (O.faults output.new) result }
{
    match report {
        Ok(reply) => tell(output, &reply),
        Err(NoMemory) => Status::NoMemory,
    }
}

/// The status where nothing is to be written.
pub(crate) fn status_of_silence(why: Silence) -> Status
    ensures { result ≡ status_of_silence why }
{
    match why {
        Silence::ReadFault => Status::ReadFault,
        Silence::NoMemory => Status::NoMemory,
    }
}

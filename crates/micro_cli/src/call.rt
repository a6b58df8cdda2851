ghost use Rattle.std.specs.Prelude.{◌≤◌, false, length, map, string_bytes};
ghost use Rattle.micro_cli.specs.Words.{job_asked};
ghost use Rattle.micro_cli.specs.Calls.{IsFinish, outside};

use crate::command::prepare_job;
use crate::telling::{status_of_silence, tell, tell_report};
use crate::words::job_asked;
use commands::{Prepared, Status, report_in_rounds};
use micro_isa::{MOST_PORTS, NoMemory};
use micro_kit::{Sink, Source};
use ports::Port;
use std::alloc::Global;

/// What a call came to: its status, and the ports that were handed in, in their order, as the call
/// leaves them.
#[derive(Drop)]
pub struct Finish {
    pub status: Status,
    pub ports: Vec<Box<dyn Port + Send>>,
}

/// What the program does with the words of its command line where the contexts have their turns in
/// round order: it reads the input, does what the words ask for with the bundle or image that it
/// spells, and writes the answer or the line of a refusal. Only the run of an image asks the ports
/// or hands them anything. `docs/FORMATS.md` has the texts, and `docs/DEFINITIONS.md` what each
/// status says: `IsFinish`, which `micro` promises too.
pub fn plain_call<I: Source, O: Sink>(
    alloc: Global,
    words: &[String],
    input: &mut I,
    output: &mut O,
    ports: Vec<Box<dyn Port + Send>>,
) -> Finish
    requires few { length ports.items ≤ MOST_PORTS }
    ensures { IsFinish result.status (job_asked false (map string_bytes words.now)) (outside I.left I.faults O.wrote O.faults ⟦<Box<dyn Port + Send> as Port>⟧.tells input.old input.new output.old output.new ports.items result.ports.items) ports.items result.ports.items }
{
    match job_asked(alloc, words, false) {
        Ok(wanted) => match prepare_job(alloc, wanted, input) {
            Ok(Prepared::Reply(reply)) => Finish {
                status: tell(output, &reply),
                ports,
            },
            Ok(Prepared::Run(opening)) => {
                let (report, ports) = report_in_rounds(alloc, opening, ports);
                let status = tell_report(output, report);
                Finish { status, ports }
            }
            Err(why) => Finish {
                status: status_of_silence(why),
                ports,
            },
        },
        Err(NoMemory) => Finish {
            status: Status::NoMemory,
            ports,
        },
    }
}

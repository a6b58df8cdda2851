ghost use Rattle.std.specs.Prelude.{◌≤◌, IfSome, length, map, string_bytes, true};
ghost use Rattle.micro_cli.specs.Words.{job_asked, IsBoundedJob};
ghost use Rattle.micro_cli.specs.Calls.{IsFinish, outside};

use crate::call::Finish;
use crate::command::prepare_job;
use crate::telling::{status_of_silence, tell, tell_report};
use crate::words::{in_threads, job_asked};
use commands::{Job, Prepared, Status, report_in_rounds, report_in_threads};
use micro_isa::{MOST_PORTS, NoMemory};
use micro_kit::{Gate, Sink, Source};
use ports::Port;
use std::alloc::Global;
use std::sync::Wait;
use std::thread::Threads;

/// What the program does with the words of its command line. It is what `plain_call` does, but
/// `--order threads` is served too: each context then has a thread of its own, and goes past the gate.
pub fn micro<R: Threads + Wait + Sync, I: Source, O: Sink, G: Gate + Sync>(
    rt: &R,
    alloc: Global,
    words: &[String],
    input: &mut I,
    output: &mut O,
    ports: Vec<Box<dyn Port + Send>>,
    gate: &G,
) -> Finish
    requires few { length ports.items ≤ MOST_PORTS }
    ensures { IsFinish result.status (job_asked true (map string_bytes words.now)) (outside I.left I.faults O.wrote O.faults ⟦<Box<dyn Port + Send> as Port>⟧.tells input.old input.new output.old output.new ports.items result.ports.items) ports.items result.ports.items }
{
    match job_asked(alloc, words, true) {
        Ok(wanted) => {
            let (status, ports) = call_by_order(rt, gate, alloc, wanted, input, output, ports);
            Finish { status, ports }
        }
        Err(NoMemory) => Finish {
            status: Status::NoMemory,
            ports,
        },
    }
}

/// The same for the job that the words ask for, in the order that they ask for.
fn call_by_order<R: Threads + Wait + Sync, I: Source, O: Sink, P: Port + Send, G: Gate + Sync>(
    rt: &R,
    gate: &G,
    alloc: Global,
    wanted: Option<Job>,
    input: &mut I,
    output: &mut O,
    ports: Vec<P>,
) -> (Status, Vec<P>)
    requires bounded { IfSome wanted IsBoundedJob }
    requires few { length ports.items ≤ MOST_PORTS }
    ensures { IsFinish result.0 wanted (outside I.left I.faults O.wrote O.faults P.tells input.old input.new output.old output.new ports.items result.1.items) ports.items result.1.items }
{
    match prepare_job(alloc, wanted, input) {
        Ok(Prepared::Reply(reply)) => (tell(output, &reply), ports),
        Ok(Prepared::Run(opening)) => {
            if in_threads(wanted) {
                let (report, ports) = report_in_threads(rt, alloc, opening, ports, gate);
                (tell_report(output, report), ports)
            } else {
                let (report, ports) = report_in_rounds(alloc, opening, ports);
                (tell_report(output, report), ports)
            }
        }
        Err(why) => (status_of_silence(why), ports),
    }
}

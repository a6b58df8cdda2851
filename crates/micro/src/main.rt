//! The program: its words, standard input and output and its two ports, handed to the commands.
#![tactic(auto)]

ghost use Rattle.std.specs.Prelude.{◌≡◌, ◌++◌, IfOk, IfErr, OnOk, [], ◌∷◌, drop};
ghost use Rattle.std.specs.Process.{exit_status};
ghost use Rattle.std.specs.Vec.Iter.{into_iter_items};
ghost use Rattle.commands.specs.StatusCodes.{code_of};
ghost use Rattle.commands.specs.declared.status.Status.TheVariants as status;

use micro_cli::{Status, micro};
use micro_kit::{NoGate, StdSink, StdSource};
use ports::{Port, Ramp, Tally};
use std::process::ExitCode;
use std::{env, io};

fn main(rt: HostRuntime) -> ExitCode {
    let words = match program_words(&rt) {
        Ok(words) => words,
        Err(status) => return exit_code(status),
    };

    // Port 0 gives the numbers below 1,000, and port 1 takes every word. They are boxed here, since a
    // function that hands boxes out would hide what they are.
    let mut ports: Vec<Box<dyn Port + Send>> = Vec::new(rt.alloc());
    let Ok(ramp) = Box::new(rt.alloc(), Ramp::of(1000)) else {
        return exit_code(Status::NoMemory);
    };
    if ports.push(ramp).is_err() {
        return exit_code(Status::NoMemory);
    }
    let Ok(tally) = Box::new(rt.alloc(), Tally::new()) else {
        return exit_code(Status::NoMemory);
    };
    if ports.push(tally).is_err() {
        return exit_code(Status::NoMemory);
    }

    let mut input = StdSource::of(rt.stdin());
    let mut output = StdSink::of(rt.stdout());
    let finish = micro(
        &rt,
        rt.alloc(),
        &words,
        &mut input,
        &mut output,
        ports,
        &NoGate,
    );
    exit_code(finish.status)
}

/// What the program ends with.
fn exit_code(status: Status) -> ExitCode
    ensures { exit_status result ≡ code_of status }
{
    ExitCode::from(status.code())
}

/// The words behind the program's name. A word that is no text means nothing, so that no word is
/// given then.
fn program_words(rt: &HostRuntime) -> Result<Vec<String>, Status>
    ensures { IfErr result (λ why. why ≡ status.NoMemory) }
{
    match env::args(rt) {
        Ok(args) => behind_first(rt, args),
        Err(error) => match error.kind() {
            io::ErrorKind::OutOfMemory => Err(Status::NoMemory),
            _ => Ok(Vec::new(rt.alloc())),
        },
    }
}

/// All words but the first.
fn behind_first(rt: &HostRuntime, args: env::Args) -> Result<Vec<String>, Status>
    ensures words { IfOk result (λ words. words.items ≡ drop 1 (into_iter_items args)) }
    ensures wanting { IfErr result (λ why. why ≡ status.NoMemory) }
{
    let mut args = args;
    match args.next() {
        Some(_) => gathered(rt, args),
        None => Ok(Vec::new(rt.alloc())),
    }
}

fn gathered(rt: &HostRuntime, args: env::Args) -> Result<Vec<String>, Status>
    ensures words { IfOk result (λ words. words.items ≡ into_iter_items args) }
    ensures wanting { IfErr result (λ why. why ≡ status.NoMemory) }
{
    let mut words = Vec::new(rt.alloc());
    for word in args {
        keep(&mut words, word)?;
    }
    Ok(words)
}

fn keep(words: &mut Vec<String>, word: String) -> Result<(), Status>
    ensures kept { OnOk result (words.new.items ≡ words.old.items ++ word ∷ []) }
    ensures wanting { IfErr result (λ why. why ≡ status.NoMemory) }
{
    match words.push(word) {
        Ok(()) => Ok(()),
        Err(_) => Err(Status::NoMemory),
    }
}

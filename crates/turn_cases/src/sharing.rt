ghost use Rattle.std.specs.Prelude.{◌≡◌, ◌<◌, ◌≤◌, ◌+◌, [], All, IfOk, IfSome, length, vec_len, vec_capacity};
ghost use Rattle.micro_isa.specs.declared.limits.TheConstants.{MOST_PORTS};
ghost use Rattle.baton.specs.Passes.{IsOfBaton, IsIdle};
ghost use Rattle.context_runner.specs.Sharing.{beginning};

use context_runner::{Closed, ContextPass, Shared};
use image_load::read_image;
use micro_isa::List;
use ports::{Script, Slots};
use run_journal::Run;
use std::alloc::Global;
use std::sync::Wait;
use std::test::Fail;
use world::Entry;

/// More bytes than an image of these tests has.
const LONGEST: usize = 4096;

/// A run of an image for at most 1,000 steps.
pub(crate) fn run_of(alloc: Global, bytes: &[u8]) -> Result<Run, Fail>
    ensures { IfOk result (λ run. run.entries ≡ []) }
{
    if bytes.len() > LONGEST {
        return Err(Fail::from("a long image"));
    }
    let image = read_image(alloc, bytes)?;
    match Run::of(alloc, image, 1000) {
        Ok(run) => Ok(run),
        Err(_) => Err(Fail::from("no memory")),
    }
}

/// Callers share a run with these ports; a pass for each of its contexts.
pub(crate) fn share(
    alloc: Global,
    run: Run,
    ports: Vec<Script>,
) -> Option<(Shared<Script>, List<ContextPass<Script>>)>
    requires none { run.entries ≡ [] }
    requires few { length ports.items ≤ MOST_PORTS }
    ensures of { IfSome result (λ r. All (λ p. IsOfBaton beginning r.0.baton.table.shared p.seat × IsIdle p.seat) r.1) }
{
    let mut run = run;
    let slots = Slots::of(ports);
    run.attach(&slots);
    match Shared::open(alloc, run, slots) {
        Ok(opened) => Some(opened),
        Err(Closed { run, slots }) => {
            drop(run);
            drop(slots.close());
            None
        }
    }
}

/// The passes with one of them back at their end.
pub(crate) fn put_back(
    shared: &Shared<Script>,
    passes: Vec<ContextPass<Script>>,
    pass: ContextPass<Script>,
) -> Vec<ContextPass<Script>>
    requires room { vec_len passes < vec_capacity passes }
    requires of { All (λ p. IsOfBaton beginning shared.now.baton.table.shared p.seat × IsIdle p.seat) passes.items }
    requires pass { IsOfBaton beginning shared.now.baton.table.shared pass.seat × IsIdle pass.seat }
    ensures of { All (λ p. IsOfBaton beginning shared.now.baton.table.shared p.seat × IsIdle p.seat) result.items }
    ensures one_more { vec_len result ≡ vec_len passes + 1 }
    ensures capacity { vec_capacity result ≡ vec_capacity passes }
{
    let mut passes = passes;
    passes.push_reserved(pass);
    passes
}

/// Whether the run that all its passes give back has these entries.
pub(crate) fn closes_with<R: Wait>(
    rt: &R,
    shared: Shared<Script>,
    passes: Vec<ContextPass<Script>>,
    entries: &[Entry],
) -> bool
    requires some { 0 < vec_len passes }
    requires of { All (λ p. IsOfBaton beginning shared.baton.table.shared p.seat × IsIdle p.seat) passes.items }
{
    let Closed { run, slots } = shared.close(rt, List::of(passes));
    drop(slots.close());
    run.entries() == entries
}

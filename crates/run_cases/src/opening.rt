//! The image that is allocated for the bundle of a text, the opening of its run, and its end in round order.

ghost use Rattle.std.specs.Prelude.{◌≡◌, ◌≤◌, [], IfOk, length};
ghost use Rattle.micro_isa.specs.declared.limits.TheConstants.{MOST_PORTS, MOST_STEPS};
ghost use Rattle.micro_isa.specs.Formed.{IsFormedBundle, IsFormedImage};

use allocate::{Allocation, allocate};
use asm_text::read_bundle;
use context_runner::{Closed, run_round};
use micro_isa::{Bundle, Image, MOST_STEPS};
use ports::{Port, Slots};
use run_journal::Run;
use std::alloc::Global;
use std::test::Fail;

/// The bundle that a text of at most 4,096 bytes spells.
fn bundle_of(alloc: Global, text: &[u8]) -> Result<Bundle, Fail>
    ensures { IfOk result IsFormedBundle }
{
    if text.len() > 4096 {
        return Err("a short text".into());
    }
    match read_bundle(alloc, text) {
        Ok(bundle) => Ok(bundle),
        Err(_) => Err("a text without a fault".into()),
    }
}

/// What is allocated for a bundle.
pub(crate) fn allocated(alloc: Global, bundle: &Bundle) -> Result<Allocation, Fail>
    requires { IsFormedBundle bundle.now }
    ensures { IfOk result (λ allocation. IsFormedImage allocation.image) }
{
    match allocate(alloc, bundle) {
        Ok(allocation) => Ok(allocation),
        Err(_) => Err("a bundle that fits".into()),
    }
}

/// The image that is allocated for the bundle of a text.
pub(crate) fn image_of(alloc: Global, text: &[u8]) -> Result<Image, Fail>
    ensures { IfOk result IsFormedImage }
{
    let bundle = bundle_of(alloc, text)?;
    Ok(allocated(alloc, &bundle)?.image)
}

/// The opening of a run of an image.
pub(crate) fn opened_on(alloc: Global, image: Image, bound: u32) -> Result<Run, Fail>
    requires formed { IsFormedImage image }
    requires bound { bound ≤ MOST_STEPS }
    ensures { IfOk result (λ run. run.entries ≡ []) }
{
    match Run::of(alloc, image, bound) {
        Ok(run) => Ok(run),
        Err(_) => Err("ample memory".into()),
    }
}

/// The opening of a run of the bundle of a text.
pub(crate) fn opened(alloc: Global, text: &[u8], bound: u32) -> Result<Run, Fail>
    ensures { IfOk result (λ run. run.entries ≡ []) }
{
    if bound > MOST_STEPS {
        return Err("a bound within the limit".into());
    }
    opened_on(alloc, image_of(alloc, text)?, bound)
}

/// A run at its ending in round order with these ports, and the ports.
pub(crate) fn ended<P: Port>(run: Run, ports: Vec<P>) -> (Run, Vec<P>)
    requires fresh { run.entries ≡ [] }
    requires few { length ports.items ≤ MOST_PORTS }
{
    let mut run = run;
    let slots = Slots::of(ports);
    run.attach(&slots);
    let Closed { run, slots } = run_round(run, slots);
    (run, slots.close())
}

//! What a bundle's image comes to: the opening of its run, or its bytes.

ghost use Rattle.std.specs.Prelude.{◌≤◌, IfOk, Some};
ghost use Rattle.micro_isa.specs.Formed.{IsFormedBundle, IsFormedImage};
ghost use Rattle.commands.specs.Openings.{ComesTo, IsOpening, ToldOfRun};
ghost use Rattle.commands.specs.Tells.{BuildTells, IsWritten};

use crate::image_runs::open_run;
use crate::no_fit::{Allocated, allocation_of};
use crate::prepared::{Opening, Prepared};
use crate::status::Status;
use crate::task::Reply;
use allocate::FlatAllocation;
use image_load::write_image;
use micro_isa::{Bundle, MOST_STEPS, NoMemory};
use std::alloc::Global;

/// The opening of the run of a bundle's image, where the bundle fits its file.
#[tactic(auto, using(crate::proofs::Preparing::short_is_told))]
pub(crate) fn run_bundle(alloc: Global, bundle: &Bundle, steps: u32) -> Result<Prepared, NoMemory>
    requires formed { IsFormedBundle bundle.now }
    requires bound { steps ≤ MOST_STEPS }
    ensures { IfOk result (ComesTo (ToldOfRun steps bundle.now)) }
{
    match allocation_of(alloc, bundle)? {
        Allocated::Fits(allocation) => {
            Ok(Prepared::Run(open_allocated(alloc, allocation, steps)?))
        }
        Allocated::Short(reply) => Ok(Prepared::Reply(reply)),
    }
}

/// The opening of the run of an allocation's image, which is taken out of it.
fn open_allocated(
    alloc: Global,
    allocation: FlatAllocation,
    steps: u32,
) -> Result<Opening, NoMemory>
    requires formed { IsFormedImage allocation.image }
    requires bound { steps ≤ MOST_STEPS }
    ensures { IfOk result (IsOpening steps allocation.image (Some allocation.need)) }
{
    let need = allocation.need();
    open_run(alloc, allocation.into_image(), Some(need), steps)
}

/// The bytes of a bundle's image, where the bundle fits its file.
#[tactic(auto, using(crate::proofs::Telling::build_tells))]
pub(crate) fn build_bundle(alloc: Global, bundle: &Bundle) -> Result<Reply, NoMemory>
    requires { IsFormedBundle bundle.now }
    ensures { IfOk result (λ r. BuildTells r.status bundle.now r.text.items) }
{
    match allocation_of(alloc, bundle)? {
        Allocated::Fits(allocation) => written(alloc, &allocation),
        Allocated::Short(reply) => Ok(reply),
    }
}

/// The bytes of an allocation's image.
fn written(alloc: Global, allocation: &FlatAllocation) -> Result<Reply, NoMemory>
    requires { IsFormedImage allocation.now.image }
    ensures { IfOk result (λ r. IsWritten r.status r.text.items allocation.now.image) }
{
    let text = write_image(alloc, allocation.image())?;
    Ok(Reply {
        status: Status::Done,
        text,
    })
}

//! The allocation of a bundle, or the reply that it does not fit its file.

ghost use Rattle.std.specs.Prelude.{◌≡◌, IfOk};
ghost use Rattle.micro_isa.specs.Formed.{IsFormedBundle};
ghost use Rattle.commands.specs.Allocating.{IsAllocated};
ghost use Rattle.commands.specs.Tells.{no_fit_line};
ghost use Rattle.commands.specs.declared.status.Status.TheVariants as status;

use crate::status::Status;
use crate::task::Reply;
use allocate::{AllocFault, FlatAllocation, allocate_flat};
use micro_isa::{Bundle, NoMemory};
use micro_kit::{put_named, put_number_line};
use std::alloc::Global;

/// What the allocation of a bundle comes to.
#[derive(Drop)]
pub(crate) enum Allocated {
    Fits(FlatAllocation),
    /// The bundle does not fit its file, and this is to be written.
    Short(Reply),
}

/// The one allocation of a bundle where it fits its file.
#[tactic(auto, using(crate::proofs::Telling::does_not_fit))]
pub(crate) fn allocation_of(alloc: Global, bundle: &Bundle) -> Result<Allocated, NoMemory>
    requires { IsFormedBundle bundle.now }
    ensures { IfOk result (IsAllocated bundle.now) }
{
    match allocate_flat(alloc, bundle) {
        Ok(allocation) => Ok(Allocated::Fits(allocation)),
        Err(AllocFault::NoFit { need, file }) => Ok(Allocated::Short(no_fit(alloc, need, file)?)),
        Err(AllocFault::NoMemory) => Err(NoMemory),
    }
}

/// The line that tells both numbers.
pub(crate) fn no_fit(alloc: Global, need: u32, file: u32) -> Result<Reply, NoMemory>
    ensures line { IfOk result (λ r. (r.status ≡ status.NoFit) × (r.text.items ≡ no_fit_line need file)) }
{
    let text = no_fit_line(alloc, need, file)?;
    Ok(Reply {
        status: Status::NoFit,
        text,
    })
}

fn no_fit_line(alloc: Global, need: u32, file: u32) -> Result<Vec<u8>, NoMemory>
    ensures { IfOk result (λ line. line.items ≡ no_fit_line need file) }
{
    let mut line = Vec::new(alloc);
    put_named(&mut line, b"nofit need ", need)?;
    put_number_line(&mut line, b" file ", file)?;
    Ok(line)
}

//! An allocation whose plans are kept flat, for callers that want its image more than these.

ghost use Rattle.std.specs.Prelude.{◌≡◌, IfOk};

use crate::allocation::Allocation;
use budget::Budget;
use micro_isa::{Image, List, NoMemory};
use plan::{FlatPlan, Plan};
use std::alloc::Global;
use std::marker::Model;

/// An allocation, as contracts see it. Its plans become lists of lists only where these are asked for: to
/// make a list for each row and give it back takes as long as to find what the row has.
#[derive(Drop)]
pub struct FlatAllocation {
    pub(crate) image: Image,
    pub(crate) budget: Budget,
    pub(crate) plans: List<FlatPlan>,
    pub(crate) glue: u32,
    pub(crate) need: u32,
}

impl Model for FlatAllocation {
    ghost use Rattle.allocate.specs.declared.allocation.Allocation.{Allocation};

    ghost Value = { Allocation };

    ghost view = { λ a. record { image = a.image; budget = a.budget; plans = a.plans; glue = a.glue; need = a.need } };
}

impl FlatAllocation {
    /// How many registers the contexts need together.
    pub fn need(&self) -> u32
        ensures { result ≡ self.now.need }
    {
        self.need
    }

    /// The image, in which the contexts share the file.
    pub fn image(&self) -> &Image
        ensures { result.now ≡ self.now.image }
    {
        &self.image
    }

    /// The image alone.
    pub fn into_image(self) -> Image
        ensures { result ≡ self.image }
    {
        let FlatAllocation { image, .. } = self;
        image
    }

    /// The same allocation, with a list for each row of its plans.
    pub fn listed(self, alloc: Global) -> Result<Allocation, NoMemory>
        ensures { IfOk result (λ allocation. allocation ≡ self) }
    {
        let FlatAllocation {
            image,
            budget,
            plans,
            glue,
            need,
        } = self;
        let plans = plans_of(alloc, plans.as_slice())?;
        Ok(Allocation {
            image,
            budget,
            plans,
            glue,
            need,
        })
    }
}

/// The same plans as lists.
fn plans_of(alloc: Global, flat: &[FlatPlan]) -> Result<List<Plan>, NoMemory>
    ensures { IfOk result (λ plans. plans ≡ flat.now) }
{
    let mut plans = List::new(alloc);
    for plan in flat {
        let listed = plan.to_plan(alloc)?;
        if plans.push(listed).is_err() {
            return Err(NoMemory);
        }
    }
    Ok(plans)
}

use budget::Budget;
use micro_isa::{Image, List};
use plan::Plan;
use thiserror::Error;

/// An image, with the plans and the budget that it was made of.
#[derive(Debug, Drop, PartialEq)]
pub struct Allocation {
    pub image: Image,
    pub budget: Budget,
    /// One for each context.
    pub plans: List<Plan>,
    /// How many words of the image are not counted.
    pub glue: u32,
    /// How many registers the contexts need together.
    pub need: u32,
}

/// Why there is no allocation.
#[derive(Clone, Copy, Debug, PartialEq, Eq, Error)]
pub enum AllocFault {
    /// The contexts need more registers than the file has.
    #[error("{need} registers are needed, and the file has {file}")]
    NoFit { need: u32, file: u32 },
    #[error("out of memory")]
    NoMemory,
}

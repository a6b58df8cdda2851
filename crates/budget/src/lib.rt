//! How the register file is divided between the contexts: the budget that is preferred among all
//! that fit.
#![tactic(auto)]

mod balancing;
mod choice;
mod sharing;
mod sizes;

pub use balancing::balance;
use micro_isa::List;
use thiserror::Error;

/// Sizes of each kind for which a table has costs: the least one and those just above it.
pub const SIZES: u32 = 8;

/// As many, as the length of an array.
pub const SIZE_COUNT: usize = SIZES as usize;

/// The greatest cost that a table may have in a cell at which a budget can look.
pub const MOST_COST: u32 = 16_777_216;

/// What the registers that a context is given cost it: it needs `private` of its own and `all`
/// together with the shared ones. The cost with `private + i` of its own and `all + j` in all is at
/// `i * SIZES + j`; that with more registers is the cost of the greatest sizes here. No budget looks
/// at a cell with more of its own than in all.
#[derive(Debug, Drop)]
pub struct CostTable {
    pub private: u32,
    pub all: u32,
    pub cells: List<u32>,
}

/// How many registers each context has for itself, and how many all of them share; the glue words
/// that this costs.
#[derive(Debug, Drop, PartialEq)]
pub struct Budget {
    pub private: List<u32>,
    pub shared: u32,
    pub cost: u32,
}

/// Why there is no budget.
#[derive(Clone, Copy, Debug, PartialEq, Eq, Error)]
pub enum BudgetFault {
    /// The contexts need more registers than the file has.
    #[error("{need} registers are needed, and the file has {file}")]
    NoFit { need: u32, file: u32 },
    #[error("out of memory")]
    NoMemory,
}

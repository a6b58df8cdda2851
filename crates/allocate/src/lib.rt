//! The allocation of a bundle: the one image in which its contexts share a register file, where what
//! they need fits it.
#![tactic(auto)]

mod allocation;
mod analysis;
mod cell;
mod dearer;
mod fit;
mod fits;
mod flat;
mod kept;
mod moving;
mod planning;
mod priced;
mod region_costs;
mod row_costs;
mod sizing;
mod table;

pub use allocation::{AllocFault, Allocation};
pub use fit::{allocate, allocate_flat};
pub use flat::FlatAllocation;

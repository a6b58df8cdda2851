//! Moves between registers that happen at once, as a list of steps that are done one after another.
#![tactic(auto)]

mod both;
mod counting;
mod register_set;
mod remaining;
mod source_table;
mod step;
mod steps;
mod taking;

pub use both::Costs;
pub use counting::{cost, costs};
pub use step::Step;
pub use steps::sequence;

//! Which registers are live before and after each instruction of a program.
#![tactic(auto)]

mod live;
mod order;
mod set;
mod surviving;
mod sweep;

pub use live::Live;
pub use set::{has, register_set, take_least};
pub use surviving::{crossing, survivors, values_after};

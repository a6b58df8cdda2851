//! How many registers a program needs: the boundaries where its context may lose the engine, the
//! regions between them, and the pressures at both.
#![tactic(auto)]

mod boundary;
mod flood;
mod joint_need;
mod pressure_of;
mod region;
mod ring;
mod size;

pub use boundary::boundaries;
pub use joint_need::need;
pub use pressure_of::{Pressure, pressures};
pub use region::Regions;

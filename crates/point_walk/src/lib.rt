//! The walk: a plan that keeps each register where it was, as long as it can.
#![tactic(auto)]

mod giving;
mod keeping;
mod row;
mod seats;
mod stage;
mod walking;

pub use walking::{Route, walk, walk_route};

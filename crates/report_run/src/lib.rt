//! What is told of a run as text.
#![tactic(auto)]

mod image;
mod lines;
mod report;
mod soak;

pub use report::{Outcome, print_report};
pub use soak::print_soak;

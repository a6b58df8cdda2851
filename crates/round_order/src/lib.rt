//! Runs in round order: the opening's ports are unplugged, and then each context has its turn.
#![tactic(auto)]

mod opening;
mod order;
mod runs;

pub use order::next_in_round;
pub use runs::{SourceRounds, run_source};

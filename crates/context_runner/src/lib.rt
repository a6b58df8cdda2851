//! Runs with their ports, brought to an ending: in round order, by moves one after another, or by
//! callers that share a run, each with a pass of its own.
#![tactic(auto)]

mod beginning;
mod bench;
mod closed;
mod rounds;
mod runner;
mod shared;
mod taking;
mod threads;

pub use beginning::Beginning;
pub use bench::Bench;
pub use closed::Closed;
pub use rounds::run_round;
pub use runner::{InRounds, Runner};
pub use shared::{ContextPass, Shared, TryAnswer};
pub use threads::{run_in_threads, run_threads};

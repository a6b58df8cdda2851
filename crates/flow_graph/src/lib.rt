//! Which instructions follow each instruction of a program, and which ones a path from the first
//! instruction reaches.
#![tactic(auto)]

mod flood;
mod flow;

pub use flow::Flow;

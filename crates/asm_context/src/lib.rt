//! Reads the lines of one context: labels, instructions, and registers in the order of their first appearance.
#![tactic(auto)]

mod fault;
mod form;
mod outline;
mod program;
mod reader;
mod said;
mod spelt;

pub use form::has_instruction;
pub use reader::read_context;
pub use spelt::Spelt;

//! Reads the lines of a bundle's text before its first context: sizes, channels and initial words.
#![tactic(auto)]

mod fault;
mod form;
mod header;
mod reader;

pub use header::Header;
pub use reader::read_header;

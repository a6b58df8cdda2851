//! The canonical text of a bundle.
#![tactic(auto)]

mod bundle;
mod context;
mod header;
mod instruction;
mod names;
mod row;
mod typed;

pub use bundle::print_bundle;

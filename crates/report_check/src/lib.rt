//! What the contexts of a bundle need, as text.
#![tactic(auto)]

mod facts;
mod text;

pub use text::print_check;

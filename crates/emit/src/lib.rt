//! From plans and a budget to the words of an image, and how many of them are glue.
#![tactic(auto)]

mod after;
mod by_size;
mod counted;
mod edge_costs;
mod edges;
mod image;
mod jumps;
mod layout;
mod rows;
mod sizes;
mod starts;
mod still;
mod words;

pub use by_size::glues;
pub use image::{emit, emit_counted};
pub use jumps::jump_glues;
pub use sizes::{flat_glue, glue};

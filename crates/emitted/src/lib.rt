//! The image that plans and a budget make of a bundle, and the law that it does what the bundle does.
#![tactic(auto)]

mod law;

pub use law::emitted_law;

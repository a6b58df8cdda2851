//! The engine: it runs the words of an image, each of which does what its instruction says on the
//! one register file.
#![tactic(auto)]

mod engine;

pub use engine::Engine;

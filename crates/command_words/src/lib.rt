//! What the words of the command line mean: a command with its number, the bound of its steps and
//! its order of turns.
#![tactic(auto)]

mod meaning;
mod reading;
mod split;

pub use meaning::{Meaning, Turns, Verb};
pub use reading::read_words;

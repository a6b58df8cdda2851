//! Tests of turns on a shared value.
#![tactic(auto)]

mod log;

pub use log::{Log, add};

#[cfg(test)]
mod baton_tests;
#[cfg(test)]
mod images;
#[cfg(test)]
mod shared_tests;
#[cfg(test)]
mod sharing;

//! Tests of runs in thread order, at a gate where the contexts meet.
#![tactic(auto)]

#[cfg(test)]
mod meeting;
#[cfg(test)]
mod reports;
#[cfg(test)]
mod runs;

//! Ports by themselves, and in their slots.
#![tactic(auto)]

#[cfg(test)]
mod objects;

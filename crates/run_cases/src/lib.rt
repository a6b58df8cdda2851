//! Runs of small bundles with their ports: turn by turn, followed from their journals, and whole in
//! round order; and the bundles that numbers generate.
#![tactic(auto)]

#[cfg(test)]
mod generated;
#[cfg(test)]
mod opening;
#[cfg(test)]
mod replays;
#[cfg(test)]
mod runs;
#[cfg(test)]
mod turns;

//! Runs of small bundles on both interpreters, the engine over the allocated image: they must agree
//! after each event and show what a table says. Images as bytes; and an image built by hand with
//! words that are not counted.
#![tactic(auto)]

#[cfg(test)]
mod cases;
#[cfg(test)]
mod image_bytes;
#[cfg(test)]
mod instructions;
#[cfg(test)]
mod pair;
#[cfg(test)]
mod schedules;
#[cfg(test)]
mod sharing;
#[cfg(test)]
mod uncounted;

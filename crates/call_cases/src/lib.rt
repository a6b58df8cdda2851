//! Calls of the whole program: what each command answers; where each read and each write fails in turn,
//! over images that are cut or changed, over journals, and with ports of our own; and which of several
//! causes is told.
#![tactic(auto)]

#[cfg(test)]
mod answers;
#[cfg(test)]
mod calls;
#[cfg(test)]
mod images;
#[cfg(test)]
mod journals;
#[cfg(test)]
mod order;
#[cfg(test)]
mod port_runs;
#[cfg(test)]
mod streams;

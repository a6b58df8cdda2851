//! What is read and printed, on known texts: bundles, their canonical texts, reports of runs, words of the
//! command line; bytes in pieces; the room of lists.
#![tactic(auto)]

#[cfg(test)]
mod canonical;
#[cfg(test)]
mod lists;
#[cfg(test)]
mod reports;
#[cfg(test)]
mod streams;
#[cfg(test)]
mod texts;
#[cfg(test)]
mod words;

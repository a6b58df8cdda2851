//! Plans of known programs: the walk's rows, first fits, each fault of a plan, the words and the glue of
//! plans; budgets of known tables, and allocations of small bundles; what the analyses and `check` tell of
//! known programs; moves at once as steps.
#![tactic(auto)]

#[cfg(test)]
mod allocations;
#[cfg(test)]
mod budgets;
#[cfg(test)]
mod bundles;
#[cfg(test)]
mod emission;
#[cfg(test)]
mod faults;
#[cfg(test)]
mod fits;
#[cfg(test)]
mod glue;
#[cfg(test)]
mod moves;
#[cfg(test)]
mod pressures;
#[cfg(test)]
mod rows;
#[cfg(test)]
mod settled;
#[cfg(test)]
mod walks;

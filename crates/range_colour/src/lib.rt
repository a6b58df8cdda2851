//! Plans by first fit: over a whole program, or over each of its regions.
#![tactic(auto)]

mod colour;
mod fit;
mod group;
mod region;
mod rows;
mod whole;

pub use fit::Fit;
pub use region::{all_fit, by_region, first_region_fits, region_fits, region_plan};
pub use whole::{first_fit, fit_plan, whole_fit};

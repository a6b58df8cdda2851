//! Cuts a text into numbered lines of words, reads numbers, keeps tables of names, and names the faults
//! that a bundle's text can have.
#![tactic(auto)]

mod cutting;
mod fault;
mod lines;
mod number;
mod table;

pub use cutting::{Head, LineWords, Row};
pub use fault::{BundleFault, BundleKind, kind_text};
pub use lines::Lines;
pub use number::{number_or, word_number};
pub use table::{
    declare, find, has_name, is_misnamed, is_stray, knows, name_of, names_of, place_of,
};

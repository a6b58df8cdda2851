//! The text of a journal: the lines of its entries, printed and read, and where a journal begins in a
//! text that has a bundle before it.
#![tactic(auto)]

mod entry;
mod front;
mod journal;
mod lines;
mod words;

pub use entry::{put_entry, put_entry_words, trap_word};
pub use front::first_entry;
pub use journal::{JournalFault, first_stray, read_journal, split_journal};
pub use words::read_entry;

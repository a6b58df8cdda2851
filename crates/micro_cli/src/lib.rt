//! The commands: from the words and the input to the output and the status.
#![tactic(auto)]

mod bundle_replies;
mod call;
mod command;
mod image_replies;
mod journal_replies;
mod lines;
mod telling;
mod thread_call;
mod words;

pub use call::{Finish, plain_call};
pub use commands::Status;
pub use thread_call::micro;

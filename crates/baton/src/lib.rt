//! One value and many passes: who has taken the value holds it until it is put back, each pass knows a
//! beginning of its history, and nobody waits but for the end.
#![tactic(auto)]

mod baton;
mod closing;
mod law;
mod opening;
mod pass;
mod storied;
mod view;
mod worker;

pub use baton::Baton;
pub use law::{Law, Opening};
pub use pass::{Busy, Held, Note, Pass};
pub use storied::Storied;
pub use view::View;
pub use worker::{Worker, work_all};

//! What the interpreter of sources and the engine share: the state of a run but its registers and
//! places, which events may happen, and one segment over registers of any kind.
#![tactic(auto)]

mod core_state;
mod effects;
mod interpreter;
mod legality;
mod one_segment;
mod registers;
mod stops;
mod stretch;

pub use core_state::RunCore;
pub use interpreter::Interpreter;
pub use one_segment::segment;
pub use registers::{CodeLine, RegisterList, Registers};
pub use stretch::ContextPlace;

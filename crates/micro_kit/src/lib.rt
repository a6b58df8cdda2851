//! Where bytes come from and where they go, with counts of faults, the writer of texts, numbers as text,
//! and the gate of threads.
#![tactic(auto)]

mod gate;
mod memory;
mod number;
mod standard;
mod stream;
mod text;
mod whole;

pub use gate::{Gate, NoGate};
pub use memory::{MemSink, MemSource};
pub use number::{put_number, read_number};
pub use standard::{StdSink, StdSource};
pub use stream::{Got, Put, Sink, Source};
pub use text::{put_bytes, put_count, put_count_line, put_named, put_number_line, put_numbers};
pub use whole::{ReadFault, WriteFault, read_all, write_all};

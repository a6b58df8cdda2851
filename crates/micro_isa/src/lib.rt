//! The instruction set of the microengine, its programs and its images, as every crate above sees them.
#![tactic(auto)]

mod arithmetic;
mod codec;
mod fields;
mod formed_bundle;
mod formed_image;
mod formed_program;
mod formed_setting;
mod image;
mod instr;
mod limits;
mod list;
mod name;
mod named;
mod numbers;
mod operands;
mod operation;
mod program;

pub use arithmetic::{AluOp, DivOp, Test, alu, divide, test_holds};
pub use codec::{WordFault, decode_word, encode_word};
pub use formed_image::{are_apart, goes_to_counted, is_glue, writes_within};
pub use formed_setting::{
    fits_channels, gives_words, initial_count, is_ring_size, port_of, takes_words, uses_port,
};
pub use image::{Code, Image, PReg, Range, Word};
pub use instr::{Instr, Next, Reads, reads_of, successors, switches, writes};
pub use limits::{
    LONGEST_BUNDLE, LONGEST_IMAGE, LONGEST_JOURNAL, LONGEST_NAME, LONGEST_TEXT, MOST_CHANNELS,
    MOST_CONTEXTS, MOST_FILE, MOST_INITIAL_WORDS, MOST_INSTRUCTIONS, MOST_MEMORY, MOST_PORTS,
    MOST_REGISTERS, MOST_RING, MOST_STEPS, MOST_WORDS,
};
pub use list::{Copyable, List, NoMemory};
pub use name::{Name, is_name};
pub use numbers::{has_registers_below, has_target_below, never_falls};
pub use operands::{Extra, Operands, instr_of, operands_of, operation_of};
pub use operation::{
    OPERATIONS, Operation, Role, Row, ends, operation_coded, operation_named, roles_of, row_of,
};
pub use program::{Bundle, Channel, Label, Line, PortUse, Program, Setting, VReg};

//! Reads the text of a bundle.
//!
//!     file 4            # registers of the file, exactly once
//!     memory 16         # words of memory, at most once
//!     input rx port 0 8 # channels: inner NAME N, input NAME [port P N], output NAME [port P]
//!     words rx 1 2 3    # initial words of an input
//!     output tx
//!     context copy
//!     top: recv x, rx
//!       send tx, x
//!       jmp top
//!
//! Where a text spells no bundle, the answer is its first fault: that on the least line, and of those on one
//! line the first kind.
#![tactic(auto)]

mod context;
mod reader;

pub use reader::read_bundle;

//! Images as bytes, both ways. The reader takes any bytes and names their first fault.
#![tactic(auto)]

mod channels;
mod contexts;
mod fault;
mod field;
mod header;
mod reading;
mod second_pass;
mod writing;

pub use fault::{ImageFault, ImageKind, kind_text};
pub use reading::read_image;
pub use writing::write_image;

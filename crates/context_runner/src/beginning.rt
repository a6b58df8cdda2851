use micro_isa::Image;
use ports::Told;
use std::collections::LinkedList;

/// What a shared run began with, for proofs alone: no value of it is made.
pub struct Beginning {
    pub image: Image,
    pub bound: u32,
    /// What each port told as it was handed in.
    pub start: LinkedList<Told>,
}

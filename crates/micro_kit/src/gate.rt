use std::sync::Wait;

/// What the turns of contexts on threads go past: a caller may look at them, or hold them up.
pub trait Gate {
    /// A worker is about to make the first turn of this context. It holds nothing.
    fn arrive<R: Wait>(&self, rt: &R, context: u32);

    /// A segment of this context ran. Its worker holds nothing.
    fn made(&self, context: u32);
}

/// A gate that holds nobody up.
#[derive(Clone, Copy, Debug, PartialEq, Eq)]
pub struct NoGate;

impl Gate for NoGate {
    fn arrive<R: Wait>(&self, _rt: &R, _context: u32) {}

    fn made(&self, _context: u32) {}
}

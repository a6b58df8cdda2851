ghost use Rattle.std.specs.Prelude.{ℕ, ◌≤◌, ◌<◌, List, Option, length};
ghost use Rattle.micro_kit.specs.Streams.{Reads, Writes};

/// What a read gave: the next bytes, in front of the buffer; that no byte is left; or a fault.
#[derive(Clone, Copy, Debug, PartialEq, Eq)]
pub enum Got {
    Bytes(usize),
    End,
    Failed,
}

/// What a write did: it took the first bytes; or it failed and took none.
#[derive(Clone, Copy, Debug, PartialEq, Eq)]
pub enum Put {
    Took(usize),
    Failed,
}

/// Where bytes come from.
pub trait Source {
    /// The bytes still to come, where the source tells them.
    ghost left: { Self → Option (List ℕ) };

    /// How often a read has failed.
    ghost faults: { Self → ℕ };

    /// Reads some of the next bytes into the front of `into`.
    fn read(&mut self, into: &mut [u8]) -> Got
        requires { 0 < length into.old }
        ensures read { Reads result (left self.old) (left self.new) (faults self.old) (faults self.new) into.new }
        ensures later { faults self.old ≤ faults self.new };
}

/// Where bytes go.
pub trait Sink {
    /// The bytes taken so far, where the sink tells them.
    ghost wrote: { Self → Option (List ℕ) };

    /// How often a write has failed.
    ghost faults: { Self → ℕ };

    /// Takes some of the first bytes of `from`.
    fn write(&mut self, from: &[u8]) -> Put
        requires { 0 < length from.now }
        ensures write { Writes result (wrote self.old) (wrote self.new) (faults self.old) (faults self.new) from.now }
        ensures later { faults self.old ≤ faults self.new };
}

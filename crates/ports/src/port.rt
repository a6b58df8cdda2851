ghost use Rattle.ports.specs.declared.told.Told.{Told};
ghost use Rattle.ports.specs.Tales.{Polls, Puts};

/// What a poll answers.
#[derive(Clone, Copy, Debug, PartialEq, Eq)]
pub enum Polled {
    /// The next word of the port.
    Word(u32),
    /// No word now; one may come later.
    Empty,
    /// No word is left, and none will come.
    Closed,
    /// A fault of the outside.
    Failed,
}

/// What a put answers.
#[derive(Clone, Copy, Debug, PartialEq, Eq)]
pub enum Given {
    /// The word was taken.
    Took,
    /// A fault of the outside; the word was not taken.
    Failed,
}

/// What stands behind a channel: it gives words to an input, or takes those of an output. Proofs see
/// what it tells and counts.
pub trait Port: Drop {
    ghost tells: { Self → Told };

    /// Asks for a word. The count of polls rises, that of faults exactly where this failed.
    fn poll(&mut self) -> Polled
        ensures { Polls (tells self.old) result (tells self.new) };

    /// Hands a word over. The count of faults rises exactly where this failed.
    fn put(&mut self, word: u32) -> Given
        ensures { Puts (tells self.old) word result (tells self.new) };
}

impl Port for Box<dyn Port + Send> {
    ghost tells = { λ b. (Port-box b).tells b.value };

    fn poll(&mut self) -> Polled {
        (**self).poll()
    }

    fn put(&mut self, word: u32) -> Given {
        (**self).put(word)
    }
}

ghost use Rattle.std.specs.Prelude.{◌≡◌};
ghost use Rattle.commands.specs.StatusCodes.{code_of};

/// What a command came to. `docs/FORMATS.md` says what each writes.
#[derive(Clone, Copy, Debug, PartialEq, Eq)]
pub enum Status {
    /// The whole output was written.
    Done,
    /// The words mean nothing.
    Usage,
    BadBundle,
    NoFit,
    BadImage,
    /// The run finished, and an instruction of a context trapped.
    Trapped,
    /// No context can go on.
    Stuck,
    /// The steps came to their bound.
    Bound,
    ReadFault,
    WriteFault,
    NoMemory,
    TooLong,
    BadJournal,
    /// The ports gave nothing for too long.
    Idle,
}

impl Status {
    /// The exit status of the program.
    pub fn code(&self) -> u8
        ensures { result ≡ code_of self.now }
    {
        match self {
            Status::Done => 0,
            Status::Usage => 1,
            Status::BadBundle => 2,
            Status::NoFit => 3,
            Status::BadImage => 4,
            Status::Trapped => 5,
            Status::Stuck => 6,
            Status::Bound => 7,
            Status::ReadFault => 8,
            Status::WriteFault => 9,
            Status::NoMemory => 10,
            Status::TooLong => 11,
            Status::BadJournal => 12,
            Status::Idle => 13,
        }
    }
}

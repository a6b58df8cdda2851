/// A command of the program.
#[derive(Clone, Copy, Debug, PartialEq, Eq)]
pub enum Verb {
    Check,
    Fmt,
    Build,
    Run,
    Exec,
    Source,
    Replay,
    Soak,
}

/// Which context has the next turn of a run.
#[derive(Clone, Copy, Debug, PartialEq, Eq)]
pub enum Turns {
    /// The next one that can go on, in cyclic order.
    Round,
    /// Each context takes turns in a thread of its own.
    Threads,
}

/// What a command line asks for. The number is there exactly at `soak`; where an option was not
/// given its default stands.
#[derive(Clone, Copy, Debug, PartialEq, Eq)]
pub struct Meaning {
    pub verb: Verb,
    pub number: Option<u32>,
    pub steps: u32,
    pub turns: Turns,
}

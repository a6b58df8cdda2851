use crate::status::Status;

/// What the words of a call ask for.
#[derive(Clone, Copy, Debug, PartialEq, Eq)]
pub enum Job {
    /// An input is read, and something is done with it.
    OfInput(Task),
    /// The bundle that a number generates is built and run. Nothing is read.
    Soak { number: u32 },
}

/// What is to be done with an input: each kind of task reads its own kind of input.
#[derive(Clone, Copy, Debug, PartialEq, Eq)]
pub enum Task {
    /// The input is the text of a bundle.
    OfBundle(BundleTask),
    /// The input is the bytes of an image.
    OfImage(ImageTask),
    /// The input is the text of a bundle, and behind a line `journal` the text of a journal.
    OfJournal(JournalTask),
}

/// In which order the contexts of an image run.
#[derive(Clone, Copy, Debug, PartialEq, Eq)]
pub enum Order {
    /// One after another, each behind the one that ran last.
    Round,
    /// Each on a thread of its own, in any order.
    Threads,
}

/// What is to be done with a bundle.
#[derive(Clone, Copy, Debug, PartialEq, Eq)]
pub enum BundleTask {
    /// Its image runs, for at most this many steps.
    Run { steps: u32, order: Order },
    /// Its programs run over registers of their own, in round order, for at most this many steps.
    Source { steps: u32 },
    /// The bytes of its image are told.
    Build,
    /// Its canonical text is told.
    Format,
    /// What its contexts need is told.
    Check,
}

/// What is to be done with an image.
#[derive(Clone, Copy, Debug, PartialEq, Eq)]
pub enum ImageTask {
    /// It runs, for at most this many steps.
    Exec { steps: u32, order: Order },
}

/// What is to be done with a bundle and a journal.
#[derive(Clone, Copy, Debug, PartialEq, Eq)]
pub enum JournalTask {
    /// The bundle's image follows the journal, for at most this many steps.
    Replay { steps: u32 },
}

/// What is to be written, and the status once it is.
#[derive(Debug, Drop)]
pub struct Reply {
    pub status: Status,
    pub text: Vec<u8>,
}

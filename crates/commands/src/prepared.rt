use crate::task::Reply;
use run_journal::Run;

/// What a task comes to before a port is asked or handed anything.
#[derive(Drop)]
pub enum Prepared {
    /// This is to be written.
    Reply(Reply),
    /// This run is to be brought to an ending, and its report to be written.
    Run(Opening),
}

/// The opening of an image's run, and the need that its report tells.
#[derive(Drop)]
pub struct Opening {
    pub run: Run,
    pub need: Option<u32>,
}

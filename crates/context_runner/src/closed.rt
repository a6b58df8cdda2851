use ports::{Port, Slots};
use run_journal::Run;

/// A run and its ports, apart again.
pub struct Closed<P: Port> {
    pub run: Run,
    pub slots: Slots<P>,
}

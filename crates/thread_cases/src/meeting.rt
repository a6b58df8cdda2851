use micro_kit::Gate;
use std::sync::Wait;
use std::sync::atomic::{AtomicU64, Ordering};

/// So often a context looks for the others before it goes on without them.
const MOST_LOOKS: u32 = 500_000_000;

/// Each context that arrives notes its mark and looks for those of the others. The segments of each
/// are counted.
#[derive(Drop)]
pub(crate) struct Meeting {
    marks: u64,
    arrived: AtomicU64,
    met: AtomicU64,
    made: [AtomicU64; 4],
}

impl Meeting {
    /// For the contexts that have these marks: the bit of each.
    pub(crate) fn of(marks: u64) -> Meeting {
        Meeting {
            marks,
            arrived: AtomicU64::new(0),
            met: AtomicU64::new(0),
            made: [
                AtomicU64::new(0),
                AtomicU64::new(0),
                AtomicU64::new(0),
                AtomicU64::new(0),
            ],
        }
    }

    /// Whether each context met the others, and the first so many made this many segments each.
    pub(crate) fn is_met(&self, contexts: usize, segments: u64) -> bool {
        self.met.load(Ordering::SeqCst) == self.marks
            && self
                .made
                .iter()
                .take(contexts)
                .all(|made| made.load(Ordering::SeqCst) == segments)
    }

    fn all_arrived(&self) -> bool {
        for _ in 0..MOST_LOOKS {
            if self.arrived.load(Ordering::SeqCst) == self.marks {
                return true;
            }
        }
        false
    }
}

impl Gate for Meeting {
    fn arrive<R: Wait>(&self, _rt: &R, context: u32) {
        let mark = 1u64.wrapping_shl(context);
        self.arrived.fetch_or(mark, Ordering::SeqCst);
        if self.all_arrived() {
            self.met.fetch_or(mark, Ordering::SeqCst);
        }
    }

    fn made(&self, context: u32) {
        if let Some(made) = self.made.get(context as usize) {
            made.fetch_add(1, Ordering::SeqCst);
        }
    }
}

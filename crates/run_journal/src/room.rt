use micro_isa::{MOST_CHANNELS, MOST_PORTS, MOST_RING};

/// Entries that a run can have beside two for each step: the segment that the bound cuts, a feed for each word
/// that the rings have room for, and an unplugging for each port.
pub(crate) const ENTRIES_BESIDE: usize = 1 + MOST_CHANNELS * MOST_RING as usize + MOST_PORTS;

use std::collections::LinkedList;

/// What a port tells and counts, for contracts alone: no value of it is made. A list that a port does
/// not tell is `None`. A count that is said to rise stands still at its type's end.
pub struct Told {
    /// The words that it will still give.
    pub left: Option<LinkedList<u32>>,
    /// The words that it took.
    pub taken: Option<LinkedList<u32>>,
    /// How often a poll or a put failed.
    pub faults: u64,
    pub polls: u64,
    /// How often a poll answered that it is closed.
    pub closings: u64,
}

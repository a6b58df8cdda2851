use std::collections::LinkedList;

/// What a pass or a note knows, for proofs alone: no value of it is made.
pub struct View<E, O> {
    /// That of its pass, from 1 to the callers; 0 for a note.
    pub number: u32,
    /// How many passes the baton was opened with.
    pub callers: u32,
    /// Whether it has the value.
    pub holding: bool,
    /// All that it has seen of the history, from its beginning.
    pub seen: LinkedList<E>,
    /// The entries that it added, each with its place in the history.
    pub mine: LinkedList<(u64, E)>,
    /// The shorter one of two histories that a join brought together.
    pub also: LinkedList<E>,
    /// That of the value; none where the view was joined to another.
    pub origin: Option<O>,
    /// What its takes read of who holds the value.
    pub reads: LinkedList<u64>,
    /// What its looks read of the length.
    pub looks: LinkedList<u64>,
    /// It has put an empty slot back for good.
    pub ended: bool,
}

ghost use Rattle.std.specs.Prelude.{◌≡◌, ◌<◌, ◌≤◌, [], false};
ghost use Rattle.std.specs.Borrow.{sem};
ghost use Rattle.baton.specs.Lending.{lends_value};

use crate::storied::Storied;
use crate::view::View;
use atomic_table::Seat;

/// A caller's right to take the value, and what it knows of the history.
pub struct Pass<T: Storied> {
    pub(crate) seat: Seat<Option<T>, View<T::Entry, T::Origin>>,
    pub(crate) number: u32,
    ghost numbered: { (number ≡ seat.me.0.number) × (0 < number) × (number ≤ seat.me.0.callers) × (seat.me.0.callers ≤ 16) },
    ghost going: { seat.me.0.ended ≡ false },
}

/// What a pass had seen, for another one to learn.
pub struct Note<T: Storied> {
    pub(crate) seat: Seat<Option<T>, View<T::Entry, T::Origin>>,
    ghost idle: { (seat.me.1 ≡ []) × (seat.me.0.holding ≡ false) × (seat.me.0.mine ≡ []) },
}

/// The value, in the hands of the pass that took it. It must be put back.
pub struct Held<T> {
    pub(crate) value: T,
}

/// Another pass held the value.
#[derive(Clone, Copy, Debug, PartialEq, Eq)]
pub struct Busy {
    pub holder: u32,
}

impl<T: Storied> Pass<T> {
    /// From 1 to the callers.
    pub fn number(&self) -> u32
        ensures number { result ≡ self.now.seat.me.0.number }
        ensures small { (0 < result) × (result ≤ self.now.seat.me.0.callers) }
    {
        self.number
    }
}

impl<T> Held<T> {
    /// The value.
    pub fn value(&self) -> &T
        ensures { result.now ≡ self.now.value }
    {
        &self.value
    }

    /// The value, for writing.
    pub fn value_mut(&mut self) -> &mut T
        ensures* writes_back { sem 𝓛 (lends_value T.row self.entry result) }
        ensures value { result.now ≡ self.old.value }
    {
        &mut self.value
    }
}

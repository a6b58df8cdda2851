ghost use Rattle.std.specs.Prelude.{◌≡◌, ◌+◌, ◌<◌, ◌≤◌, ◌++◌, [], ◌∷◌, Some, None, IfOk, IfErr, IsOk, length};
ghost use mathlib.Core.List.{IsPrefix};
ghost use Rattle.baton.specs.Views.{Stands, Apart, taken_view, busy_view, posted_view, looked_view, freed_view, dealt_of};
ghost use Rattle.baton.specs.Passes.{IsOfBaton, IsIdle, IsHolding, Learnt};

use crate::law::{Dealing, Free, Law, Learning, Look, Noting, Opening, Post, Recall, Take};
use crate::pass::{Busy, Held, Note, Pass};
use crate::storied::Storied;
use crate::view::View;
use atomic_table::{Seat, Table};
use micro_isa::NoMemory;
use std::alloc::Global;

/// One value that many passes take in turn, in one slot of a table: nobody waits for another.
pub struct Baton<T: Storied> {
    pub(crate) table: Table<Option<T>, View<T::Entry, T::Origin>, Opening<T>, Law<T>, Global>,
    ghost shape: { (table.shared.table_id.words ≡ 2) × (table.shared.table_id.slots ≡ 1) },
}

impl<T: Storied> Baton<T> {
    /// Takes the value, where no other pass holds it. Then the pass has seen its whole history, which
    /// begins with all that it had seen and has its own entries at their places. Else it is told who
    /// held it when this call looked.
    pub fn try_take(&self, pass: &mut Pass<T>) -> Result<Held<T>, Busy>
        requires of { IsOfBaton T.origin self.now.table.shared pass.old.seat }
        requires idle { IsIdle pass.old.seat }
        ensures of { IsOfBaton T.origin self.now.table.shared pass.new.seat }
        ensures ok { IfOk result (λ h. IsPrefix pass.old.seat.me.0.seen (T.history h.value) × (pass.new.seat.me.0 ≡ taken_view pass.old.seat.me.0 (T.history h.value)) × (pass.new.seat.me.1 ≡ (0, None) ∷ [])) }
        ensures origin { IfOk result (λ h. T.origin h.value ≡ T.origin self.now.table.shared.key.value.value) }
        ensures stands { IfOk result (λ h. Stands pass.old.seat.me.0.mine (T.history h.value)) }
        ensures busy { IfErr result (λ b. (pass.new.seat.me.0 ≡ busy_view pass.old.seat.me.0 b.holder) × (pass.new.seat.me.1 ≡ [])) }
        ensures holder { IfErr result (λ b. (0 < b.holder) × (b.holder ≤ self.now.table.shared.key.callers)) }
    {
        let number = u64::from(pass.number);
        let found = self
            .table
            .shared
            .compare_exchange::<Take<T>>(&mut pass.seat, 0, 0, number);
        if found != 0 {
            return Err(Busy {
                holder: found as u32,
            });
        }
        let Some(value) = self.table.shared.exchange(&mut pass.seat, 0, None) else {
            unreachable!()
        };
        Ok(Held { value })
    }

    /// Gives the value back, with what happened to it meanwhile: that is the pass's own.
    pub fn put(&self, pass: &mut Pass<T>, held: Held<T>)
        requires of { IsOfBaton T.origin self.now.table.shared pass.old.seat }
        requires taken { IsHolding pass.old.seat }
        requires story { IsPrefix pass.old.seat.me.0.seen (T.history held.value) }
        requires origin { T.origin held.value ≡ T.origin self.now.table.shared.key.value.value }
        ensures of { IsOfBaton T.origin self.now.table.shared pass.new.seat }
        ensures put { pass.new.seat.me ≡ (freed_view (posted_view pass.old.seat.me.0 (T.history held.value)), []) }
    {
        let Held { value } = held;
        let length = value.length();
        let shared = &self.table.shared;
        let was = shared.exchange(&mut pass.seat, 0, Some(value));
        let None = was else { unreachable!() };
        shared.swap::<Post<T>>(&mut pass.seat, 1, length);
        shared.swap::<Free<T>>(&mut pass.seat, 0, 0);
    }

    /// How long the history was when this call looked: no less than what the pass had seen.
    pub fn length(&self, pass: &mut Pass<T>) -> u64
        requires of { IsOfBaton T.origin self.now.table.shared pass.old.seat }
        ensures of { IsOfBaton T.origin self.now.table.shared pass.new.seat }
        ensures looked { pass.new.seat.me ≡ (looked_view pass.old.seat.me.0 result, pass.old.seat.me.1) }
        ensures longer { length pass.old.seat.me.0.seen ≤ result }
        ensures idle { IsIdle pass.old.seat → IsIdle pass.new.seat }
    {
        self.table.shared.load::<Look<T>>(&mut pass.seat, 1)
    }

    /// A note of what the pass has seen. It takes no memory, so it is always there.
    pub fn note(&self, pass: &mut Pass<T>) -> Result<Note<T>, NoMemory>
        requires of { IsOfBaton T.origin self.now.table.shared pass.old.seat }
        ensures of { IsOfBaton T.origin self.now.table.shared pass.new.seat }
        ensures there { IsOk result }
        ensures note { IfOk result (λ n. IsOfBaton T.origin self.now.table.shared n.seat × (n.seat.me.0.seen ≡ pass.old.seat.me.0.seen)) }
        ensures same { pass.new.seat.me ≡ pass.old.seat.me }
        ensures idle { IsIdle pass.old.seat → IsIdle pass.new.seat }
    {
        let seat = self.table.shared.split_seat::<Noting>(&mut pass.seat);
        Ok(Note { seat })
    }

    /// Afterwards the pass has seen what it had seen and what the note tells.
    pub fn learn(&self, pass: &mut Pass<T>, note: Note<T>)
        requires of { IsOfBaton T.origin self.now.table.shared pass.old.seat × IsOfBaton T.origin self.now.table.shared note.seat }
        ensures of { IsOfBaton T.origin self.now.table.shared pass.new.seat }
        ensures before { IsPrefix pass.old.seat.me.0.seen pass.new.seat.me.0.seen }
        ensures theirs { IsPrefix note.seat.me.0.seen pass.new.seat.me.0.seen }
        ensures same { Learnt pass.old.seat.me.0 pass.new.seat.me.0 × (pass.new.seat.me.1 ≡ pass.old.seat.me.1) }
        ensures idle { IsIdle pass.old.seat → IsIdle pass.new.seat }
    {
        let Note { seat } = note;
        self.join(pass, seat);
    }

    /// The pass takes in what an idle seat has seen and added.
    pub(crate) fn join(&self, pass: &mut Pass<T>, seat: Seat<Option<T>, View<T::Entry, T::Origin>>)
        requires of { IsOfBaton T.origin self.now.table.shared pass.old.seat × IsOfBaton T.origin self.now.table.shared seat }
        requires idle { IsIdle seat }
        ensures of { IsOfBaton T.origin self.now.table.shared pass.new.seat }
        ensures before { IsPrefix pass.old.seat.me.0.seen pass.new.seat.me.0.seen }
        ensures theirs { IsPrefix seat.me.0.seen pass.new.seat.me.0.seen }
        ensures mine { pass.new.seat.me.0.mine ≡ pass.old.seat.me.0.mine ++ seat.me.0.mine }
        ensures apart { Apart pass.old.seat.me.0.mine seat.me.0.mine }
        ensures same { (pass.new.seat.me.0.number ≡ pass.old.seat.me.0.number) × (pass.new.seat.me.0.holding ≡ pass.old.seat.me.0.holding) × (pass.new.seat.me.1 ≡ pass.old.seat.me.1) × (pass.new.seat.me.0.reads ≡ pass.old.seat.me.0.reads) × (pass.new.seat.me.0.looks ≡ pass.old.seat.me.0.looks) }
    {
        self.table
            .shared
            .join_seat::<Learning>(&mut pass.seat, seat);
        self.table.shared.load::<Recall<T>>(&mut pass.seat, 0);
    }

    /// The pass of the next number, which knows what this one had seen.
    pub(crate) fn deal(&self, pass: &mut Pass<T>) -> Pass<T>
        requires of { IsOfBaton T.origin self.now.table.shared pass.old.seat }
        requires more { pass.old.seat.me.0.number < pass.old.seat.me.0.callers }
        ensures of { IsOfBaton T.origin self.now.table.shared pass.new.seat × IsOfBaton T.origin self.now.table.shared result.seat }
        ensures same { pass.new.seat.me ≡ pass.old.seat.me }
        ensures dealt { result.seat.me ≡ (dealt_of pass.old.seat.me.0, []) }
    {
        let number = pass.number + 1;
        let seat = self.table.shared.split_seat::<Dealing>(&mut pass.seat);
        Pass { seat, number }
    }
}

ghost use Rattle.std.specs.Prelude.{◌≡◌, ◌<◌, All, length, ◌++◌, [], ◌∷◌};
ghost use Rattle.std.specs.List.{AllPairs};
ghost use mathlib.Core.List.{IsPrefix};
ghost use Rattle.baton.specs.Views.{Stands, Apart};
ghost use Rattle.baton.specs.Passes.{IsOfBaton, IsIdle, IsHolding, Gathers, IsGathered};

use crate::baton::Baton;
use crate::law::End;
use crate::pass::{Held, Pass};
use crate::storied::Storied;
use micro_isa::List;
use std::sync::Wait;

impl<T: Storied> Baton<T> {
    /// Waits for the value and gives it back. Its history begins with what each of the passes had seen
    /// and has the own entries of each at their places, which never meet.
    pub fn close<R: Wait>(self, rt: &R, passes: List<Pass<T>>) -> T
        requires some { 0 < length passes }
        requires of { All (λ p. IsOfBaton T.origin self.table.shared p.seat × IsIdle p.seat) passes }
        ensures seen { All (λ p. IsPrefix p.seat.me.0.seen (T.history result)) passes }
        ensures stands { All (λ p. Stands p.seat.me.0.mine (T.history result)) passes }
        ensures apart { AllPairs (λ p q. Apart p.seat.me.0.mine q.seat.me.0.mine) passes }
        ensures origin { T.origin result ≡ T.origin self.table.shared.key.value.value }
    {
        let pass = self.gather(passes.into_vec());
        self.end_with(rt, pass)
    }

    /// One pass in place of all.
    fn gather(&self, passes: Vec<Pass<T>>) -> Pass<T>
        requires some { 0 < length passes.items }
        requires of { All (λ p. IsOfBaton T.origin self.now.table.shared p.seat × IsIdle p.seat) passes.items }
        ensures of { IsOfBaton T.origin self.now.table.shared result.seat × IsIdle result.seat }
        ensures all { IsGathered (λ p. p.seat.me.0) passes.items 0 result.seat.me.0 }
    {
        let mut passes = passes;
        let Some(last) = passes.pop() else {
            unreachable!()
        };
        self.join_all(last, passes)
    }

    /// The others are joined into the last pass.
    fn join_all(&self, last: Pass<T>, others: Vec<Pass<T>>) -> Pass<T>
        requires last { IsOfBaton T.origin self.now.table.shared last.seat × IsIdle last.seat }
        requires of { All (λ p. IsOfBaton T.origin self.now.table.shared p.seat × IsIdle p.seat) others.items }
        ensures of { IsOfBaton T.origin self.now.table.shared result.seat × IsIdle result.seat }
        ensures all { IsGathered (λ p. p.seat.me.0) (others.items ++ last ∷ []) 0 result.seat.me.0 }
    {
        let mut last = last;
        let mut others = others;
        'joins: while let Some(other) = others.pop() {
            self.join_pass(&mut last, other);
        }
        others.destroy_empty();
        last
    }

    fn join_pass(&self, pass: &mut Pass<T>, other: Pass<T>)
        requires pass { IsOfBaton T.origin self.now.table.shared pass.old.seat × IsIdle pass.old.seat }
        requires other { IsOfBaton T.origin self.now.table.shared other.seat × IsIdle other.seat }
        ensures pass { IsOfBaton T.origin self.now.table.shared pass.new.seat × IsIdle pass.new.seat }
        ensures before { Gathers pass.old.seat.me.0 pass.new.seat.me.0 }
        ensures theirs { Gathers other.seat.me.0 pass.new.seat.me.0 }
        ensures apart { Apart pass.old.seat.me.0.mine other.seat.me.0.mine }
    {
        let Pass { seat, number: _ } = other;
        self.join(pass, seat);
    }

    fn end_with<R: Wait>(self, rt: &R, mut pass: Pass<T>) -> T
        requires of { IsOfBaton T.origin self.table.shared pass.seat }
        requires idle { IsIdle pass.seat }
        ensures seen { IsPrefix pass.seat.me.0.seen (T.history result) }
        ensures stands { Stands pass.seat.me.0.mine (T.history result) }
        ensures origin { T.origin result ≡ T.origin self.table.shared.key.value.value }
    {
        for _ in rt.forever() {
            if let Ok(held) = self.try_take(&mut pass) {
                return self.end(pass, held);
            }
        }
        unreachable!()
    }

    /// Ends the baton, of which this is the last pass.
    fn end(self, mut pass: Pass<T>, held: Held<T>) -> T
        requires of { IsOfBaton T.origin self.table.shared pass.seat }
        requires taken { IsHolding pass.seat }
        ensures { result ≡ held.value }
    {
        let number = u64::from(pass.number);
        self.table.shared.swap::<End<T>>(&mut pass.seat, 0, number);
        let Baton { table } = self;
        let Pass { seat, number: _ } = pass;
        let mut closed = table.close_with(seat);
        let slot = closed.take(0);
        let None = slot else { unreachable!() };
        closed.free();
        let Held { value } = held;
        value
    }
}

ghost use Rattle.std.specs.Prelude.{◌≡◌, ◌+◌, ◌<◌, ◌≤◌, ℕ, [], IfOk, IfErr, All, length, slice_index_or, vec_len, vec_capacity};
ghost use Rattle.baton.specs.Views.{opened_view};
ghost use Rattle.baton.specs.Passes.{IsOfBaton, IsIdle};

use crate::baton::Baton;
use crate::law::Opening;
use crate::pass::Pass;
use crate::storied::Storied;
use atomic_table::Table;
use micro_isa::List;
use std::alloc::{AllocFailed, Global};
use std::snapshot::Snapshot;

impl<T: Storied> Baton<T> {
    /// A baton of this value, and its passes: those of the numbers from 1 to the callers, each of which
    /// has seen the value's history, has no entries of its own and holds nothing. A refusal is want of
    /// memory and gives the value back.
    pub fn open(alloc: Global, value: T, callers: u32) -> Result<(Baton<T>, List<Pass<T>>), T>
        requires some { 0 < callers }
        requires few { callers ≤ 16 }
        ensures count { IfOk result (λ r. length r.1 ≡ callers) }
        ensures passes { IfOk result (λ r. (i : ℕ) (d : _) → i < length r.1 → (slice_index_or r.1 i d).seat.me ≡ (opened_view (i + 1) callers (T.history value) (T.origin value), [])) }
        ensures of { IfOk result (λ r. All (λ p. IsOfBaton T.origin r.0.table.shared p.seat × IsIdle p.seat) r.1) }
        ensures key { IfOk result (λ r. (r.0.table.shared.key.value.value ≡ value) × (r.0.table.shared.key.callers ≡ callers)) }
        ensures err { IfErr result (λ v. v ≡ value) }
    {
        let mut passes = Vec::new(alloc);
        if passes.reserve(callers as usize).is_err() {
            passes.destroy_empty();
            return Err(value);
        }
        match Baton::first(alloc, value, callers) {
            Ok((baton, first)) => {
                deal_all(&baton, first, callers, &mut passes);
                Ok((baton, List::of(passes)))
            }
            Err(value) => {
                passes.destroy_empty();
                Err(value)
            }
        }
    }

    /// The baton and its first pass.
    fn first(alloc: Global, value: T, callers: u32) -> Result<(Baton<T>, Pass<T>), T>
        requires some { 0 < callers }
        requires few { callers ≤ 16 }
        ensures of { IfOk result (λ r. IsOfBaton T.origin r.0.table.shared r.1.seat) }
        ensures pass { IfOk result (λ r. r.1.seat.me ≡ (opened_view 1 callers (T.history value) (T.origin value), [])) }
        ensures key { IfOk result (λ r. (r.0.table.shared.key.value.value ≡ value) × (r.0.table.shared.key.callers ≡ callers)) }
        ensures err { IfErr result (λ v. v ≡ value) }
    {
        let opening = Opening {
            value: Snapshot::of(&value),
            callers,
        };
        let length = value.length();
        let mut slots = Vec::new(alloc);
        if let Err(AllocFailed { value }) = slots.push(Some(value)) {
            slots.destroy_empty();
            return match value {
                Some(value) => Err(value),
                None => unreachable!(),
            };
        }
        match Table::new(alloc, &[0, length], slots, &opening) {
            Ok((table, seat)) => Ok((Baton { table }, Pass { seat, number: 1 })),
            Err(refused) => {
                let mut slots = refused.slots;
                let Some(Some(value)) = slots.pop() else {
                    unreachable!()
                };
                slots.destroy_empty();
                Err(value)
            }
        }
    }
}

/// All passes, in the order of their numbers.
fn deal_all<T: Storied>(baton: &Baton<T>, first: Pass<T>, callers: u32, passes: &mut Vec<Pass<T>>)
    requires of { IsOfBaton T.origin baton.now.table.shared first.seat }
    requires callers { first.seat.me ≡ (opened_view 1 callers first.seat.me.0.seen (T.origin baton.now.table.shared.key.value.value), []) }
    requires room { (vec_len passes.old ≡ 0) × (0 < callers) × (callers ≤ vec_capacity passes.old) }
    ensures count { length passes.new.items ≡ callers }
    ensures passes { (i : ℕ) (d : _) → i < length passes.new.items → (slice_index_or passes.new.items i d).seat.me ≡ (opened_view (i + 1) callers first.seat.me.0.seen (T.origin baton.now.table.shared.key.value.value), []) }
    ensures of { All (λ p. IsOfBaton T.origin baton.now.table.shared p.seat × IsIdle p.seat) passes.new.items }
{
    let mut last = first;
    'deals: while last.number < callers {
        let next = baton.deal(&mut last);
        passes.push_reserved(last);
        last = next;
    }
    passes.push_reserved(last);
}

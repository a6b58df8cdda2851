ghost use Rattle.std.specs.Prelude.{◌≡◌, ◌++◌, ◌∷◌, [], OnOk};
ghost use mathlib.Core.List.{IsPrefix};
ghost use Rattle.baton.specs.Passes.{IsOfBaton, IsIdle};

use baton::{Baton, Pass, Storied};
use micro_isa::NoMemory;
use std::marker::Model;

/// A list of numbers that only grows.
#[derive(Drop)]
pub struct Log {
    entries: Vec<u32>,
}

impl Model for Log {
    ghost use Rattle.std.specs.Prelude.{List, ℕ};

    ghost Value = { List ℕ };

    ghost view = { λ l. l.entries.items };
}

impl Storied for Log {
    type Entry = u32;

    type Origin = ();

    ghost history = { λ l. l };

    ghost origin = { λ _. tt };

    fn length(&self) -> u64 {
        self.entries.len() as u64
    }
}

impl Log {
    pub fn of(entries: Vec<u32>) -> Log
        ensures { result ≡ entries.items }
    {
        Log { entries }
    }

    pub fn add(&mut self, entry: u32) -> Result<(), NoMemory>
        ensures ok { OnOk result (self.new ≡ self.old ++ entry ∷ []) }
        ensures longer { IsPrefix self.old self.new }
    {
        match self.entries.push(entry) {
            Ok(()) => Ok(()),
            Err(_) => Err(NoMemory),
        }
    }
}

/// Adds an entry, where no other pass holds the log. Afterwards the pass has seen what it had seen, and
/// the entry at the end where it was added.
pub fn add(baton: &Baton<Log>, pass: &mut Pass<Log>, entry: u32) -> bool
    requires of { IsOfBaton (λ _. tt) baton.now.table.shared pass.old.seat × IsIdle pass.old.seat }
    ensures of { IsOfBaton (λ _. tt) baton.now.table.shared pass.new.seat × IsIdle pass.new.seat }
    ensures seen { IsPrefix pass.old.seat.me.0.seen pass.new.seat.me.0.seen }
{
    match baton.try_take(pass) {
        Ok(mut held) => {
            let added = held.value_mut().add(entry).is_ok();
            baton.put(pass, held);
            added
        }
        Err(_) => false,
    }
}

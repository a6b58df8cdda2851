ghost use Rattle.std.specs.Prelude.{◌≡◌, ◌<◌, All, length, ℕ, slice_index_or};
ghost use mathlib.Core.List.{IsPrefix};
ghost use Rattle.baton.specs.Passes.{IsOfBaton, IsIdle};

use crate::baton::Baton;
use crate::pass::Pass;
use crate::storied::Storied;
use std::thread;
use std::thread::Threads;

/// What a thread does with its pass: it may take the value and put it back.
pub trait Worker<T: Storied> {
    fn work(&self, baton: &Baton<T>, pass: &mut Pass<T>)
        requires of { IsOfBaton T.origin baton.now.table.shared pass.old.seat }
        requires idle { IsIdle pass.old.seat }
        ensures of { IsOfBaton T.origin baton.now.table.shared pass.new.seat }
        ensures idle { IsIdle pass.new.seat }
        ensures later { IsPrefix pass.old.seat.me.0.seen pass.new.seat.me.0.seen };
}

/// Each pass has the worker work for it, in a thread of its own; all have ended when this returns. Where
/// no thread can be made the passes have their turns one after another.
pub fn work_all<T: Storied + Send, W: Worker<T> + Sync, R: Threads + Sync>(
    rt: &R,
    baton: &Baton<T>,
    passes: &mut [Pass<T>],
    worker: &W,
)
    requires some { 0 < length passes.old }
    requires of { All (λ p. IsOfBaton T.origin baton.now.table.shared p.seat × IsIdle p.seat) passes.old }
    ensures of { All (λ p. IsOfBaton T.origin baton.now.table.shared p.seat × IsIdle p.seat) passes.new }
    ensures count { length passes.new ≡ length passes.old }
    ensures later { (i : ℕ) (d : _) → i < length passes.old → IsPrefix (slice_index_or passes.old i d).seat.me.0.seen (slice_index_or passes.new i d).seat.me.0.seen }
{
    let count = passes.len();
    thread::for_each_mut(
        rt,
        passes,
        count,
        &|_: usize, pass: &mut Pass<T>|
            requires { IsOfBaton T.origin baton.now.table.shared pass.now.seat × IsIdle pass.now.seat }
            ensures { IsOfBaton T.origin baton.entry.now.table.shared pass.exit.now.seat × IsIdle pass.exit.now.seat × IsPrefix pass.entry.now.seat.me.0.seen pass.exit.now.seat.me.0.seen }
        { worker.work(baton, pass) },
    );
}

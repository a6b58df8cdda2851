ghost use Rattle.std.specs.Prelude.{◌≡◌, Some, []};
ghost use Rattle.std.specs.List.{range_with_len};
ghost use Rattle.ports.specs.Tales.{Polls, Puts};
ghost use Rattle.ports.specs.Answers.{told_first, next_word};

use crate::port::{Given, Polled, Port};
use std::marker::Model;

/// A port that gives the numbers below a count in order, and takes no word.
#[derive(Debug, Drop)]
pub struct Ramp {
    next: u32,
    count: u32,
    faults: u64,
    polls: u64,
    closings: u64,
}

impl Model for Ramp {
    ghost use Rattle.std.specs.Prelude.{◌-◌, ◌≤◌, Some, []};
    ghost use Rattle.std.specs.List.{range_with_len};
    ghost use Rattle.ports.specs.declared.told.Told.{Told};

    ghost Value = { Told };

    ghost view = { λ r. record { left = Some (range_with_len r.next (r.count - r.next)); taken = Some []; faults = r.faults; polls = r.polls; closings = r.closings } };
}

impl Ramp {
    /// Gives the numbers from 0 to `count - 1`; behind the last it is closed.
    pub fn of(count: u32) -> Ramp
        ensures { result ≡ told_first (Some (range_with_len 0 count)) (Some []) }
    {
        Ramp {
            next: 0,
            count,
            faults: 0,
            polls: 0,
            closings: 0,
        }
    }
}

impl Port for Ramp {
    ghost tells = { λ told. told };

    #[tactic(auto, using(crate::proofs::Ranges::range_first))]
    fn poll(&mut self) -> Polled
        ensures polled { Polls self.old result self.new }
        ensures answer { result ≡ next_word self.old.left }
    {
        self.polls = self.polls.saturating_add(1);
        if self.next < self.count {
            let word = self.next;
            self.next += 1;
            Polled::Word(word)
        } else {
            self.closings = self.closings.saturating_add(1);
            Polled::Closed
        }
    }

    fn put(&mut self, word: u32) -> Given
        ensures put { Puts self.old word result self.new }
        ensures answer { result ≡ Given.Failed }
    {
        let _ = word;
        self.faults = self.faults.saturating_add(1);
        Given::Failed
    }
}

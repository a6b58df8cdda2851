ghost use Rattle.std.specs.Prelude.{◌≡◌, ◌^◌, ◌-◌};
ghost use Rattle.ports.specs.Tales.{Polls, Puts};
ghost use Rattle.ports.specs.Answers.{TallyState, tallied, with_word};

use crate::port::{Given, Polled, Port};
use std::marker::Model;

/// A port that counts and sums the words that it takes, and gives none. It does not tell the words.
#[derive(Debug, Drop)]
pub struct Tally {
    count: u64,
    sum: u32,
    polls: u64,
    closings: u64,
}

impl Model for Tally {
    ghost use Rattle.ports.specs.Answers.{TallyState};

    ghost Value = { TallyState };

    ghost view = { λ t. record { count = t.count; sum = t.sum; polls = t.polls; closings = t.closings } };
}

impl Tally {
    /// Took no word yet.
    pub fn new() -> Tally
        ensures { result ≡ record { count = 0; sum = 0; polls = 0; closings = 0 } }
    {
        Tally {
            count: 0,
            sum: 0,
            polls: 0,
            closings: 0,
        }
    }

    /// How many words it took. The count stands still at the greatest u64.
    pub fn count(&self) -> u64
        ensures { result ≡ self.now.count }
    {
        self.count
    }

    /// The sum of the words that it took, modulo 2^32.
    pub fn sum(&self) -> u32
        ensures { result ≡ self.now.sum }
    {
        self.sum
    }
}

impl Port for Tally {
    ghost use Rattle.ports.specs.Answers.{tallied};

    ghost tells = { tallied };

    fn poll(&mut self) -> Polled
        ensures polled { Polls (tallied self.old) result (tallied self.new) }
        ensures answer { result ≡ Polled.Closed }
        ensures count { self.new.count ≡ self.old.count }
        ensures sum { self.new.sum ≡ self.old.sum }
    {
        self.polls = self.polls.saturating_add(1);
        self.closings = self.closings.saturating_add(1);
        Polled::Closed
    }

    fn put(&mut self, word: u32) -> Given
        ensures put { Puts (tallied self.old) word result (tallied self.new) }
        ensures answer { result ≡ Given.Took }
        ensures taken { self.new ≡ with_word self.old word }
    {
        self.count = self.count.saturating_add(1);
        self.sum = self.sum.wrapping_add(word);
        Given::Took
    }
}

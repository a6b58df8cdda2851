ghost use Rattle.std.specs.Prelude.{◌≡◌, drop, IfOk};
ghost use Rattle.ports.specs.Tales.{Polls, Puts};
ghost use Rattle.ports.specs.Answers.{closes_for_good, script_of, next_poll, next_put, put_answer, after_poll, after_put};

use crate::port::{Given, Polled, Port};
use micro_isa::NoMemory;
use std::collections::VecDeque;
use std::marker::Model;

/// A port that answers from lists, and keeps the words that it takes.
#[derive(Debug, Drop)]
pub struct Script {
    answers: VecDeque<Polled>,
    gives: VecDeque<Given>,
    taken: Vec<u32>,
    room: usize,
    faults: u64,
    polls: u64,
    closings: u64,
}

impl Model for Script {
    ghost use Rattle.std.specs.Prelude.{◌+◌, ◌≤◌, Some, vec_len, vec_capacity};
    ghost use Rattle.ports.specs.Answers.{ScriptState, words_in, closes_for_good};

    ghost Value = { ScriptState };

    ghost view = { λ s. record { told = record { left = Some (words_in s.answers.items); taken = Some s.taken.items; faults = s.faults; polls = s.polls; closings = s.closings }; polls = s.answers.items; gives = s.gives.items; room = s.room } };

    ghost invariant = { λ s. closes_for_good s.answers.items × (vec_len s.taken + s.room ≤ vec_capacity s.taken) };
}

impl Script {
    /// Answers polls and puts by these lists in order, and behind them that it is closed and that it
    /// took the word. A put of more than `room` words in all fails. Only this call wants memory.
    pub fn of(polls: Vec<Polled>, gives: Vec<Given>, room: usize) -> Result<Script, NoMemory>
        requires { closes_for_good polls.items }
        ensures { IfOk result (λ script. script ≡ script_of polls.items gives.items room) }
    {
        match Vec::with_capacity(*polls.allocator(), room) {
            Ok(taken) => Ok(Script {
                answers: VecDeque::from_vec(polls),
                gives: VecDeque::from_vec(gives),
                taken,
                room,
                faults: 0,
                polls: 0,
                closings: 0,
            }),
            Err(_) => Err(NoMemory),
        }
    }

    /// The words taken so far.
    pub fn taken(&self) -> &[u32]
        ensures { Some result.now ≡ self.now.told.taken }
    {
        self.taken.as_slice()
    }
}

impl Port for Script {
    ghost tells = { λ s. s.told };

    fn poll(&mut self) -> Polled
        ensures polled { Polls self.old.told result self.new.told }
        ensures answer { result ≡ next_poll self.old.polls }
        ensures after { self.new ≡ after_poll self.old self.new.told }
    {
        self.polls = self.polls.saturating_add(1);
        let answer = next_answer(&mut self.answers);
        match answer {
            Polled::Word(_) | Polled::Empty => {}
            Polled::Closed => self.closings = self.closings.saturating_add(1),
            Polled::Failed => self.faults = self.faults.saturating_add(1),
        }
        answer
    }

    fn put(&mut self, word: u32) -> Given
        ensures put { Puts self.old.told word result self.new.told }
        ensures answer { result ≡ put_answer self.old }
        ensures after { self.new ≡ after_put self.old word result self.new.told }
    {
        let answer = next_given(&mut self.gives);
        if self.room == 0 || answer == Given::Failed {
            self.faults = self.faults.saturating_add(1);
            return Given::Failed;
        }
        self.taken.push_reserved(word);
        self.room -= 1;
        Given::Took
    }
}

fn next_answer(answers: &mut VecDeque<Polled>) -> Polled
    ensures answer { result ≡ next_poll answers.old.items }
    ensures rest { answers.new.items ≡ drop 1 answers.old.items }
{
    match answers.pop_front() {
        Some(answer) => answer,
        None => Polled::Closed,
    }
}

fn next_given(gives: &mut VecDeque<Given>) -> Given
    ensures answer { result ≡ next_put gives.old.items }
    ensures rest { gives.new.items ≡ drop 1 gives.old.items }
{
    match gives.pop_front() {
        Some(answer) => answer,
        None => Given::Took,
    }
}

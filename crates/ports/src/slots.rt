ghost use Rattle.std.specs.Prelude.{◌≡◌, ◌<◌, ◌≤◌, length, map, replicate, true, false, slice_set};
ghost use Rattle.ports.specs.Tales.{Polls, Puts, Changes};
ghost use Rattle.ports.specs.SlotsState.{has};

use crate::port::{Given, Polled, Port};
use micro_isa::MOST_PORTS;
use std::marker::Model;

/// The ports of a run, of which the number of each is its place, and which of them are retired: those
/// stay as they are and are not used any more.
pub struct Slots<P: Port> {
    ports: Vec<P>,
    retired: [bool; MOST_PORTS],
}

impl<P: Port> Model for Slots<P> {
    ghost use Rattle.std.specs.Prelude.{map, ◌≤◌, vec_len};
    ghost use Rattle.micro_isa.specs.declared.limits.TheConstants.{MOST_PORTS};
    ghost use Rattle.ports.specs.SlotsState.{SlotsState};

    ghost Value = { SlotsState };

    ghost view = { λ s. record { told = map P.tells s.ports.items; retired = s.retired } };

    ghost invariant = { λ s. vec_len s.ports ≤ MOST_PORTS };
}

impl<P: Port> Slots<P> {
    /// These ports, by their numbers, with none retired.
    pub fn of(ports: Vec<P>) -> Slots<P>
        requires { length ports.items ≤ MOST_PORTS }
        ensures told { result.told ≡ map P.tells ports.items }
        ensures retired { result.retired ≡ replicate MOST_PORTS false }
    {
        Slots {
            ports,
            retired: [false; MOST_PORTS],
        }
    }

    /// Whether there is a port of this number that is not retired.
    pub fn has(&self, port: u8) -> bool
        ensures { result ≡ has self.now port }
    {
        (port as usize) < self.ports.len() && !self.retired[port as usize]
    }

    /// Asks a port for a word.
    pub fn ask(&mut self, port: u8) -> Polled
        requires { has self.old port ≡ true }
        ensures told { Changes (λ a b. Polls a result b) self.old.told port self.new.told }
        ensures retired { self.new.retired ≡ self.old.retired }
    {
        ask_at(&mut self.ports, port)
    }

    /// Hands a word to a port.
    pub fn hand(&mut self, port: u8, word: u32) -> Given
        requires { has self.old port ≡ true }
        ensures told { Changes (λ a b. Puts a word result b) self.old.told port self.new.told }
        ensures retired { self.new.retired ≡ self.old.retired }
    {
        hand_at(&mut self.ports, port, word)
    }

    /// Retires a port: it is not used any more.
    pub fn retire(&mut self, port: u8)
        requires { has self.old port ≡ true }
        ensures told { self.new.told ≡ self.old.told }
        ensures retired { self.new.retired ≡ slice_set self.old.retired port true }
    {
        self.retired[port as usize] = true;
    }

    /// The ports, as many and in their order, retired ones too.
    pub fn close(self) -> Vec<P>
        ensures { map P.tells result.items ≡ self.told }
    {
        let Slots { ports, retired: _ } = self;
        ports
    }
}

#[tactic(auto, using(crate::proofs::Changing::changed))]
fn ask_at<P: Port>(ports: &mut Vec<P>, port: u8) -> Polled
    requires { port < length ports.old.items }
    ensures told { Changes (λ a b. Polls a result b) (map P.tells ports.old.items) port (map P.tells ports.new.items) }
    ensures few { length ports.new.items ≡ length ports.old.items }
{
    ports[port as usize].poll()
}

#[tactic(auto, using(crate::proofs::Changing::changed))]
fn hand_at<P: Port>(ports: &mut Vec<P>, port: u8, word: u32) -> Given
    requires { port < length ports.old.items }
    ensures told { Changes (λ a b. Puts a word result b) (map P.tells ports.old.items) port (map P.tells ports.new.items) }
    ensures few { length ports.new.items ≡ length ports.old.items }
{
    ports[port as usize].put(word)
}

//! What an interpreter runs: lines of code, and registers that it keeps in its own way.

ghost use Rattle.std.specs.Prelude.{◌≡◌, ℕ, Bool, IfOk, List, length, nat_lt, replicate, slice_index, true};
ghost use Rattle.semantics.specs.Stretches.{Numbered};
ghost use Rattle.semantics.specs.Machine.{numbered_word, read_in, write_in};
ghost use Rattle.semantics.specs.Source.{Registers as SourceRegisters, numbered_line, put};
ghost use Rattle.run_state.specs.Running.{values_of};

use micro_isa::{Instr, Line, NoMemory, PReg, VReg, Word};
use std::alloc::Global;
use std::marker::Model;

/// A line of code over registers of the kind `R`: an instruction with its source line.
pub trait CodeLine<R>: Copy {
    /// What it says.
    ghost numbered: { Self → Numbered R };

    /// Its instruction.
    fn instr(&self) -> Instr<R>
        ensures { result ≡ (numbered self.now).instr };

    /// The number of its source line.
    fn line(&self) -> u32
        ensures { result ≡ (numbered self.now).line };

    /// Whether it spends a step.
    fn counted(&self) -> bool
        ensures { result ≡ (numbered self.now).counted };
}

/// Registers of the kind `R`.
pub trait Registers<R> {
    /// What they stand for.
    ghost Values: { Type 0 };

    /// The values that they hold.
    ghost values: { Self → Values };

    /// The value of one of them.
    ghost reads: { Values → R → ℕ };

    /// The values after a write.
    ghost writes: { Values → R → ℕ → Values };

    /// Which of them may be written.
    ghost holds: { Self → R → Bool };

    /// The value of a register.
    fn read(&self, register: R) -> u32
        ensures { result ≡ reads (values self.now) register };

    /// Gives a register another value.
    fn write(&mut self, to: R, value: u32)
        requires { holds self.old to ≡ true }
        ensures held { holds self.new ≡ holds self.old }
        ensures written { values self.new ≡ writes (values self.old) to value };
}

/// Registers by their numbers. One that is not there reads as 0.
#[derive(Debug, Drop)]
pub struct RegisterList {
    values: Vec<u32>,
}

impl Model for RegisterList {
    ghost use Rattle.std.specs.Prelude.{List, ℕ};

    ghost Value = { List ℕ };

    ghost view = { λ r. r.values.items };
}

impl RegisterList {
    /// So many registers, each of which holds 0.
    pub fn zeros(alloc: Global, count: usize) -> Result<RegisterList, NoMemory>
        ensures { IfOk result (λ registers. registers ≡ replicate count 0) }
    {
        match vec![in alloc; 0; count] {
            Ok(values) => Ok(RegisterList { values }),
            Err(_) => Err(NoMemory),
        }
    }

    /// The values, in the order of the registers' numbers.
    pub fn as_slice(&self) -> &[u32]
        ensures { result.now ≡ self.now }
    {
        self.values.as_slice()
    }

    fn value(&self, number: usize) -> u32
        ensures { result ≡ slice_index self.now number }
    {
        match self.values.get(number) {
            Some(value) => *value,
            None => 0,
        }
    }
}

/// The registers of the file; a write to one that is not there changes nothing.
impl Registers<PReg> for RegisterList {
    ghost Values = { List ℕ };

    ghost values = { λ list. list };

    ghost reads = { read_in };

    ghost writes = { write_in };

    ghost holds = { λ list r. true };

    fn read(&self, register: PReg) -> u32 {
        self.value(register.0 as usize)
    }

    fn write(&mut self, to: PReg, value: u32) {
        let to = to.0 as usize;
        if to < self.values.len() {
            self.values[to] = value;
        }
    }
}

/// The registers of a source context.
impl Registers<VReg> for RegisterList {
    ghost Values = { SourceRegisters };

    ghost values = { values_of };

    ghost reads = { λ values r. values r };

    ghost writes = { put };

    ghost holds = { λ list r. nat_lt r.0 (length list) };

    fn read(&self, register: VReg) -> u32 {
        self.value(register.0 as usize)
    }

    #[tactic(auto, using(crate::proofs::Putting::is_there, crate::proofs::Putting::one_put, crate::proofs::Putting::same_held))]
    fn write(&mut self, to: VReg, value: u32) {
        self.values[to.0 as usize] = value;
    }
}

impl CodeLine<PReg> for Word {
    ghost numbered = { numbered_word };

    fn instr(&self) -> Instr<PReg> {
        self.instr
    }

    fn line(&self) -> u32 {
        self.line
    }

    fn counted(&self) -> bool {
        self.counted
    }
}

impl CodeLine<VReg> for Line {
    ghost numbered = { numbered_line };

    fn instr(&self) -> Instr<VReg> {
        self.instr
    }

    fn line(&self) -> u32 {
        self.line
    }

    fn counted(&self) -> bool {
        true
    }
}

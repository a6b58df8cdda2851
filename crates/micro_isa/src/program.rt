ghost use Rattle.std.specs.Prelude.{◌≡◌, IfOk};

use crate::instr::Instr;
use crate::list::{Copyable, List, NoMemory, copied};
use crate::name::Name;
use std::alloc::Global;

/// A register of a source context, by its number there.
#[derive(Clone, Copy, Debug, PartialEq, Eq)]
pub struct VReg(pub u16);

/// An instruction and the line of the text that it stands on, counted from 1.
#[derive(Clone, Copy, Debug, PartialEq, Eq)]
pub struct Line {
    pub instr: Instr<VReg>,
    pub line: u32,
}

/// A name for the instruction `target` of a program.
#[derive(Debug, Drop, PartialEq)]
pub struct Label {
    pub name: Name,
    pub target: u32,
}

impl Copyable for Label {
    fn copy(&self, alloc: Global) -> Result<Label, NoMemory> {
        let name = self.name.copy(alloc)?;
        Ok(Label {
            name,
            target: self.target,
        })
    }
}

/// What one context runs. Registers are numbered as their names stand in `registers`.
#[derive(Debug, Drop, PartialEq)]
pub struct Program {
    pub name: Name,
    pub registers: List<Name>,
    pub labels: List<Label>,
    pub code: List<Line>,
}

impl Copyable for Program {
    fn copy(&self, alloc: Global) -> Result<Program, NoMemory> {
        let name = self.name.copy(alloc)?;
        let registers = copied(alloc, self.registers.as_slice())?;
        let labels = copied(alloc, self.labels.as_slice())?;
        let code = self.code.copy(alloc)?;
        Ok(Program {
            name,
            registers,
            labels,
            code,
        })
    }
}

/// The port behind an input channel, and how many fed words the channel holds at most.
#[derive(Clone, Copy, Debug, PartialEq, Eq)]
pub struct PortUse {
    pub number: u8,
    pub capacity: u32,
}

/// A channel of the engine.
#[derive(Debug, Drop, PartialEq)]
pub enum Channel {
    /// Words that contexts send to each other, at most `capacity` at a time.
    Inner {
        capacity: u32,
    },
    /// Words that come from outside: the initial ones first, then those that the port gives.
    Input {
        words: List<u32>,
        port: Option<PortUse>,
    },
    /// Words that go outside, also to the port of this number.
    Output {
        port: Option<u8>,
    },
}

impl Copyable for Channel {
    fn copy(&self, alloc: Global) -> Result<Channel, NoMemory> {
        match self {
            Channel::Inner { capacity } => Ok(Channel::Inner {
                capacity: *capacity,
            }),
            Channel::Input { words, port } => {
                let words = words.copy(alloc)?;
                Ok(Channel::Input { words, port: *port })
            }
            Channel::Output { port } => Ok(Channel::Output { port: *port }),
        }
    }
}

/// What the contexts of an engine share beside its registers. `memory` is a number of words.
#[derive(Debug, Drop, PartialEq)]
pub struct Setting {
    pub memory: u32,
    pub channels: List<Channel>,
}

impl Setting {
    pub fn copy(&self, alloc: Global) -> Result<Setting, NoMemory>
        ensures { IfOk result (λ copy. copy ≡ self.now) }
    {
        let channels = copied(alloc, self.channels.as_slice())?;
        Ok(Setting {
            memory: self.memory,
            channels,
        })
    }
}

/// A whole source text: the size of the file, the setting, the channels' names and a program a context.
#[derive(Debug, Drop, PartialEq)]
pub struct Bundle {
    pub file: u32,
    pub setting: Setting,
    pub names: List<Name>,
    pub programs: List<Program>,
}

impl Bundle {
    pub fn copy(&self, alloc: Global) -> Result<Bundle, NoMemory>
        ensures { IfOk result (λ copy. copy ≡ self.now) }
    {
        let setting = self.setting.copy(alloc)?;
        let names = copied(alloc, self.names.as_slice())?;
        let programs = copied(alloc, self.programs.as_slice())?;
        Ok(Bundle {
            file: self.file,
            setting,
            names,
            programs,
        })
    }
}

ghost use Rattle.std.specs.Prelude.{◌≡◌, IfOk};

use crate::instr::Instr;
use crate::list::{Copyable, List, NoMemory, copied};
use crate::program::Setting;
use std::alloc::Global;

/// A register of the file.
#[derive(Clone, Copy, Debug, PartialEq, Eq)]
pub struct PReg(pub u8);

/// A word of an image. One that is not counted spends no step; `line` is the source line, or 0.
#[derive(Clone, Copy, Debug, PartialEq, Eq)]
pub struct Word {
    pub instr: Instr<PReg>,
    pub counted: bool,
    pub line: u32,
}

/// The registers from `start` on, `size` of them.
#[derive(Clone, Copy, Debug, PartialEq, Eq)]
pub struct Range {
    pub start: u32,
    pub size: u32,
}

/// The words of a context, and the registers that it alone may write.
#[derive(Debug, Drop, PartialEq)]
pub struct Code {
    pub private: Range,
    pub words: List<Word>,
}

impl Copyable for Code {
    fn copy(&self, alloc: Global) -> Result<Code, NoMemory> {
        let words = self.words.copy(alloc)?;
        Ok(Code {
            private: self.private,
            words,
        })
    }
}

/// What the engine runs: the size of the file, the setting, the registers that all contexts may
/// write, and the contexts.
#[derive(Debug, Drop, PartialEq)]
pub struct Image {
    pub file: u32,
    pub setting: Setting,
    pub shared: Range,
    pub contexts: List<Code>,
}

impl Image {
    pub fn copy(&self, alloc: Global) -> Result<Image, NoMemory>
        ensures { IfOk result (λ copy. copy ≡ self.now) }
    {
        let setting = self.setting.copy(alloc)?;
        let contexts = copied(alloc, self.contexts.as_slice())?;
        Ok(Image {
            file: self.file,
            setting,
            shared: self.shared,
            contexts,
        })
    }
}

ghost use Rattle.std.specs.Prelude.{◌≡◌, ◌<◌};
ghost use Rattle.micro_isa.specs.Columns.{reads_in, written_by, switches_at, next_of};

use crate::arithmetic::{AluOp, DivOp, Test};
use crate::operands::{operands_of, operation_of};
use crate::operation::switching;

/// An instruction over registers of the kind `R`: those of a source context, or those of the file.
#[derive(Clone, Copy, Debug, PartialEq, Eq)]
pub enum Instr<R> {
    /// `to` = `n`.
    Li { to: R, n: u32 },
    /// `to` = `from`.
    Mov { to: R, from: R },
    /// `to` = the operation on `a` and `b`.
    Alu { op: AluOp, to: R, a: R, b: R },
    /// `to` = the division of `a` by `b`; traps where `b` holds 0.
    Div { op: DivOp, to: R, a: R, b: R },
    /// `to` = the number of the context.
    Ctx { to: R },
    /// Goes to the instruction `target`.
    Jmp { target: u32 },
    /// Goes to the instruction `target` where the test holds of `a` and `b`.
    Branch { test: Test, a: R, b: R, target: u32 },
    /// `to` = the word of memory at `address`, read now and written when the context runs again.
    Load { to: R, address: R },
    /// The word of memory at `address` = `from`.
    Store { address: R, from: R },
    /// Lets the other contexts run.
    Yield,
    /// Waits for a word of the channel, which goes to `to`.
    Recv { to: R, channel: u8 },
    /// Waits until the channel takes the word that `from` holds now.
    Send { channel: u8, from: R },
    /// Ends the context.
    Halt,
}

/// The registers that an instruction reads.
#[derive(Clone, Copy, Debug, PartialEq, Eq)]
pub struct Reads<R> {
    pub first: Option<R>,
    pub second: Option<R>,
}

/// The instructions that may come next: the following one, and the target of a jump.
#[derive(Clone, Copy, Debug, PartialEq, Eq)]
pub struct Next {
    pub fall: Option<u32>,
    pub jump: Option<u32>,
}

/// The registers that an instruction reads, in the order of its text.
pub fn reads_of<R: Copy>(instr: &Instr<R>) -> Reads<R>
    ensures { result ≡ reads_in instr.now }
{
    let operands = operands_of(instr);
    Reads {
        first: operands.a,
        second: operands.b,
    }
}

/// The register that an instruction writes, at once or when its context runs again.
pub fn writes<R: Copy>(instr: &Instr<R>) -> Option<R>
    ensures { result ≡ written_by instr.now }
{
    operands_of(instr).to
}

/// Whether the engine goes to another context after this instruction.
pub fn switches<R>(instr: &Instr<R>) -> bool
    ensures { result ≡ switches_at instr.now }
{
    switching(operation_of(instr))
}

/// The instructions that may follow the one at `at`.
pub fn successors<R>(instr: &Instr<R>, at: u32) -> Next
    requires { at < 4294967295 }
    ensures { result ≡ next_of instr.now at }
{
    match instr {
        Instr::Halt => Next {
            fall: None,
            jump: None,
        },
        Instr::Jmp { target } => Next {
            fall: None,
            jump: Some(*target),
        },
        Instr::Branch { target, .. } => Next {
            fall: Some(at + 1),
            jump: Some(*target),
        },
        _ => Next {
            fall: Some(at + 1),
            jump: None,
        },
    }
}

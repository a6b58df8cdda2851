//! An instruction as its operation and its operands, and back.

ghost use Rattle.std.specs.Prelude.{◌≡◌};
ghost use Rattle.micro_isa.specs.Operands.{operation_of, operands_of, instr_of};

use crate::instr::Instr;
use crate::operation::Operation;

/// What an instruction names beside registers.
#[derive(Clone, Copy, Debug, PartialEq, Eq)]
pub enum Extra<N, K> {
    Nothing,
    Number(N),
    /// The instruction that is jumped to.
    Target(N),
    /// The channel that is received from.
    Receive(K),
    /// The channel that is sent to.
    Send(K),
}

/// What an instruction names: the register that is written, those that are read, and what is no register. Of
/// an instruction these are numbers, of a line of text its words.
#[derive(Clone, Copy, Debug, PartialEq, Eq)]
pub struct Operands<R, N, K> {
    pub to: Option<R>,
    pub a: Option<R>,
    pub b: Option<R>,
    pub extra: Extra<N, K>,
}

#[inline(always)]
fn with<R: Copy>(
    to: Option<R>,
    a: Option<R>,
    b: Option<R>,
    extra: Extra<u32, u8>,
) -> Operands<R, u32, u8>
    ensures { result ≡ record { to = to; a = a; b = b; extra = extra } }
{
    Operands { to, a, b, extra }
}

/// The operation of an instruction.
pub fn operation_of<R>(instr: &Instr<R>) -> Operation
    ensures { result ≡ operation_of instr.now }
{
    match instr {
        Instr::Li { .. } => Operation::Li,
        Instr::Mov { .. } => Operation::Mov,
        Instr::Alu { op, .. } => Operation::Alu(*op),
        Instr::Div { op, .. } => Operation::Div(*op),
        Instr::Ctx { .. } => Operation::Ctx,
        Instr::Jmp { .. } => Operation::Jmp,
        Instr::Branch { test, .. } => Operation::Branch(*test),
        Instr::Load { .. } => Operation::Load,
        Instr::Store { .. } => Operation::Store,
        Instr::Yield => Operation::Yield,
        Instr::Recv { .. } => Operation::Recv,
        Instr::Send { .. } => Operation::Send,
        Instr::Halt => Operation::Halt,
    }
}

/// The operands of an instruction.
pub fn operands_of<R: Copy>(instr: &Instr<R>) -> Operands<R, u32, u8>
    ensures { result ≡ operands_of instr.now }
{
    match *instr {
        Instr::Li { to, n } => with(Some(to), None, None, Extra::Number(n)),
        Instr::Mov { to, from } => with(Some(to), Some(from), None, Extra::Nothing),
        Instr::Alu { to, a, b, .. } => with(Some(to), Some(a), Some(b), Extra::Nothing),
        Instr::Div { to, a, b, .. } => with(Some(to), Some(a), Some(b), Extra::Nothing),
        Instr::Ctx { to } => with(Some(to), None, None, Extra::Nothing),
        Instr::Jmp { target } => with(None, None, None, Extra::Target(target)),
        Instr::Branch { a, b, target, .. } => with(None, Some(a), Some(b), Extra::Target(target)),
        Instr::Load { to, address } => with(Some(to), Some(address), None, Extra::Nothing),
        Instr::Store { address, from } => with(None, Some(address), Some(from), Extra::Nothing),
        Instr::Yield => with(None, None, None, Extra::Nothing),
        Instr::Recv { to, channel } => with(Some(to), None, None, Extra::Receive(channel)),
        Instr::Send { channel, from } => with(None, Some(from), None, Extra::Send(channel)),
        Instr::Halt => with(None, None, None, Extra::Nothing),
    }
}

/// The instruction of this operation and these operands, where they are the operation's.
#[inline(always)]
pub fn instr_of<R: Copy>(operation: Operation, operands: Operands<R, u32, u8>) -> Option<Instr<R>>
    ensures { result ≡ instr_of operation operands }
{
    let Operands { to, a, b, extra } = operands;
    match operation {
        Operation::Li => match (to, a, b, extra) {
            (Some(to), None, None, Extra::Number(n)) => Some(Instr::Li { to, n }),
            _ => None,
        },
        Operation::Mov => match (to, a, b, extra) {
            (Some(to), Some(from), None, Extra::Nothing) => Some(Instr::Mov { to, from }),
            _ => None,
        },
        Operation::Alu(op) => match (to, a, b, extra) {
            (Some(to), Some(a), Some(b), Extra::Nothing) => Some(Instr::Alu { op, to, a, b }),
            _ => None,
        },
        Operation::Div(op) => match (to, a, b, extra) {
            (Some(to), Some(a), Some(b), Extra::Nothing) => Some(Instr::Div { op, to, a, b }),
            _ => None,
        },
        Operation::Ctx => match (to, a, b, extra) {
            (Some(to), None, None, Extra::Nothing) => Some(Instr::Ctx { to }),
            _ => None,
        },
        Operation::Jmp => match (to, a, b, extra) {
            (None, None, None, Extra::Target(target)) => Some(Instr::Jmp { target }),
            _ => None,
        },
        Operation::Branch(test) => match (to, a, b, extra) {
            (None, Some(a), Some(b), Extra::Target(target)) => Some(Instr::Branch {
                test,
                a,
                b,
                target,
            }),
            _ => None,
        },
        Operation::Load => match (to, a, b, extra) {
            (Some(to), Some(address), None, Extra::Nothing) => Some(Instr::Load { to, address }),
            _ => None,
        },
        Operation::Store => match (to, a, b, extra) {
            (None, Some(address), Some(from), Extra::Nothing) => Some(Instr::Store {
                address,
                from,
            }),
            _ => None,
        },
        Operation::Yield => match (to, a, b, extra) {
            (None, None, None, Extra::Nothing) => Some(Instr::Yield),
            _ => None,
        },
        Operation::Recv => match (to, a, b, extra) {
            (Some(to), None, None, Extra::Receive(channel)) => Some(Instr::Recv { to, channel }),
            _ => None,
        },
        Operation::Send => match (to, a, b, extra) {
            (None, Some(from), None, Extra::Send(channel)) => Some(Instr::Send { channel, from }),
            _ => None,
        },
        Operation::Halt => match (to, a, b, extra) {
            (None, None, None, Extra::Nothing) => Some(Instr::Halt),
            _ => None,
        },
    }
}

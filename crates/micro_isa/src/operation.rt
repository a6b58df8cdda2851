//! The table of the instruction set.

ghost use Rattle.std.specs.Prelude.{◌≡◌, slice_get};
ghost use Rattle.micro_isa.specs.Table.{row_of, roles_of, ends, switching, named, coded};

use crate::arithmetic::{AluOp, DivOp, Test, alu_row};

/// What an instruction does, without its operands: what a mnemonic and an opcode stand for.
#[derive(Clone, Copy, Debug, PartialEq, Eq)]
pub enum Operation {
    Li,
    Mov,
    Alu(AluOp),
    Div(DivOp),
    Ctx,
    Jmp,
    Branch(Test),
    Load,
    Store,
    Yield,
    Recv,
    Send,
    Halt,
}

/// What an operand is to its instruction.
#[derive(Clone, Copy, Debug, PartialEq, Eq)]
pub enum Role {
    /// The register that is written.
    To,
    /// The register that is read first.
    A,
    /// The register that is read second.
    B,
    Number,
    /// The instruction that is jumped to.
    Target,
    /// The channel that is received from.
    Receive,
    /// The channel that is sent to.
    Send,
}

/// What an operation is called, in words and in text.
#[derive(Clone, Copy)]
pub struct Row {
    pub opcode: u8,
    pub mnemonic: &'static [u8],
}

/// All operations, in the order of their opcodes, which are counted from 1.
pub const OPERATIONS: [Operation; 26] = [
    Operation::Li,
    Operation::Mov,
    Operation::Alu(AluOp::Add),
    Operation::Alu(AluOp::Sub),
    Operation::Alu(AluOp::Mul),
    Operation::Alu(AluOp::And),
    Operation::Alu(AluOp::Or),
    Operation::Alu(AluOp::Xor),
    Operation::Alu(AluOp::Shl),
    Operation::Alu(AluOp::Shr),
    Operation::Alu(AluOp::Ltu),
    Operation::Alu(AluOp::Eq),
    Operation::Div(DivOp::Quotient),
    Operation::Div(DivOp::Remainder),
    Operation::Ctx,
    Operation::Jmp,
    Operation::Branch(Test::Eq),
    Operation::Branch(Test::Ne),
    Operation::Branch(Test::Ltu),
    Operation::Branch(Test::Geu),
    Operation::Load,
    Operation::Store,
    Operation::Yield,
    Operation::Recv,
    Operation::Send,
    Operation::Halt,
];

pub(crate) fn called(opcode: u8, mnemonic: &'static [u8]) -> Row
    ensures opcode { result.opcode ≡ opcode }
    ensures mnemonic { result.mnemonic.now ≡ mnemonic.now }
{
    Row { opcode, mnemonic }
}

/// The row of an operation.
pub fn row_of(operation: Operation) -> Row
    ensures opcode { result.opcode ≡ (row_of operation).opcode }
    ensures mnemonic { result.mnemonic.now ≡ (row_of operation).mnemonic }
{
    match operation {
        Operation::Li => called(1, b"li"),
        Operation::Mov => called(2, b"mov"),
        Operation::Alu(op) => alu_row(op),
        Operation::Div(DivOp::Quotient) => called(13, b"div"),
        Operation::Div(DivOp::Remainder) => called(14, b"rem"),
        Operation::Ctx => called(15, b"ctx"),
        Operation::Jmp => called(16, b"jmp"),
        Operation::Branch(Test::Eq) => called(17, b"beq"),
        Operation::Branch(Test::Ne) => called(18, b"bne"),
        Operation::Branch(Test::Ltu) => called(19, b"bltu"),
        Operation::Branch(Test::Geu) => called(20, b"bgeu"),
        Operation::Load => called(21, b"load"),
        Operation::Store => called(22, b"store"),
        Operation::Yield => called(23, b"yield"),
        Operation::Recv => called(24, b"recv"),
        Operation::Send => called(25, b"send"),
        Operation::Halt => called(26, b"halt"),
    }
}

/// The operands of an operation, in the order of the text.
#[inline(always)]
pub fn roles_of(operation: Operation) -> &'static [Role]
    ensures { result.now ≡ roles_of operation }
{
    match operation {
        Operation::Li => &[Role::To, Role::Number],
        Operation::Mov | Operation::Load => &[Role::To, Role::A],
        Operation::Alu(_) | Operation::Div(_) => &[Role::To, Role::A, Role::B],
        Operation::Ctx => &[Role::To],
        Operation::Jmp => &[Role::Target],
        Operation::Branch(_) => &[Role::A, Role::B, Role::Target],
        Operation::Store => &[Role::A, Role::B],
        Operation::Yield | Operation::Halt => &[],
        Operation::Recv => &[Role::To, Role::Receive],
        Operation::Send => &[Role::Send, Role::A],
    }
}

/// Whether the engine goes to another context after such an instruction.
pub(crate) fn switching(operation: Operation) -> bool
    ensures { result ≡ switching operation }
{
    matches!(
        operation,
        Operation::Load | Operation::Store | Operation::Yield | Operation::Recv | Operation::Send
    )
}

/// Whether what stands behind such an instruction is never reached in order.
pub fn ends(operation: Operation) -> bool
    ensures { result ≡ ends operation }
{
    matches!(operation, Operation::Jmp | Operation::Halt)
}

/// The operation of a mnemonic.
pub fn operation_named(word: &[u8]) -> Option<Operation>
    ensures { result ≡ named word.now }
{
    OPERATIONS
        .iter()
        .copied()
        .find(|operation| row_of(*operation).mnemonic == word)
}

/// The operation of an opcode.
#[inline(always)]
pub fn operation_coded(opcode: u8) -> Option<Operation>
    ensures { result ≡ coded opcode }
{
    match opcode {
        0 => None,
        _ => operation_at(&OPERATIONS, usize::from(opcode - 1)),
    }
}

#[inline(always)]
fn operation_at(operations: &[Operation], place: usize) -> Option<Operation>
    ensures { result ≡ slice_get operations.now place }
{
    match operations.get(place) {
        Some(operation) => Some(*operation),
        None => None,
    }
}

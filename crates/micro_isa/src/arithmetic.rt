ghost use Rattle.std.specs.Prelude.{◌≡◌, if◌then◌else◌};
ghost use Rattle.micro_isa.specs.Arithmetic.{alu_row, alu_of, test_of, quotient_of};

use crate::operation::{Row, called};

/// An operation on two words that cannot trap.
#[derive(Clone, Copy, Debug, PartialEq, Eq)]
pub enum AluOp {
    /// The sum, modulo 2^32.
    Add,
    /// The difference, modulo 2^32.
    Sub,
    /// The product, modulo 2^32.
    Mul,
    And,
    Or,
    Xor,
    /// Shifted left by the second word modulo 32.
    Shl,
    /// Shifted right by the second word modulo 32, with zeros coming in.
    Shr,
    /// 1 where the first word is below the second, else 0.
    Ltu,
    /// 1 where the words are equal, else 0.
    Eq,
}

/// An operation on two words that traps where the second is 0.
#[derive(Clone, Copy, Debug, PartialEq, Eq)]
pub enum DivOp {
    /// The quotient, rounded down.
    Quotient,
    Remainder,
}

/// What a branch asks of two words.
#[derive(Clone, Copy, Debug, PartialEq, Eq)]
pub enum Test {
    Eq,
    Ne,
    /// The first word is below the second.
    Ltu,
    /// The first word is not below the second.
    Geu,
}

/// The row of an operation in the table of instructions.
pub(crate) fn alu_row(op: AluOp) -> Row
    ensures opcode { result.opcode ≡ (alu_row op).opcode }
    ensures mnemonic { result.mnemonic.now ≡ (alu_row op).mnemonic }
{
    match op {
        AluOp::Add => called(3, b"add"),
        AluOp::Sub => called(4, b"sub"),
        AluOp::Mul => called(5, b"mul"),
        AluOp::And => called(6, b"and"),
        AluOp::Or => called(7, b"or"),
        AluOp::Xor => called(8, b"xor"),
        AluOp::Shl => called(9, b"shl"),
        AluOp::Shr => called(10, b"shr"),
        AluOp::Ltu => called(11, b"ltu"),
        AluOp::Eq => called(12, b"eq"),
    }
}

/// What an operation gives on these words.
pub fn alu(op: AluOp, x: u32, y: u32) -> u32
    ensures { result ≡ alu_of op x y }
{
    match op {
        AluOp::Add => x.wrapping_add(y),
        AluOp::Sub => x.wrapping_sub(y),
        AluOp::Mul => x.wrapping_mul(y),
        AluOp::And => x & y,
        AluOp::Or => x | y,
        AluOp::Xor => x ^ y,
        AluOp::Shl => x.wrapping_shl(y),
        AluOp::Shr => x.wrapping_shr(y),
        AluOp::Ltu => one_if(x < y),
        AluOp::Eq => one_if(x == y),
    }
}

fn one_if(holds: bool) -> u32
    ensures { result ≡ (if holds then 1 else 0) }
{
    if holds { 1 } else { 0 }
}

/// Whether a branch with this test is taken on these words.
pub fn test_holds(test: Test, x: u32, y: u32) -> bool
    ensures { result ≡ test_of test x y }
{
    match test {
        Test::Eq => x == y,
        Test::Ne => x != y,
        Test::Ltu => x < y,
        Test::Geu => x >= y,
    }
}

/// The quotient or the remainder; none exactly where the divisor `y` is 0.
pub fn divide(op: DivOp, x: u32, y: u32) -> Option<u32>
    ensures { result ≡ quotient_of op x y }
{
    if y == 0 {
        return None;
    }
    match op {
        DivOp::Quotient => Some(x / y),
        DivOp::Remainder => Some(x % y),
    }
}

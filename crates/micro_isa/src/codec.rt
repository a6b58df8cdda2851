//! Words as bytes, both ways.

ghost use Rattle.std.specs.Prelude.{◌≡◌, IfOk, IsErr};
ghost use Rattle.micro_isa.specs.declared.image.Word.{Word};
ghost use Rattle.micro_isa.specs.WordBytes.{head_byte, word_bytes, word_in, instr_in, operation_in, fields_in, FitsWord};

use crate::fields::{Fields, fields_of, operands_from};
use crate::image::{PReg, Word};
use crate::instr::Instr;
use crate::operands::{instr_of, operands_of, operation_of};
use crate::operation::{Operation, operation_coded, roles_of, row_of};
use byteorder::{ByteOrder, LittleEndian};

/// Why bytes are no word.
#[derive(Clone, Copy, Debug, PartialEq, Eq)]
pub enum WordFault {
    /// There is no such opcode.
    Opcode,
    /// A field that the instruction does not have is not 0, or a channel is above 255.
    Field,
}

/// The bytes of a word.
#[tactic(auto, unfolding(crate::specs::WordBytes::word_bytes))]
pub fn encode_word(word: &Word) -> [u8; 12]
    ensures bytes { result ≡ word_bytes word.now }
    // Its numbers have the widths of their fields.
    ensures fits { FitsWord word.now }
{
    let line = word.line;
    let fields = fields_of(operands_of(&word.instr));
    let mut bytes = [
        head_byte(word),
        fields.d,
        fields.a,
        fields.b,
        0,
        0,
        0,
        0,
        0,
        0,
        0,
        0,
    ];
    LittleEndian::write_u32(&mut bytes[4..], fields.wide);
    LittleEndian::write_u32(&mut bytes[8..], line);
    bytes
}

/// The opcode, marked where the word is counted.
fn head_byte(word: &Word) -> u8
    ensures { result ≡ head_byte word.now }
{
    let opcode = row_of(operation_of(&word.instr)).opcode;
    if word.counted { opcode | 128 } else { opcode }
}

/// The word that bytes spell: none exactly where they are the bytes of no word.
pub fn decode_word(bytes: &[u8; 12]) -> Result<Word, WordFault>
    ensures exact { result ≡ word_in bytes.now }
    ensures word { IfOk result (λ w. (word_bytes w ≡ bytes.now) × FitsWord w) }
    ensures alone { IfOk result (λ w. (v : Word) → FitsWord v → word_bytes v ≡ bytes.now → v ≡ w) }
    ensures unspelled { IsErr result → (v : Word) → FitsWord v → word_bytes v ≡ bytes.now → ⊥ }
{
    decoded(bytes)
}

#[tactic(auto, unfolding(crate::specs::WordBytes::word_in))]
#[inline(always)]
fn decoded(bytes: &[u8; 12]) -> Result<Word, WordFault>
    ensures { result ≡ word_in bytes.now }
{
    let fields = fields_in(bytes);
    let line = LittleEndian::read_u32(&bytes[8..]);
    match operation_in(operation_coded(bytes[0] % 128), fields) {
        Ok(instr) => Ok(Word {
            instr,
            counted: bytes[0] >= 128,
            line,
        }),
        Err(why) => Err(why),
    }
}

#[inline(always)]
fn fields_in(bytes: &[u8; 12]) -> Fields
    ensures { result ≡ fields_in bytes.now }
{
    Fields {
        d: bytes[1],
        a: bytes[2],
        b: bytes[3],
        wide: LittleEndian::read_u32(&bytes[4..]),
    }
}

#[inline(always)]
fn operation_in(operation: Option<Operation>, fields: Fields) -> Result<Instr<PReg>, WordFault>
    ensures { result ≡ operation_in operation fields }
{
    let Some(operation) = operation else {
        return Err(WordFault::Opcode);
    };
    match instr_in(operation, fields) {
        Some(instr) => Ok(instr),
        None => Err(WordFault::Field),
    }
}

/// The instruction of an operation that has just these fields. Each arm hands on its own operation, so that the
/// roles are known where it is compiled, and no walk over them is left; the last arm serves every other operation.
#[inline(always)]
fn instr_in(operation: Operation, fields: Fields) -> Option<Instr<PReg>>
    ensures { result ≡ instr_in operation fields }
{
    match operation {
        Operation::Li => instr_by_roles(Operation::Li, fields),
        Operation::Mov => instr_by_roles(Operation::Mov, fields),
        Operation::Alu(op) => instr_by_roles(Operation::Alu(op), fields),
        Operation::Div(op) => instr_by_roles(Operation::Div(op), fields),
        Operation::Jmp => instr_by_roles(Operation::Jmp, fields),
        Operation::Branch(test) => instr_by_roles(Operation::Branch(test), fields),
        Operation::Load => instr_by_roles(Operation::Load, fields),
        Operation::Store => instr_by_roles(Operation::Store, fields),
        Operation::Recv => instr_by_roles(Operation::Recv, fields),
        Operation::Send => instr_by_roles(Operation::Send, fields),
        _ => instr_by_roles(operation, fields),
    }
}

#[inline(always)]
fn instr_by_roles(operation: Operation, fields: Fields) -> Option<Instr<PReg>>
    ensures { result ≡ instr_in operation fields }
{
    let operands = operands_from(fields, roles_of(operation));
    if fields_of(operands) == fields {
        instr_of(operation, operands)
    } else {
        None
    }
}

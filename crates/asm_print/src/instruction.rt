//! The line of an instruction.

ghost use Rattle.std.specs.Prelude.{◌≡◌, ◌++◌, true, map, OnOk};
ghost use Rattle.micro_isa.specs.Formed.{never_drops};
ghost use Rattle.asm_print.specs.Rows.{line_text};
ghost use Rattle.asm_print.specs.Canonical.{instruction_row};

use crate::names::spelt;
use crate::row::put_indented;
use itoa::Buffer;
use micro_isa::{
    Instr, List, Name, NoMemory, Program, VReg, operands_of, operation_of, roles_of, row_of,
};

/// Appends the line of an instruction of this program.
pub(crate) fn put_instruction(
    text: &mut Vec<u8>,
    channels: &List<Name>,
    program: &Program,
    instr: Instr<VReg>,
) -> Result<(), NoMemory>
    requires { never_drops 0 (map (λ l. l.target) program.now.labels) ≡ true }
    ensures { OnOk result (text.new.items ≡ text.old.items ++ line_text (instruction_row channels.now program.now instr)) }
{
    let operation = operation_of(&instr);
    let mut buffer = Buffer::new();
    let operands = spelt(channels, program, operands_of(&instr), &mut buffer);
    put_indented(
        text,
        row_of(operation).mnemonic,
        roles_of(operation),
        operands,
    )
}

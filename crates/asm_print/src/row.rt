//! Lines that are appended. After a refusal a part of the line may stand in the text.

ghost use Rattle.std.specs.Prelude.{◌≡◌, ◌++◌, OnOk, codes, map};
ghost use Rattle.asm_print.specs.Rows.{Flush, Indented, led_by, spaced, operands_text, line_text};
ghost use Rattle.asm_lines.specs.Tables.{words_seen};
ghost use Rattle.asm_context.specs.Views.{seen_operands};
ghost use Rattle.asm_print.specs.Canonical.{word_in};

use crate::names::word_in;
use asm_context::Spelt;
use micro_isa::{NoMemory, Role};
use micro_kit::put_bytes;

fn put_led_by(text: &mut Vec<u8>, gap: &[u8], words: &[&[u8]]) -> Result<(), NoMemory>
    ensures { OnOk result (text.new.items ≡ text.old.items ++ led_by gap.now (words_seen words.now)) }
{
    for word in words {
        put_bytes(text, gap)?;
        put_bytes(text, word)?;
    }
    Ok(())
}

pub(crate) fn put_spaced(text: &mut Vec<u8>, words: &[&[u8]]) -> Result<(), NoMemory>
    ensures { OnOk result (text.new.items ≡ text.old.items ++ spaced (words_seen words.now)) }
{
    match words {
        [] => Ok(()),
        [first, rest @ ..] => {
            put_bytes(text, first)?;
            put_led_by(text, b" ", rest)
        }
    }
}

/// A line of words with one space between.
pub(crate) fn put_flush(text: &mut Vec<u8>, words: &[&[u8]]) -> Result<(), NoMemory>
    ensures { OnOk result (text.new.items ≡ text.old.items ++ line_text (Flush (words_seen words.now))) }
{
    put_spaced(text, words)?;
    put_bytes(text, b"\n")
}

/// The line of an instruction with the operands of these roles.
pub(crate) fn put_indented(
    text: &mut Vec<u8>,
    mnemonic: &[u8],
    roles: &[Role],
    operands: Spelt,
) -> Result<(), NoMemory>
    ensures { OnOk result (text.new.items ≡ text.old.items ++ line_text (Indented mnemonic.now (map (word_in (seen_operands operands.entry)) roles.now))) }
{
    put_bytes(text, b"  ")?;
    put_bytes(text, mnemonic)?;
    put_operands(text, roles, operands)?;
    put_bytes(text, b"\n")
}

fn put_operands(text: &mut Vec<u8>, roles: &[Role], operands: Spelt) -> Result<(), NoMemory>
    ensures { OnOk result (text.new.items ≡ text.old.items ++ operands_text (map (word_in (seen_operands operands.entry)) roles.now)) }
{
    match roles {
        [] => Ok(()),
        [first, rest @ ..] => {
            put_bytes(text, b" ")?;
            put_bytes(text, word_in(operands, *first))?;
            put_operands_behind(text, rest, operands)
        }
    }
}

/// Each operand, behind a comma and a space.
fn put_operands_behind(text: &mut Vec<u8>, roles: &[Role], operands: Spelt) -> Result<(), NoMemory>
    ensures { OnOk result (text.new.items ≡ text.old.items ++ led_by (codes ", ") (map (word_in (seen_operands operands.entry)) roles.now)) }
{
    for role in roles {
        put_bytes(text, b", ")?;
        put_bytes(text, word_in(operands, *role))?;
    }
    Ok(())
}

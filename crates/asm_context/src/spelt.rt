//! The operands of a line, as its words.

ghost use Rattle.std.specs.Prelude.{◌≡◌, option_map};
ghost use Rattle.asm_lines.specs.Tables.{words_seen};
ghost use Rattle.asm_context.specs.Spelt.{with_word, operands_in};
ghost use Rattle.asm_context.specs.Views.{seen_operands};

use micro_isa::{Extra, Operands, Role};

/// The operands of a line, as its words.
pub type Spelt<'a> = Operands<&'a [u8], &'a [u8], &'a [u8]>;

/// The operands of a line without an instruction.
pub const NOTHING: Operands<&'static [u8], &'static [u8], &'static [u8]> = Operands {
    to: None,
    a: None,
    b: None,
    extra: Extra::Nothing,
};

/// The operands that these words are in these roles, where there is a word for each role.
pub fn operands_in<'a>(roles: &[Role], words: &[&'a [u8]]) -> Option<Spelt<'a>>
    ensures { option_map seen_operands result ≡ operands_in roles.now (words_seen words.now) }
{
    if roles.len() != words.len() {
        return None;
    }
    let mut spelt = NOTHING;
    let mut at = roles.len();
    'roles: while 0 < at {
        at -= 1;
        spelt = with_word(roles[at], words[at], spelt);
    }
    Some(spelt)
}

#[inline(always)]
fn with_word<'a>(role: Role, word: &'a [u8], rest: Spelt<'a>) -> Spelt<'a>
    ensures { seen_operands result ≡ with_word role word.now (seen_operands rest.entry) }
{
    let mut spelt = rest;
    match role {
        Role::To => spelt.to = Some(word),
        Role::A => spelt.a = Some(word),
        Role::B => spelt.b = Some(word),
        Role::Number => spelt.extra = Extra::Number(word),
        Role::Target => spelt.extra = Extra::Target(word),
        Role::Receive => spelt.extra = Extra::Receive(word),
        Role::Send => spelt.extra = Extra::Send(word),
    }
    spelt
}

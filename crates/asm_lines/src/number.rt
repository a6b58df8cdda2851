ghost use Rattle.std.specs.Prelude.{◌≡◌, ◌<◌, true, false, IfSome, IfNone, Some, None, if◌then◌else◌, option_map};
ghost use Rattle.std.specs.Char.{is_ascii_hexdigit, digit_value};
ghost use Rattle.asm_lines.specs.Numbers.{hex_number, after_0x, word_number, number_or};

use micro_kit::read_number;

fn hex_digit(c: u8) -> Option<u32>
    ensures value { result ≡ (if is_ascii_hexdigit c then Some (digit_value c) else None) }
    ensures digit { IfNone result (is_ascii_hexdigit c ≡ false) }
    ensures bound { IfSome result (λ d. (d ≡ digit_value c) × (d < 16) × (is_ascii_hexdigit c ≡ true)) }
{
    if c.is_ascii_hexdigit() {
        char::from(c).to_digit(16)
    } else {
        None
    }
}

fn hex_number(digits: &[u8]) -> Option<u32>
    ensures { result ≡ hex_number digits.now }
{
    if digits.is_empty() || 8 < digits.len() {
        return None;
    }
    let mut n = 0u64;
    for c in digits {
        let Some(digit) = hex_digit(*c) else {
            return None;
        };
        n = n * 16 + digit as u64;
        if n > u32::MAX as u64 {
            return None;
        }
    }
    Some(n as u32)
}

fn after_0x<'a>(word: &'a [u8]) -> Option<&'a [u8]>
    ensures { option_map (λ digits. digits.now) result ≡ after_0x word.now }
{
    match word {
        [b'0', b'x', digits @ ..] => Some(digits),
        _ => None,
    }
}

/// The number that a word spells: decimal digits, or `0x` and one to eight hexadecimal digits of
/// either case, with a value of at most 4294967295.
pub fn word_number(word: &[u8]) -> Option<u32>
    ensures { result ≡ word_number word.now }
{
    match after_0x(word) {
        None => read_number(word),
        Some(digits) => hex_number(digits),
    }
}

/// The number that a word spells, and 0 where it spells none.
pub fn number_or(word: &[u8]) -> u32
    ensures { result ≡ number_or word.now }
{
    word_number(word).unwrap_or(0)
}

//! Texts in parts.

ghost use Rattle.std.specs.Prelude.{◌≡◌, ◌==◌, ◌<◌, length, drop, position, option_map, IfSome};
ghost use Rattle.journal_text.specs.Parting.{cut};
ghost use Rattle.journal_text.specs.Lines.{IsFirstLine};

fn position(text: &[u8], separator: u8) -> Option<usize>
    ensures first { result ≡ position (λ c. c == separator) text.now }
    ensures within { IfSome result (λ at. at < length text.now) }
{
    text.iter().position(|c| *c == separator)
}

/// The texts before and behind the first separator.
#[tactic(auto, using(std::proofs::lemmas::List::take_rest))]
pub(crate) fn cut<'a>(text: &'a [u8], separator: u8) -> Option<(&'a [u8], &'a [u8])>
    ensures { option_map (λ p. (p.0.now, p.1.now)) result ≡ cut separator text.now }
{
    match position(text, separator) {
        Some(at) => Some((&text[..at], &text[at + 1..])),
        None => None,
    }
}

/// The first line of a text that is not empty, without its newline, and the text behind it.
#[tactic(auto, using(crate::proofs::FirstLines::ended_line, crate::proofs::FirstLines::last_line))]
pub(crate) fn first_line<'a>(text: &'a [u8]) -> (&'a [u8], &'a [u8])
    requires { 0 < length text.now }
    ensures { IsFirstLine text.now result.0.now result.1.now }
{
    match cut(text, b'\n') {
        Some((line, behind)) => (line, behind),
        None => (text, &[]),
    }
}

/// The first line of what stands from this place on.
#[tactic(auto, using(std::proofs::lemmas::List::take_rest))]
pub(crate) fn line_at<'a>(text: &'a [u8], start: usize) -> (&'a [u8], &'a [u8])
    requires { start < length text.now }
    ensures { IsFirstLine (drop start text.now) result.0.now result.1.now }
{
    first_line(&text[start..])
}

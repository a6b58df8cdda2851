ghost use Rattle.std.specs.Prelude.{◌≡◌, ◌||◌, is_some, option_map};
ghost use Rattle.std.specs.List.{list_any};
ghost use Rattle.micro_isa.specs.Formed.{gives_words, takes_words};
ghost use Rattle.asm_lines.specs.Numbers.{is_no_number};
ghost use Rattle.asm_lines.specs.Tables.{words_seen, misnamed, one};
ghost use Rattle.asm_context.specs.Forms.{number_in};
ghost use Rattle.asm_context.specs.Faults.{channels, is_misnamed, is_loose, gives_none, takes_none, body_fault};
ghost use Rattle.asm_context.specs.Views.{seen_operands, seen_form, seen_body, seen_said, seen_outline};
ghost use Rattle.micro_isa.specs.Columns.{registers};

use crate::form::{Body, Form, does, ends, extra_in, named, operands_of};
use crate::outline::Outline;
use crate::said::Said;
use crate::spelt::Spelt;
use asm_lines::{BundleKind, is_misnamed, is_stray, place_of, word_number};
use indexmap::IndexSet;
use micro_isa::{Channel, Extra, MOST_INSTRUCTIONS, MOST_REGISTERS, gives_words, takes_words};

fn are_misnamed(operands: Spelt) -> bool
    ensures { result ≡ misnamed (registers (seen_operands operands.entry)) }
{
    is_misnamed(operands.to) || is_misnamed(operands.a) || is_misnamed(operands.b)
}

fn has_bad_name(body: Body) -> bool
    ensures { result ≡ is_misnamed (seen_body body.entry) }
{
    let line = named(body.form);
    is_misnamed(body.label)
        || are_misnamed(operands_of(body.form))
        || is_misnamed(line.goes_to)
        || is_misnamed(line.receives_from)
        || is_misnamed(line.sends_to)
}

fn has_bad_number(form: Form) -> bool
    ensures { result ≡ list_any is_no_number (one (number_in (seen_form form.entry))) }
{
    match extra_in(form) {
        Extra::Number(n) => word_number(n).is_none(),
        _ => false,
    }
}

fn gives_none<'a>(names: &IndexSet<&'a [u8]>, kinds: &[Channel], channel: Option<&'a [u8]>) -> bool
    ensures { result ≡ gives_none (channels (words_seen names.now.keys) kinds.now) (option_map (λ n. n.now) channel.entry) }
{
    match channel {
        Some(name) => !gives_words(kinds.get(place_of(names, name))),
        None => false,
    }
}

fn takes_none<'a>(names: &IndexSet<&'a [u8]>, kinds: &[Channel], channel: Option<&'a [u8]>) -> bool
    ensures { result ≡ takes_none (channels (words_seen names.now.keys) kinds.now) (option_map (λ n. n.now) channel.entry) }
{
    match channel {
        Some(name) => !takes_words(kinds.get(place_of(names, name))),
        None => false,
    }
}

fn is_loose(body: Body) -> bool
    ensures { result ≡ is_loose (seen_body body.entry) }
{
    if does(body.form) {
        !ends(body.form)
    } else {
        body.label.is_some()
    }
}

/// The first kind of fault that a line has: `twice` where its label stands earlier, `now` what the lines say
/// as far as this one, `all` what all lines of the context say.
pub fn body_fault<'a>(
    names: &IndexSet<&'a [u8]>,
    kinds: &[Channel],
    twice: bool,
    now: &Said<'a>,
    all: &Outline<'a>,
    fair: bool,
    body: Body<'a>,
) -> Option<BundleKind>
    ensures { result ≡ body_fault (channels (words_seen names.now.keys) kinds.now) twice (seen_said now.now) (seen_outline all.now) fair (seen_body body.entry) }
{
    if !fair {
        return Some(BundleKind::Byte);
    }
    if matches!(body.form, Form::Unknown) {
        return Some(BundleKind::Directive);
    }
    if matches!(body.form, Form::Miscounted) {
        return Some(BundleKind::Operands);
    }
    if has_bad_name(body) {
        return Some(BundleKind::Name);
    }
    if has_bad_number(body.form) {
        return Some(BundleKind::Number);
    }
    if MOST_REGISTERS < now.registers.len() || MOST_INSTRUCTIONS < now.done as usize {
        return Some(BundleKind::Limit);
    }
    if twice {
        return Some(BundleKind::LabelTwice);
    }
    let line = named(body.form);
    if is_stray(names, line.receives_from) || is_stray(names, line.sends_to) {
        return Some(BundleKind::ChannelUnknown);
    }
    if gives_none(names, kinds, line.receives_from) || takes_none(names, kinds, line.sends_to) {
        return Some(BundleKind::ChannelKind);
    }
    if is_stray(&all.labels, line.goes_to) {
        return Some(BundleKind::LabelUnknown);
    }
    if now.done == all.done && is_loose(body) {
        return Some(BundleKind::FallsOff);
    }
    None
}

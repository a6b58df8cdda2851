ghost use Rattle.std.specs.Prelude.{◌≡◌, Some, option_map};
ghost use Rattle.asm_context.specs.Forms.{named_form, form_of, label_in, body_of, label_at, does_at, does, ends, operands_of, extra_in, goes_to, receives_from, sends_to};
ghost use Rattle.asm_context.specs.Said.{line_body};
ghost use Rattle.asm_context.specs.Views.{seen_extra, seen_operands, seen_form, seen_body};
ghost use Rattle.asm_lines.specs.Heads.{seen_head};
ghost use Rattle.asm_lines.specs.Tables.{words_seen};

use crate::spelt::{NOTHING, Spelt, operands_in};
use asm_lines::{Head, Row};
use micro_isa::{Extra, Operation, operation_named, roles_of};

/// The form of a line behind its label, with its operands as words that are not judged yet.
#[derive(Clone, Copy)]
pub enum Form<'a> {
    Blank,
    Instruction {
        operation: Operation,
        operands: Spelt<'a>,
    },
    Miscounted,
    Unknown,
}

/// A line in a context: its label and its form.
#[derive(Clone, Copy)]
pub struct Body<'a> {
    pub label: Option<&'a [u8]>,
    pub form: Form<'a>,
}

/// What a line names beside its registers.
#[derive(Clone, Copy)]
pub struct LineNames<'a> {
    pub goes_to: Option<&'a [u8]>,
    pub receives_from: Option<&'a [u8]>,
    pub sends_to: Option<&'a [u8]>,
}

const UNNAMED: LineNames<'static> = LineNames {
    goes_to: None,
    receives_from: None,
    sends_to: None,
};

#[inline(always)]
fn form_of<'a>(words: &[&'a [u8]]) -> Form<'a>
    ensures { seen_form result ≡ form_of (words_seen words.now) }
{
    match words {
        [] => Form::Blank,
        [word, operands @ ..] => named_form(operation_named(word), operands),
    }
}

#[inline(always)]
fn named_form<'a>(operation: Option<Operation>, words: &[&'a [u8]]) -> Form<'a>
    ensures { seen_form result ≡ named_form operation (words_seen words.now) }
{
    match operation {
        Some(operation) => counted_form(operation, words),
        None => Form::Unknown,
    }
}

#[inline(always)]
fn counted_form<'a>(operation: Operation, words: &[&'a [u8]]) -> Form<'a>
    ensures { seen_form result ≡ named_form (Some operation) (words_seen words.now) }
{
    match operands_in(roles_of(operation), words) {
        Some(operands) => Form::Instruction {
            operation,
            operands,
        },
        None => Form::Miscounted,
    }
}

/// The name before a colon at the end of a word.
fn label_in<'a>(word: &'a [u8]) -> Option<&'a [u8]>
    ensures { option_map (λ n. n.now) result ≡ label_in word.now }
{
    match word {
        [name @ .., b':'] => Some(name),
        _ => None,
    }
}

/// What a line of these words says.
pub fn body_of<'a>(words: &[&'a [u8]]) -> Body<'a>
    ensures { seen_body result ≡ body_of (words_seen words.now) }
{
    match words {
        [] => Body {
            label: None,
            form: Form::Blank,
        },
        [first, rest @ ..] => match label_in(first) {
            None => Body {
                label: None,
                form: form_of(words),
            },
            Some(name) => Body {
                label: Some(name),
                form: form_of(rest),
            },
        },
    }
}

/// Whether a line has a word besides a label.
pub fn does(form: Form) -> bool
    ensures { result ≡ does (seen_form form.entry) }
{
    !matches!(form, Form::Blank)
}

/// Whether what stands behind a line is never reached in order.
pub fn ends(form: Form) -> bool
    ensures { result ≡ ends (seen_form form.entry) }
{
    match form {
        Form::Instruction { operation, .. } => micro_isa::ends(operation),
        _ => false,
    }
}

/// The operands of a line; without an instruction it has none.
#[inline(always)]
pub fn operands_of<'a>(form: Form<'a>) -> Spelt<'a>
    ensures { seen_operands result ≡ operands_of (seen_form form.entry) }
{
    match form {
        Form::Instruction { operands, .. } => operands,
        _ => NOTHING,
    }
}

/// What a line names beside registers.
pub fn extra_in<'a>(form: Form<'a>) -> Extra<&'a [u8], &'a [u8]>
    ensures { seen_extra result ≡ extra_in (seen_form form.entry) }
{
    match form {
        Form::Instruction { operands, .. } => operands.extra,
        _ => Extra::Nothing,
    }
}

/// The label that a line goes to, and the channels that it receives from and sends to.
pub fn named<'a>(form: Form<'a>) -> LineNames<'a>
    ensures target { option_map (λ n. n.now) result.goes_to ≡ goes_to (seen_form form.entry) }
    ensures source { option_map (λ n. n.now) result.receives_from ≡ receives_from (seen_form form.entry) }
    ensures sink { option_map (λ n. n.now) result.sends_to ≡ sends_to (seen_form form.entry) }
{
    match extra_in(form) {
        Extra::Target(label) => LineNames {
            goes_to: Some(label),
            ..UNNAMED
        },
        Extra::Receive(channel) => LineNames {
            receives_from: Some(channel),
            ..UNNAMED
        },
        Extra::Send(channel) => LineNames {
            sends_to: Some(channel),
            ..UNNAMED
        },
        Extra::Nothing => UNNAMED,
        Extra::Number(_) => UNNAMED,
    }
}

/// The label of a line with this head.
pub fn label_at<'a>(head: Head<'a>) -> Option<&'a [u8]>
    ensures { option_map (λ n. n.now) result ≡ label_at (seen_head head.entry) }
{
    match head.first {
        None => None,
        Some(first) => label_in(first),
    }
}

/// Whether a line with this head has an instruction, be it a faulty one.
pub fn does_at(head: Head) -> bool
    ensures { result ≡ does_at (seen_head head.entry) }
{
    match head.first {
        None => false,
        Some(first) => match label_in(first) {
            None => true,
            Some(_) => head.more,
        },
    }
}

/// Whether a line has an instruction, be it a faulty one.
pub fn has_instruction(row: &Row) -> bool
    ensures { result ≡ does (line_body row.now).form }
{
    does_at(row.head())
}

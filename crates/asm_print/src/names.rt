//! The names by which a program's instructions are written.

ghost use Rattle.std.specs.Prelude.{◌≡◌, [], true, decimal, map, option_map, unwrap_or};
ghost use Rattle.micro_isa.specs.Formed.{never_drops};
ghost use Rattle.asm_print.specs.Canonical.{name_at, register_name, labels_at, target_name, spelt, extra_word, word_in};
ghost use Rattle.asm_context.specs.Spelt.{each_extra};
ghost use Rattle.asm_context.specs.Views.{seen_extra, seen_operands};

use asm_context::Spelt;
use itoa::Buffer;
use micro_isa::{Extra, Label, List, Name, Operands, Program, Role, VReg};

pub(crate) fn name_at<'a>(names: &'a List<Name>, k: usize) -> &'a [u8]
    ensures { result.now ≡ name_at names.now k }
{
    match names.get(k) {
        Some(name) => name.bytes(),
        None => b"",
    }
}

pub(crate) fn register_name<'a>(program: &'a Program, register: VReg) -> &'a [u8]
    ensures { result.now ≡ register_name program.now register }
{
    name_at(&program.registers, register.0 as usize)
}

/// The labels of the instruction `at`. Targets do not fall along a program's list.
pub(crate) fn labels_at<'a>(labels: &'a [Label], at: usize) -> &'a [Label]
    requires { never_drops 0 (map (λ l. l.target) labels.now) ≡ true }
    ensures { result.now ≡ labels_at labels.now at }
{
    let first = labels.partition_point(|l| (l.target as usize) < at);
    let rest = &labels[first..];
    let count = rest.partition_point(|l| l.target as usize <= at);
    &rest[..count]
}

/// A target is named by its first label.
pub(crate) fn target_name<'a>(labels: &'a [Label], target: u32) -> &'a [u8]
    requires { never_drops 0 (map (λ l. l.target) labels.now) ≡ true }
    ensures { result.now ≡ target_name labels.now target }
{
    match labels_at(labels, target as usize) {
        [] => b"",
        [label, ..] => label.name.bytes(),
    }
}

/// The words of an instruction's operands.
pub(crate) fn spelt<'a>(
    channels: &'a List<Name>,
    program: &'a Program,
    operands: Operands<VReg, u32, u8>,
    buffer: &'a mut Buffer,
) -> Spelt<'a>
    requires { never_drops 0 (map (λ l. l.target) program.now.labels) ≡ true }
    ensures { seen_operands result ≡ spelt channels.now program.now operands }
{
    Operands {
        to: register_if(program, operands.to),
        a: register_if(program, operands.a),
        b: register_if(program, operands.b),
        extra: extra(channels, program, operands.extra, buffer),
    }
}

fn register_if<'a>(program: &'a Program, register: Option<VReg>) -> Option<&'a [u8]>
    ensures { option_map (λ w. w.now) result ≡ option_map (register_name program.now) register }
{
    match register {
        Some(register) => Some(register_name(program, register)),
        None => None,
    }
}

fn extra<'a>(
    channels: &'a List<Name>,
    program: &'a Program,
    extra: Extra<u32, u8>,
    buffer: &'a mut Buffer,
) -> Extra<&'a [u8], &'a [u8]>
    requires { never_drops 0 (map (λ l. l.target) program.now.labels) ≡ true }
    ensures { seen_extra result ≡ each_extra decimal (target_name program.now.labels) (name_at channels.now) extra }
{
    match extra {
        Extra::Nothing => Extra::Nothing,
        Extra::Number(n) => Extra::Number(buffer.format(n).as_bytes()),
        Extra::Target(target) => Extra::Target(target_name(program.labels.as_slice(), target)),
        Extra::Receive(channel) => Extra::Receive(name_at(channels, channel as usize)),
        Extra::Send(channel) => Extra::Send(name_at(channels, channel as usize)),
    }
}

/// The word in a role.
pub(crate) fn word_in<'a>(operands: Spelt<'a>, role: Role) -> &'a [u8]
    ensures { result.now ≡ word_in (seen_operands operands.entry) role }
{
    match role {
        Role::To => or_empty(operands.to),
        Role::A => or_empty(operands.a),
        Role::B => or_empty(operands.b),
        Role::Number | Role::Target | Role::Receive | Role::Send => extra_word(operands.extra),
    }
}

fn or_empty<'a>(word: Option<&'a [u8]>) -> &'a [u8]
    ensures { result.now ≡ unwrap_or (option_map (λ w. w.now) word.entry) [] }
{
    word.unwrap_or(b"")
}

fn extra_word<'a>(extra: Extra<&'a [u8], &'a [u8]>) -> &'a [u8]
    ensures { result.now ≡ extra_word (seen_extra extra.entry) }
{
    match extra {
        Extra::Nothing => b"",
        Extra::Number(word) | Extra::Target(word) | Extra::Receive(word) | Extra::Send(word) =>
            word,
    }
}

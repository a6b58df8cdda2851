ghost use Rattle.std.specs.Prelude.{◌≡◌, ◌++◌, ◌<◌, ◌≤◌, [], ◌∷◌, OnOk, IfOk, length, slice_index, option_map, true};
ghost use Rattle.std.specs.List.{list_all};
ghost use Rattle.micro_isa.specs.Names.{name_test};
ghost use Rattle.micro_isa.specs.declared.limits.TheConstants.{MOST_CHANNELS};
ghost use Rattle.asm_lines.specs.Tables.{words_seen, place_of};
ghost use Rattle.asm_context.specs.Places.{PlaceFits, PlacesFit, register_at, placed, instr_at};
ghost use Rattle.asm_context.specs.Programs.{target, on_line, labels_from};
ghost use Rattle.asm_context.specs.Views.{seen_extra, seen_operands, seen_form, seen_outline};
ghost use Rattle.asm_context.specs.Spelt.{each_extra};
ghost use Rattle.asm_lines.specs.Numbers.{number_or};

use crate::form::Form;
use crate::outline::Outline;
use crate::said::Places;
use crate::spelt::Spelt;
use asm_lines::{name_of, number_or, place_of};
use indexmap::IndexSet;
use micro_isa::{Extra, Instr, Label, Line, List, NoMemory, Operands, VReg, instr_of};
use std::alloc::Global;

fn channel<'a>(names: &IndexSet<&'a [u8]>, name: &'a [u8]) -> u8
    requires { length names.now.keys ≤ MOST_CHANNELS }
    ensures { result ≡ place_of (words_seen names.now.keys) name.now }
{
    place_of(names, name) as u8
}

fn target_at(targets: &[u32], at: usize) -> u32
    ensures { result ≡ slice_index targets.now at }
{
    match targets.get(at) {
        Some(target) => *target,
        None => 0,
    }
}

fn target<'a>(all: &Outline<'a>, label: &'a [u8]) -> u32
    ensures { result ≡ target (seen_outline all.now) label.now }
{
    target_at(all.targets.as_slice(), place_of(&all.labels, label))
}

fn push_line(code: &mut List<Line>, instr: Instr<VReg>, line: u32) -> Result<(), NoMemory>
    ensures { OnOk result (code.new ≡ code.old ++ record { instr = instr; line = line } ∷ []) }
{
    match code.push(Line { instr, line }) {
        Ok(()) => Ok(()),
        Err(_) => Err(NoMemory),
    }
}

fn register_at(place: Option<usize>) -> Option<VReg>
    requires { PlaceFits place }
    ensures { result ≡ option_map register_at place }
{
    match place {
        Some(place) => Some(VReg(place as u16)),
        None => None,
    }
}

fn extra<'a>(
    names: &IndexSet<&'a [u8]>,
    all: &Outline<'a>,
    extra: Extra<&'a [u8], &'a [u8]>,
) -> Extra<u32, u8>
    requires { length names.now.keys ≤ MOST_CHANNELS }
    ensures { result ≡ each_extra number_or (target (seen_outline all.now)) (place_of (words_seen names.now.keys)) (seen_extra extra.entry) }
{
    match extra {
        Extra::Nothing => Extra::Nothing,
        Extra::Number(n) => Extra::Number(number_or(n)),
        Extra::Target(label) => Extra::Target(target(all, label)),
        Extra::Receive(name) => Extra::Receive(channel(names, name)),
        Extra::Send(name) => Extra::Send(channel(names, name)),
    }
}

/// What the operands of a line name.
fn operands<'a>(
    places: Places,
    names: &IndexSet<&'a [u8]>,
    all: &Outline<'a>,
    spelt: Spelt<'a>,
) -> Operands<VReg, u32, u8>
    requires places { PlacesFit places }
    requires channels { length names.now.keys ≤ MOST_CHANNELS }
    ensures { result ≡ placed places (words_seen names.now.keys) (seen_outline all.now) (seen_operands spelt.entry) }
{
    Operands {
        to: register_at(places.to),
        a: register_at(places.a),
        b: register_at(places.b),
        extra: extra(names, all, spelt.extra),
    }
}

/// The instruction of a line, where it has one.
fn instr_at<'a>(
    places: Places,
    names: &IndexSet<&'a [u8]>,
    all: &Outline<'a>,
    form: Form<'a>,
) -> Option<Instr<VReg>>
    requires places { PlacesFit places }
    requires channels { length names.now.keys ≤ MOST_CHANNELS }
    ensures { result ≡ instr_at places (words_seen names.now.keys) (seen_outline all.now) (seen_form form.entry) }
{
    match form {
        Form::Instruction {
            operation,
            operands: spelt,
        } => instr_of(operation, operands(places, names, all, spelt)),
        _ => None,
    }
}

/// Appends the instruction of a line, where it has one.
pub fn push_code<'a>(
    code: &mut List<Line>,
    line: u32,
    places: Places,
    names: &IndexSet<&'a [u8]>,
    all: &Outline<'a>,
    form: Form<'a>,
) -> Result<(), NoMemory>
    requires places { PlacesFit places }
    requires channels { length names.now.keys ≤ MOST_CHANNELS }
    ensures { OnOk result (code.new ≡ code.old ++ on_line line (instr_at places (words_seen names.now.keys) (seen_outline all.now) (seen_form form.entry))) }
{
    match instr_at(places, names, all, form) {
        Some(instr) => push_line(code, instr, line),
        None => Ok(()),
    }
}

/// Labels of these names, each with the target at its place.
pub fn labels_of(alloc: Global, names: &[&[u8]], targets: &[u32]) -> Result<List<Label>, NoMemory>
    requires { list_all name_test (words_seen names.now) ≡ true }
    ensures { IfOk result (λ labels. labels ≡ labels_from 0 (words_seen names.now) targets.now) }
{
    let mut labels = List::new(alloc);
    for word in names {
        let target = target_at(targets, labels.len());
        let name = name_of(alloc, word)?;
        match labels.push(Label { name, target }) {
            Ok(()) => {}
            Err(_) => return Err(NoMemory),
        }
    }
    Ok(labels)
}

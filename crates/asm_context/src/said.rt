ghost use Rattle.std.specs.Prelude.{◌≡◌, ◌+◌, ◌<◌, IfOk, OnOk, fold, option_map};
ghost use Rattle.asm_lines.specs.Tables.{words_seen, declare, one};
ghost use Rattle.asm_context.specs.Forms.{does};
ghost use Rattle.asm_context.specs.Places.{place_in, places_of, places_in};
ghost use Rattle.asm_context.specs.Said.{nothing, targets_after, count, with_body};
ghost use Rattle.asm_context.specs.Views.{seen_operands, seen_form, seen_body, seen_said};
ghost use Rattle.micro_isa.specs.Columns.{registers};

use crate::form::{Body, Form, does, operands_of};
use crate::spelt::Spelt;
use asm_lines::declare;
use indexmap::IndexSet;
use micro_isa::NoMemory;
use std::alloc::Global;

/// What lines of a context say together: labels and registers in the order of their first appearance, for
/// each label the number of the instruction that it names, and how many instruction lines there are.
#[derive(Drop)]
pub struct Said<'a> {
    pub labels: IndexSet<&'a [u8]>,
    pub targets: Vec<u32>,
    pub registers: IndexSet<&'a [u8]>,
    pub done: u32,
}

/// The places of a line's registers among all.
#[derive(Clone, Copy)]
pub struct Places {
    pub to: Option<usize>,
    pub a: Option<usize>,
    pub b: Option<usize>,
}

pub fn nothing<'a>(alloc: Global) -> Said<'a>
    ensures seen { seen_said result ≡ nothing }
    ensures none { result.done ≡ 0 }
{
    Said {
        labels: IndexSet::new(alloc),
        targets: Vec::new(alloc),
        registers: IndexSet::new(alloc),
        done: 0,
    }
}

/// Notes a label, which names the instruction of this number.
#[inline(always)]
pub fn note_label<'a>(
    labels: &mut IndexSet<&'a [u8]>,
    targets: &mut Vec<u32>,
    done: u32,
    label: Option<&'a [u8]>,
) -> Result<(), NoMemory>
    ensures labels { OnOk result (words_seen labels.new.keys ≡ fold declare (words_seen labels.old.keys) (one (option_map (λ n. n.now) label.entry))) }
    ensures targets { OnOk result (targets.new.items ≡ targets_after (words_seen labels.old.keys) targets.old.items done (option_map (λ n. n.now) label.entry)) }
{
    let Some(name) = label else {
        return Ok(());
    };
    let (_, is_new) = declare(labels, name)?;
    if is_new {
        match targets.push(done) {
            Ok(()) => {}
            Err(_) => return Err(NoMemory),
        }
    }
    Ok(())
}

#[inline(always)]
fn note_operands<'a>(
    names: &mut IndexSet<&'a [u8]>,
    operands: Spelt<'a>,
) -> Result<Places, NoMemory>
    ensures names { OnOk result (words_seen names.new.keys ≡ fold declare (words_seen names.old.keys) (registers (seen_operands operands.entry))) }
    ensures places { IfOk result (λ p. p ≡ places_of (words_seen names.new.keys) (seen_operands operands.entry)) }
{
    let to = note_name(names, operands.to)?;
    let a = note_name(names, operands.a)?;
    let b = note_name(names, operands.b)?;
    Ok(Places { to, a, b })
}

#[inline(always)]
fn note_name<'a>(
    names: &mut IndexSet<&'a [u8]>,
    name: Option<&'a [u8]>,
) -> Result<Option<usize>, NoMemory>
    ensures names { OnOk result (words_seen names.new.keys ≡ fold declare (words_seen names.old.keys) (one (option_map (λ n. n.now) name.entry))) }
    ensures place { IfOk result (λ p. p ≡ place_in (words_seen names.new.keys) (option_map (λ n. n.now) name.entry)) }
{
    let Some(name) = name else {
        return Ok(None);
    };
    let (place, _) = declare(names, name)?;
    Ok(Some(place))
}

fn counted(done: u32, form: Form) -> u32
    requires { done < 4294967295 }
    ensures { result ≡ done + count (does (seen_form form.entry)) }
{
    if does(form) { done + 1 } else { done }
}

/// Notes one more line, and answers the places of its registers.
pub fn note<'a>(said: &mut Said<'a>, body: Body<'a>) -> Result<Places, NoMemory>
    requires { said.old.done < 4294967295 }
    ensures said { OnOk result (seen_said said.new ≡ with_body (seen_said said.old) (seen_body body.entry)) }
    ensures places { IfOk result (λ p. p ≡ places_in (words_seen said.new.registers.keys) (seen_form body.entry.form)) }
{
    note_label(&mut said.labels, &mut said.targets, said.done, body.label)?;
    let places = note_operands(&mut said.registers, operands_of(body.form))?;
    said.done = counted(said.done, body.form);
    Ok(places)
}

//! The names of a context's registers, which are numbered as they appear.

ghost use Rattle.std.specs.Prelude.{◌≡◌, ◌==◌, ◌≤◌, ◌∷◌, [], length, map, OnOk, IfOk};
ghost use Rattle.std.specs.List.{list_any, cons_option};
ghost use Rattle.micro_isa.specs.Columns.{registers_in};
ghost use Rattle.micro_isa.specs.Formed.{firsts_after};
ghost use Rattle.micro_isa.specs.Names.{IsName};
ghost use Rattle.soak_gen.specs.Bundles.{register_name, named, place, numbers_in};

use crate::draft::REGISTERS;
use micro_isa::{Instr, List, Name, NoMemory, VReg, operands_of};
use std::alloc::Global;

fn contains(order: &[u16], name: u16) -> bool
    ensures { result ≡ list_any (λ other. other == name) order.now }
{
    order.iter().any(|other| *other == name)
}

fn note_name(order: &mut List<u16>, name: u16) -> Result<(), NoMemory>
    ensures { OnOk result (order.new ≡ firsts_after order.old (name ∷ [])) }
{
    if contains(order.as_slice(), name) {
        return Ok(());
    }
    match order.push(name) {
        Ok(()) => Ok(()),
        Err(_) => Err(NoMemory),
    }
}

fn note(order: &mut List<u16>, register: Option<VReg>) -> Result<(), NoMemory>
    ensures { OnOk result (order.new ≡ firsts_after order.old (map (λ r. r.0) (cons_option register []))) }
{
    match register {
        Some(register) => note_name(order, register.0),
        None => Ok(()),
    }
}

/// Notes the registers of an instruction that are new.
fn note_all(order: &mut List<u16>, instr: &Instr<VReg>) -> Result<(), NoMemory>
    ensures { OnOk result (order.new ≡ firsts_after order.old (map (λ r. r.0) (registers_in instr.now))) }
{
    let operands = operands_of(instr);
    note(order, operands.to)?;
    note(order, operands.a)?;
    note(order, operands.b)
}

/// The registers that code names, in the order in which they appear.
#[tactic(auto, using(crate::proofs::Numbering::firsts_append))]
pub(crate) fn order_in(alloc: Global, code: &[Instr<VReg>]) -> Result<List<u16>, NoMemory>
    ensures { IfOk result (λ order. order ≡ firsts_after [] (named code.now)) }
{
    let mut order = List::new(alloc);
    for instr in code {
        note_all(&mut order, instr)?;
    }
    Ok(order)
}

/// The place of a name in an order, or how many there are.
fn place(order: &[u16], name: u16) -> u16
    requires { length order.now ≤ 12 }
    ensures { result ≡ place order.now name }
{
    for at in 0..order.len() {
        if order[at] == name {
            return at as u16;
        }
    }
    order.len() as u16
}

/// The names' numbers, where they are numbered in this order.
pub(crate) fn numbers_in(order: &[u16]) -> [u16; REGISTERS]
    requires { length order.now ≤ 12 }
    ensures { result ≡ numbers_in order.now }
{
    let mut numbers = [0; REGISTERS];
    for name in 0..REGISTERS {
        numbers[name] = place(order, name as u16);
    }
    numbers
}

fn register_name(name: u16) -> &'static [u8]
    ensures { result.now ≡ register_name name }
{
    match name {
        1 => b"k",
        2 => b"z",
        3 => b"r0",
        4 => b"r1",
        5 => b"r2",
        6 => b"r3",
        7 => b"r4",
        8 => b"r5",
        9 => b"r6",
        10 => b"r7",
        11 => b"r8",
        _ => b"n",
    }
}

/// A name of these bytes, which are one.
pub(crate) fn name_of(alloc: Global, bytes: &[u8]) -> Result<Name, NoMemory>
    requires { IsName bytes.now }
    ensures { IfOk result (λ name. name ≡ bytes.now) }
{
    match Name::of(alloc, bytes)? {
        Some(name) => Ok(name),
        None => unreachable!(),
    }
}

/// The names of registers in this order.
pub(crate) fn names_in(alloc: Global, order: &[u16]) -> Result<List<Name>, NoMemory>
    ensures { IfOk result (λ names. names ≡ map register_name order.now) }
{
    let mut names = List::new(alloc);
    for name in order {
        let name = name_of(alloc, register_name(*name))?;
        if names.push(name).is_err() {
            return Err(NoMemory);
        }
    }
    Ok(names)
}

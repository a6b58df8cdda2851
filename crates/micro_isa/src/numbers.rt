//! The numbers of the registers that an instruction names, and the tests of them.

ghost use Rattle.std.specs.Prelude.{◌≡◌, ℕ, ◌<◌, map, [], Some};
ghost use Rattle.std.specs.List.{cons_option, fold};
ghost use Rattle.std.specs.Option.{option_map};
ghost use Rattle.micro_isa.specs.Formed.{names_below, option_below, all_below};
ghost use Rattle.micro_isa.specs.Columns.{registers_in, target_of, never_falls};
ghost use Rattle.micro_isa.specs.FormedTests.{listed, appear};

use crate::image::PReg;
use crate::instr::Instr;
use crate::operands::{Extra, operands_of, operation_of};
use crate::operation::ends;
use crate::program::VReg;

/// A register of a program or of the file.
pub(crate) trait Register: Copy {
    ghost number_of: { Self → ℕ };

    fn number(self) -> u16
        ensures { result ≡ number_of self };
}

impl Register for VReg {
    ghost number_of = { λ r. r.0 };

    fn number(self) -> u16 {
        self.0
    }
}

impl Register for PReg {
    ghost number_of = { λ r. r.0 };

    fn number(self) -> u16 {
        u16::from(self.0)
    }
}

/// The registers that an instruction names, by their numbers, in the order of its text.
#[derive(Clone, Copy)]
pub(crate) struct Numbers {
    pub first: Option<u16>,
    pub second: Option<u16>,
    pub third: Option<u16>,
}

pub(crate) fn numbers_in<R: Register>(instr: &Instr<R>) -> Numbers
    ensures { listed result ≡ map R.number_of (registers_in instr.now) }
{
    let operands = operands_of(instr);
    Numbers {
        first: number(operands.to),
        second: number(operands.a),
        third: number(operands.b),
    }
}

fn number<R: Register>(register: Option<R>) -> Option<u16>
    ensures { result ≡ option_map R.number_of register }
{
    match register {
        Some(register) => Some(register.number()),
        None => None,
    }
}

/// Whether the registers and the target of an instruction are below these bounds.
pub(crate) fn names_below<R: Register>(instr: &Instr<R>, registers: usize, places: usize) -> bool
    ensures { result ≡ names_below R.number_of registers places instr.now }
{
    are_below(&numbers_in(instr), registers) && is_target_below(target(instr), places)
}

/// Whether the registers that an instruction names are below the size of the file.
pub fn has_registers_below(instr: &Instr<PReg>, file: usize) -> bool
    ensures { result ≡ all_below file (map (λ r. r.0) (registers_in instr.now)) }
{
    are_below(&numbers_in(instr), file)
}

/// Whether the target of an instruction, if any, is below the number of words.
pub fn has_target_below(instr: &Instr<PReg>, places: usize) -> bool
    ensures { result ≡ option_below places (target_of instr.now) }
{
    is_target_below(target(instr), places)
}

fn are_below(numbers: &Numbers, bound: usize) -> bool
    ensures { result ≡ all_below bound (listed numbers.now) }
{
    is_below(numbers.first, bound)
        && is_below(numbers.second, bound)
        && is_below(numbers.third, bound)
}

fn is_below(number: Option<u16>, bound: usize) -> bool
    ensures { result ≡ option_below bound number }
{
    match number {
        Some(number) => (number as usize) < bound,
        None => true,
    }
}

fn is_target_below(target: Option<u32>, bound: usize) -> bool
    ensures { result ≡ option_below bound target }
{
    match target {
        Some(target) => (target as usize) < bound,
        None => true,
    }
}

/// Where an instruction may jump.
pub(crate) fn target<R: Copy>(instr: &Instr<R>) -> Option<u32>
    ensures { result ≡ target_of instr.now }
{
    match operands_of(instr).extra {
        Extra::Target(target) => Some(target),
        _ => None,
    }
}

/// Whether what stands behind an instruction is never reached in order.
pub fn never_falls<R>(instr: &Instr<R>) -> bool
    ensures { result ≡ never_falls instr.now }
{
    ends(operation_of(instr))
}

/// How many registers have appeared behind this instruction, if each new one has the next number.
pub(crate) fn appear_in<R: Register>(seen: Option<usize>, instr: &Instr<R>) -> Option<usize>
    ensures { result ≡ fold appear seen (map R.number_of (registers_in instr.now)) }
{
    let numbers = numbers_in(instr);
    let seen = appear(seen, numbers.first);
    let seen = appear(seen, numbers.second);
    appear(seen, numbers.third)
}

fn appear(seen: Option<usize>, number: Option<u16>) -> Option<usize>
    ensures { result ≡ fold appear seen (cons_option number []) }
{
    match (seen, number) {
        (Some(seen), Some(number)) => next_count(seen, number as usize),
        _ => seen,
    }
}

fn next_count(seen: usize, number: usize) -> Option<usize>
    requires { number < 65536 }
    ensures { result ≡ appear (Some seen) number }
{
    if number < seen {
        return Some(seen);
    }
    if number == seen {
        return Some(seen + 1);
    }
    None
}

//! Whether a program is formed.

ghost use Rattle.std.specs.Prelude.{◌≡◌, ◌↔◌, ◌-◌, ◌==◌, IsTrue, Some, nat_lt, length, map, slice_get};
ghost use Rattle.std.specs.List.{list_any, list_all, fold};
ghost use Rattle.std.specs.Option.{option_map};
ghost use Rattle.micro_isa.specs.Formed.{IsFormedProgram, never_drops, always_rises, named_by, names_below, is_labelled, last_never_falls};
ghost use Rattle.micro_isa.specs.Columns.{target_of};
ghost use Rattle.micro_isa.specs.FormedTests.{program_test, size_test, register_test, label_test, line_test, appear, is_count};

use crate::limits::{MOST_INSTRUCTIONS, MOST_REGISTERS};
use crate::named::has_distinct_names;
use crate::numbers::{appear_in, names_below, never_falls, target};
use crate::program::{Label, Line, Program};

impl Program {
    /// Whether the program is formed: what the calls that take one ask for.
    pub fn is_formed(&self) -> bool
        ensures { IsTrue result ↔ IsFormedProgram self.now }
    {
        passes(self)
    }
}

pub(crate) fn passes(program: &Program) -> bool
    ensures { result ≡ program_test program.now }
{
    has_formed_sizes(program)
        && has_formed_registers(program)
        && has_formed_labels(program)
        && has_formed_lines(program.code.as_slice())
}

fn has_formed_sizes(program: &Program) -> bool
    ensures { result ≡ size_test program.now }
{
    let size = program.code.len();
    1 <= size && size <= MOST_INSTRUCTIONS && program.registers.len() <= MOST_REGISTERS
}

fn has_formed_registers(program: &Program) -> bool
    ensures { result ≡ register_test program.now }
{
    let code = program.code.as_slice();
    let registers = program.registers.len();
    all_named(code, registers)
        && is_count(appearing(code), registers)
        && has_distinct_names(program.registers.as_slice())
}

fn all_named(code: &[Line], registers: usize) -> bool
    ensures { result ≡ list_all (λ l. names_below (λ r. r.0) registers (length code.now) l.instr) code.now }
{
    let places = code.len();
    code.iter()
        .all(|line| names_below(&line.instr, registers, places))
}

fn appearing(code: &[Line]) -> Option<usize>
    ensures { result ≡ fold appear (Some 0) (named_by code.now) }
{
    let mut seen = Some(0);
    for line in code {
        seen = appear_in(seen, &line.instr);
    }
    seen
}

fn is_count(count: Option<usize>, registers: usize) -> bool
    ensures { result ≡ is_count count registers }
{
    match count {
        Some(count) => count == registers,
        None => false,
    }
}

fn has_formed_labels(program: &Program) -> bool
    ensures { result ≡ label_test program.now }
{
    let labels = program.labels.as_slice();
    let code = program.code.as_slice();
    has_distinct_names(labels)
        && have_targets_below(labels, code.len())
        && are_in_order(labels)
        && are_all_labelled(labels, code)
}

fn have_targets_below(labels: &[Label], places: usize) -> bool
    ensures { result ≡ list_all (λ l. nat_lt l.target places) labels.now }
{
    labels.iter().all(|label| (label.target as usize) < places)
}

fn are_in_order(labels: &[Label]) -> bool
    ensures { result ≡ never_drops 0 (map (λ l. l.target) labels.now) }
{
    let mut least = 0;
    for label in labels {
        if label.target < least {
            return false;
        }
        least = label.target;
    }
    true
}

fn are_all_labelled(labels: &[Label], code: &[Line]) -> bool
    ensures { result ≡ list_all (λ l. is_labelled labels.now (target_of l.instr)) code.now }
{
    code.iter()
        .all(|line| is_labelled(labels, target(&line.instr)))
}

fn is_labelled(labels: &[Label], target: Option<u32>) -> bool
    ensures { result ≡ is_labelled labels.now target }
{
    match target {
        Some(target) => has_target(labels, target),
        None => true,
    }
}

fn has_target(labels: &[Label], target: u32) -> bool
    ensures { result ≡ list_any (λ l. l.target == target) labels.now }
{
    labels.iter().any(|label| label.target == target)
}

fn has_formed_lines(code: &[Line]) -> bool
    ensures { result ≡ line_test code.now }
{
    has_rising_lines(code) && has_formed_end(code)
}

fn has_rising_lines(code: &[Line]) -> bool
    ensures { result ≡ always_rises 1 (map (λ l. l.line) code.now) }
{
    let mut before = 0;
    for line in code {
        if line.line <= before {
            return false;
        }
        before = line.line;
    }
    true
}

fn has_formed_end(code: &[Line]) -> bool
    ensures { result ≡ last_never_falls (option_map (λ l. l.instr) (slice_get code.now (length code.now - 1))) }
{
    match code {
        [.., last] => never_falls(&last.instr),
        [] => false,
    }
}

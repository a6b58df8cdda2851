//! The word of an instruction, and that of a step.

ghost use Rattle.std.specs.Prelude.{ℕ, ◌≡◌, ◌<◌, Some, true, false, length, slice_get, option_map};
ghost use Rattle.micro_isa.specs.declared.limits.TheConstants.{MOST_FILE};
ghost use Rattle.micro_isa.specs.Operands.{renamed, retargeted};
ghost use Rattle.edge_moves.specs.Within.{StepWithin};
ghost use Rattle.plan.specs.ValidPlans.{place_in, IsValidPlan};
ghost use Rattle.emitted.specs.Edges.{next_at};
ghost use Rattle.emitted.specs.Words.{reword, step_word, jump_word, target_from, word_at};
ghost use Rattle.emit.specs.Layouts.{register_at};

use crate::layout::Layout;
use crate::rows::{line_at, place_in, places_at, write_at};
use edge_moves::Step;
use micro_isa::{
    AluOp, Extra, Instr, Line, Operands, PReg, VReg, Word, instr_of, operands_of, operation_of,
};
use plan::{FlatPlan, Place};

/// The register of a place.
fn register_at(layout: Layout, place: u8) -> PReg
    requires { place < MOST_FILE }
    ensures { result ≡ register_at layout place }
{
    let place = u32::from(place);
    if place < layout.own {
        PReg((layout.start + place) as u8)
    } else {
        PReg((layout.shared + (place - layout.own)) as u8)
    }
}

/// A word that is not counted.
fn glue_word(instr: Instr<PReg>) -> Word
    ensures { result ≡ record { instr = instr; counted = false; line = 0 } }
{
    Word {
        instr,
        counted: false,
        line: 0,
    }
}

pub(crate) fn step_word(step: Step, layout: Layout) -> Word
    requires { StepWithin MOST_FILE step }
    ensures { result ≡ step_word (register_at layout) step }
{
    match step {
        Step::Mov { to, from } => glue_word(Instr::Mov {
            to: register_at(layout, to.0),
            from: register_at(layout, from.0),
        }),
        Step::Xor { to, with } => glue_word(Instr::Alu {
            op: AluOp::Xor,
            to: register_at(layout, to.0),
            a: register_at(layout, to.0),
            b: register_at(layout, with.0),
        }),
    }
}

pub(crate) fn jump_word(target: u32) -> Word
    ensures { result ≡ jump_word target }
{
    glue_word(Instr::Jmp { target })
}

/// The register that a register of the source is read from.
fn read(register: Option<VReg>, places: &[Place], layout: Layout) -> Option<PReg>
    requires { (k : ℕ) → place_in places.now k < MOST_FILE }
    ensures { result ≡ option_map (λ v. register_at layout (place_in places.now v.0)) register }
{
    match register {
        Some(register) => Some(register_at(layout, place_in(places, register))),
        None => None,
    }
}

/// The register that is written, if any.
fn written(register: Option<VReg>, write: u8, layout: Layout) -> Option<PReg>
    requires { write < MOST_FILE }
    ensures { result ≡ option_map (λ v. register_at layout write) register }
{
    match register {
        Some(_) => Some(register_at(layout, write)),
        None => None,
    }
}

fn retargeted(extra: Extra<u32, u8>, goto: u32) -> Extra<u32, u8>
    ensures { result ≡ retargeted (λ j. goto) extra }
{
    match extra {
        Extra::Target(_) => Extra::Target(goto),
        other => other,
    }
}

/// Operands over the file: read from these places, written to that one, and with that target.
fn renamed(
    operands: Operands<VReg, u32, u8>,
    places: &[Place],
    write: u8,
    goto: u32,
    layout: Layout,
) -> Operands<PReg, u32, u8>
    requires places { (k : ℕ) → place_in places.now k < MOST_FILE }
    requires write { write < MOST_FILE }
    ensures { result ≡ renamed (λ v. register_at layout (place_in places.now v.0)) (register_at layout write) (λ j. goto) operands }
{
    Operands {
        to: written(operands.to, write, layout),
        a: read(operands.a, places, layout),
        b: read(operands.b, places, layout),
        extra: retargeted(operands.extra, goto),
    }
}

/// An instruction over the file: the same operation, with its operands renamed.
fn reworded(
    instr: Instr<VReg>,
    places: &[Place],
    write: u8,
    goto: u32,
    layout: Layout,
) -> Instr<PReg>
    requires places { (k : ℕ) → place_in places.now k < MOST_FILE }
    requires write { write < MOST_FILE }
    ensures { result ≡ reword (λ v. register_at layout (place_in places.now v.0)) (register_at layout write) (λ j. goto) instr }
{
    let operands = renamed(operands_of(&instr), places, write, goto, layout);
    match instr_of(operation_of(&instr), operands) {
        Some(instr) => instr,
        None => unreachable!(),
    }
}

fn word_of(line: Line, places: &[Place], write: u8, goto: u32, layout: Layout) -> Word
    requires places { (k : ℕ) → place_in places.now k < MOST_FILE }
    requires write { write < MOST_FILE }
    ensures { result ≡ record { instr = reword (λ v. register_at layout (place_in places.now v.0)) (register_at layout write) (λ j. goto) line.instr; counted = true; line = line.line } }
{
    Word {
        instr: reworded(line.instr, places, write, goto, layout),
        counted: true,
        line: line.line,
    }
}

/// The counted word of instruction `i`.
pub(crate) fn counted_word(
    code: &[Line],
    plan: &FlatPlan,
    i: usize,
    goto: u32,
    layout: Layout,
) -> Word
    requires valid { IsValidPlan code.now plan.now }
    requires within { i < length code.now }
    requires goto { (j : ℕ) → (next_at (slice_get code.now i) i).jump ≡ Some j → goto ≡ target_from code.now plan.now i j }
    ensures { result ≡ word_at code.now plan.now (register_at layout) i }
{
    let line = line_at(code, i);
    word_of(line, places_at(plan, i), write_at(plan, i), goto, layout)
}

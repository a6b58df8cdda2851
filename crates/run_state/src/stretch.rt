//! The instructions of one context, up to its next stop.

ghost use Rattle.std.specs.Prelude.{◌≡◌, ◌+◌, ◌<◌, ◌≤◌, Option, None, false, length, drop, slice_get};
ghost use Rattle.semantics.specs.Core.{is_cut};
ghost use Rattle.semantics.specs.Stretches.{ActiveContext, effect_of_one, uncounted, settled, effect_here, stretch};
ghost use Rattle.run_state.specs.Running.{kind_by, context_at, written, reached, stretch_seen, CanRun, CanRunOne, ChangesWithin, StaysWithin, IsPlaced};

use crate::effects::effect;
use crate::registers::{CodeLine, Registers};
use semantics::{Change, Effect, SegmentExit, Stopped};

/// Where a context stands, and the register that the word of its completion goes to.
#[derive(Clone, Copy, Debug, PartialEq, Eq)]
pub struct ContextPlace<R> {
    pub at: u32,
    pub pending: Option<R>,
}

/// Where a stretch of instructions ended, the steps that it spent, and why it ended.
#[derive(Clone, Copy, Debug, PartialEq, Eq)]
pub(crate) struct Ended<R> {
    pub place: ContextPlace<R>,
    pub steps: u32,
    pub why: SegmentExit,
}

/// Where instructions that are not counted came to, and whether by a jump.
#[derive(Clone, Copy, Debug, PartialEq, Eq)]
struct Reached {
    at: u32,
    jumped: bool,
}

fn make<R, V: Registers<R>>(values: &mut V, change: Change<R>)
    requires { ChangesWithin (V.holds values.old) change }
    ensures held { V.holds values.new ≡ V.holds values.old }
    ensures written { V.values values.new ≡ written V.writes (V.values values.old) change }
{
    if let Change::Register { to, value } = change {
        values.write(to, value);
    }
}

fn line_at<L: Copy>(code: &[L], at: u32) -> Option<L>
    ensures { result ≡ slice_get code.now at }
{
    code.get(at as usize).copied()
}

/// What a line at `at` of so many does.
#[inline(always)]
fn line_effect<R: Copy, L: CodeLine<R>, V: Registers<R>>(
    context: u32,
    line: L,
    values: &V,
    memory: &[u32],
    at: u32,
    size: usize,
) -> Effect<R>
    requires few { size < 4294967295 }
    requires within { at < size }
    requires can { CanRunOne (V.holds values.now) size (L.numbered line).instr }
    ensures stays { StaysWithin (V.holds values.now) size result }
    ensures table { (pending : Option R) → result ≡ effect_of_one (kind_by L.numbered V.reads V.writes) context memory.now (L.numbered line) (context_at at (V.values values.now) pending) }
{
    effect(context, line.line(), line.instr(), values, memory, at)
}

/// Does the instructions that are not counted, up to the next counted one, or to where one of them
/// jumps. Most places have a counted one, which is asked for before anything is called.
#[inline(always)]
fn run_uncounted<R: Copy, L: CodeLine<R>, V: Registers<R>>(
    context: u32,
    code: &[L],
    values: &mut V,
    memory: &[u32],
    at: u32,
) -> Reached
    requires runs { CanRun L.numbered (V.holds values.old) code.now }
    requires within { at ≤ length code.now }
    ensures held { V.holds values.new ≡ V.holds values.old }
    ensures within { result.at ≤ length code.now }
    ensures reached { (jump : ActiveContext R V.Values → ActiveContext R V.Values) (pending : Option R) →
        uncounted (kind_by L.numbered V.reads V.writes) context memory.now jump (drop at code.now) (context_at at (V.values values.old) pending)
        ≡ reached jump result.jumped (context_at result.at (V.values values.new) pending) }
{
    match line_at(code, at) {
        Some(line) => {
            if line.counted() {
                Reached { at, jumped: false }
            } else {
                run_glue(context, code, values, memory, at)
            }
        }
        None => Reached { at, jumped: false },
    }
}

/// The same, where the first one is not counted.
#[inline(never)]
fn run_glue<R: Copy, L: CodeLine<R>, V: Registers<R>>(
    context: u32,
    code: &[L],
    values: &mut V,
    memory: &[u32],
    at: u32,
) -> Reached
    requires runs { CanRun L.numbered (V.holds values.old) code.now }
    requires within { at ≤ length code.now }
    ensures held { V.holds values.new ≡ V.holds values.old }
    ensures within { result.at ≤ length code.now }
    ensures reached { (jump : ActiveContext R V.Values → ActiveContext R V.Values) (pending : Option R) →
        uncounted (kind_by L.numbered V.reads V.writes) context memory.now jump (drop at code.now) (context_at at (V.values values.old) pending)
        ≡ reached jump result.jumped (context_at result.at (V.values values.new) pending) }
{
    let mut at = at;
    'lines: while let Some(line) = line_at(code, at) {
        if line.counted() {
            return Reached { at, jumped: false };
        }
        let does = line_effect(context, line, values, memory, at, code.len());
        if does.stopped.is_some() {
            return Reached { at, jumped: false };
        }
        make(values, does.change);
        if does.next != at + 1 {
            return Reached {
                at: does.next,
                jumped: true,
            };
        }
        at = does.next;
    }
    Reached { at, jumped: false }
}

/// Does the instructions that are not counted, and says where the next counted one is.
#[inline(always)]
fn settle<R: Copy, L: CodeLine<R>, V: Registers<R>>(
    context: u32,
    code: &[L],
    values: &mut V,
    memory: &[u32],
    at: u32,
) -> u32
    requires runs { CanRun L.numbered (V.holds values.old) code.now }
    requires within { at ≤ length code.now }
    ensures held { V.holds values.new ≡ V.holds values.old }
    ensures within { result ≤ length code.now }
    ensures settled { (pending : Option R) → settled (kind_by L.numbered V.reads V.writes) context memory.now code.now (context_at at (V.values values.old) pending) ≡ context_at result (V.values values.new) pending }
{
    let first = run_uncounted(context, code, values, memory, at);
    if first.jumped {
        let landed = run_uncounted(context, code, values, memory, first.at);
        landed.at
    } else {
        first.at
    }
}

/// What the instruction at `at` of a context does; after the last one it is a halt.
fn effect_at<R: Copy, L: CodeLine<R>, V: Registers<R>>(
    context: u32,
    code: &[L],
    values: &V,
    memory: &[u32],
    at: u32,
) -> Effect<R>
    requires runs { CanRun L.numbered (V.holds values.now) code.now }
    requires within { at ≤ length code.now }
    ensures stays { StaysWithin (V.holds values.now) (length code.now) result }
    ensures table { (pending : Option R) → result ≡ effect_here (kind_by L.numbered V.reads V.writes) context memory.now code.now (context_at at (V.values values.now) pending) }
{
    match line_at(code, at) {
        Some(line) => line_effect(context, line, values, memory, at, code.len()),
        None => Effect::stops(SegmentExit::Halt, None, at),
    }
}

/// The instructions from a place on, up to the next stop, with so many steps left.
pub(crate) fn stretch<R: Copy, L: CodeLine<R>, V: Registers<R>>(
    context: u32,
    code: &[L],
    values: &mut V,
    memory: &[u32],
    place: ContextPlace<R>,
    left: u32,
) -> Ended<R>
    requires runs { CanRun L.numbered (V.holds values.old) code.now }
    requires placed { IsPlaced (V.holds values.old) (length code.now) place }
    ensures held { V.holds values.new ≡ V.holds values.old }
    ensures placed { IsPlaced (V.holds values.old) (length code.now) result.place }
    ensures bounded { result.steps ≤ left }
    ensures spent { is_cut result.why ≡ false → 1 ≤ result.steps }
    ensures ended { stretch_seen (V.values values.new) result ≡ stretch (kind_by L.numbered V.reads V.writes) context memory.now code.now left (context_at place.at (V.values values.old) place.pending) }
{
    let mut at = settle(context, code, values, memory, place.at);
    let mut steps = 0;
    'steps: while steps < left {
        let Effect {
            change,
            next,
            stopped,
        } = effect_at(context, code, values, memory, at);
        make(values, change);
        steps += 1;
        if let Some(Stopped { why, pending }) = stopped {
            let place = ContextPlace { at: next, pending };
            return Ended { place, steps, why };
        }
        at = settle(context, code, values, memory, next);
    }
    let place = ContextPlace {
        at,
        pending: place.pending,
    };
    Ended {
        place,
        steps,
        why: SegmentExit::Bound,
    }
}

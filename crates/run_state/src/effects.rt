//! What one instruction does, over registers of any kind.

ghost use Rattle.std.specs.Prelude.{◌≡◌, ◌+◌, ◌<◌, Option, None, if◌then◌else◌};
ghost use Rattle.semantics.specs.declared.SegmentExit.TheVariants.{Store as StoreOf};
ghost use Rattle.semantics.specs.declared.Change.TheVariants.{Nothing as NothingOf, Register as RegisterOf};
ghost use Rattle.semantics.specs.Effects.{effect_of, divided, onward, stops};

use crate::registers::Registers;
use micro_isa::{Instr, alu, divide, test_holds};
use semantics::{Change, Effect, SegmentExit};

/// What this instruction does on these registers and this memory, as the one at `at` of a context.
#[inline(always)]
pub(crate) fn effect<R: Copy, V: Registers<R>>(
    context: u32,
    line: u32,
    instr: Instr<R>,
    values: &V,
    memory: &[u32],
    at: u32,
) -> Effect<R>
    requires { at < 4294967295 }
    ensures { (pending : Option R) → result ≡ effect_of context line instr (V.reads (V.values values.now)) memory.now (record { at = at; pending = pending }) }
{
    match instr {
        Instr::Li { to, n } => written(to, n, at),
        Instr::Mov { to, from } => written(to, values.read(from), at),
        Instr::Alu { op, to, a, b } => written(to, alu(op, values.read(a), values.read(b)), at),
        Instr::Div { op, to, a, b } => {
            let quotient = divide(op, values.read(a), values.read(b));
            divided(quotient, to, line, at)
        }
        Instr::Ctx { to } => written(to, context, at),
        Instr::Jmp { target } => Effect::onward(Change::Nothing, target),
        Instr::Branch { test, a, b, target } => {
            let taken = test_holds(test, values.read(a), values.read(b));
            branched(taken, target, at)
        }
        Instr::Load { to, address } => {
            let address = values.read(address);
            Effect::stops(SegmentExit::Load { address, line }, Some(to), at + 1)
        }
        Instr::Store { address, from } => {
            stored(values.read(address), values.read(from), line, at)
        }
        Instr::Yield => Effect::stops(SegmentExit::Yield, None, at + 1),
        Instr::Recv { to, channel } => Effect::stops(
            SegmentExit::Recv { channel },
            Some(to),
            at + 1,
        ),
        Instr::Send { channel, from } => {
            let word = values.read(from);
            Effect::stops(SegmentExit::Send { channel, word }, None, at + 1)
        }
        Instr::Halt => Effect::stops(SegmentExit::Halt, None, at),
    }
}

/// A write, after which the next instruction comes.
fn written<R>(to: R, value: u32, at: u32) -> Effect<R>
    requires { at < 4294967295 }
    ensures { result ≡ onward (RegisterOf to value) (at + 1) }
{
    Effect::onward(Change::Register { to, value }, at + 1)
}

/// The target where a jump is taken, else the next instruction.
fn branched<R>(taken: bool, target: u32, at: u32) -> Effect<R>
    requires { at < 4294967295 }
    ensures { result ≡ onward NothingOf (if taken then target else at + 1) }
{
    Effect::onward(Change::Nothing, if taken { target } else { at + 1 })
}

/// What a division does: it writes its quotient, or traps where there is none.
fn divided<R: Copy>(quotient: Option<u32>, to: R, line: u32, at: u32) -> Effect<R>
    requires { at < 4294967295 }
    ensures { result ≡ divided quotient to line at }
{
    match quotient {
        Some(value) => written(to, value, at),
        None => Effect::stops(SegmentExit::Divide { line }, None, at),
    }
}

fn stored<R>(address: u32, word: u32, line: u32, at: u32) -> Effect<R>
    requires { at < 4294967295 }
    ensures { result ≡ stops (StoreOf address word line) None (at + 1) }
{
    let why = SegmentExit::Store {
        address,
        word,
        line,
    };
    Effect::stops(why, None, at + 1)
}

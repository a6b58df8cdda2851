//! What a stretch of instructions leaves in the phases and in memory.

ghost use Rattle.std.specs.Prelude.{◌≡◌, ◌<◌, length, slice_get, slice_set};
ghost use Rattle.world.specs.declared.event.Phase.TheVariants.{Ready as ReadyPhase};
ghost use Rattle.semantics.specs.Core.{phase_after, end_after, memory_after};
ghost use Rattle.run_state.specs.Sending.{due_phase};

use semantics::SegmentExit;
use world::{Phase, SegmentEnd, Trap, World};

pub(crate) fn phase_at(phases: &[Phase], context: u32) -> Option<Phase>
    ensures { result ≡ slice_get phases.now context }
{
    phases.get(context as usize).copied()
}

pub(crate) fn make_ready(phases: &mut Vec<Phase>, context: u32)
    requires { context < length phases.old.items }
    ensures { phases.new.items ≡ slice_set phases.old.items context ReadyPhase }
{
    phases[context as usize] = Phase::Ready;
}

/// The phase that a context is left in.
#[tactic(auto, using(crate::proofs::Memory::found_phase))]
pub(crate) fn phase_after(world: &World, why: SegmentExit) -> Phase
    ensures { result ≡ phase_after world.now.memory why }
{
    match why {
        SegmentExit::Yield | SegmentExit::Bound => Phase::Ready,
        SegmentExit::Load { address, line } => due_phase(world, address, line),
        SegmentExit::Store { address, line, .. } => {
            if (address as usize) < world.memory_size() {
                Phase::Ready
            } else {
                Phase::Trapped {
                    trap: Trap::Address,
                    line,
                }
            }
        }
        SegmentExit::Recv { channel } => Phase::Receiving(channel),
        SegmentExit::Send { channel, word } => Phase::Sending { channel, word },
        SegmentExit::Halt => Phase::Halted,
        SegmentExit::Divide { line } => Phase::Trapped {
            trap: Trap::Divide,
            line,
        },
    }
}

fn due_phase(world: &World, address: u32, line: u32) -> Phase
    ensures { result ≡ due_phase line (slice_get world.now.memory address) }
{
    match world.load(address) {
        Ok(word) => Phase::Due(word),
        Err(trap) => Phase::Trapped { trap, line },
    }
}

/// How a segment ended.
pub(crate) fn end_after(world: &World, why: SegmentExit) -> SegmentEnd
    ensures { result ≡ end_after world.now.memory why }
{
    match why {
        SegmentExit::Yield => SegmentEnd::Yield,
        SegmentExit::Load { address, .. } => {
            if (address as usize) < world.memory_size() {
                SegmentEnd::Load
            } else {
                SegmentEnd::Trap(Trap::Address)
            }
        }
        SegmentExit::Store { address, .. } => {
            if (address as usize) < world.memory_size() {
                SegmentEnd::Store
            } else {
                SegmentEnd::Trap(Trap::Address)
            }
        }
        SegmentExit::Recv { .. } => SegmentEnd::Recv,
        SegmentExit::Send { .. } => SegmentEnd::Send,
        SegmentExit::Halt => SegmentEnd::Halt,
        SegmentExit::Divide { .. } => SegmentEnd::Trap(Trap::Divide),
        SegmentExit::Bound => SegmentEnd::Bound,
    }
}

/// Does the store that a stretch ended with.
pub(crate) fn store(world: &mut World, why: SegmentExit)
    ensures { world.new ≡ record world.old { memory = memory_after world.old.memory why } }
{
    if let SegmentExit::Store { address, word, .. } = why {
        let _stored = world.store(address, word);
    }
}

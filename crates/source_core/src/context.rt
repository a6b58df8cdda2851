//! One context: what it keeps between its segments, and what it does in one.

ghost use Rattle.std.specs.Prelude.{◌≡◌, None};
ghost use Rattle.world.specs.declared.event.Event.TheVariants.{Run as RunOf};
ghost use Rattle.world.specs.declared.event.Seen.TheVariants.{Ran as RanOf};
ghost use Rattle.semantics.specs.Core.{illegal_of};
ghost use Rattle.semantics.specs.Source.{source_kind};
ghost use Rattle.run_state.specs.Segments.{GoesOn, segment_of};
ghost use Rattle.source_core.specs.SourceState.{seen_context, IsContext};

use micro_isa::{Line, VReg};
use run_state::{ContextPlace, RegisterList, RunCore, segment};
use world::Segment;

/// Where a context stands, the register that the word of its completion goes to, and its registers.
#[derive(Debug, Drop)]
pub struct ContextState {
    pub place: ContextPlace<VReg>,
    pub registers: RegisterList,
}

/// One segment of a context that may run.
pub(crate) fn go_on(
    core: &mut RunCore,
    context: u32,
    code: &[Line],
    state: &mut ContextState,
) -> Segment
    requires legal { illegal_of core.old (RunOf context) ≡ None }
    requires context { IsContext code.now state.old }
    ensures context { IsContext code.now state.new }
    ensures goes_on { GoesOn core.old core.new }
    ensures segment { segment_of source_kind context code.now core.old (seen_context state.old) ≡ (record { core = core.new; state = seen_context state.new }, RanOf result) }
{
    segment(core, context, code, &mut state.registers, &mut state.place)
}

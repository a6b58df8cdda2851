//! One segment of a context: its completion, and its instructions up to the next stop.

ghost use Rattle.std.specs.Prelude.{◌≡◌, ℕ, IfSome, None, length, true};
ghost use Rattle.world.specs.declared.event.Event.TheVariants.{Run as RunOf};
ghost use Rattle.world.specs.declared.event.Seen.TheVariants.{Ran as RanOf};
ghost use Rattle.semantics.specs.Core.{illegal_of};
ghost use Rattle.semantics.specs.Stretches.{received};
ghost use Rattle.run_state.specs.Running.{kind_by, same_line, context_at, CanRun, IsPlaced};
ghost use Rattle.run_state.specs.Segments.{GoesOn, segment_of};

use crate::core_state::RunCore;
use crate::registers::{CodeLine, Registers};
use crate::stretch::{ContextPlace, stretch};
use world::Segment;

/// One segment of a context that may run: the completion of what it waits for, whose word goes to
/// the register that waits for it, and its instructions up to the next stop.
pub fn segment<R: Copy, L: CodeLine<R>, V: Registers<R>>(
    core: &mut RunCore,
    context: u32,
    code: &[L],
    values: &mut V,
    place: &mut ContextPlace<R>,
) -> Segment
    requires legal { illegal_of core.old (RunOf context) ≡ None }
    requires runs { CanRun L.numbered (V.holds values.old) code.now }
    requires placed { IsPlaced (V.holds values.old) (length code.now) place.old }
    ensures held { V.holds values.new ≡ V.holds values.old }
    ensures placed { IsPlaced (V.holds values.old) (length code.now) place.new }
    ensures goes_on { GoesOn core.old core.new }
    ensures segment { segment_of (kind_by L.numbered V.reads V.writes) context code.now core.old (context_at place.old.at (V.values values.old) place.old.pending)
        ≡ (record { core = core.new; state = context_at place.new.at (V.values values.new) place.new.pending }, RanOf result) }
{
    let done = core.complete(context);
    let pending = deliver(values, place.pending, done.received);
    let from = ContextPlace {
        at: place.at,
        pending,
    };
    let left = core.steps_left();
    let ended = stretch(context, code, values, core.memory(), from, left);
    *place = ended.place;
    let end = core.finish(context, ended.steps, ended.why);
    Segment {
        steps: ended.steps,
        end,
        sent: done.sent,
    }
}

/// Hands the word of a completion to the register that waits for it.
fn deliver<R: Copy, V: Registers<R>>(
    values: &mut V,
    pending: Option<R>,
    word: Option<u32>,
) -> Option<R>
    requires { IfSome pending (λ r. V.holds values.old r ≡ true) }
    ensures held { V.holds values.new ≡ V.holds values.old }
    ensures pending { IfSome result (λ r. V.holds values.old r ≡ true) }
    ensures delivered { (at : ℕ) → context_at at (V.values values.new) result ≡ received (kind_by same_line V.reads V.writes) pending word (context_at at (V.values values.old) pending) }
{
    match (pending, word) {
        (Some(register), Some(word)) => {
            values.write(register, word);
            None
        }
        _ => pending,
    }
}

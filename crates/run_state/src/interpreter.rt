ghost use Rattle.std.specs.Prelude.{◌≡◌, ◌≤◌, None, Some, false, length, true};
ghost use Rattle.micro_isa.specs.declared.limits.TheConstants.{MOST_CONTEXTS};
ghost use Rattle.world.specs.WorldState.{is_plugged};
ghost use Rattle.world.specs.declared.event.Event.TheVariants.{Run as RunOf, Unplug as UnplugOf};
ghost use Rattle.world.specs.declared.event.Seen.TheVariants.{Ran as RanOf, Unplugged as UnpluggedOf};
ghost use Rattle.semantics.specs.Core.{ending_of, illegal_of, is_runnable};
ghost use Rattle.semantics.specs.Events.{Semantics, Config, fire, step};
ghost use Rattle.run_state.specs.Segments.{GoesOn};

use crate::core_state::RunCore;
use world::{End, Event, Illegal, Segment};

/// A run that goes on segment by segment: of the sources, or of an image.
pub trait Interpreter {
    /// Its places and registers.
    ghost State: { Type 0 };

    /// What a stretch of a context does to them.
    ghost rules: { Self → Semantics State };

    /// The configuration of the run that it stands for.
    ghost config: { Self → Config State };

    /// All of the run but its registers and places.
    fn core(&self) -> &RunCore
        ensures core { result.now ≡ (config self.now).core }
        ensures few { length (config self.now).core.phases ≤ MOST_CONTEXTS };

    /// The number of contexts.
    fn contexts(&self) -> u32
        ensures number { result ≡ length (config self.now).core.phases }
        ensures small { result ≤ MOST_CONTEXTS }
    {
        self.core().contexts() as u32
    }

    /// Whether a context can go on; false where there is none of this number.
    fn runnable(&self, context: u32) -> bool
        ensures { result ≡ is_runnable (config self.now).core context }
    {
        self.core().is_runnable(context)
    }

    /// How the run ended, if it did: cut by the bound, finished, or stuck.
    fn ending(&self) -> Option<End>
        ensures { result ≡ ending_of (config self.now).core }
    {
        self.core().ending()
    }

    /// Whether the port of a channel is plugged; false where there is none of this number.
    fn plugged(&self, channel: u8) -> bool
        ensures { result ≡ is_plugged (config self.now).core.world channel }
    {
        self.core().plugged(channel)
    }

    /// The first cause for which an event may not happen.
    fn illegal(&self, event: Event) -> Option<Illegal>
        ensures { result ≡ illegal_of (config self.now).core event }
    {
        self.core().illegal(event)
    }

    /// One segment of a context that may run: the completion of what it waits for, and its
    /// instructions up to the next stop.
    fn segment(&mut self, context: u32) -> Segment
        requires legal { illegal_of (config self.old).core (RunOf context) ≡ None }
        ensures rules { rules self.new ≡ rules self.old }
        ensures fire { fire (rules self.old) (config self.old) (RunOf context) ≡ (config self.new, RanOf result) }
        ensures goes_on { GoesOn (config self.old).core (config self.new).core };

    /// Unplugs the port of a channel, where it is plugged and the bound did not end the run.
    fn unplug(&mut self, channel: u8)
        requires plugged { is_plugged (config self.old).core.world channel ≡ true }
        requires goes { (config self.old).core.over ≡ false }
        ensures rules { rules self.new ≡ rules self.old }
        ensures step { step (rules self.old) (config self.old) (UnplugOf channel) ≡ Some (config self.new, UnpluggedOf) };
}

ghost use Rattle.std.specs.Prelude.{◌≡◌, ◌+◌, ◌≤◌, ◌<◌, IfOk, None, Some, true, false, length, slice_get, slice_set};
ghost use Rattle.world.specs.WorldState.{can_receive, can_send, can_feed, is_plugged, received_from, after_receive, after_send, put_out, after_feed, after_unplug};
ghost use Rattle.world.specs.declared.event.Event.TheVariants.{Run as RunOf};
ghost use Rattle.world.specs.declared.event.Phase.TheVariants.{Ready as ReadyPhase, Sending as SendingPhase};
ghost use Rattle.semantics.specs.Core.{opening_core, steps_left, is_runnable, illegal_of, illegal_run, completion, completed, finished, end_after, is_cut, ending_of, shown_core, some_runnable};

use crate::{legality, stops};
use micro_isa::{List, NoMemory, Setting};
use semantics::SegmentExit;
use std::alloc::Global;
use std::marker::Model;
use world::{End, Event, Illegal, Output, Phase, SegmentEnd, View, World};

/// What a completion gave: the word that goes to the pending register, and the word that was put
/// out.
#[derive(Clone, Copy, Debug, PartialEq, Eq)]
pub(crate) struct Completion {
    pub received: Option<u32>,
    pub sent: Option<Output>,
}

/// All of a run but its registers and places. Opening it takes all the memory that it will need.
#[derive(Drop)]
pub struct RunCore {
    world: World,
    phases: Vec<Phase>,
    steps: u32,
    over: bool,
}

impl Model for RunCore {
    ghost use Rattle.std.specs.Prelude.{◌≤◌, ◌+◌, length};
    ghost use Rattle.semantics.specs.Core.{Core};
    ghost use Rattle.run_state.specs.Sending.{sending_in};

    ghost Value = { Core };

    ghost view = { λ c. record { world = c.world; phases = c.phases.items; steps = c.steps; over = c.over } };

    ghost invariant = { λ c. (length c.world.outputs + sending_in c.phases.items ≤ c.steps) × (c.steps ≤ c.world.bound) };
}

impl RunCore {
    /// The opening of a run of so many contexts, of at most `bound` steps.
    #[tactic(auto, using(crate::proofs::Counting::none_sending))]
    pub fn open(
        alloc: Global,
        setting: &Setting,
        contexts: usize,
        bound: u32,
    ) -> Result<RunCore, NoMemory>
        ensures { IfOk result (λ core. core ≡ opening_core setting.now contexts bound) }
    {
        let world = World::open(alloc, setting, bound)?;
        match vec![in alloc; Phase::Ready; contexts] {
            Ok(phases) => Ok(RunCore {
                world,
                phases,
                steps: 0,
                over: false,
            }),
            Err(_) => Err(NoMemory),
        }
    }

    /// The first cause for which an event may not happen.
    pub fn illegal(&self, event: Event) -> Option<Illegal>
        ensures { result ≡ illegal_of self.now event }
    {
        if self.over {
            return Some(Illegal::Over);
        }
        match event {
            Event::Run(context) => self.illegal_run(context),
            Event::Feed { channel, .. } => legality::illegal_fed(self.world.channel(channel)),
            Event::Unplug { channel } => {
                legality::illegal_unplugged(self.world.channel(channel))
            }
        }
    }

    fn illegal_run(&self, context: u32) -> Option<Illegal>
        requires { self.now.over ≡ false }
        ensures { result ≡ illegal_run self.now context }
    {
        if context as usize >= self.phases.len() {
            Some(Illegal::NoContext)
        } else if self.is_runnable(context) {
            None
        } else {
            Some(Illegal::NotRunnable)
        }
    }

    /// The number of contexts.
    pub(crate) fn contexts(&self) -> usize
        ensures { result ≡ length self.now.phases }
    {
        self.phases.len()
    }

    /// Whether a context can go on; false where there is none of this number.
    pub fn is_runnable(&self, context: u32) -> bool
        ensures { result ≡ is_runnable self.now context }
    {
        legality::can_go_on(&self.world, stops::phase_at(&self.phases, context))
    }

    /// How the run ended, if it did.
    pub fn ending(&self) -> Option<End>
        ensures { result ≡ ending_of self.now }
    {
        if self.over {
            Some(End::Bound)
        } else if legality::all_ended(&self.phases) {
            Some(End::Finished)
        } else if self.some_runnable() || self.world.has_open_input() {
            None
        } else {
            Some(End::Stuck)
        }
    }

    /// Whether some context can go on.
    pub fn some_runnable(&self) -> bool
        ensures { result ≡ some_runnable self.now }
    {
        legality::some_runnable(&self.world, &self.phases)
    }

    /// The steps that are left.
    pub(crate) fn steps_left(&self) -> u32
        ensures left { result ≡ steps_left self.now }
        ensures fits { self.now.steps + result ≡ self.now.world.bound }
    {
        self.world.bound() - self.steps
    }

    /// The words of memory.
    pub(crate) fn memory(&self) -> &[u32]
        ensures { result.now ≡ self.now.world.memory }
    {
        self.world.memory()
    }

    /// Does what a context waits for.
    pub(crate) fn complete(&mut self, context: u32) -> Completion
        requires { illegal_of self.old (RunOf context) ≡ None }
        ensures gives { completion self.old context ≡ record { received = result.received; sent = result.sent; world = self.new.world } }
        ensures core { self.new ≡ completed self.old context }
    {
        match stops::phase_at(&self.phases, context) {
            Some(Phase::Due(word)) => {
                self.make_ready(context);
                Completion {
                    received: Some(word),
                    sent: None,
                }
            }
            Some(Phase::Receiving(channel)) => Completion {
                received: Some(self.receive_for(context, channel)),
                sent: None,
            },
            Some(Phase::Sending { channel, word }) => Completion {
                received: None,
                sent: self.send_for(context, channel, word),
            },
            _ => {
                self.make_ready(context);
                Completion {
                    received: None,
                    sent: None,
                }
            }
        }
    }

    #[tactic(auto, using(crate::proofs::Counting::set_more))]
    fn make_ready(&mut self, context: u32)
        requires { context < length self.old.phases }
        ensures { self.new ≡ record self.old { phases = slice_set self.old.phases context ReadyPhase } }
    {
        stops::make_ready(&mut self.phases, context);
    }

    #[tactic(auto, using(crate::proofs::Counting::set_more))]
    fn receive_for(&mut self, context: u32, channel: u8) -> u32
        requires there { context < length self.old.phases }
        requires word { can_receive self.old.world channel ≡ true }
        ensures received { received_from self.old.world channel ≡ Some result }
        ensures core { self.new ≡ record self.old { world = after_receive self.old.world channel; phases = slice_set self.old.phases context ReadyPhase } }
    {
        stops::make_ready(&mut self.phases, context);
        self.world.receive(channel)
    }

    #[tactic(auto, using(crate::proofs::Counting::sent_less, crate::proofs::Counting::sends_one))]
    fn send_for(&mut self, context: u32, channel: u8, word: u32) -> Option<Output>
        requires there { context < length self.old.phases }
        requires waits { slice_get self.old.phases context ≡ Some (SendingPhase channel word) }
        requires takes { can_send self.old.world channel ≡ true }
        ensures sent { result ≡ put_out self.old.world channel word }
        ensures core { self.new ≡ record self.old { world = after_send self.old.world channel word; phases = slice_set self.old.phases context ReadyPhase } }
    {
        stops::make_ready(&mut self.phases, context);
        self.world.send(channel, word)
    }

    /// Does what a stretch of instructions ended with.
    #[tactic(auto, using(crate::proofs::Counting::set_more, crate::proofs::Counting::sends_spent))]
    pub(crate) fn finish(&mut self, context: u32, steps: u32, why: SegmentExit) -> SegmentEnd
        requires there { context < length self.old.phases }
        requires left { self.old.steps + steps ≤ self.old.world.bound }
        requires spent { is_cut why ≡ false → 1 ≤ steps }
        ensures core { self.new ≡ finished self.old context steps why }
        ensures end { result ≡ end_after self.old.world.memory why }
    {
        let _bound = self.world.bound();
        let end = stops::end_after(&self.world, why);
        let phase = stops::phase_after(&self.world, why);
        self.steps += steps;
        stops::store(&mut self.world, why);
        self.phases[context as usize] = phase;
        self.over = matches!(why, SegmentExit::Bound);
        end
    }

    /// Feeds a word to an input.
    pub fn feed(&mut self, channel: u8, word: u32)
        requires { can_feed self.old.world channel ≡ true }
        ensures { self.new ≡ record self.old { world = after_feed self.old.world channel word } }
    {
        self.world.feed(channel, word);
    }

    /// Unplugs the port of a channel.
    pub fn unplug(&mut self, channel: u8)
        requires { is_plugged self.old.world channel ≡ true }
        ensures { self.new ≡ record self.old { world = after_unplug self.old.world channel } }
    {
        self.world.unplug(channel);
    }

    /// Whether a word can be fed to a channel: it is a plugged input whose ring has room.
    pub fn can_feed(&self, channel: u8) -> bool
        ensures { result ≡ can_feed self.now.world channel }
    {
        self.world.can_feed(channel)
    }

    /// Whether the port of a channel is plugged.
    pub fn plugged(&self, channel: u8) -> bool
        ensures { result ≡ is_plugged self.now.world channel }
    {
        self.world.plugged(channel)
    }

    /// What the run shows.
    pub fn view(&self, alloc: Global) -> Result<View, NoMemory>
        ensures { IfOk result (λ view. view ≡ shown_core self.now) }
    {
        match Vec::from_slice(alloc, &self.phases) {
            Ok(phases) => self.world.view(alloc, self.steps, List::of(phases)),
            Err(_) => Err(NoMemory),
        }
    }
}

ghost use Rattle.std.specs.Prelude.{◌≡◌, ◌≤◌, IfOk, IfErr, None, Some, false, map, true};
ghost use Rattle.micro_isa.specs.declared.limits.TheConstants.{MOST_STEPS};
ghost use Rattle.world.specs.WorldState.{is_plugged};
ghost use Rattle.micro_isa.specs.Formed.{IsFormedBundle};
ghost use Rattle.world.specs.declared.event.Event.TheVariants.{Run as RunOf, Unplug as UnplugOf};
ghost use Rattle.world.specs.declared.event.Seen.TheVariants.{Ran as RanOf, Unplugged as UnpluggedOf};
ghost use Rattle.semantics.specs.Core.{illegal_of, shown_core};
ghost use Rattle.semantics.specs.Events.{fire, step};
ghost use Rattle.semantics.specs.Source.{Contexts, code_of, source_semantics, source_open};
ghost use Rattle.run_state.specs.Segments.{GoesOn};
ghost use Rattle.source_core.specs.SourceState.{config_of, start_of, IsSound};

use crate::context::{ContextState, go_on};
use micro_isa::{Bundle, Line, NoMemory, Program};
use run_state::{ContextPlace, Interpreter, RegisterList, RunCore};
use std::alloc::Global;
use std::marker::Model;
use world::{Event, Illegal, Seen, Segment, View};

/// A run of a bundle. Opening it takes all the memory that it will need; only `view` takes more.
#[derive(Drop)]
pub struct SourceRun {
    bundle: Bundle,
    core: RunCore,
    contexts: Vec<ContextState>,
}

impl Model for SourceRun {
    ghost use Rattle.source_core.specs.SourceState.{SourceState, IsSound};

    ghost Value = { SourceState };

    ghost view = { λ s. record { bundle = s.bundle; core = s.core; contexts = s.contexts.items } };

    ghost invariant = { λ s. IsSound s.bundle s.core s.contexts.items };
}

impl SourceRun {
    /// The opening of a formed bundle, to be run for at most `bound` steps. The run keeps a copy of
    /// the bundle.
    pub fn open(alloc: Global, bundle: &Bundle, bound: u32) -> Result<SourceRun, NoMemory>
        requires formed { IsFormedBundle bundle.now }
        requires bound { bound ≤ MOST_STEPS }
        ensures bundle { IfOk result (λ run. run.bundle ≡ bundle.now) }
        ensures opening { IfOk result (λ run. config_of run ≡ source_open bundle.now bound) }
    {
        let core = RunCore::open(alloc, &bundle.setting, bundle.programs.len(), bound)?;
        let contexts = starts(alloc, bundle.programs.as_slice())?;
        let bundle = bundle.copy(alloc)?;
        Ok(SourceRun {
            bundle,
            core,
            contexts,
        })
    }

    /// One event. An illegal one changes nothing and is answered by its first cause.
    pub fn event(&mut self, event: Event) -> Result<Seen, Illegal>
        ensures bundle { self.new.bundle ≡ self.old.bundle }
        ensures legal { IfOk result (λ seen. step (source_semantics self.old.bundle) (config_of self.old) event ≡ Some (config_of self.new, seen)) }
        ensures illegal { IfErr result (λ why. (illegal_of self.old.core event ≡ Some why) × (self.new ≡ self.old)) }
    {
        match self.illegal(event) {
            Some(why) => Err(why),
            None => Ok(self.happen(event)),
        }
    }

    #[tactic(auto, using(semantics::proofs::Ports::legal_feed, semantics::proofs::Ports::legal_unplug))]
    fn happen(&mut self, event: Event) -> Seen
        requires legal { illegal_of self.old.core event ≡ None }
        ensures bundle { self.new.bundle ≡ self.old.bundle }
        ensures fire { fire (source_semantics self.old.bundle) (config_of self.old) event ≡ (config_of self.new, result) }
    {
        match event {
            Event::Run(context) => Seen::Ran(self.segment(context)),
            Event::Feed { channel, word } => {
                self.core.feed(channel, word);
                Seen::Fed
            }
            Event::Unplug { channel } => {
                self.core.unplug(channel);
                Seen::Unplugged
            }
        }
    }

    /// What the run shows.
    pub fn view(&self, alloc: Global) -> Result<View, NoMemory>
        ensures { IfOk result (λ view. view ≡ shown_core self.now.core) }
    {
        self.core.view(alloc)
    }
}

impl Interpreter for SourceRun {
    ghost State = { Contexts };

    ghost rules = { λ s. source_semantics s.bundle };

    ghost config = { config_of };

    fn core(&self) -> &RunCore {
        &self.core
    }

    fn segment(&mut self, context: u32) -> Segment
        requires legal { illegal_of self.old.core (RunOf context) ≡ None }
        ensures bundle { self.new.bundle ≡ self.old.bundle }
        ensures fire { fire (source_semantics self.old.bundle) (config_of self.old) (RunOf context) ≡ (config_of self.new, RanOf result) }
        ensures goes_on { GoesOn self.old.core self.new.core }
    {
        segment_of(&self.bundle, &mut self.core, &mut self.contexts, context)
    }

    #[tactic(auto, using(crate::proofs::Ports::unplugs))]
    fn unplug(&mut self, channel: u8)
        requires plugged { is_plugged self.old.core.world channel ≡ true }
        requires goes { self.old.core.over ≡ false }
        ensures bundle { self.new.bundle ≡ self.old.bundle }
        ensures step { step (source_semantics self.old.bundle) (config_of self.old) (UnplugOf channel) ≡ Some (config_of self.new, UnpluggedOf) }
    {
        self.core.unplug(channel);
    }
}

fn starts(alloc: Global, programs: &[Program]) -> Result<Vec<ContextState>, NoMemory>
    ensures { IfOk result (λ contexts. contexts.items ≡ map start_of programs.now) }
{
    let mut contexts = Vec::new(alloc);
    for program in programs {
        let registers = RegisterList::zeros(alloc, program.registers.len())?;
        let place = ContextPlace {
            at: 0,
            pending: None,
        };
        let start = ContextState { place, registers };
        if contexts.push(start).is_err() {
            return Err(NoMemory);
        }
    }
    Ok(contexts)
}

fn segment_of(
    bundle: &Bundle,
    core: &mut RunCore,
    contexts: &mut [ContextState],
    context: u32,
) -> Segment
    requires sound { IsSound bundle.now core.old contexts.old }
    requires legal { illegal_of core.old (RunOf context) ≡ None }
    ensures sound { IsSound bundle.now core.new contexts.new }
    ensures goes_on { GoesOn core.old core.new }
    ensures fire { fire (source_semantics bundle.now) (config_of (record { bundle = bundle.now; core = core.old; contexts = contexts.old })) (RunOf context)
        ≡ (config_of (record { bundle = bundle.now; core = core.new; contexts = contexts.new }), RanOf result) }
{
    let code = code_of(bundle, context);
    go_on(core, context, code, &mut contexts[context as usize])
}

fn code_of(bundle: &Bundle, context: u32) -> &[Line]
    ensures { result.now ≡ code_of bundle.now context }
{
    match bundle.programs.get(context as usize) {
        Some(program) => program.code.as_slice(),
        None => &[],
    }
}

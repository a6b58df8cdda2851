ghost use Rattle.std.specs.Prelude.{◌≡◌, ◌≤◌, IfOk, None, Some, false, replicate, true};
ghost use Rattle.micro_isa.specs.declared.limits.TheConstants.{MOST_STEPS};
ghost use Rattle.micro_isa.specs.Formed.{IsFormedImage};
ghost use Rattle.world.specs.WorldState.{can_feed, is_plugged};
ghost use Rattle.world.specs.declared.event.Event.TheVariants.{Run as RunOf, Feed as FeedOf, Unplug as UnplugOf};
ghost use Rattle.world.specs.declared.event.Seen.TheVariants.{Ran as RanOf, Fed as FedOf, Unplugged as UnpluggedOf};
ghost use Rattle.semantics.specs.Core.{illegal_of, shown_core, some_runnable};
ghost use Rattle.semantics.specs.Events.{fire, step};
ghost use Rattle.semantics.specs.Machine.{Machine, machine_semantics, machine_open, words_of};
ghost use Rattle.engine_core.specs.EngineState.{config_of, IsSound, LeavesOthers};
ghost use Rattle.run_state.specs.Segments.{GoesOn};

use micro_isa::{Image, NoMemory, PReg, Word};
use run_state::{ContextPlace, Interpreter, RegisterList, RunCore, segment};
use std::alloc::Global;
use std::marker::Model;
use world::{Segment, View};

/// A run of an image. Opening it takes all the memory that it will need; only `view` takes more.
#[derive(Drop)]
pub struct Engine {
    image: Image,
    core: RunCore,
    file: RegisterList,
    contexts: Vec<ContextPlace<PReg>>,
}

impl Model for Engine {
    ghost use Rattle.engine_core.specs.EngineState.{EngineState, IsSound};

    ghost Value = { EngineState };

    ghost view = { λ e. record { image = e.image; core = e.core; file = e.file; contexts = e.contexts.items } };

    ghost invariant = { λ e. IsSound e.image e.core e.contexts.items };
}

impl Engine {
    /// The opening of a formed image, to be run for at most `bound` steps. The engine keeps a copy
    /// of the image.
    pub fn open(alloc: Global, image: &Image, bound: u32) -> Result<Engine, NoMemory>
        requires formed { IsFormedImage image.now }
        requires bound { bound ≤ MOST_STEPS }
        ensures image { IfOk result (λ engine. engine.image ≡ image.now) }
        ensures opening { IfOk result (λ engine. config_of engine ≡ machine_open image.now bound) }
    {
        match image.copy(alloc) {
            Ok(image) => Engine::of(alloc, image, bound),
            Err(NoMemory) => Err(NoMemory),
        }
    }

    /// The same over an image that is taken.
    pub fn of(alloc: Global, image: Image, bound: u32) -> Result<Engine, NoMemory>
        requires formed { IsFormedImage image }
        requires bound { bound ≤ MOST_STEPS }
        ensures image { IfOk result (λ engine. engine.image ≡ image) }
        ensures opening { IfOk result (λ engine. config_of engine ≡ machine_open image bound) }
    {
        let core = RunCore::open(alloc, &image.setting, image.contexts.len(), bound)?;
        let file = RegisterList::zeros(alloc, image.file as usize)?;
        let contexts = starts(alloc, image.contexts.len())?;
        Ok(Engine {
            image,
            core,
            file,
            contexts,
        })
    }

    /// What the run shows.
    pub fn view(&self, alloc: Global) -> Result<View, NoMemory>
        ensures { IfOk result (λ view. view ≡ shown_core self.now.core) }
    {
        self.core.view(alloc)
    }

    /// The registers of the file.
    pub fn file(&self) -> &[u32]
        ensures { result.now ≡ self.now.file }
    {
        self.file.as_slice()
    }

    /// The image that is run.
    pub fn image(&self) -> &Image
        ensures { result.now ≡ self.now.image }
    {
        &self.image
    }

    /// Whether some context can go on.
    pub fn some_runnable(&self) -> bool
        ensures { result ≡ some_runnable self.now.core }
    {
        self.core.some_runnable()
    }

    /// Whether a word can be fed to a channel: it is a plugged input whose ring has room.
    pub fn can_feed(&self, channel: u8) -> bool
        ensures { result ≡ can_feed self.now.core.world channel }
    {
        self.core.can_feed(channel)
    }

    /// Feeds a word to an input, where the bound did not end the run.
    #[tactic(auto, using(crate::proofs::Ports::feeds))]
    pub fn feed(&mut self, channel: u8, word: u32)
        requires feeds { can_feed self.old.core.world channel ≡ true }
        requires goes { self.old.core.over ≡ false }
        ensures image { self.new.image ≡ self.old.image }
        ensures step { step (machine_semantics self.old.image) (config_of self.old) (FeedOf channel word) ≡ Some (config_of self.new, FedOf) }
    {
        self.core.feed(channel, word);
    }
}

impl Interpreter for Engine {
    ghost State = { Machine };

    ghost rules = { λ e. machine_semantics e.image };

    ghost config = { config_of };

    fn core(&self) -> &RunCore {
        &self.core
    }

    fn segment(&mut self, context: u32) -> Segment
        requires legal { illegal_of self.old.core (RunOf context) ≡ None }
        ensures image { self.new.image ≡ self.old.image }
        ensures fire { fire (machine_semantics self.old.image) (config_of self.old) (RunOf context) ≡ (config_of self.new, RanOf result) }
        ensures goes_on { GoesOn self.old.core self.new.core }
        ensures elsewhere { LeavesOthers self.old.image context self.old.file self.new.file }
    {
        segment_of(
            &self.image,
            &mut self.core,
            &mut self.file,
            &mut self.contexts,
            context,
        )
    }

    #[tactic(auto, using(crate::proofs::Ports::unplugs))]
    fn unplug(&mut self, channel: u8)
        requires plugged { is_plugged self.old.core.world channel ≡ true }
        requires goes { self.old.core.over ≡ false }
        ensures image { self.new.image ≡ self.old.image }
        ensures step { step (machine_semantics self.old.image) (config_of self.old) (UnplugOf channel) ≡ Some (config_of self.new, UnpluggedOf) }
    {
        self.core.unplug(channel);
    }
}

fn starts(alloc: Global, contexts: usize) -> Result<Vec<ContextPlace<PReg>>, NoMemory>
    ensures { IfOk result (λ places. places.items ≡ replicate contexts (record { at = 0; pending = None })) }
{
    let start = ContextPlace {
        at: 0,
        pending: None,
    };
    match vec![in alloc; start; contexts] {
        Ok(places) => Ok(places),
        Err(_) => Err(NoMemory),
    }
}

fn segment_of(
    image: &Image,
    core: &mut RunCore,
    file: &mut RegisterList,
    contexts: &mut [ContextPlace<PReg>],
    context: u32,
) -> Segment
    requires sound { IsSound image.now core.old contexts.old }
    requires legal { illegal_of core.old (RunOf context) ≡ None }
    ensures sound { IsSound image.now core.new contexts.new }
    ensures goes_on { GoesOn core.old core.new }
    ensures elsewhere { LeavesOthers image.now context file.old file.new }
    ensures fire { fire (machine_semantics image.now) (config_of (record { image = image.now; core = core.old; file = file.old; contexts = contexts.old })) (RunOf context)
        ≡ (config_of (record { image = image.now; core = core.new; file = file.new; contexts = contexts.new }), RanOf result) }
{
    let words = words_of(image, context);
    segment(core, context, words, file, &mut contexts[context as usize])
}

fn words_of(image: &Image, context: u32) -> &[Word]
    ensures { result.now ≡ words_of image.now context }
{
    match image.contexts.get(context as usize) {
        Some(code) => code.words.as_slice(),
        None => &[],
    }
}

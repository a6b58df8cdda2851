//! Both interpreters of one bundle, side by side: the sources, and the image that is allocated for them.

ghost use Rattle.std.specs.Prelude.{◌≡◌, IfOk, None};
ghost use Rattle.micro_isa.specs.Formed.{IsFormedBundle, IsFormedImage};
ghost use Rattle.semantics.specs.Core.{illegal_of};

use allocate::{AllocFault, allocate};
use asm_text::read_bundle;
use engine_core::Engine;
use micro_isa::{Bundle, Image, MOST_STEPS};
use run_state::Interpreter;
use source_core::SourceRun;
use std::alloc::Global;
use std::test::Fail;
use world::{End, Event, Illegal, Seen, View};

/// What an interpreter answers to an event.
pub(crate) type Answer = Result<Seen, Illegal>;

/// Both interpreters at the same point of a run.
#[derive(Drop)]
pub(crate) struct Pair {
    source: SourceRun,
    engine: Engine,
}

/// Both at the opening of the bundle that a text spells.
pub(crate) fn opened(alloc: Global, text: &[u8], bound: u32) -> Result<Pair, Fail> {
    if bound > MOST_STEPS {
        return Err("a bound within the limit".into());
    }
    let bundle = bundle_of(alloc, text)?;
    let image = image_of(alloc, &bundle)?;
    Ok(Pair {
        source: SourceRun::open(alloc, &bundle, bound)?,
        engine: Engine::of(alloc, image, bound)?,
    })
}

/// What both show; a difference is a failure.
pub(crate) fn shown(alloc: Global, pair: &Pair) -> Result<View, Fail> {
    let view = pair.source.view(alloc)?;
    if is_shown(alloc, &pair.engine, &view)? {
        Ok(view)
    } else {
        Err("the views differ".into())
    }
}

fn is_shown(alloc: Global, engine: &Engine, view: &View) -> Result<bool, Fail> {
    let shown = engine.view(alloc)?;
    Ok(shown == *view)
}

/// How both ended, if they did; a difference is a failure.
pub(crate) fn ending(pair: &Pair) -> Result<Option<End>, Fail> {
    let ending = pair.source.ending();
    if pair.engine.ending() != ending {
        return Err("the endings differ".into());
    }
    Ok(ending)
}

/// What both answer to an event, where they answer alike and show the same before and after it; an illegal event
/// must change nothing that is shown.
pub(crate) fn agreed(alloc: Global, pair: &mut Pair, event: Event) -> Result<Answer, Fail> {
    let before = shown(alloc, pair)?;
    let answer = answered(pair, event)?;
    let after = shown(alloc, pair)?;
    let _ending = ending(pair)?;
    if answer.is_err() && after != before {
        return Err("an illegal event changed something".into());
    }
    Ok(answer)
}

fn answered(pair: &mut Pair, event: Event) -> Result<Answer, Fail> {
    let answer = pair.source.event(event);
    if engine_event(&mut pair.engine, event) != answer {
        return Err("the answers differ".into());
    }
    Ok(answer)
}

fn engine_event(engine: &mut Engine, event: Event) -> Answer {
    match engine.illegal(event) {
        Some(why) => Err(why),
        None => Ok(happen(engine, event)),
    }
}

#[tactic(auto, using(semantics::proofs::Ports::legal_feed, semantics::proofs::Ports::legal_unplug))]
fn happen(engine: &mut Engine, event: Event) -> Seen
    requires { illegal_of engine.old.core event ≡ None }
{
    match event {
        Event::Run(context) => Seen::Ran(engine.segment(context)),
        Event::Feed { channel, word } => {
            engine.feed(channel, word);
            Seen::Fed
        }
        Event::Unplug { channel } => {
            engine.unplug(channel);
            Seen::Unplugged
        }
    }
}

/// The bundle that a text of at most 4,096 bytes spells.
pub(crate) fn bundle_of(alloc: Global, text: &[u8]) -> Result<Bundle, Fail>
    ensures { IfOk result IsFormedBundle }
{
    if text.len() > 4096 {
        return Err("a short text".into());
    }
    match read_bundle(alloc, text) {
        Ok(bundle) => Ok(bundle),
        Err(_) => Err("a text without a fault".into()),
    }
}

/// The image that is allocated for a bundle.
fn image_of(alloc: Global, bundle: &Bundle) -> Result<Image, Fail>
    requires { IsFormedBundle bundle.now }
    ensures { IfOk result IsFormedImage }
{
    match allocate(alloc, bundle) {
        Ok(allocation) => Ok(allocation.image),
        Err(_) => Err("a bundle that fits".into()),
    }
}

/// The need of a bundle that fits its file; else what is refused.
pub(crate) fn need_of(alloc: Global, bundle: &Bundle) -> Result<u32, AllocFault>
    requires { IsFormedBundle bundle.now }
{
    match allocate(alloc, bundle) {
        Ok(allocation) => Ok(allocation.need),
        Err(fault) => Err(fault),
    }
}

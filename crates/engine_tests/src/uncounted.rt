//! Words that are not counted, in an image whose bytes were written by hand.

ghost use Rattle.std.specs.Prelude.{◌≤◌};

use crate::image_bytes::image_in;
use engine_core::Engine;
use run_state::Interpreter;
use std::alloc::Global;
use std::test::Fail;
use world::{End, Event, Output, Segment, SegmentEnd};

/// A word is brought from one register to the other, behind a jump, and sent.
const FORWARDING: [u8; 120] = [
    0x55, 0x52, 0x45, 0x47, 1, 0, 1, 0, 2, 0, 1, 0, 0, 0, 0, 0, 0, 0, 0, 0, // header
    2, 0xff, 0, 0, 0, 0, 0, 0, // channel 0: an output
    0, 0, 2, 0, 7, 0, 0, 0, // context 0: both registers are its own
    0x81, 0, 0, 0, 5, 0, 0, 0, 1, 0, 0, 0, // li
    0x91, 0, 0, 0, 3, 0, 0, 0, 2, 0, 0, 0, // beq to word 3
    0x9a, 0, 0, 0, 0, 0, 0, 0, 3, 0, 0, 0, // halt
    0x02, 1, 0, 0, 0, 0, 0, 0, 0, 0, 0, 0, // mov, not counted
    0x10, 0, 0, 0, 5, 0, 0, 0, 0, 0, 0, 0, // jmp to word 5, not counted
    0x99, 0, 1, 0, 0, 0, 0, 0, 6, 0, 0, 0, // send
    0x9a, 0, 0, 0, 0, 0, 0, 0, 7, 0, 0, 0, // halt
];

fn opened(alloc: Global, bound: u32) -> Result<Engine, Fail>
    requires { bound ≤ 100 }
{
    let image = image_in(alloc, &FORWARDING)?;
    Ok(Engine::of(alloc, image, bound)?)
}

fn turn(engine: &mut Engine) -> Result<Segment, Fail> {
    match engine.illegal(Event::Run(0)) {
        None => Ok(engine.segment(0)),
        Some(_) => Err("the context may run".into()),
    }
}

/// Whether a first turn took so many steps and ended so.
fn turned(segment: &Segment, steps: u32, end: SegmentEnd) -> bool {
    segment.steps == steps && segment.end == end
}

fn is_cut(engine: &Engine) -> bool {
    engine.file() == [5, 5].as_slice() && engine.ending() == Some(End::Bound)
}

#[test]
fn glue_is_done_at_the_bound(rt: HostRuntime) -> Result<(), Fail> {
    let mut engine = opened(rt.alloc(), 2)?;
    let cut = turn(&mut engine)?;
    assert!(rt; turned(&cut, 2, SegmentEnd::Bound));
    assert!(rt; is_cut(&engine));
    Ok(())
}

/// What the second turn puts out.
const SENT: Output = Output {
    channel: 0,
    word: 5,
};

#[test]
fn glue_spends_no_step(rt: HostRuntime) -> Result<(), Fail> {
    let mut engine = opened(rt.alloc(), 100)?;
    let sends = turn(&mut engine)?;
    let halts = turn(&mut engine)?;
    assert!(rt; turned(&sends, 3, SegmentEnd::Send));
    assert!(rt; turned(&halts, 1, SegmentEnd::Halt));
    assert!(rt; halts.sent == Some(SENT) && engine.ending() == Some(End::Finished));
    Ok(())
}

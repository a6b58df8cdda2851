//! Pressures, regions and live registers of known programs; the text of `check`.

ghost use Rattle.flow_graph.specs.Paths.{IsClosedCode};

use crate::bundles::{SPLIT, bundle_of, context_of};
use flow_graph::Flow;
use liveness::Live;
use micro_isa::{List, Program};
use pressure::{Pressure, Regions, boundaries, need, pressures};
use report_check::print_check;
use std::alloc::Global;
use std::test::Fail;

/// A context that fills its file: the sum of two numbers is sent.
const FULL: &[u8] =
    b"file 2\noutput out\ncontext a\nli x, 2\nli y, 3\nadd x, x, y\nsend out, x\nhalt\n";

/// Two contexts with a number that is kept over a yield, and one that is not.
const SHARED: &[u8] =
    b"file 3\noutput out\ncontext a\nli x, 7\nyield\nli y, 1\nadd x, x, y\nsend out, x\nhalt\ncontext b\nli x, 7\nyield\nli y, 1\nadd x, x, y\nsend out, x\nhalt\n";

/// A received word is sent on.
const RELAY: &[u8] = b"file 1\ninput in\noutput out\ncontext a\nrecv x, in\nsend out, x\nhalt\n";

/// Instructions that no path reaches.
const LOST: &[u8] =
    b"file 1\ncontext a\njmp end\nli x, 1\nyield\nend: halt\ncontext b\nhalt\njmp self\nself: halt\n";

/// An instruction that no path reaches.
const UNREACHABLE: &[u8] = b"file 1\ncontext a\njmp end\nli x, 1\nend: halt\n";

/// Sixteen received words are counted in memory and sent on.
const FORWARDER: &[u8] =
    b"file 25\nmemory 64\ninput in\noutput out\ncontext a\nli left, 16\nli one, 1\nli mask, 63\nnext: recv word, in\nand place, word, mask\nload seen, place\nadd seen, seen, one\nstore place, seen\nshl word, word, one\nsend out, word\nsub left, left, one\nbne left, zero, next\nhalt\n";

/// The pressures of a text's first context, private and in all, and its number of regions.
fn pressures_in(alloc: Global, text: &[u8]) -> Result<(u32, u32, u32), Fail> {
    let bundle = bundle_of(alloc, text)?;
    pressures_of(alloc, context_of(&bundle, 0)?)
}

fn pressures_of(alloc: Global, program: &Program) -> Result<(u32, u32, u32), Fail>
    requires { IsClosedCode program.now.code }
{
    let flow = Flow::of(alloc, program)?;
    let live = Live::of(alloc, program, &flow)?;
    let regions = Regions::of(alloc, program, &flow)?;
    let found = pressures(program, &live);
    Ok((found.private, found.all, regions.count()))
}

const KNOWN_PRESSURES: [(&[u8], (u32, u32, u32)); 6] = [
    (FULL, (0, 2, 2)),
    (SHARED, (1, 2, 3)),
    (SPLIT, (1, 2, 4)),
    (RELAY, (0, 1, 3)),
    (UNREACHABLE, (0, 1, 1)),
    (FORWARDER, (6, 7, 4)),
];

#[test]
fn pressures_of_known_programs(rt: HostRuntime) -> Result<(), Fail> {
    for (text, wanted) in &KNOWN_PRESSURES {
        assert!(rt; pressures_in(rt.alloc(), text)? == *wanted);
    }
    Ok(())
}

/// Jumps that lead backwards from one part of a region to another: the last instruction is joined with the first.
const BACKWARDS: &[u8] =
    b"file 1\ncontext a\njmp last\nlow: li x, 1\nyield\nmid: jmp low\nlast: jmp mid\n";

/// Regions that are entered by jumps alone, from in front and from behind.
const SCRAMBLED: &[u8] =
    b"file 1\ncontext a\njmp last\nwait: yield\njmp wait\nyield\nstop: halt\nlast: jmp stop\n";

/// The region of each instruction of a text's first context.
fn regions_in(alloc: Global, text: &[u8]) -> Result<List<u32>, Fail> {
    let bundle = bundle_of(alloc, text)?;
    let program = context_of(&bundle, 0)?;
    let flow = Flow::of(alloc, program)?;
    let regions = Regions::of(alloc, program, &flow)?;
    let mut numbers = List::new(alloc);
    for i in 0..program.code.len() {
        numbers.push(regions.region_of(i as u32))?;
    }
    Ok(numbers)
}

const KNOWN_REGIONS: [(&[u8], &[u32]); 3] = [
    (BACKWARDS, &[0, 0, 0, 0, 0]),
    (SCRAMBLED, &[0, 1, 1, 2, 0, 0]),
    (SHARED, &[0, 0, 1, 1, 1, 2]),
];

#[test]
fn regions_by_jumps(rt: HostRuntime) -> Result<(), Fail> {
    for (text, wanted) in &KNOWN_REGIONS {
        let numbers = regions_in(rt.alloc(), text)?;
        assert!(rt; numbers.as_slice() == *wanted);
    }
    Ok(())
}

/// The registers that live before instruction `at` of a text's first context and behind it, as sets of bits.
fn live_at(alloc: Global, text: &[u8], at: u32) -> Result<(u128, u128), Fail> {
    let bundle = bundle_of(alloc, text)?;
    let program = context_of(&bundle, 0)?;
    if program.code.len() <= at as usize {
        return Err("an instruction of this number".into());
    }
    let flow = Flow::of(alloc, program)?;
    let live = Live::of(alloc, program, &flow)?;
    Ok((live.live_in(at), live.live_out(at)))
}

#[test]
fn live_registers_of_known_programs(rt: HostRuntime) -> Result<(), Fail> {
    for (text, at, sets) in &[(FULL, 2, (3, 1)), (FORWARDER, 11, (71, 71))] {
        assert!(rt; live_at(rt.alloc(), text, *at)? == *sets);
    }
    Ok(())
}

/// Where an instruction falls through to, where it jumps to, and whether it is reached.
type Flows = (Option<u32>, Option<u32>, bool);

/// The flow of instruction `at` of a text's first context.
fn flow_at(alloc: Global, text: &[u8], at: u32) -> Result<Flows, Fail> {
    let bundle = bundle_of(alloc, text)?;
    let program = context_of(&bundle, 0)?;
    if program.code.len() <= at as usize {
        return Err("an instruction of this number".into());
    }
    let flow = Flow::of(alloc, program)?;
    let next = flow.successors_of(at);
    Ok((next.fall, next.jump, flow.reachable(at)))
}

/// Instructions of texts, and where they lead.
const KNOWN_SUCCESSORS: [(&[u8], u32, Flows); 3] = [
    (SPLIT, 3, (Some(4), Some(4), true)),
    (UNREACHABLE, 1, (Some(2), None, false)),
    (FORWARDER, 11, (Some(12), Some(3), true)),
];

#[test]
fn successors_of_known_programs(rt: HostRuntime) -> Result<(), Fail> {
    for (text, at, wanted) in &KNOWN_SUCCESSORS {
        assert!(rt; flow_at(rt.alloc(), text, *at)? == *wanted);
    }
    Ok(())
}

/// The region of instruction `at` of a text's first context, and where that one may lose the engine.
fn regions_at(alloc: Global, text: &[u8], at: u32) -> Result<(u32, List<u32>), Fail> {
    let bundle = bundle_of(alloc, text)?;
    let program = context_of(&bundle, 0)?;
    if program.code.len() <= at as usize {
        return Err("an instruction of this number".into());
    }
    let flow = Flow::of(alloc, program)?;
    let regions = Regions::of(alloc, program, &flow)?;
    Ok((regions.region_of(at), boundaries(alloc, program)?))
}

#[test]
fn regions_of_known_programs(rt: HostRuntime) -> Result<(), Fail> {
    let (_first, ends) = regions_at(rt.alloc(), FULL, 2)?;
    assert!(rt; ends.as_slice() == [3].as_slice());
    let (region, ends) = regions_at(rt.alloc(), SHARED, 4)?;
    assert!(rt; region == 1 && ends.as_slice() == [1, 4].as_slice());
    Ok(())
}

#[test]
fn needs_of_known_bundles(rt: HostRuntime) {
    let shared = Pressure { private: 1, all: 2 };
    assert!(rt; need(&[shared, shared]) == 3);
    let forwarder = Pressure { private: 6, all: 7 };
    assert!(rt; need(&[forwarder, forwarder, forwarder, forwarder]) == 25);
}

/// Texts, each with what `check` writes for it.
const CHECKED: [(&[u8], &[u8]); 2] = [
    (
        SHARED,
        b"context 0 private 1 all 2 regions 3\ncontext 1 private 1 all 2 regions 3\nneed 3 file 3\n",
    ),
    (
        LOST,
        b"context 0 private 0 all 1 regions 2\nunreachable 0 4\nunreachable 0 5\ncontext 1 private 0 all 0 regions 2\nunreachable 1 9\nunreachable 1 10\nneed 1 file 1\n",
    ),
];

fn checks_so(alloc: Global, text: &[u8], wanted: &[u8]) -> Result<bool, Fail> {
    let bundle = bundle_of(alloc, text)?;
    Ok(print_check(alloc, &bundle)?.as_slice() == wanted)
}

#[test]
fn texts_of_known_bundles(rt: HostRuntime) -> Result<(), Fail> {
    for (text, wanted) in &CHECKED {
        assert!(rt; checks_so(rt.alloc(), text, wanted)?);
    }
    Ok(())
}

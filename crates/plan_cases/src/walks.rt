ghost use Rattle.std.specs.Prelude.{IfOk};
ghost use Rattle.flow_graph.specs.Paths.{IsClosedCode};
ghost use Rattle.plan.specs.ValidPlans.{IsValidPlan};

use crate::bundles::{SPLIT, bundle_of, context_of};
use crate::rows::shown;
use flow_graph::Flow;
use liveness::Live;
use micro_isa::{MOST_FILE, Program};
use plan::{Plan, check_plan};
use point_walk::walk;
use pressure::pressures;
use std::alloc::Global;
use std::test::Fail;

/// An instruction that no path reaches.
const UNREACHABLE: &[u8] =
    b"file 4\noutput out\ncontext a\nli x, 1\njmp end\nadd y, x, x\nend:\nsend out, x\nhalt\n";

/// A loop to the first instruction.
const LOOP: &[u8] = b"file 4\ncontext a\nagain:\nadd x, x, y\nyield\njmp again\n";

const MEAN: &[u8] =
    b"file 8\noutput tx\ncontext mean\nli bytes, 1500\ndiv mean, bytes, packets\nsend tx, mean\nhalt\ncontext beacon\nli word, 7\nsend tx, word\nhalt\n";

const FRAME: &[u8] =
    b"file 4\noutput tx\ncontext length\nli header, 14\nli payload, 46\nli trailer, 4\nadd length, header, payload\nadd length, length, trailer\nsend tx, length\nhalt\n";

const HANDOFF: &[u8] =
    b"file 16\nmemory 4\ninput rx\nwords rx 0x4500 0x0054\ninner ring 2\noutput tx\ncontext receiver\nli left, 4\nli one, 1\nnext:\nrecv word, rx\nsend ring, word\nsub left, left, one\nbne left, zero, next\nhalt\ncontext transmitter\nli left, 4\nli one, 1\nli place, 2\nnext:\nrecv word, ring\nload seen, place\nadd seen, seen, one\nstore place, seen\nsend tx, word\nsub left, left, one\nbne left, zero, next\nhalt\n";

const KEY: &[u8] =
    b"file 3\nmemory 8\ninput rx\nwords rx 5\noutput tx\ncontext counter\n  li slot, 3\n  li count, 7\n  store slot, count\n  halt\ncontext classifier\n  recv key, rx\n  load rule, key\n  add rule, rule, key\n  send tx, rule\n  halt\n";

const LOOSE: &[u8] =
    b"memory 0x10 ,\nfile 04\noutput\ttx\ncontext probe\ntop:\nagain: li x 0xFF\n\tbeq x,x,again\n\tjmp top\n\thalt\n";

const PORTS: &[u8] =
    b"file 8\ninput rx port 0 4\noutput tx port 1\ncontext echo\n  li left, 6\n  li one, 1\n  next:\n  recv word, rx\n  add word, word, one\n  send tx, word\n  sub left, left, one\n  bne left, zero, next\n  halt\n";

const WAITING: &[u8] =
    b"file 4\ninner requests 1\ninner replies 1\ncontext client\n  recv word, replies\n  send requests, word\n  halt\ncontext server\n  recv word, requests\n  send replies, word\n  halt\n";

/// The walk of a program at sizes so much above its pressures; `check_plan` must accept it.
pub(crate) fn walk_of(alloc: Global, program: &Program, more: (u8, u8)) -> Result<Plan, Fail>
    requires { IsClosedCode program.now.code }
    ensures { IfOk result (IsValidPlan program.now.code) }
{
    let flow = Flow::of(alloc, program)?;
    let live = Live::of(alloc, program, &flow)?;
    let least = pressures(program, &live);
    let p = least.private + u32::from(more.0);
    let r = least.all + u32::from(more.1);
    if r < p || MOST_FILE < r {
        return Err("sizes that a plan can have".into());
    }
    let plan = walk(alloc, program, &live, p, r)?;
    match check_plan(program, &live, &plan) {
        Ok(()) => Ok(plan),
        Err(_) => Err("a valid plan".into()),
    }
}

/// The walk of context `c`.
fn walk_in(alloc: Global, text: &[u8], c: usize, more: (u8, u8)) -> Result<Plan, Fail> {
    let bundle = bundle_of(alloc, text)?;
    walk_of(alloc, context_of(&bundle, c)?, more)
}

/// A text, how much above its pressures the sizes are, and the walk's rows.
type Case = (&'static [u8], (u8, u8), &'static str);

const CASES: [Case; 5] = [
    (SPLIT, (0, 0), ">0;0@0 ;0@0 >1;0@0 1@1 ;1@0 ;1@0 ;;"),
    (SPLIT, (1, 1), ">0;0@0 ;0@0 >1;0@0 1@1 ;1@1 ;1@1 ;;"),
    (SPLIT, (0, 1), ">0;0@0 ;0@0 >1;0@0 1@1 ;1@0 ;1@0 ;;"),
    (UNREACHABLE, (0, 0), ">0;0@0 ;0@0 >1;0@0 ;;"),
    (LOOP, (0, 0), "0@0 1@1 >0;0@0 1@1 ;0@0 1@1 ;"),
];

fn walks_so(alloc: Global, case: &Case) -> Result<bool, Fail> {
    let (text, more, want) = *case;
    let plan = walk_in(alloc, text, 0, more)?;
    Ok(shown(alloc, &plan)?.as_str() == want)
}

#[test]
fn walks_of_known_programs(rt: HostRuntime) -> Result<(), Fail> {
    for case in &CASES {
        assert!(rt; walks_so(rt.alloc(), case)?);
    }
    Ok(())
}

/// Contexts of examples, and the number of their instructions.
const EXAMPLES: [(&[u8], usize, usize); 11] = [
    (MEAN, 0, 4),
    (MEAN, 1, 3),
    (FRAME, 0, 7),
    (HANDOFF, 0, 7),
    (HANDOFF, 1, 11),
    (KEY, 0, 4),
    (KEY, 1, 5),
    (LOOSE, 0, 4),
    (PORTS, 0, 8),
    (WAITING, 0, 3),
    (WAITING, 1, 3),
];

#[test]
fn examples_have_valid_walks(rt: HostRuntime) -> Result<(), Fail> {
    for (text, c, length) in &EXAMPLES {
        let plan = walk_in(rt.alloc(), text, *c, (0, 0))?;
        assert!(rt; plan.rows.len() == *length);
    }
    Ok(())
}

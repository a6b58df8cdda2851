//! What each instruction does.

use crate::cases::{Expected, Last, holds, words_of};
use std::alloc::Global;
use std::test::Fail;
use world::{End, Event, Phase, SegmentEnd, Trap};

/// Each sum, shift, comparison and division of `x` and `y`, which is put out.
const ARITHMETIC: &[u8] = b"file 16\n\
output out\n\
context a\n\
li x, 4294967295\nli y, 2\nadd z, x, y\nsend out, z\n\
li x, 1\nli y, 2\nsub z, x, y\nsend out, z\n\
li x, 65537\nli y, 65537\nmul z, x, y\nsend out, z\n\
li x, 12\nli y, 10\nand z, x, y\nsend out, z\n\
li x, 12\nli y, 10\nor z, x, y\nsend out, z\n\
li x, 12\nli y, 10\nxor z, x, y\nsend out, z\n\
li x, 3\nli y, 31\nshl z, x, y\nsend out, z\n\
li x, 3\nli y, 32\nshl z, x, y\nsend out, z\n\
li x, 3\nli y, 33\nshl z, x, y\nsend out, z\n\
li x, 3221225472\nli y, 31\nshr z, x, y\nsend out, z\n\
li x, 6\nli y, 32\nshr z, x, y\nsend out, z\n\
li x, 6\nli y, 33\nshr z, x, y\nsend out, z\n\
li x, 1\nli y, 4294967295\nltu z, x, y\nsend out, z\n\
li x, 2\nli y, 2\nltu z, x, y\nsend out, z\n\
li x, 7\nli y, 7\neq z, x, y\nsend out, z\n\
li x, 7\nli y, 8\neq z, x, y\nsend out, z\n\
li x, 4294967295\nli y, 2\ndiv z, x, y\nsend out, z\n\
li x, 7\nli y, 4\nrem z, x, y\nsend out, z\n\
halt\n";

/// Each branch on 7 and another number: 7 is put out where it is taken, and else 1.
const BRANCHES: &[u8] = b"file 16\n\
output out\n\
context a\n\
li x, 7\nli y, 8\nbeq x, y, t0\nli x, 1\nt0:\nsend out, x\n\
li x, 7\nli y, 7\nbeq x, y, t1\nli x, 1\nt1:\nsend out, x\n\
li x, 7\nli y, 8\nbne x, y, t2\nli x, 1\nt2:\nsend out, x\n\
li x, 7\nli y, 7\nbne x, y, t3\nli x, 1\nt3:\nsend out, x\n\
li x, 7\nli y, 8\nbltu x, y, t4\nli x, 1\nt4:\nsend out, x\n\
li x, 7\nli y, 7\nbltu x, y, t5\nli x, 1\nt5:\nsend out, x\n\
li x, 7\nli y, 6\nbltu x, y, t6\nli x, 1\nt6:\nsend out, x\n\
li x, 7\nli y, 8\nbgeu x, y, t7\nli x, 1\nt7:\nsend out, x\n\
li x, 7\nli y, 7\nbgeu x, y, t8\nli x, 1\nt8:\nsend out, x\n\
li x, 7\nli y, 6\nbgeu x, y, t9\nli x, 1\nt9:\nsend out, x\n\
halt\n";

/// The other instructions, over four words of memory and a ring of one word.
const OTHERS: &[u8] = b"file 16\n\
memory 4\n\
output out\n\
inner ring 1\n\
context a\n\
ctx x\nsend out, x\n\
li x, 3\nmov y, x\nli x, 9\nsend out, y\n\
store y, x\nyield\nload z, y\nsend out, z\n\
jmp on\nli z, 0\n\
on:\n\
send ring, z\nrecv w, ring\nsend out, w\n\
halt\n";

/// Texts, each with the words that it puts out.
const PROGRAMS: [(&[u8], &[u32]); 3] = [
    (
        ARITHMETIC,
        &[
            1,
            4_294_967_295,
            131_073,
            8,
            14,
            6,
            2_147_483_648,
            3,
            6,
            1,
            6,
            3,
            1,
            0,
            1,
            0,
            2_147_483_647,
            3,
        ],
    ),
    (BRANCHES, &[1, 7, 7, 1, 7, 1, 1, 1, 7, 7]),
    (OTHERS, &[0, 3, 9, 9]),
];

#[test]
fn each_instruction(rt: HostRuntime) -> Result<(), Fail> {
    for (text, wanted) in &PROGRAMS {
        let words = words_of(rt.alloc(), text)?;
        assert!(rt; words.as_slice() == *wanted);
    }
    Ok(())
}

/// Contexts that trap at their second instruction, which stands on the fifth line.
const TRAPS: [(&[u8], Trap); 5] = [
    (
        b"file 9\nmemory 4\ncontext a\nli x, 4\ndiv x, x, y\nhalt\n",
        Trap::Divide,
    ),
    (
        b"file 9\nmemory 4\ncontext a\nli x, 4\nrem x, x, y\nhalt\n",
        Trap::Divide,
    ),
    (
        b"file 9\nmemory 4\ncontext a\nli x, 4\nload x, x\nhalt\n",
        Trap::Address,
    ),
    (
        b"file 9\nmemory 4\ncontext a\nli x, 4294967295\nload x, x\nhalt\n",
        Trap::Address,
    ),
    (
        b"file 9\nmemory 4\ncontext a\nli x, 4\nstore x, x\nhalt\n",
        Trap::Address,
    ),
];

/// Whether the first context of a text traps so at its second instruction, on the fifth line.
fn traps_so(alloc: Global, text: &[u8], trap: Trap) -> Result<bool, Fail> {
    let rows = [(
        Event::Run(0),
        Expected::Ran(2, SegmentEnd::Trap(trap), None),
    )];
    let last = Last {
        memory: &[0, 0, 0, 0],
        queued: 0,
        phases: &[Phase::Trapped { trap, line: 5 }],
        ending: Some(End::Finished),
    };
    holds(alloc, text, 100, &rows, &last)
}

#[test]
fn each_trap(rt: HostRuntime) -> Result<(), Fail> {
    for (text, trap) in &TRAPS {
        assert!(rt; traps_so(rt.alloc(), text, *trap)?);
    }
    Ok(())
}

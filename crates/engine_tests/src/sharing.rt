//! Bundles whose contexts share registers, and whose images move them.

use crate::cases::{follow, words_of};
use crate::pair::{bundle_of, need_of};
use allocate::AllocFault;
use std::alloc::Global;
use std::test::Fail;

/// Two contexts that each split the range of a register: a move stands on an edge that falls through,
/// and a block of its own on the jump to the same instruction.
const SPLIT: &[u8] =
    b"file 3\noutput out\ncontext a\nli x, 5\nyield\nli y, 9\nbeq x, y, next\nnext:\nyield\nsend out, y\nhalt\ncontext b\nli x, 9\nyield\nli y, 9\nbeq x, y, next\nnext:\nyield\nsend out, y\nhalt\n";

/// A loop that exchanges two registers: its jump back has to exchange their places.
const EXCHANGE: &[u8] =
    b"file 6\noutput out\ncontext a\nli x, 1\nli y, 2\nli n, 3\nli one, 1\nagain:\nmov t, x\nmov x, y\nmov y, t\nsub n, n, one\nbne n, zero, again\nsend out, x\nsend out, y\nhalt\n";

/// Orders of two contexts.
const ORDERS: [[u32; 8]; 3] = [
    [0, 1, 0, 1, 0, 1, 0, 1],
    [1, 1, 0, 0, 1, 0, 1, 0],
    [0, 0, 0, 0, 1, 1, 1, 1],
];

/// What eight contexts do: each needs a register of its own and one that all share, nine in all.
const EIGHT: &[u8] =
    b"output out\ncontext a\nli x, 7\nyield\nli y, 1\nadd x, x, y\nsend out, x\nhalt\ncontext b\nli x, 7\nyield\nli y, 1\nadd x, x, y\nsend out, x\nhalt\ncontext c\nli x, 7\nyield\nli y, 1\nadd x, x, y\nsend out, x\nhalt\ncontext d\nli x, 7\nyield\nli y, 1\nadd x, x, y\nsend out, x\nhalt\ncontext e\nli x, 7\nyield\nli y, 1\nadd x, x, y\nsend out, x\nhalt\ncontext f\nli x, 7\nyield\nli y, 1\nadd x, x, y\nsend out, x\nhalt\ncontext g\nli x, 7\nyield\nli y, 1\nadd x, x, y\nsend out, x\nhalt\ncontext h\nli x, 7\nyield\nli y, 1\nadd x, x, y\nsend out, x\nhalt\n";

/// The need of `EIGHT` with a file of so many registers, where it fits; else what is refused.
fn allocated(alloc: Global, head: &[u8]) -> Result<Result<u32, AllocFault>, Fail> {
    let mut text = Vec::from_slice(alloc, head)?;
    text.extend_from_slice(EIGHT)?;
    let bundle = bundle_of(alloc, text.as_slice())?;
    Ok(need_of(alloc, &bundle))
}

/// The source and the image agree in each order, under each bound.
#[test]
fn agrees_in_each_order(rt: HostRuntime) -> Result<(), Fail> {
    for bound in 0..15u32 {
        for order in &ORDERS {
            follow(rt.alloc(), SPLIT, bound, order.as_slice())?;
        }
    }
    Ok(())
}

/// They agree where registers exchange their places, under each bound.
#[test]
fn agrees_where_registers_move(rt: HostRuntime) -> Result<(), Fail> {
    for bound in 0..24u32 {
        follow(rt.alloc(), EXCHANGE, bound, &[0, 0, 0])?;
    }
    let exchanged = words_of(rt.alloc(), EXCHANGE)?;
    assert!(rt; exchanged.as_slice() == [2, 1].as_slice());
    Ok(())
}

/// Eight contexts fit the file that is their need, and none that is smaller.
#[test]
fn fits_exactly(rt: HostRuntime) -> Result<(), Fail> {
    let rows = [
        (b"file 9\n", Ok(9)),
        (b"file 8\n", Err(AllocFault::NoFit { need: 9, file: 8 })),
    ];
    for (head, told) in &rows {
        assert!(rt; allocated(rt.alloc(), *head)? == *told);
    }
    Ok(())
}

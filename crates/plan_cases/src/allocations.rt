//! Allocations of small bundles: which plan wins, and the budget that is preferred. The wanted values
//! are those of a plain program that tries every budget.

use crate::bundles::{SPLIT, bundle_of};
use crate::rows::shown;
use allocate::{Allocation, allocate};
use std::alloc::Global;
use std::test::Fail;

/// The split program in a large file: nothing is taken for nothing.
const LARGE: &[u8] =
    b"file 40\noutput out\ncontext a\nli x, 5\nyield\nli y, 9\nbeq x, y, next\nnext:\nyield\nsend out, y\nhalt\n";

/// Two contexts that leave no register to spare: both plans move once, and that by regions is taken.
const TIE: &[u8] =
    b"file 3\noutput out\ncontext a\nli x, 5\nyield\nli y, 9\nbeq x, y, next\nnext:\nyield\nsend out, y\nhalt\ncontext b\nli x, 5\nyield\nli y, 9\nbeq x, y, next\nnext:\nyield\nsend out, y\nhalt\n";

/// The fit over each region moves once, and the walk oftener.
const REGIONS: &[u8] =
    b"file 3\noutput out\ncontext a\nyield\nli a, 1\nsend out, c\nadd a, a, a\nhalt\ncontext b\nyield\nli a, 1\nsend out, c\nadd a, a, a\nhalt\n";

/// The fit over some region runs out.
const WALK_ALONE: &[u8] =
    b"file 3\noutput out\ncontext a\nli b, 4\nsend out, a\nsend out, b\nhalt\ncontext b\nli b, 4\nsend out, a\nsend out, b\nhalt\n";

/// The walk takes three steps, and the fit over each region four.
const WALK_WINS: &[u8] =
    b"file 5\noutput out\ncontext a\nyield\nli b, 1\nsend out, d\nsend out, b\nadd c, a, a\nhalt\ncontext b\nyield\nli b, 1\nsend out, d\nsend out, b\nadd c, a, a\nhalt\n";

fn allocation_of(alloc: Global, text: &[u8]) -> Result<Allocation, Fail> {
    let bundle = bundle_of(alloc, text)?;
    match allocate(alloc, &bundle) {
        Ok(allocation) => Ok(allocation),
        Err(_) => Err("a bundle that fits".into()),
    }
}

/// The budget of an allocation, and the rows of its first plan.
fn told(alloc: Global, allocation: &Allocation) -> Result<String, Fail> {
    let mut text = String::new(alloc);
    for size in allocation.budget.private.as_slice() {
        text.push_str(format!(in alloc; "{} ", size)?.as_str())?;
    }
    text.push_str(format!(in alloc;
        "shared {} cost {} ",
        allocation.budget.shared, allocation.budget.cost
    )?
    .as_str())?;
    if let Some(plan) = allocation.plans.as_slice().first() {
        text.push_str(shown(alloc, plan)?.as_str())?;
    }
    Ok(text)
}

/// Texts, each with the budget and the rows of the first plan.
const ALLOCATIONS: [(&[u8], &str); 6] = [
    // A register more of its own spares a move, so the fit over the whole program serves.
    (
        SPLIT,
        "2 shared 0 cost 0 >0;0@0 ;0@0 >1;0@0 1@1 ;1@1 ;1@1 ;;",
    ),
    (
        LARGE,
        "2 shared 0 cost 0 >0;0@0 ;0@0 >1;0@0 1@1 ;1@1 ;1@1 ;;",
    ),
    (
        TIE,
        "1 1 shared 1 cost 2 >0;0@0 ;0@1 >0;0@1 1@0 ;1@0 ;1@0 ;;",
    ),
    (REGIONS, "1 1 shared 1 cost 2 1@0 ;1@1 >0;0@0 1@1 ;0@0 >0;;"),
    (WALK_ALONE, "1 1 shared 1 cost 6 1@0 >1;0@0 1@1 ;0@0 ;;"),
    (
        WALK_WINS,
        "2 2 shared 1 cost 6 1@0 3@1 ;1@0 3@1 >2;0@0 1@2 3@1 ;0@0 3@1 ;3@1 >0;;",
    ),
];

/// Whether a bundle is allocated so, with as much glue as its budget costs.
fn is_allocated(alloc: Global, text: &[u8], want: &str) -> Result<bool, Fail> {
    let allocation = allocation_of(alloc, text)?;
    let told = told(alloc, &allocation)?;
    Ok(allocation.glue == allocation.budget.cost && told.as_str() == want)
}

#[test]
fn allocations_of_known_bundles(rt: HostRuntime) -> Result<(), Fail> {
    for (text, want) in &ALLOCATIONS {
        assert!(rt; is_allocated(rt.alloc(), text, want)?);
    }
    Ok(())
}

//! Lists with room that was asked for.

use micro_isa::List;
use std::alloc::Global;
use std::test::Fail;

/// Numbers of items for which room is asked.
const ROOMS: [usize; 4] = [0, 1, 100, 5000];

/// Whether a list that holds an item has room for so many more once they were asked for.
fn has_room(alloc: Global, more: usize) -> Result<bool, Fail> {
    let mut list = List::new(alloc);
    if list.push(7u32).is_err() {
        return Ok(false);
    }
    list.reserve(more)?;
    let items = list.into_vec();
    Ok(items.as_slice() == [7].as_slice() && more < items.capacity())
}

#[test]
fn lists_have_the_room_that_was_asked_for(rt: HostRuntime) -> Result<(), Fail> {
    for more in &ROOMS {
        assert!(rt; has_room(rt.alloc(), *more)?);
    }
    Ok(())
}

/// Whether so many pushes succeed once room was asked for, and their items are given as they were pushed.
fn holds(alloc: Global, count: usize) -> Result<bool, Fail> {
    let mut list = List::new(alloc);
    list.reserve(count)?;
    for k in 0..count {
        if list.push(k).is_err() {
            return Ok(false);
        }
    }
    let items = list.into_vec();
    Ok(items.len() == count && items.iter().enumerate().all(|(k, item)| *item == k))
}

#[test]
fn lists_hold_what_is_pushed(rt: HostRuntime) -> Result<(), Fail> {
    for count in &ROOMS {
        assert!(rt; holds(rt.alloc(), *count)?);
    }
    Ok(())
}

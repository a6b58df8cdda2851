ghost use Rattle.std.specs.Prelude.{◌≡◌, ◌<◌, [], Some, None, length, slice_index_or, OnOk};
ghost use Rattle.flow_graph.specs.Paths.{Below};
ghost use Rattle.pressure.specs.Rings.{Link, LinkOf};
ghost use Rattle.pressure.specs.Floods.{Gives, Floods, IsUnused, AreLow, CanVisit, given, queued};

use crate::ring::Rings;
use micro_isa::NoMemory;
use std::alloc::Global;

/// Gives the number to instruction `start`, which has none, and to all that links lead to from it.
pub fn flood(
    alloc: Global,
    falls: &Rings,
    jumps: &Rings,
    numbers: &mut [Option<u32>],
    start: u32,
    number: u32,
) -> Result<(), NoMemory>
    requires here { start < length numbers.old }
    requires none { slice_index_or numbers.old start None ≡ None }
    requires unused { IsUnused numbers.old number }
    requires fall_own { length falls.now.own ≡ length numbers.old }
    requires fall_target { length falls.now.target ≡ length numbers.old }
    requires jump_own { length jumps.now.own ≡ length numbers.old }
    requires jump_target { length jumps.now.target ≡ length numbers.old }
    requires low { AreLow (LinkOf falls.now jumps.now) (length numbers.old) }
    ensures { OnOk result (Floods (LinkOf falls.now jumps.now) start number numbers.old numbers.new []) }
{
    let mut waiting = Vec::new(alloc);
    give(numbers, &mut waiting, Some(start), number)?;
    'visits: while let Some(i) = waiting.pop() {
        give_ring(falls, i, numbers, &mut waiting, number)?;
        give_ring(jumps, i, numbers, &mut waiting, number)?;
    }
    Ok(())
}

/// Gives the number to those that come after instruction `i` on rings of one kind.
fn give_ring(
    rings: &Rings,
    i: u32,
    numbers: &mut [Option<u32>],
    waiting: &mut Vec<u32>,
    number: u32,
) -> Result<(), NoMemory>
    requires { CanVisit rings.now i (length numbers.old) }
    ensures { OnOk result (Gives (Link rings.now.own rings.now.target i) number numbers.old numbers.new waiting.old.items waiting.new.items) }
{
    give(numbers, waiting, rings.after_on_own(i), number)?;
    give(numbers, waiting, rings.after_on_target(i), number)?;
    Ok(())
}

/// Gives the number to an instruction that has none, and notes that it is to be visited.
fn give(
    numbers: &mut [Option<u32>],
    waiting: &mut Vec<u32>,
    instruction: Option<u32>,
    number: u32,
) -> Result<(), NoMemory>
    requires { Below instruction (length numbers.old) }
    ensures numbers { OnOk result (numbers.new ≡ given numbers.old instruction number) }
    ensures waiting { OnOk result (waiting.new.items ≡ queued numbers.old instruction waiting.old.items) }
{
    let Some(j) = instruction else {
        return Ok(());
    };
    if numbers[j as usize].is_some() {
        return Ok(());
    }
    if waiting.push(j).is_err() {
        return Err(NoMemory);
    }
    numbers[j as usize] = Some(number);
    Ok(())
}

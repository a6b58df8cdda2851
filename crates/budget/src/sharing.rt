ghost use Rattle.std.specs.Prelude.{◌≡◌, ◌+◌, ◌<◌, ◌≤◌, ◌⊎◌, length, IfOk};
ghost use Rattle.std.specs.List.{All};
ghost use Rattle.budget.specs.Costs.{IsCostTable};
ghost use Rattle.budget.specs.Choices.{IsBestBelow, IsMarkNoLater, IsOpen, mark_of};

use crate::choice::entry_at;
use crate::sizes::least_sum;
use crate::{CostTable, SIZES};
use micro_isa::{MOST_CONTEXTS, MOST_FILE, NoMemory};
use std::alloc::Global;

/// What the best sizes beside so many shared registers cost, and how many registers they are in all.
#[derive(Clone, Copy, Debug)]
pub struct Mark {
    pub cost: u32,
    pub total: u32,
    pub shared: u32,
}

/// The best number of shared registers, where `gap` of them and the least sizes fit the file. With
/// more than `gap + SIZES - 1` nothing costs less.
pub fn best_mark(alloc: Global, tables: &[CostTable], file: u32, gap: u32) -> Result<Mark, NoMemory>
    requires tables { All IsCostTable tables.now }
    requires few { length tables.now ≤ MOST_CONTEXTS }
    requires file { file ≤ MOST_FILE }
    requires opens { IsOpen tables.now file gap }
    ensures { IfOk result (IsBestBelow tables.now file (gap + SIZES)) }
{
    let mut best = mark_at(alloc, tables, file, gap)?;
    'sizes: for shared in 0..gap + SIZES {
        best = better_of(alloc, tables, file, best, shared)?;
    }
    Ok(best)
}

/// The better of this mark and that of so many shared registers, if they leave room. Where this one costs
/// nothing and the other takes more registers even for the least sizes, it is not looked for.
fn better_of(
    alloc: Global,
    tables: &[CostTable],
    file: u32,
    best: Mark,
    shared: u32,
) -> Result<Mark, NoMemory>
    requires tables { All IsCostTable tables.now }
    requires few { length tables.now ≤ MOST_CONTEXTS }
    requires file { file ≤ MOST_FILE }
    requires shared { shared ≤ MOST_FILE + SIZES }
    requires best { IsBestBelow tables.now file shared best }
    ensures { IfOk result (IsBestBelow tables.now file (shared + 1)) }
{
    let least = least_sum(tables, shared) + shared;
    if least > file {
        return Ok(best);
    }
    if best.cost == 0 && best.total < least {
        return Ok(best);
    }
    let mark = mark_at(alloc, tables, file, shared)?;
    Ok(sooner(best, mark))
}

/// The mark of so many shared registers.
fn mark_at(alloc: Global, tables: &[CostTable], file: u32, shared: u32) -> Result<Mark, NoMemory>
    requires tables { All IsCostTable tables.now }
    requires few { length tables.now ≤ MOST_CONTEXTS }
    requires file { file ≤ MOST_FILE }
    requires opens { IsOpen tables.now file shared }
    ensures { IfOk result (λ mark. mark ≡ mark_of tables.now file shared) }
{
    let least = least_sum(tables, shared) + shared;
    let entry = entry_at(alloc, tables, shared, file - least)?;
    Ok(Mark {
        cost: entry.cost,
        total: least + entry.extra,
        shared,
    })
}

/// The second mark where it is preferred; else the first.
fn sooner(a: Mark, b: Mark) -> Mark
    ensures either { (result ≡ a) ⊎ (result ≡ b) }
    ensures first { IsMarkNoLater result a }
    ensures second { IsMarkNoLater result b }
{
    let less = b.cost < a.cost;
    let fewer = b.cost == a.cost && b.total < a.total;
    let more_shared = b.cost == a.cost && b.total == a.total && b.shared > a.shared;
    if less || fewer || more_shared { b } else { a }
}

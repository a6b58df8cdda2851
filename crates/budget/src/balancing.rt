ghost use Rattle.std.specs.Prelude.{◌≡◌, ◌+◌, ◌++◌, ◌<◌, ◌≤◌, ◌↔◌, length, IfOk, IfErr, OnOk};
ghost use Rattle.std.specs.List.{All};
ghost use Rattle.budget.specs.Costs.{IsCostTable, demands_of};
ghost use Rattle.budget.specs.Fitting.{need_of, greatest_gap};
ghost use Rattle.budget.specs.Best.{CanFit, IsBest, Refuses};
ghost use Rattle.budget.specs.Choices.{IsOpen, least_sum, sizes_of};
ghost use Rattle.budget.specs.declared.Budget.{Budget as Division};

use crate::choice::entry_at;
use crate::sharing::{Mark, best_mark};
use crate::sizes::{least_size, least_sum};
use crate::{Budget, BudgetFault, CostTable};
use micro_isa::{List, MOST_CONTEXTS, MOST_FILE, NoMemory};
use std::alloc::Global;

/// The budget that is preferred among all that fit a file of so many registers: least cost, then
/// least total, then most shared registers, then the least list of sizes. It is refused exactly
/// where none fits.
pub fn balance(alloc: Global, tables: &[CostTable], file: u32) -> Result<Budget, BudgetFault>
    requires some { 0 < length tables.now }
    requires few { length tables.now ≤ MOST_CONTEXTS }
    requires tables { All IsCostTable tables.now }
    requires file { file ≤ MOST_FILE }
    ensures best { IfOk result (IsBest tables.now file) }
    ensures refused { IfErr result (Refuses tables.now file) }
    ensures can { CanFit tables.now file ↔ (need_of (demands_of tables.now) ≤ file) }
    ensures once { (x y : Division) → IsBest tables.now file x → IsBest tables.now file y → x ≡ y }
{
    let gap = greatest_gap(tables);
    let need = least_sum(tables, gap) + gap;
    if file < need {
        return Err(BudgetFault::NoFit { need, file });
    }
    divide(alloc, tables, file, gap).or(Err(BudgetFault::NoMemory))
}

/// The most registers that one of the contexts needs beside its own.
fn greatest_gap(tables: &[CostTable]) -> u32
    requires { All IsCostTable tables.now }
    ensures value { result ≡ greatest_gap (demands_of tables.now) }
    ensures small { result ≤ MOST_FILE }
{
    let mut greatest = 0;
    'tables: for table in tables {
        greatest = greatest.max(table.all - table.private);
    }
    greatest
}

/// The preferred budget, where the least sizes beside `gap` shared registers fit.
fn divide(alloc: Global, tables: &[CostTable], file: u32, gap: u32) -> Result<Budget, NoMemory>
    requires few { length tables.now ≤ MOST_CONTEXTS }
    requires tables { All IsCostTable tables.now }
    requires file { file ≤ MOST_FILE }
    requires gap { gap ≡ greatest_gap (demands_of tables.now) }
    requires opens { IsOpen tables.now file gap }
    ensures { IfOk result (IsBest tables.now file) }
{
    let Mark { cost, shared, .. } = best_mark(alloc, tables, file, gap)?;
    let spare = file - (least_sum(tables, shared) + shared);
    let private = sizes(alloc, tables, shared, spare)?;
    Ok(Budget {
        private,
        shared,
        cost,
    })
}

/// The best sizes beside so many shared registers.
fn sizes(
    alloc: Global,
    tables: &[CostTable],
    shared: u32,
    spare: u32,
) -> Result<List<u32>, NoMemory>
    requires few { length tables.now ≤ MOST_CONTEXTS }
    requires tables { All IsCostTable tables.now }
    requires room { shared + spare ≤ MOST_FILE }
    ensures { IfOk result (λ sizes. sizes ≡ sizes_of tables.now shared spare) }
{
    let mut sizes = List::new(alloc);
    sizes.reserve(tables.len())?;
    push_sizes(alloc, tables, shared, spare, &mut sizes)?;
    Ok(sizes)
}

/// Appends the best sizes of these contexts, one after the other.
fn push_sizes(
    alloc: Global,
    tables: &[CostTable],
    shared: u32,
    spare: u32,
    sizes: &mut List<u32>,
) -> Result<(), NoMemory>
    requires few { length tables.now ≤ MOST_CONTEXTS }
    requires tables { All IsCostTable tables.now }
    requires room { shared + spare ≤ MOST_FILE }
    ensures { OnOk result (sizes.new ≡ sizes.old ++ sizes_of tables.now shared spare) }
{
    let Some((table, behind)) = tables.split_first() else {
        return Ok(());
    };
    let step = entry_at(alloc, tables, shared, spare)?.step;
    if sizes.push(least_size(table, shared) + step).is_err() {
        return Err(NoMemory);
    }
    push_sizes(alloc, behind, shared, spare - step, sizes)
}

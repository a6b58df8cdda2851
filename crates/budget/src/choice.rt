ghost use Rattle.std.specs.Prelude.{ℕ, [], ◌≡◌, ◌+◌, ◌*◌, ◌<◌, ◌≤◌, length, drop, IfOk, vec_len};
ghost use Rattle.std.specs.List.{All};
ghost use Rattle.budget.specs.Costs.{IsCostTable};
ghost use Rattle.budget.specs.Choices.{IsRow, entry_of, nearer, stepped};

use crate::sizes::{cell_at, least_size};
use crate::{CostTable, MOST_COST, SIZES};
use micro_isa::{MOST_CONTEXTS, MOST_FILE, NoMemory};
use std::alloc::Global;

/// The best that a context and those behind it do with some registers to spare: what it costs, how
/// many more than they must have they take, and how many of these are the first context's.
#[derive(Clone, Copy, Debug)]
pub struct Entry {
    pub cost: u32,
    pub extra: u32,
    pub step: u32,
}

/// The best of these contexts with `spare` registers to spare.
pub fn entry_at(
    alloc: Global,
    tables: &[CostTable],
    shared: u32,
    spare: u32,
) -> Result<Entry, NoMemory>
    requires tables { All IsCostTable tables.now }
    requires few { length tables.now ≤ MOST_CONTEXTS }
    requires room { shared + spare ≤ MOST_FILE }
    ensures value { IfOk result (λ entry. entry ≡ entry_of tables.now shared spare) }
    ensures extra { IfOk result (λ entry. entry.extra ≤ spare) }
    ensures step { IfOk result (λ entry. entry.step ≤ spare) }
{
    let row = row(alloc, tables, shared, spare)?;
    Ok(row[spare as usize])
}

/// The best of these contexts for each number of registers to spare, up to `spare`.
fn row(alloc: Global, tables: &[CostTable], shared: u32, spare: u32) -> Result<Vec<Entry>, NoMemory>
    requires tables { All IsCostTable tables.now }
    requires few { length tables.now ≤ MOST_CONTEXTS }
    requires room { shared + spare ≤ MOST_FILE }
    ensures row { IfOk result (λ row. IsRow tables.now shared row.items) }
    ensures whole { IfOk result (λ row. vec_len row ≡ spare + 1) }
{
    let Some((_, behind)) = tables.split_first() else {
        return last_row(alloc, spare);
    };
    let row = row(alloc, behind, shared, spare)?;
    next_row(alloc, tables, row.as_slice(), shared)
}

/// No context is left, so nothing is taken.
fn last_row(alloc: Global, spare: u32) -> Result<Vec<Entry>, NoMemory>
    requires { spare ≤ MOST_FILE }
    ensures row { (shared : ℕ) → IfOk result (λ row. IsRow [] shared row.items) }
    ensures whole { IfOk result (λ row. vec_len row ≡ spare + 1) }
{
    let none = Entry {
        cost: 0,
        extra: 0,
        step: 0,
    };
    Vec::from_elem(alloc, none, spare as usize + 1).or(Err(NoMemory))
}

/// The row of these contexts, by that of those behind the first.
fn next_row(
    alloc: Global,
    tables: &[CostTable],
    behind: &[Entry],
    shared: u32,
) -> Result<Vec<Entry>, NoMemory>
    requires some { 0 < length tables.now }
    requires tables { All IsCostTable tables.now }
    requires few { length tables.now ≤ MOST_CONTEXTS }
    requires row { IsRow (drop 1 tables.now) shared behind.now }
    requires room { shared + length behind.now ≤ MOST_FILE + 1 }
    ensures row { IfOk result (λ row. IsRow tables.now shared row.items) }
    ensures whole { IfOk result (λ row. vec_len row ≡ length behind.now) }
{
    let Ok(mut row) = Vec::with_capacity(alloc, behind.len()) else {
        return Err(NoMemory);
    };
    'spares: for spare in 0..behind.len() {
        if row.push(best(tables, behind, shared, spare)).is_err() {
            return Err(NoMemory);
        }
    }
    Ok(row)
}

/// The best of these contexts with `spare` registers to spare.
fn best(tables: &[CostTable], behind: &[Entry], shared: u32, spare: usize) -> Entry
    requires some { 0 < length tables.now }
    requires tables { All IsCostTable tables.now }
    requires few { length tables.now ≤ MOST_CONTEXTS }
    requires row { IsRow (drop 1 tables.now) shared behind.now }
    requires room { shared + length behind.now ≤ MOST_FILE + 1 }
    requires within { spare < length behind.now }
    ensures { result ≡ entry_of tables.now shared spare }
{
    let mut best = stepped(&tables[0], shared, 0, behind[spare]);
    'steps: for d in 0..spare.min(SIZES as usize - 1) {
        let next = stepped(&tables[0], shared, d as u32 + 1, behind[spare - (d + 1)]);
        best = nearer(best, next);
    }
    best
}

/// The context takes `step` registers more than it must, and those behind it do as told.
fn stepped(table: &CostTable, shared: u32, step: u32, behind: Entry) -> Entry
    requires table { IsCostTable table.now }
    requires room { shared + step + behind.extra ≤ MOST_FILE }
    requires small { behind.cost ≤ MOST_CONTEXTS * MOST_COST }
    ensures { result ≡ stepped table.now shared step behind }
{
    let size = least_size(table, shared) + step;
    Entry {
        cost: cell_at(table, size, shared) + behind.cost,
        extra: step + behind.extra,
        step,
    }
}

/// The second where it costs less, or costs the same with fewer registers; else the first.
fn nearer(a: Entry, b: Entry) -> Entry
    ensures { result ≡ nearer a b }
{
    if b.cost < a.cost || (b.cost == a.cost && b.extra < a.extra) {
        b
    } else {
        a
    }
}

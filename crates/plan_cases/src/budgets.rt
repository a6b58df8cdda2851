ghost use Rattle.std.specs.Prelude.{ℕ, ◌≡◌, ◌+◌, ◌*◌, ◌<◌, ◌≤◌, true, slice_index};
ghost use Rattle.std.specs.List.{All};
ghost use Rattle.budget.specs.Costs.{IsCostTable};

use budget::{Budget, BudgetFault, CostTable, MOST_COST, SIZES, balance};
use micro_isa::{List, MOST_CONTEXTS, MOST_FILE};
use std::alloc::Global;
use std::test::Fail;

/// The least sizes of a table, what its cells cost, and those that cost otherwise, by their places.
type Row = (u32, u32, u32, &'static [(usize, u32)]);

/// Tables and a file, and the budget that is preferred: the sizes, the shared registers, the cost.
struct Case {
    tables: &'static [Row],
    file: u32,
    private: &'static [u32],
    shared: u32,
    cost: u32,
}

const CASES: [Case; 7] = [
    // The cost: a register more of its own spares a move.
    Case {
        tables: &[(1, 2, 1, &[(8, 0)])],
        file: 2,
        private: &[2],
        shared: 0,
        cost: 0,
    },
    // The total: nothing is taken for nothing.
    Case {
        tables: &[(1, 2, 3, &[])],
        file: 9,
        private: &[1],
        shared: 1,
        cost: 3,
    },
    // The shared registers: as many in all, and all but the least are shared.
    Case {
        tables: &[(1, 1, 7, &[(1, 0), (9, 0)])],
        file: 4,
        private: &[1],
        shared: 1,
        cost: 0,
    },
    // The list: the last context takes the register more.
    Case {
        tables: &[(1, 1, 4, &[(9, 0)]), (1, 1, 4, &[(9, 0)])],
        file: 3,
        private: &[1, 2],
        shared: 0,
        cost: 4,
    },
    // Beyond a table's sizes nothing costs less.
    Case {
        tables: &[(0, 0, 5, &[(63, 0)])],
        file: 20,
        private: &[7],
        shared: 0,
        cost: 0,
    },
    // A context that nothing crosses.
    Case {
        tables: &[FULL],
        file: 2,
        private: &[0],
        shared: 2,
        cost: 0,
    },
    // One move with the least of its own, and none with more.
    Case {
        tables: &[(
            1,
            2,
            0,
            &[
                (0, 1),
                (1, 1),
                (2, 1),
                (3, 1),
                (4, 1),
                (5, 1),
                (6, 1),
                (7, 1),
            ],
        )],
        file: 2,
        private: &[2],
        shared: 0,
        cost: 0,
    },
];

/// Two registers, neither of which crosses, and nothing costs.
const FULL: Row = (0, 2, 0, &[]);

/// Tables whose need is 2.
const OF_TWO: [&[Row]; 2] = [&[(0, 1, 0, &[]), (1, 1, 0, &[])], &[FULL]];

/// The table of a row. What has more of its own than in all costs the greatest number: no budget
/// looks there.
fn table_of(alloc: Global, row: Row) -> Result<CostTable, Fail> {
    let (private, all, cost, others) = row;
    let mut cells = Vec::from_elem(alloc, cost, 64)?;
    for (place, cost) in others {
        if *place < cells.len() {
            cells[*place] = *cost;
        }
    }
    hide(cells.as_mut_slice(), private, all);
    Ok(CostTable {
        private,
        all,
        cells: List::of(cells),
    })
}

fn hide(cells: &mut [u32], private: u32, all: u32) {
    for place in 0..cells.len() {
        let own = u64::from(private) + (place / 8) as u64;
        if own > u64::from(all) + (place % 8) as u64 {
            cells[place] = u32::MAX;
        }
    }
}

/// The test of what `balance` requires of a table.
fn is_table(table: &CostTable) -> bool
    ensures { result ≡ true → IsCostTable table.now }
{
    table.private <= table.all
        && table.all <= MOST_FILE
        && table.cells.len() == (SIZES * SIZES) as usize
        && are_small(table)
}

fn are_small(table: &CostTable) -> bool
    requires order { table.now.private ≤ table.now.all }
    requires few { table.now.all ≤ MOST_FILE }
    ensures { result ≡ true → (i j : ℕ) → i < SIZES → j < SIZES → table.now.private + i ≤ table.now.all + j → slice_index table.now.cells (i * SIZES + j) ≤ MOST_COST }
{
    for i in 0..SIZES {
        if !is_small_row(table, i) {
            return false;
        }
    }
    true
}

fn is_small_row(table: &CostTable, i: u32) -> bool
    requires order { table.now.private ≤ table.now.all }
    requires few { table.now.all ≤ MOST_FILE }
    requires within { i < SIZES }
    ensures { result ≡ true → (j : ℕ) → j < SIZES → table.now.private + i ≤ table.now.all + j → slice_index table.now.cells (i * SIZES + j) ≤ MOST_COST }
{
    for j in 0..SIZES {
        let cost = cost_at(table.cells.as_slice(), (i * SIZES + j) as usize);
        if table.private + i <= table.all + j && cost > MOST_COST {
            return false;
        }
    }
    true
}

fn cost_at(cells: &[u32], place: usize) -> u32
    ensures { result ≡ slice_index cells.now place }
{
    match cells.get(place) {
        Some(cost) => *cost,
        None => 0,
    }
}

fn are_tables(tables: &[CostTable]) -> bool
    ensures { result ≡ true → All IsCostTable tables.now }
{
    for table in tables {
        if !is_table(table) {
            return false;
        }
    }
    true
}

/// What `balance` tells: the sizes, the shared registers, the cost.
fn told(alloc: Global, rows: &[Row], file: u32) -> Result<Result<Budget, BudgetFault>, Fail> {
    let mut tables = Vec::new(alloc);
    for row in rows {
        tables.push(table_of(alloc, *row)?)?;
    }
    if tables.is_empty() || tables.len() > MOST_CONTEXTS || file > MOST_FILE {
        return Err("few tables and a file".into());
    }
    if !are_tables(tables.as_slice()) {
        return Err("tables".into());
    }
    Ok(balance(alloc, tables.as_slice(), file))
}

fn budget_of(alloc: Global, private: &[u32], shared: u32, cost: u32) -> Result<Budget, Fail> {
    let mut sizes = List::new(alloc);
    for size in private {
        sizes.push(*size)?;
    }
    Ok(Budget {
        private: sizes,
        shared,
        cost,
    })
}

fn holds(alloc: Global, case: &Case) -> Result<bool, Fail> {
    let want = budget_of(alloc, case.private, case.shared, case.cost)?;
    match told(alloc, case.tables, case.file)? {
        Ok(found) => Ok(found == want),
        Err(_) => Ok(false),
    }
}

fn is_refused(alloc: Global, tables: &[Row]) -> Result<bool, Fail> {
    match told(alloc, tables, 1)? {
        Ok(_) => Ok(false),
        Err(fault) => Ok(fault == BudgetFault::NoFit { need: 2, file: 1 }),
    }
}

#[test]
fn each_key_decides(rt: HostRuntime) -> Result<(), Fail> {
    for case in &CASES {
        assert!(rt; holds(rt.alloc(), case)?);
    }
    Ok(())
}

#[test]
fn the_need_is_above_the_file(rt: HostRuntime) -> Result<(), Fail> {
    for tables in &OF_TWO {
        assert!(rt; is_refused(rt.alloc(), *tables)?);
    }
    Ok(())
}

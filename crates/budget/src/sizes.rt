ghost use Rattle.std.specs.Prelude.{◌≡◌, ◌+◌, ◌*◌, ◌<◌, ◌≤◌, length};
ghost use Rattle.std.specs.List.{All};
ghost use Rattle.budget.specs.Costs.{IsCostTable, cell_at, clipped};
ghost use Rattle.budget.specs.Choices.{least_size, least_sum};

use crate::{CostTable, SIZES};
use micro_isa::{MOST_CONTEXTS, MOST_FILE};

/// What it costs a context to have `size` registers of its own beside `shared` ones.
pub fn cell_at(table: &CostTable, size: u32, shared: u32) -> u32
    requires table { IsCostTable table.now }
    requires own { table.now.private ≤ size }
    requires all { table.now.all ≤ size + shared }
    requires few { size + shared ≤ 2 * MOST_FILE }
    ensures { result ≡ cell_at table.now size shared }
{
    let own = clipped(size, table.private);
    let all = clipped(size + shared, table.all);
    table.cells.as_slice()[(own * SIZES + all) as usize]
}

/// How far the size is above the least one, as far as tables go.
fn clipped(size: u32, least: u32) -> u32
    requires { least ≤ size }
    ensures value { result ≡ clipped size least }
    ensures within { result < SIZES }
{
    (SIZES - 1).min(size - least)
}

/// The fewest registers of its own that a context can do with beside `shared` ones.
pub fn least_size(table: &CostTable, shared: u32) -> u32
    ensures { result ≡ least_size table.now shared }
{
    table.private.max(table.all.saturating_sub(shared))
}

/// The fewest that all contexts can do with.
pub fn least_sum(tables: &[CostTable], shared: u32) -> u32
    requires tables { All IsCostTable tables.now }
    requires few { length tables.now ≤ MOST_CONTEXTS }
    ensures value { result ≡ least_sum tables.now shared }
    ensures small { result ≤ MOST_CONTEXTS * MOST_FILE }
{
    let mut sum = 0;
    'tables: for table in tables {
        sum += least_size(table, shared);
    }
    sum
}

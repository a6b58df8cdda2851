//! What a context's registers cost it: the table of a context, and those of all. What was made for it is
//! kept, since it serves the plan that is taken.

ghost use Rattle.std.specs.Prelude.{◌≡◌, ◌+◌, ◌*◌, ◌<◌, ◌≤◌, ◌++◌, ◌∷◌, [], IfOk, IfSome, OnOk, length, replicate};
ghost use Rattle.std.specs.List.{All, AllZip, sum_by};
ghost use Rattle.flow_graph.specs.Paths.{IsClosedCode};
ghost use Rattle.liveness.specs.Lives.{IsLiveOf};
ghost use Rattle.pressure.specs.Pressures.{IsPart, IsPressureOf, need_of};
ghost use Rattle.allocate.specs.Fits.{AreFitsOf};
ghost use Rattle.allocate.specs.Items.{AreClosed, IsItem};
ghost use Rattle.allocate.specs.Needs.{AreLives, ArePressures};
ghost use Rattle.allocate.specs.Tables.{AreKept, AreRows, AreWalksKept, IsKept, IsKeptBy, IsPriced, IsTabled, IsWalkKept};

use crate::dearer::is_dearer;
use crate::fits::{Fits, fits_of};
use crate::kept::Kept;
use crate::priced::{PricedWalk, is_walk_free};
use crate::region_costs::RegionCosts;
use crate::row_costs::row_costs;
use budget::{CostTable, SIZE_COUNT, SIZES};
use liveness::Live;
use micro_isa::{List, MOST_FILE, NoMemory, Program};
use pressure::Pressure;
use range_colour::whole_fit;
use std::alloc::Global;

/// The tables of all programs, and what was kept of each.
#[derive(Drop)]
pub(crate) struct Tables {
    pub tables: List<CostTable>,
    pub keeps: List<Kept>,
    pub walks: Vec<Option<PricedWalk>>,
}

/// The table of one program, and what was kept of it.
#[derive(Drop)]
struct Tabled {
    table: CostTable,
    kept: Kept,
    walk: Option<PricedWalk>,
}

/// The table of each program, where so many registers are left beside the contexts' own.
#[tactic(auto, using(crate::proofs::Zipping::cover_push, crate::proofs::Zipping::cover_all))]
pub(crate) fn tables_of(
    alloc: Global,
    programs: &[Program],
    lives: &[Live],
    parts: &[Pressure],
    spare: u32,
) -> Result<Tables, NoMemory>
    requires closed { AreClosed programs.now }
    requires lives { AreLives programs.now lives.now }
    requires parts { ArePressures programs.now parts.now }
    requires ordered { All IsPart parts.now }
    requires small { need_of parts.now ≤ MOST_FILE }
    requires spare { sum_by (λ part. part.private) parts.now + spare ≤ MOST_FILE }
    ensures tables { IfOk result (λ made. AllZip (λ program table. IsTabled spare program.code table) programs.now made.tables) }
    ensures keeps { IfOk result (λ made. AreKept programs.now made.keeps) }
    ensures walks { IfOk result (λ made. AreWalksKept programs.now made.walks.items) }
{
    let mut tables = List::new(alloc);
    let mut keeps = List::new(alloc);
    let mut walks = Vec::new(alloc);
    for c in 0..programs.len() {
        let Tabled { table, kept, walk } = table_at(alloc, programs, lives, parts, spare, c)?;
        push_table(&mut tables, table)?;
        push_kept(&mut keeps, kept)?;
        push_walk(&mut walks, walk)?;
    }
    Ok(Tables {
        tables,
        keeps,
        walks,
    })
}

fn table_at(
    alloc: Global,
    programs: &[Program],
    lives: &[Live],
    parts: &[Pressure],
    spare: u32,
    c: usize,
) -> Result<Tabled, NoMemory>
    requires closed { AreClosed programs.now }
    requires lives { AreLives programs.now lives.now }
    requires parts { ArePressures programs.now parts.now }
    requires ordered { All IsPart parts.now }
    requires small { need_of parts.now ≤ MOST_FILE }
    requires spare { sum_by (λ part. part.private) parts.now + spare ≤ MOST_FILE }
    requires within { c < length programs.now }
    ensures table { IfOk result (λ made. IsItem (IsTabled spare) programs.now c made.table) }
    ensures kept { IfOk result (λ made. IsItem IsKept programs.now c made.kept) }
    ensures walk { IfOk result (λ made. IsItem IsWalkKept programs.now c made.walk) }
{
    table_of(alloc, &programs[c], &lives[c], parts[c], spare)
}

fn push_table(tables: &mut List<CostTable>, table: CostTable) -> Result<(), NoMemory>
    ensures { OnOk result (tables.new ≡ tables.old ++ table ∷ []) }
{
    if tables.push(table).is_err() {
        return Err(NoMemory);
    }
    Ok(())
}

fn push_kept(keeps: &mut List<Kept>, kept: Kept) -> Result<(), NoMemory>
    ensures { OnOk result (keeps.new ≡ keeps.old ++ kept ∷ []) }
{
    if keeps.push(kept).is_err() {
        return Err(NoMemory);
    }
    Ok(())
}

fn push_walk(walks: &mut Vec<Option<PricedWalk>>, walk: Option<PricedWalk>) -> Result<(), NoMemory>
    ensures { OnOk result (walks.new.items ≡ walks.old.items ++ walk ∷ []) }
{
    if walks.push(walk).is_err() {
        return Err(NoMemory);
    }
    Ok(())
}

/// The table of one program.
fn table_of(
    alloc: Global,
    program: &Program,
    live: &Live,
    part: Pressure,
    spare: u32,
) -> Result<Tabled, NoMemory>
    requires closed { IsClosedCode program.now.code }
    requires live { IsLiveOf program.now.code live.now }
    requires part { IsPressureOf program.now.code part }
    requires ordered { part.private ≤ part.all }
    requires all { part.all ≤ MOST_FILE }
    requires small { part.private + spare ≤ MOST_FILE }
    ensures table { IfOk result (λ made. IsTabled spare program.now.code made.table) }
    ensures kept { IfOk result (λ made. IsKept program.now.code made.kept) }
    ensures walk { IfOk result (λ made. IsWalkKept program.now.code made.walk) }
{
    let Cells { cells, kept, walk } = cells_of(alloc, program, live, part, part.private + spare)?;
    Ok(Tabled {
        table: CostTable {
            private: part.private,
            all: part.all,
            cells,
        },
        kept,
        walk,
    })
}

/// The cells of one program, and what was kept of it.
#[derive(Drop)]
struct Cells {
    cells: List<u32>,
    kept: Kept,
    walk: Option<PricedWalk>,
}

/// The cells of one program, up to `most` places in all.
fn cells_of(
    alloc: Global,
    program: &Program,
    live: &Live,
    part: Pressure,
    most: u32,
) -> Result<Cells, NoMemory>
    requires closed { IsClosedCode program.now.code }
    requires live { IsLiveOf program.now.code live.now }
    requires part { IsPressureOf program.now.code part }
    requires ordered { part.private ≤ part.all }
    requires all { part.all ≤ MOST_FILE }
    requires most { most ≤ MOST_FILE }
    ensures cells { IfOk result (λ made. AreRows program.now.code part most SIZES made.cells) }
    ensures kept { IfOk result (λ made. IsKeptBy program.now.code part made.kept) }
    ensures walk { IfOk result (λ made. IfSome made.walk (IsPriced program.now.code part.all)) }
{
    let whole = whole_fit(alloc, program.code.as_slice(), live)?;
    if whole.fits(part.private, part.all) {
        let cells = free_cells(alloc)?;
        return Ok(Cells {
            cells,
            kept: Kept::Free(whole),
            walk: None,
        });
    }
    let fits = fits_of(alloc, program, live, whole)?;
    if part.all <= most {
        walked_cells(alloc, program, live, part, most, fits)
    } else {
        costly_cells(alloc, program, live, part, most, fits, None)
    }
}

/// The cells, where the fit over the whole program does not serve the least sizes and some are in
/// reach.
fn walked_cells(
    alloc: Global,
    program: &Program,
    live: &Live,
    part: Pressure,
    most: u32,
    fits: Fits,
) -> Result<Cells, NoMemory>
    requires closed { IsClosedCode program.now.code }
    requires live { IsLiveOf program.now.code live.now }
    requires part { IsPressureOf program.now.code part }
    requires ordered { part.private ≤ part.all }
    requires all { part.all ≤ most }
    requires most { most ≤ MOST_FILE }
    requires fits { AreFitsOf program.now.code fits }
    ensures cells { IfOk result (λ made. AreRows program.now.code part most SIZES made.cells) }
    ensures kept { IfOk result (λ made. IsKeptBy program.now.code part made.kept) }
    ensures walk { IfOk result (λ made. IfSome made.walk (IsPriced program.now.code part.all)) }
{
    let mut walk = None;
    let free = is_walk_free(alloc, program, live, part, most, &mut walk)?;
    if !free {
        return costly_cells(alloc, program, live, part, most, fits, walk);
    }
    let mut fits = fits;
    // Which plan each cell has is told by the fits that are there, or else by all.
    is_dearer(alloc, program, live, &mut fits, 0)?;
    let cells = free_cells(alloc)?;
    Ok(Cells {
        cells,
        kept: Kept::Fitted(fits),
        walk,
    })
}

/// The cells, where some may cost something.
fn costly_cells(
    alloc: Global,
    program: &Program,
    live: &Live,
    part: Pressure,
    most: u32,
    fits: Fits,
    made: Option<PricedWalk>,
) -> Result<Cells, NoMemory>
    requires closed { IsClosedCode program.now.code }
    requires live { IsLiveOf program.now.code live.now }
    requires part { IsPressureOf program.now.code part }
    requires ordered { part.private ≤ part.all }
    requires all { part.all ≤ MOST_FILE }
    requires most { most ≤ MOST_FILE }
    requires fits { AreFitsOf program.now.code fits }
    requires made { IfSome made (IsPriced program.now.code part.all) }
    ensures cells { IfOk result (λ made. AreRows program.now.code part most SIZES made.cells) }
    ensures kept { IfOk result (λ made. IsKeptBy program.now.code part made.kept) }
    ensures walk { IfOk result (λ made. IfSome made.walk (IsPriced program.now.code part.all)) }
{
    let mut walk = made;
    let mut fits = fits;
    let cells = rows_of(alloc, program, live, part, most, &mut fits, &mut walk)?;
    Ok(Cells {
        cells,
        kept: Kept::Fitted(fits),
        walk,
    })
}

/// Cells that all cost nothing.
fn free_cells(alloc: Global) -> Result<List<u32>, NoMemory>
    ensures { IfOk result (λ cells. cells ≡ replicate (SIZES * SIZES) 0) }
{
    match Vec::from_elem(alloc, 0u32, (SIZES * SIZES) as usize) {
        Ok(cells) => Ok(List::of(cells)),
        Err(_) => Err(NoMemory),
    }
}

/// The cells row by row. `walk` keeps the last walk that was made.
fn rows_of(
    alloc: Global,
    program: &Program,
    live: &Live,
    part: Pressure,
    most: u32,
    fits: &mut Fits,
    walk: &mut Option<PricedWalk>,
) -> Result<List<u32>, NoMemory>
    requires closed { IsClosedCode program.now.code }
    requires live { IsLiveOf program.now.code live.now }
    requires part { IsPressureOf program.now.code part }
    requires ordered { part.private ≤ part.all }
    requires all { part.all ≤ MOST_FILE }
    requires most { most ≤ MOST_FILE }
    requires fits { AreFitsOf program.now.code fits.old }
    requires walk { IfSome walk.old (IsPriced program.now.code part.all) }
    ensures rows { IfOk result (AreRows program.now.code part most SIZES) }
    ensures fits { IfOk result (λ cells. AreFitsOf program.now.code fits.new) }
    ensures walk { IfSome walk.new (IsPriced program.now.code part.all) }
{
    let mut cells = List::new(alloc);
    let mut costs = RegionCosts::Unknown;
    for i in 0..SIZES {
        let p = part.private + i;
        let row = row_costs(alloc, program, live, part, p, most, fits, &mut costs, walk)?;
        push_row(&mut cells, &row)?;
    }
    Ok(cells)
}

fn push_row(cells: &mut List<u32>, row: &[u32; SIZE_COUNT]) -> Result<(), NoMemory>
    ensures row { OnOk result (cells.new ≡ cells.old ++ row.now) }
    ensures eight { length row.now ≡ SIZES }
{
    for cost in row {
        push_cost(cells, *cost)?;
    }
    Ok(())
}

fn push_cost(cells: &mut List<u32>, cost: u32) -> Result<(), NoMemory>
    ensures { OnOk result (cells.new ≡ cells.old ++ cost ∷ []) }
{
    if cells.push(cost).is_err() {
        return Err(NoMemory);
    }
    Ok(())
}

//! A plan whose rows stand one after another in one list: two lists in place of one for each row, which
//! are quick to make and to give back.

ghost use Rattle.std.specs.Prelude.{[], ◌≡◌, ◌-◌, ◌≤◌, IfOk, OnOk, drop, length, slice_get, take};
ghost use Rattle.plan.specs.Rows.{places_in, with_row, write_in};
ghost use Rattle.plan.specs.Flat.{AreOrdered, first_start, rows_of};

use crate::row::{Place, Plan, PlanRow};
use micro_isa::{List, NoMemory};
use std::alloc::Global;
use std::marker::Model;

/// Where the entries of a row begin, and the place of what it writes. They go on to where those of the
/// next row begin, or to the end.
#[derive(Clone, Copy, Debug)]
pub(crate) struct FlatRow {
    pub start: u32,
    pub write: Option<u8>,
}

/// A plan, as contracts see it. It is made row by row, and turned into a `Plan` where one is asked for.
#[derive(Drop)]
pub struct FlatPlan {
    p: u32,
    r: u32,
    entries: Vec<Place>,
    rows: Vec<FlatRow>,
}

impl Model for FlatPlan {
    ghost use Rattle.plan.specs.declared.row.Plan.{Plan};

    ghost Value = { Plan };

    ghost use Rattle.plan.specs.Flat.{plan_of, IsInOrder};

    ghost view = { plan_of };

    ghost invariant = { IsInOrder };
}

impl FlatPlan {
    /// A plan without rows and without places; it takes no memory yet.
    pub fn new(alloc: Global) -> FlatPlan
        ensures { result ≡ record { p = 0; r = 0; rows = [] } }
    {
        FlatPlan {
            p: 0,
            r: 0,
            entries: Vec::new(alloc),
            rows: Vec::new(alloc),
        }
    }

    /// The same plan in another form.
    pub fn of(alloc: Global, plan: &Plan) -> Result<FlatPlan, NoMemory>
        ensures { IfOk result (λ flat. flat ≡ plan.now) }
    {
        let mut flat = FlatPlan::new(alloc).emptied(plan.p, plan.r);
        'rows: for row in plan.rows.as_slice() {
            flat.push_row(row.places.as_slice(), row.write)?;
        }
        Ok(flat)
    }

    /// A plan without rows, of these numbers of places and in the memory of this one.
    pub fn emptied(self, p: u32, r: u32) -> FlatPlan
        ensures { result ≡ record { p = p; r = r; rows = [] } }
    {
        let FlatPlan {
            mut entries,
            mut rows,
            ..
        } = self;
        entries.clear();
        rows.clear();
        FlatPlan {
            p,
            r,
            entries,
            rows,
        }
    }

    /// The same rows, with these numbers of places.
    pub fn resized(self, p: u32, r: u32) -> FlatPlan
        ensures { result ≡ record { p = p; r = r; rows = self.rows } }
    {
        let FlatPlan { entries, rows, .. } = self;
        FlatPlan {
            p,
            r,
            entries,
            rows,
        }
    }

    /// The number of places that are the context's own.
    pub fn p(&self) -> u32
        ensures { result ≡ self.now.p }
    {
        self.p
    }

    /// The number of all places.
    pub fn r(&self) -> u32
        ensures { result ≡ self.now.r }
    {
        self.r
    }

    /// Makes room for so many more rows, but not for their entries.
    pub fn reserve(&mut self, n: usize) -> Result<(), NoMemory>
        ensures { self.new ≡ self.old }
    {
        match self.rows.reserve(n) {
            Ok(()) => Ok(()),
            Err(_) => Err(NoMemory),
        }
    }

    /// Appends a row. A refusal may leave a row without entries at the end. More than four billion entries
    /// are not told from want of memory.
    pub fn push_row(&mut self, places: &[Place], write: Option<u8>) -> Result<(), NoMemory>
        ensures { OnOk result (self.new ≡ with_row self.old (record { places = places.now; write = write })) }
    {
        let Ok(start) = u32::try_from(self.entries.len()) else {
            return Err(NoMemory);
        };
        if self.rows.push(FlatRow { start, write }).is_err() {
            return Err(NoMemory);
        }
        match self.entries.extend_from_slice(places) {
            Ok(()) => Ok(()),
            Err(_) => Err(NoMemory),
        }
    }

    /// The places of row `i`; none where there is no such row.
    pub fn places_at(&self, i: usize) -> &[Place]
        ensures { result.now ≡ places_in (slice_get self.now.rows i) }
    {
        entries_at(&self.entries, &self.rows, i)
    }

    /// The write's place of row `i`, if there is such a row and it has one.
    pub fn write_at(&self, i: usize) -> Option<u8>
        ensures { result ≡ write_in (slice_get self.now.rows i) }
    {
        match row_at(&self.rows, i) {
            Some(row) => row.write,
            None => None,
        }
    }

    /// The plan as a list of lists.
    pub fn to_plan(&self, alloc: Global) -> Result<Plan, NoMemory>
        ensures { IfOk result (λ plan. plan ≡ self.now) }
    {
        let mut rows = List::new(alloc);
        rows.reserve(self.rows.len())?;
        'rows: for i in 0..self.rows.len() {
            let row = row_of(alloc, self.places_at(i), self.write_at(i))?;
            if rows.push(row).is_err() {
                return Err(NoMemory);
            }
        }
        Ok(Plan {
            p: self.p,
            r: self.r,
            rows,
        })
    }
}

/// Row `i`, if there is one.
fn row_at(rows: &[FlatRow], i: usize) -> Option<FlatRow>
    ensures { result ≡ slice_get rows.now i }
{
    match rows.get(i) {
        Some(row) => Some(*row),
        None => None,
    }
}

/// The entries of row `i`.
fn entries_at<'a>(entries: &'a [Place], rows: &[FlatRow], i: usize) -> &'a [Place]
    requires { AreOrdered rows.now (length entries.now) }
    ensures { result.now ≡ places_in (slice_get (rows_of entries.now rows.now) i) }
{
    match row_at(rows, i) {
        Some(row) => part(
            entries,
            row.start as usize,
            start_at(rows, i + 1, entries.len()),
        ),
        None => &[],
    }
}

/// The entries from one place to before another.
fn part(entries: &[Place], start: usize, end: usize) -> &[Place]
    requires order { start ≤ end }
    requires within { end ≤ length entries.now }
    ensures { result.now ≡ take (end - start) (drop start entries.now) }
{
    &entries[start..end]
}

/// Where row `i` begins; the end where there is no such row.
fn start_at(rows: &[FlatRow], i: usize, end: usize) -> usize
    ensures { result ≡ first_start (drop i rows.now) end }
{
    match rows.get(i) {
        Some(row) => row.start as usize,
        None => end,
    }
}

/// A row with these entries.
fn row_of(alloc: Global, places: &[Place], write: Option<u8>) -> Result<PlanRow, NoMemory>
    ensures { IfOk result (λ row. row ≡ record { places = places.now; write = write }) }
{
    match Vec::from_slice(alloc, places) {
        Ok(items) => Ok(PlanRow {
            places: List::of(items),
            write,
        }),
        Err(_) => Err(NoMemory),
    }
}

//! Plans that are written out, and the rows of a plan as a text.

use micro_isa::{List, VReg};
use plan::{Place, Plan, PlanRow};
use std::alloc::Global;
use std::test::Fail;

/// The entries of a row, and the place of its write.
pub(crate) type Row = (&'static [(u16, u8)], Option<u8>);

/// The walk of the split program at 1 and 2: one move on both edges of the branch.
pub(crate) const WALKED: [Row; 7] = [
    (&[], Some(0)),
    (&[(0, 0)], None),
    (&[(0, 0)], Some(1)),
    (&[(0, 0), (1, 1)], None),
    (&[(1, 0)], None),
    (&[(1, 0)], None),
    (&[], None),
];

fn row_of(alloc: Global, row: &Row) -> Result<PlanRow, Fail> {
    let mut places = List::new(alloc);
    for (register, place) in row.0 {
        places.push(Place {
            register: VReg(*register),
            place: *place,
        })?;
    }
    Ok(PlanRow {
        places,
        write: row.1,
    })
}

/// The plan of these sizes with these rows.
pub(crate) fn plan_of(alloc: Global, listed: &[Row], sizes: (u32, u32)) -> Result<Plan, Fail> {
    let mut rows = List::new(alloc);
    for row in listed {
        rows.push(row_of(alloc, row)?)?;
    }
    let (p, r) = sizes;
    Ok(Plan { p, r, rows })
}

/// The rows of a plan: `register@place` for each entry, `>place` for a write, a `;` behind each row.
pub(crate) fn shown(alloc: Global, plan: &Plan) -> Result<String, Fail> {
    let mut text = String::new(alloc);
    for row in plan.rows.as_slice() {
        for entry in row.places.as_slice() {
            text.push_str(format!(in alloc; "{}@{} ", entry.register.0, entry.place)?.as_str())?;
        }
        if let Some(place) = row.write {
            text.push_str(format!(in alloc; ">{}", place)?.as_str())?;
        }
        text.push(';')?;
    }
    Ok(text)
}

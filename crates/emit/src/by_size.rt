//! How many glue words a plan has with more or fewer places in all.

ghost use Rattle.std.specs.Prelude.{ℕ, ◌≡◌, ◌+◌, ◌-◌, ◌*◌, ◌<◌, ◌≤◌, IfOk, OnOk, length, slice_get, slice_index};
ghost use Rattle.micro_isa.specs.declared.limits.TheConstants.{MOST_FILE, MOST_INSTRUCTIONS};
ghost use Rattle.budget.specs.declared.TheConstants.{SIZES};
ghost use Rattle.flow_graph.specs.Paths.{IsClosedCode};
ghost use Rattle.plan.specs.ValidPlans.{IsValidPlan};
ghost use Rattle.emitted.specs.Edges.{row_at, next_at};
ghost use Rattle.emitted.specs.Words.{glue_of};
ghost use Rattle.emit.specs.Limits.{most_glue, most_line_glue};
ghost use Rattle.emit.specs.Sized.{AreCostsTo, AreFew, glue_with, takes_nothing, with_places};
ghost use Rattle.emit.specs.Tables.{HasPlaces};

use crate::after::{Places, places_of_row, write_place};
use crate::edge_costs::{EdgeCosts, costs_of_fall, costs_to, steps_with};
use crate::rows::next_at;
use crate::sizes::with_jump;
use budget::SIZE_COUNT;
use micro_isa::{Line, NoMemory, Program};
use plan::FlatPlan;
use std::alloc::Global;

/// How many glue words a valid plan has with `from` places in all, with one more, and so on: its
/// rows are the same, and more places leave more edges a free one.
pub fn glues(
    alloc: Global,
    program: &Program,
    plan: &FlatPlan,
    from: u32,
) -> Result<[u32; SIZE_COUNT], NoMemory>
    requires closed { IsClosedCode program.now.code }
    requires valid { IsValidPlan program.now.code plan.now }
    requires small { from ≤ MOST_FILE }
    ensures numbers { IfOk result (λ glues. (j : ℕ) → j < SIZES → slice_index glues j ≡ glue_of program.now.code (with_places plan.now (from + j))) }
    ensures few { IfOk result (λ glues. (j : ℕ) → slice_index glues j ≤ most_glue) }
{
    glues_of(alloc, program.code.as_slice(), plan, from)
}

fn glues_of(
    alloc: Global,
    code: &[Line],
    plan: &FlatPlan,
    from: u32,
) -> Result<[u32; SIZE_COUNT], NoMemory>
    requires closed { IsClosedCode code.now }
    requires valid { IsValidPlan code.now plan.now }
    requires small { from ≤ MOST_FILE }
    ensures numbers { IfOk result (λ glues. (j : ℕ) → j < SIZES → slice_index glues j ≡ glue_of code.now (with_places plan.now (from + j))) }
    ensures few { IfOk result (λ glues. (j : ℕ) → slice_index glues j ≤ most_glue) }
{
    let mut glues = [0u32; SIZE_COUNT];
    let mut table = places_of_row(plan, 0);
    for i in 0..code.len() {
        let (fall, jump) = edges_at(alloc, code, plan, i, &mut table)?;
        add(&mut glues, fall, jump, from);
    }
    Ok(glues)
}

/// What the edges of instruction `i` cost: where it falls through, and where it jumps. The table
/// has the places of row `i`, and then those of the next row.
pub(crate) fn edges_at(
    alloc: Global,
    code: &[Line],
    plan: &FlatPlan,
    i: usize,
    table: &mut Places,
) -> Result<(EdgeCosts, EdgeCosts), NoMemory>
    requires closed { IsClosedCode code.now }
    requires valid { IsValidPlan code.now plan.now }
    requires within { i < length code.now }
    requires row { HasPlaces (row_at plan.now i).places table.old }
    ensures fall { IfOk result (λ costs. AreCostsTo code.now plan.now i (next_at (slice_get code.now i) i).fall costs.0) }
    ensures jump { IfOk result (λ costs. AreCostsTo code.now plan.now i (next_at (slice_get code.now i) i).jump costs.1) }
    ensures next { OnOk result (HasPlaces (row_at plan.now (i + 1)).places table.new) }
{
    write_place(table, code, plan, i);
    let next = next_at(code, i);
    let jump = costs_to(alloc, code, plan, i, table, next.jump)?;
    let fall = costs_of_fall(alloc, code, plan, i, table, next.fall)?;
    Ok((fall, jump))
}

/// Whether an edge takes no steps.
fn is_nothing(costs: EdgeCosts) -> bool
    ensures { result ≡ takes_nothing costs }
{
    costs.with_free == 0 && costs.without == 0
}

/// Adds the glue words of an instruction with these edges, for each number of places.
pub(crate) fn add(glues: &mut [u32; SIZE_COUNT], fall: EdgeCosts, jump: EdgeCosts, from: u32)
    requires fall { AreFew fall }
    requires jump { AreFew jump }
    requires small { from ≤ MOST_FILE }
    requires few { (j : ℕ) → slice_index glues.old j ≤ most_line_glue * (MOST_INSTRUCTIONS - 1) }
    ensures more { (j : ℕ) → j < SIZES → slice_index glues.new j ≡ slice_index glues.old j + glue_with fall jump (from + j) }
    ensures few { (j : ℕ) → slice_index glues.new j ≤ slice_index glues.old j + most_line_glue }
{
    if is_nothing(fall) && is_nothing(jump) {
        return;
    }
    for j in 0..SIZE_COUNT {
        glues[j] += glue_with(fall, jump, from + j as u32);
    }
}

/// The glue words of an instruction with these edges, where so many places are there.
fn glue_with(fall: EdgeCosts, jump: EdgeCosts, places: u32) -> u32
    requires fall { AreFew fall }
    requires jump { AreFew jump }
    ensures value { result ≡ glue_with fall jump places }
    ensures few { result ≤ most_line_glue }
{
    steps_with(fall, places) + with_jump(steps_with(jump, places))
}

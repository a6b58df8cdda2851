//! How many glue words a plan has in which no register moves on a fall.

ghost use Rattle.std.specs.Prelude.{ℕ, [], ◌≡◌, ◌+◌, ◌<◌, ◌≤◌, IfOk, length, slice_get, slice_index};
ghost use Rattle.micro_isa.specs.declared.limits.TheConstants.{MOST_FILE};
ghost use Rattle.budget.specs.declared.TheConstants.{SIZES};
ghost use Rattle.flow_graph.specs.Paths.{IsClosedCode};
ghost use Rattle.plan.specs.ValidPlans.{IsValidPlan};
ghost use Rattle.emitted.specs.Edges.{fall_steps, next_at};
ghost use Rattle.emitted.specs.Words.{glue_of};
ghost use Rattle.emit.specs.Limits.{most_glue};
ghost use Rattle.emit.specs.Sized.{AreCostsTo, with_places};

use crate::after::places_after;
use crate::by_size::add;
use crate::edge_costs::{EdgeCosts, NOTHING, costs_to};
use crate::rows::next_at;
use budget::SIZE_COUNT;
use micro_isa::{Line, NoMemory, Program};
use plan::FlatPlan;
use std::alloc::Global;

/// The same as `glues`, where no fall takes steps: only the jumps are looked at.
pub fn jump_glues(
    alloc: Global,
    program: &Program,
    plan: &FlatPlan,
    from: u32,
) -> Result<[u32; SIZE_COUNT], NoMemory>
    requires closed { IsClosedCode program.now.code }
    requires valid { IsValidPlan program.now.code plan.now }
    requires small { from ≤ MOST_FILE }
    requires falls { (r i : ℕ) → fall_steps program.now.code (with_places plan.now r) i ≡ [] }
    ensures numbers { IfOk result (λ glues. (j : ℕ) → j < SIZES → slice_index glues j ≡ glue_of program.now.code (with_places plan.now (from + j))) }
    ensures few { IfOk result (λ glues. (j : ℕ) → slice_index glues j ≤ most_glue) }
{
    jump_glues_of(alloc, program.code.as_slice(), plan, from)
}

fn jump_glues_of(
    alloc: Global,
    code: &[Line],
    plan: &FlatPlan,
    from: u32,
) -> Result<[u32; SIZE_COUNT], NoMemory>
    requires closed { IsClosedCode code.now }
    requires valid { IsValidPlan code.now plan.now }
    requires small { from ≤ MOST_FILE }
    requires falls { (r i : ℕ) → fall_steps code.now (with_places plan.now r) i ≡ [] }
    ensures numbers { IfOk result (λ glues. (j : ℕ) → j < SIZES → slice_index glues j ≡ glue_of code.now (with_places plan.now (from + j))) }
    ensures few { IfOk result (λ glues. (j : ℕ) → slice_index glues j ≤ most_glue) }
{
    let mut glues = [0u32; SIZE_COUNT];
    for i in 0..code.len() {
        let jump = jump_costs(alloc, code, plan, i)?;
        add(&mut glues, NOTHING, jump, from);
    }
    Ok(glues)
}

/// What it costs to jump from instruction `i`.
fn jump_costs(
    alloc: Global,
    code: &[Line],
    plan: &FlatPlan,
    i: usize,
) -> Result<EdgeCosts, NoMemory>
    requires closed { IsClosedCode code.now }
    requires valid { IsValidPlan code.now plan.now }
    requires within { i < length code.now }
    ensures { IfOk result (AreCostsTo code.now plan.now i (next_at (slice_get code.now i) i).jump) }
{
    let jump = next_at(code, i).jump;
    if jump.is_none() {
        return Ok(NOTHING);
    }
    let after = places_after(code, plan, i);
    costs_to(alloc, code, plan, i, &after, jump)
}

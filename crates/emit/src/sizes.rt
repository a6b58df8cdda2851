//! How many glue words a plan has.

ghost use Rattle.std.specs.Prelude.{◌≡◌, ◌+◌, ◌<◌, ◌≤◌, IfOk, OnOk, length};
ghost use Rattle.flow_graph.specs.Paths.{IsClosedCode};
ghost use Rattle.plan.specs.ValidPlans.{IsValidPlan};
ghost use Rattle.emitted.specs.Edges.{row_at, fall_steps, most_edge_steps};
ghost use Rattle.emitted.specs.Words.{block_size, glue_of};
ghost use Rattle.emit.specs.Addressed.{size_of_block};
ghost use Rattle.emit.specs.Limits.{most_glue, most_line_glue};
ghost use Rattle.emit.specs.Tables.{HasPlaces};

use crate::after::Places;
use crate::by_size::{edges_at, glues};
use crate::edge_costs::steps_with;
use micro_isa::{Line, NoMemory, Program};
use plan::{FlatPlan, Plan};
use std::alloc::Global;

/// The glue words of one instruction: the steps where it falls through, and the block of its jump.
#[derive(Clone, Copy)]
pub(crate) struct GlueSize {
    pub fall: u32,
    pub block: u32,
}

/// How many words in an image of this program are not counted, for a valid plan: the steps of its
/// edges, and a jump behind those of each jump.
pub fn glue(alloc: Global, program: &Program, plan: &Plan) -> Result<u32, NoMemory>
    requires closed { IsClosedCode program.now.code }
    requires valid { IsValidPlan program.now.code plan.now }
    ensures number { IfOk result (λ glue. glue ≡ glue_of program.now.code plan.now) }
    ensures few { IfOk result (λ glue. glue ≤ most_glue) }
{
    let flat = FlatPlan::of(alloc, plan)?;
    flat_glue(alloc, program, &flat)
}

/// The same number, for a plan whose rows stand in one list.
pub fn flat_glue(alloc: Global, program: &Program, plan: &FlatPlan) -> Result<u32, NoMemory>
    requires closed { IsClosedCode program.now.code }
    requires valid { IsValidPlan program.now.code plan.now }
    ensures number { IfOk result (λ glue. glue ≡ glue_of program.now.code plan.now) }
    ensures few { IfOk result (λ glue. glue ≤ most_glue) }
{
    let own = glues(alloc, program, plan, plan.r())?;
    Ok(own[0])
}

/// The glue words of instruction `i`. The table has the places of row `i`, and then those of the
/// next row.
pub(crate) fn glue_at(
    alloc: Global,
    code: &[Line],
    plan: &FlatPlan,
    i: usize,
    table: &mut Places,
) -> Result<GlueSize, NoMemory>
    requires closed { IsClosedCode code.now }
    requires valid { IsValidPlan code.now plan.now }
    requires within { i < length code.now }
    requires row { HasPlaces (row_at plan.now i).places table.old }
    ensures fall { IfOk result (λ size. size.fall ≡ length (fall_steps code.now plan.now i)) }
    ensures block { IfOk result (λ size. size.block ≡ block_size code.now plan.now i) }
    ensures few { IfOk result (λ size. size.fall + size.block ≤ most_line_glue) }
    ensures next { OnOk result (HasPlaces (row_at plan.now (i + 1)).places table.new) }
{
    let (fall, jump) = edges_at(alloc, code, plan, i, table)?;
    Ok(GlueSize {
        fall: steps_with(fall, plan.r()),
        block: with_jump(steps_with(jump, plan.r())),
    })
}

/// So many steps, and a jump where there are any.
pub(crate) fn with_jump(steps: u32) -> u32
    requires { steps ≤ most_edge_steps }
    ensures { result ≡ size_of_block steps }
{
    if steps == 0 { 0 } else { steps + 1 }
}

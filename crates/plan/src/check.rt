ghost use Rattle.std.specs.Prelude.{ℕ, ◌≡◌, ◌<◌, ◌≤◌, ◌↔◌, length, IsOk, IfErr};
ghost use Rattle.micro_isa.specs.declared.limits.TheConstants.{MOST_FILE};
ghost use Rattle.flow_graph.specs.Paths.{IsClosedCode};
ghost use Rattle.liveness.specs.Lives.{IsLiveOf};
ghost use Rattle.liveness.specs.Pressures.{IsPrivatePressure, IsTotalPressure};
ghost use Rattle.plan.specs.ValidPlans.{IsValidPlan};
ghost use Rattle.plan.specs.Faults.{IsFirstFault, AreRowsChecked, IsPlanChecked, IsRowChecked};

use crate::fault::PlanFault;
use crate::listing::check_listing;
use crate::placing::check_placing;
use crate::row::{Plan, PlanRow};
use liveness::Live;
use micro_isa::{Line, MOST_FILE, Program};

/// Whether the plan is valid for the program, whose live registers are given; else what is wrong
/// with it first. A valid plan has at least as many places of both kinds as the program's pressures.
#[tactic(auto, using(crate::proofs::Checked::ok_exactly, crate::proofs::Enough::enough))]
pub fn check_plan(program: &Program, live: &Live, plan: &Plan) -> Result<(), PlanFault>
    requires closed { IsClosedCode program.now.code }
    requires live { IsLiveOf program.now.code live.now }
    ensures valid { IsOk result ↔ IsValidPlan program.now.code plan.now }
    ensures first { IfErr result (λ fault. IsFirstFault program.now.code plan.now fault) }
    ensures enough { IsOk result → (n m : ℕ) → IsPrivatePressure program.now.code n → IsTotalPressure program.now.code m
        → (n ≤ plan.now.p) × (m ≤ plan.now.r) }
{
    first_fault(program.code.as_slice(), live, plan)
}

fn first_fault(code: &[Line], live: &Live, plan: &Plan) -> Result<(), PlanFault>
    requires closed { IsClosedCode code.now }
    requires live { IsLiveOf code.now live.now }
    ensures { IsPlanChecked code.now plan.now result }
{
    let (p, r) = (plan.p, plan.r);
    if r < p || MOST_FILE < r {
        return Err(PlanFault::Sizes { p, r });
    }
    let rows = plan.rows.as_slice();
    if rows.len() != code.len() {
        return Err(PlanFault::Length {
            rows: rows.len(),
            code: code.len(),
        });
    }
    check_rows(code, live, rows, p, r)
}

/// The first fault of the rows, one for each instruction.
fn check_rows(code: &[Line], live: &Live, rows: &[PlanRow], p: u32, r: u32) -> Result<(), PlanFault>
    requires closed { IsClosedCode code.now }
    requires live { IsLiveOf code.now live.now }
    requires one_each { length rows.now ≡ length code.now }
    requires few { r ≤ MOST_FILE }
    ensures { AreRowsChecked code.now p r rows.now result }
{
    'rows: for i in 0..rows.len() {
        if let Err(fault) = check_row(code, live, i, &rows[i], p, r) {
            return Err(fault);
        }
    }
    Ok(())
}

fn check_row(
    code: &[Line],
    live: &Live,
    i: usize,
    row: &PlanRow,
    p: u32,
    r: u32,
) -> Result<(), PlanFault>
    requires closed { IsClosedCode code.now }
    requires live { IsLiveOf code.now live.now }
    requires here { i < length code.now }
    requires few { r ≤ MOST_FILE }
    ensures { IsRowChecked code.now p r i row.now result }
{
    let places = row.places.as_slice();
    match check_listing(code, live, i, places, row.write) {
        Ok(()) => check_placing(code, live, i, places, row.write, p, r),
        Err(fault) => Err(fault),
    }
}

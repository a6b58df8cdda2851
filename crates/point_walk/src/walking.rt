ghost use Rattle.std.specs.Prelude.{ℕ, ◌≡◌, ◌+◌, ◌<◌, ◌≤◌, IfOk, length, slice_get, true, false};
ghost use Rattle.flow_graph.specs.Paths.{IsClosedCode};
ghost use Rattle.liveness.specs.Lives.{IsLiveOf};
ghost use Rattle.liveness.specs.Pressures.{HasRoom, IsPrivatePressure, IsTotalPressure};
ghost use Rattle.plan.specs.declared.row.Plan.{Plan as PlanModel};
ghost use Rattle.plan.specs.ValidPlans.{IsValidPlan};
ghost use Rattle.point_walk.specs.Walks.{IsWalk, falls_in};
ghost use Rattle.point_walk.specs.Lasting.{IsLasting};
ghost use Rattle.point_walk.specs.Settling.{IsSettled};

use crate::keeping::are_low;
use crate::row::{falls_to, next_row};
use crate::seats::Seats;
use liveness::{Live, crossing};
use micro_isa::{Line, MOST_FILE, MOST_REGISTERS, NoMemory, Program, VReg};
use plan::{FlatPlan, Place, Plan};
use std::alloc::Global;

/// The plan of a walk, whether its rows are those of each walk with more private places too, and
/// whether no register moves where an instruction falls through to the next.
#[derive(Drop)]
pub struct Route {
    pub plan: FlatPlan,
    pub lasting: bool,
    pub settled: bool,
}

/// The plan that goes through the instructions in order: what crosses gets private places, and each
/// register keeps its place from the row before where it can. `p` and `r` are at least the
/// program's pressures; the rows do not depend on `r`.
pub fn walk(alloc: Global, program: &Program, live: &Live, p: u32, r: u32) -> Result<Plan, NoMemory>
    requires closed { IsClosedCode program.now.code }
    requires live { IsLiveOf program.now.code live.now }
    requires private { (n : ℕ) × IsPrivatePressure program.now.code n × (n ≤ p) }
    requires total { (n : ℕ) × IsTotalPressure program.now.code n × (n ≤ r) }
    requires order { p ≤ r }
    requires few { r ≤ MOST_FILE }
    ensures walked { IfOk result (λ plan. IsWalk program.now.code p r plan) }
    ensures valid { IfOk result (λ plan. IsValidPlan program.now.code plan) }
    ensures once { (x y : PlanModel) → IsWalk program.now.code p r x → IsWalk program.now.code p r y → x ≡ y }
{
    let route = walk_route(program, live, p, r, FlatPlan::new(alloc))?;
    route.plan.to_plan(alloc)
}

/// The same plan, whether it serves more private places, and whether no register moves on a fall.
/// `room` is a plan whose memory is used again.
pub fn walk_route(
    program: &Program,
    live: &Live,
    p: u32,
    r: u32,
    room: FlatPlan,
) -> Result<Route, NoMemory>
    requires closed { IsClosedCode program.now.code }
    requires live { IsLiveOf program.now.code live.now }
    requires private { (n : ℕ) × IsPrivatePressure program.now.code n × (n ≤ p) }
    requires total { (n : ℕ) × IsTotalPressure program.now.code n × (n ≤ r) }
    requires order { p ≤ r }
    requires few { r ≤ MOST_FILE }
    ensures walked { IfOk result (λ route. IsWalk program.now.code p r route.plan) }
    ensures valid { IfOk result (λ route. IsValidPlan program.now.code route.plan) }
    ensures lasting { IfOk result (IsLasting program.now.code) }
    ensures settled { IfOk result (IsSettled program.now.code) }
{
    walk_rows(program.code.as_slice(), live, p, r, room)
}

/// The route of this code, in the memory of `room`.
fn walk_rows(code: &[Line], live: &Live, p: u32, r: u32, room: FlatPlan) -> Result<Route, NoMemory>
    requires closed { IsClosedCode code.now }
    requires live { IsLiveOf code.now live.now }
    requires order { p ≤ r }
    requires room { HasRoom code.now p r }
    ensures walked { IfOk result (λ route. IsWalk code.now p r route.plan) }
    ensures lasting { IfOk result (IsLasting code.now) }
    ensures settled { IfOk result (IsSettled code.now) }
{
    let mut plan = room.emptied(p, r);
    plan.reserve(code.len())?;
    let mut wishes: [Option<u8>; MOST_REGISTERS] = [None; MOST_REGISTERS];
    let mut seats = Seats {
        held: 0,
        own: 0,
        taken: 0,
    };
    let mut line = [Place {
        register: VReg(0),
        place: 0,
    }; MOST_REGISTERS];
    let mut lasting = true;
    let mut settled = true;
    'rows: for i in 0..code.len() {
        let cross = crossing(code, live, i);
        let lasts = are_low(cross, p, &wishes);
        let step = next_row(code, live, i, cross, p, &mut wishes, &mut seats, &mut line);
        plan.push_row(&line[..step.count], step.write)?;
        settled = stays_settled(code, i, settled, step.stood);
        lasting = lasting && lasts;
    }
    Ok(Route {
        plan,
        lasting,
        settled,
    })
}

/// Whether no register moves on a fall to row `i`, nor on one before: it stood, or nothing falls to it.
fn stays_settled(code: &[Line], i: usize, settled: bool, stood: bool) -> bool
    requires closed { IsClosedCode code.now }
    requires here { i < length code.now }
    ensures before { result ≡ true → settled ≡ true }
    ensures here { result ≡ true → stood ≡ false → (j : ℕ) → j + 1 ≡ i → falls_in j (slice_get code.now j) ≡ false }
{
    settled && (stood || !falls_to(code, i))
}

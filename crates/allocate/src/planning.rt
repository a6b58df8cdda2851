//! The plan of each program.

ghost use Rattle.std.specs.Prelude.{ℕ, ◌≡◌, ◌+◌, ◌<◌, ◌≤◌, ◌++◌, ◌∷◌, [], IfOk, OnOk, length};
ghost use Rattle.std.specs.List.{All};
ghost use Rattle.flow_graph.specs.Paths.{IsClosedCode};
ghost use Rattle.liveness.specs.Lives.{IsLiveOf};
ghost use Rattle.pressure.specs.Pressures.{IsPart, IsPressureOf};
ghost use Rattle.plan.specs.ValidPlans.{IsValidPlan};
ghost use Rattle.budget.specs.Costs.{clipped};
ghost use Rattle.budget.specs.Fitting.{SizesFit};
ghost use Rattle.allocate.specs.Needs.{AreLives, ArePressures};
ghost use Rattle.allocate.specs.Items.{AreClosed};
ghost use Rattle.allocate.specs.Cells.{IsCellOf};
ghost use Rattle.allocate.specs.Preferred.{demands_by};
ghost use Rattle.allocate.specs.Tables.{AreChosen, AreKept, AreWalksKept, IsChosenAt, IsKept, IsWalkKept};

use crate::cell::cell;
use crate::kept::Kept;
use crate::priced::PricedWalk;
use budget::SIZES;
use liveness::Live;
use micro_isa::{List, MOST_FILE, NoMemory, Program};
use plan::FlatPlan;
use pressure::Pressure;
use range_colour::fit_plan;
use std::alloc::Global;

/// The plan of each program for its own size beside the shared registers, by what was kept of each.
pub(crate) fn plans_of(
    alloc: Global,
    programs: &[Program],
    lives: &[Live],
    parts: &[Pressure],
    sizes: &[u32],
    shared: u32,
    keeps: &[Kept],
    walks: &mut [Option<PricedWalk>],
) -> Result<List<FlatPlan>, NoMemory>
    requires closed { AreClosed programs.now }
    requires lives { AreLives programs.now lives.now }
    requires parts { ArePressures programs.now parts.now }
    requires ordered { All IsPart parts.now }
    requires fits { SizesFit (demands_by parts.now) MOST_FILE sizes.now shared }
    requires keeps { AreKept programs.now keeps.now }
    requires walks { AreWalksKept programs.now walks.old }
    ensures { IfOk result (AreChosen programs.now sizes.now shared (length programs.now)) }
{
    let mut plans = List::new(alloc);
    for c in 0..programs.len() {
        let plan = planned(
            alloc, programs, lives, parts, sizes, shared, keeps, walks, c,
        )?;
        push_plan(&mut plans, plan)?;
    }
    Ok(plans)
}

fn planned(
    alloc: Global,
    programs: &[Program],
    lives: &[Live],
    parts: &[Pressure],
    sizes: &[u32],
    shared: u32,
    keeps: &[Kept],
    walks: &mut [Option<PricedWalk>],
    c: usize,
) -> Result<FlatPlan, NoMemory>
    requires closed { AreClosed programs.now }
    requires lives { AreLives programs.now lives.now }
    requires parts { ArePressures programs.now parts.now }
    requires ordered { All IsPart parts.now }
    requires fits { SizesFit (demands_by parts.now) MOST_FILE sizes.now shared }
    requires keeps { AreKept programs.now keeps.now }
    requires walks { AreWalksKept programs.now walks.old }
    requires within { c < length programs.now }
    ensures chosen { IfOk result (IsChosenAt programs.now sizes.now shared c) }
    ensures walks { AreWalksKept programs.now walks.new }
{
    let walk = walks[c].take();
    plan_of(
        alloc,
        &programs[c],
        &lives[c],
        parts[c],
        sizes[c],
        shared,
        &keeps[c],
        walk,
    )
}

/// The plan of a program with these pressures for its own size beside the shared registers.
fn plan_of(
    alloc: Global,
    program: &Program,
    live: &Live,
    part: Pressure,
    size: u32,
    shared: u32,
    kept: &Kept,
    walk: Option<PricedWalk>,
) -> Result<FlatPlan, NoMemory>
    requires closed { IsClosedCode program.now.code }
    requires live { IsLiveOf program.now.code live.now }
    requires part { IsPressureOf program.now.code part }
    requires ordered { part.private ≤ part.all }
    requires own { part.private ≤ size }
    requires whole { part.all ≤ size + shared }
    requires small { size + shared ≤ MOST_FILE }
    requires kept { IsKept program.now.code kept.now }
    requires walk { IsWalkKept program.now.code walk }
    ensures chosen { IfOk result (λ plan. (cost : ℕ) × IsCellOf program.now.code size shared cost plan) }
    ensures valid { IfOk result (λ plan. IsValidPlan program.now.code plan) }
{
    let p = part.private + more(part.private, size);
    let j = more(part.all, size + shared);
    match kept {
        Kept::Free(fit) => {
            let code = program.code.as_slice();
            fit_plan(code, live, fit, p, part.all + j, FlatPlan::new(alloc))
        }
        Kept::Fitted(fits) => cell(alloc, program, live, fits, walk, part.all, j, p),
    }
}

/// How many of `size` places are used beyond the least: seven at most.
fn more(least: u32, size: u32) -> u32
    requires order { least ≤ size }
    ensures value { result ≡ clipped size least }
    ensures within { result < SIZES }
    ensures few { least + result ≤ size }
{
    (SIZES - 1).min(size - least)
}

fn push_plan(plans: &mut List<FlatPlan>, plan: FlatPlan) -> Result<(), NoMemory>
    ensures { OnOk result (plans.new ≡ plans.old ++ plan ∷ []) }
{
    if plans.push(plan).is_err() {
        return Err(NoMemory);
    }
    Ok(())
}

//! The allocation of a bundle, where what its contexts need fits its file.

ghost use Rattle.std.specs.Prelude.{◌≡◌, ◌<◌, ◌≤◌, IfOk, IfErr, length};
ghost use Rattle.std.specs.List.{All};
ghost use Rattle.micro_isa.specs.Formed.{IsFormedBundle};
ghost use Rattle.pressure.specs.Pressures.{IsPart, need_of};
ghost use Rattle.budget.specs.Costs.{IsCostTable};
ghost use Rattle.budget.specs.Best.{IsBest};
ghost use Rattle.emitted.specs.Emitted.{IsEmitted};
ghost use Rattle.allocate.specs.Needs.{AreLives, ArePressures};
ghost use Rattle.allocate.specs.Preferred.{IsPreferred};
ghost use Rattle.allocate.specs.Tables.{AreChosen, AreKept, AreWalksKept, Refused};
ghost use Rattle.allocate.specs.Allocations.{IsAllocation, HasOneAllocation, IsEven, IsStill, TellsFault};

use crate::allocation::{AllocFault, Allocation};
use crate::analysis::{lives_of, pressures_of};
use crate::flat::FlatAllocation;
use crate::kept::Kept;
use crate::planning::plans_of;
use crate::priced::PricedWalk;
use crate::sizing::own_total;
use crate::table::{Tables, tables_of};
use budget::{Budget, BudgetFault, CostTable, balance};
use emit::emit_counted;
use liveness::Live;
use micro_isa::{Bundle, List, MOST_CONTEXTS, MOST_FILE, NoMemory};
use plan::FlatPlan;
use pressure::{Pressure, need};
use std::alloc::Global;

/// The allocation of a bundle, with the budget that is preferred. It is refused exactly where its
/// contexts need more registers than its file has. A bundle has one allocation at most, and its image
/// does what the bundle does. Its glue is what the budget costs.
pub fn allocate(alloc: Global, bundle: &Bundle) -> Result<Allocation, AllocFault>
    requires { IsFormedBundle bundle.now }
    ensures allocation { IfOk result (IsAllocation bundle.now) }
    ensures emitted { IfOk result (λ a. IsEmitted bundle.now a.plans a.budget a.image) }
    ensures fault { IfErr result (TellsFault bundle.now) }
    ensures once { HasOneAllocation bundle.now }
    ensures even { IfOk result IsEven }
    ensures still { IfOk result (IsStill bundle.now) }
{
    let flat = allocate_flat(alloc, bundle)?;
    match flat.listed(alloc) {
        Ok(allocation) => Ok(allocation),
        Err(NoMemory) => Err(AllocFault::NoMemory),
    }
}

/// The same allocation, for a caller that wants its image more than its plans, which are kept flat.
#[tactic(auto, using(crate::proofs::Once::one_allocation))]
pub fn allocate_flat(alloc: Global, bundle: &Bundle) -> Result<FlatAllocation, AllocFault>
    requires { IsFormedBundle bundle.now }
    ensures allocation { IfOk result (IsAllocation bundle.now) }
    ensures emitted { IfOk result (λ a. IsEmitted bundle.now a.plans a.budget a.image) }
    ensures fault { IfErr result (TellsFault bundle.now) }
    ensures once { HasOneAllocation bundle.now }
    ensures even { IfOk result IsEven }
    ensures still { IfOk result (IsStill bundle.now) }
{
    match analysed(alloc, bundle) {
        Ok(analysis) => fit(alloc, bundle, analysis),
        Err(NoMemory) => Err(AllocFault::NoMemory),
    }
}

/// The live registers of each program, and its pressures.
#[derive(Drop)]
struct Analysis {
    lives: List<Live>,
    parts: List<Pressure>,
}

#[tactic(auto, using(crate::proofs::Zipping::all_closed))]
fn analysed(alloc: Global, bundle: &Bundle) -> Result<Analysis, NoMemory>
    requires { IsFormedBundle bundle.now }
    ensures lives { IfOk result (λ a. AreLives bundle.now.programs a.lives) }
    ensures pressures { IfOk result (λ a. ArePressures bundle.now.programs a.parts) }
    ensures parts { IfOk result (λ a. All IsPart a.parts) }
{
    let programs = bundle.programs.as_slice();
    let lives = lives_of(alloc, programs)?;
    let parts = pressures_of(alloc, programs, lives.as_slice())?;
    Ok(Analysis { lives, parts })
}

fn fit(alloc: Global, bundle: &Bundle, analysis: Analysis) -> Result<FlatAllocation, AllocFault>
    requires formed { IsFormedBundle bundle.now }
    requires lives { AreLives bundle.now.programs analysis.lives }
    requires pressures { ArePressures bundle.now.programs analysis.parts }
    requires parts { All IsPart analysis.parts }
    ensures allocation { IfOk result (IsAllocation bundle.now) }
    ensures emitted { IfOk result (λ a. IsEmitted bundle.now a.plans a.budget a.image) }
    ensures fault { IfErr result (TellsFault bundle.now) }
{
    let need = need(analysis.parts.as_slice());
    if need <= bundle.file {
        fitting(alloc, bundle, analysis, need)
    } else {
        Err(AllocFault::NoFit {
            need,
            file: bundle.file,
        })
    }
}

fn fitting(
    alloc: Global,
    bundle: &Bundle,
    analysis: Analysis,
    need: u32,
) -> Result<FlatAllocation, AllocFault>
    requires formed { IsFormedBundle bundle.now }
    requires lives { AreLives bundle.now.programs analysis.lives }
    requires pressures { ArePressures bundle.now.programs analysis.parts }
    requires parts { All IsPart analysis.parts }
    requires need { need ≡ need_of analysis.parts }
    requires fits { need ≤ bundle.now.file }
    ensures allocation { IfOk result (IsAllocation bundle.now) }
    ensures emitted { IfOk result (λ a. IsEmitted bundle.now a.plans a.budget a.image) }
    ensures fault { IfErr result (TellsFault bundle.now) }
{
    let found = preferred(alloc, bundle, &analysis)?;
    match allocated(alloc, bundle, analysis, need, found) {
        Ok(allocation) => Ok(allocation),
        Err(NoMemory) => Err(AllocFault::NoMemory),
    }
}

/// A budget, and what was kept of each context.
#[derive(Drop)]
struct Chosen {
    budget: Budget,
    keeps: List<Kept>,
    walks: Vec<Option<PricedWalk>>,
}

/// The budget that is preferred, by what registers cost each context.
fn preferred(alloc: Global, bundle: &Bundle, analysis: &Analysis) -> Result<Chosen, AllocFault>
    requires formed { IsFormedBundle bundle.now }
    requires lives { AreLives bundle.now.programs analysis.now.lives }
    requires pressures { ArePressures bundle.now.programs analysis.now.parts }
    requires parts { All IsPart analysis.now.parts }
    requires fits { need_of analysis.now.parts ≤ bundle.now.file }
    ensures preferred { IfOk result (λ found. IsPreferred bundle.now analysis.now.parts found.budget) }
    ensures keeps { IfOk result (λ found. AreKept bundle.now.programs found.keeps) }
    ensures walks { IfOk result (λ found. AreWalksKept bundle.now.programs found.walks.items) }
    ensures fault { IfErr result (TellsFault bundle.now) }
{
    let programs = bundle.programs.as_slice();
    let lives = analysis.lives.as_slice();
    let parts = analysis.parts.as_slice();
    let spare = bundle.file - own_total(parts);
    match tables_of(alloc, programs, lives, parts, spare) {
        Ok(made) => divided(alloc, made, bundle.file),
        Err(NoMemory) => Err(AllocFault::NoMemory),
    }
}

/// The budget that is preferred for these tables, and what was kept as they were made.
fn divided(alloc: Global, made: Tables, file: u32) -> Result<Chosen, AllocFault>
    requires some { 0 < length made.tables }
    requires few { length made.tables ≤ MOST_CONTEXTS }
    requires tables { All IsCostTable made.tables }
    requires file { file ≤ MOST_FILE }
    ensures best { IfOk result (λ found. IsBest made.tables file found.budget) }
    ensures keeps { IfOk result (λ found. found.keeps ≡ made.keeps) }
    ensures walks { IfOk result (λ found. found.walks.items ≡ made.walks.items) }
    ensures fault { IfErr result (Refused made.tables file) }
{
    let Tables {
        tables,
        keeps,
        walks,
    } = made;
    let budget = balanced(alloc, tables.as_slice(), file)?;
    Ok(Chosen {
        budget,
        keeps,
        walks,
    })
}

/// The budget that is preferred for these tables.
fn balanced(alloc: Global, tables: &[CostTable], file: u32) -> Result<Budget, AllocFault>
    requires some { 0 < length tables.now }
    requires few { length tables.now ≤ MOST_CONTEXTS }
    requires tables { All IsCostTable tables.now }
    requires file { file ≤ MOST_FILE }
    ensures best { IfOk result (IsBest tables.now file) }
    ensures fault { IfErr result (Refused tables.now file) }
{
    match balance(alloc, tables, file) {
        Ok(budget) => Ok(budget),
        Err(BudgetFault::NoFit { need, file }) => Err(AllocFault::NoFit { need, file }),
        Err(BudgetFault::NoMemory) => Err(AllocFault::NoMemory),
    }
}

/// The plans and the image for the preferred budget.
fn allocated(
    alloc: Global,
    bundle: &Bundle,
    analysis: Analysis,
    need: u32,
    found: Chosen,
) -> Result<FlatAllocation, NoMemory>
    requires formed { IsFormedBundle bundle.now }
    requires lives { AreLives bundle.now.programs analysis.lives }
    requires pressures { ArePressures bundle.now.programs analysis.parts }
    requires parts { All IsPart analysis.parts }
    requires need { need ≡ need_of analysis.parts }
    requires fits { need ≤ bundle.now.file }
    requires preferred { IsPreferred bundle.now analysis.parts found.budget }
    requires keeps { AreKept bundle.now.programs found.keeps }
    requires walks { AreWalksKept bundle.now.programs found.walks.items }
    ensures allocation { IfOk result (IsAllocation bundle.now) }
    ensures emitted { IfOk result (λ a. IsEmitted bundle.now a.plans a.budget a.image) }
{
    let made = budgeted_plans(alloc, bundle, analysis, found)?;
    let Budgeted { budget, plans } = made;
    let glue = budget.cost;
    let image = emit_counted(alloc, bundle, plans.as_slice(), &budget, glue)?;
    Ok(FlatAllocation {
        image,
        budget,
        plans,
        glue,
        need,
    })
}

/// A budget, and the plan of each context for its sizes.
#[derive(Drop)]
struct Budgeted {
    budget: Budget,
    plans: List<FlatPlan>,
}

/// The plans for the preferred budget. What was known of the contexts beside is given back, so that the
/// image is made in its memory.
fn budgeted_plans(
    alloc: Global,
    bundle: &Bundle,
    analysis: Analysis,
    found: Chosen,
) -> Result<Budgeted, NoMemory>
    requires formed { IsFormedBundle bundle.now }
    requires lives { AreLives bundle.now.programs analysis.lives }
    requires pressures { ArePressures bundle.now.programs analysis.parts }
    requires parts { All IsPart analysis.parts }
    requires preferred { IsPreferred bundle.now analysis.parts found.budget }
    requires keeps { AreKept bundle.now.programs found.keeps }
    requires walks { AreWalksKept bundle.now.programs found.walks.items }
    ensures preferred { IfOk result (λ made. IsPreferred bundle.now analysis.parts made.budget) }
    ensures plans { IfOk result (λ made. AreChosen bundle.now.programs made.budget.private made.budget.shared (length bundle.now.programs) made.plans) }
{
    let Chosen {
        budget,
        keeps,
        mut walks,
    } = found;
    let plans = plans_of(
        alloc,
        bundle.programs.as_slice(),
        analysis.lives.as_slice(),
        analysis.parts.as_slice(),
        budget.private.as_slice(),
        budget.shared,
        keeps.as_slice(),
        &mut walks,
    )?;
    Ok(Budgeted { budget, plans })
}

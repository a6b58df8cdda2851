//! The image of a bundle.

ghost use Rattle.std.specs.Prelude.{◌≡◌, ◌+◌, ◌<◌, ◌≤◌, ◌++◌, ◌∷◌, [], IfOk, OnOk, true, length, sum, slice_get};
ghost use Rattle.micro_isa.specs.declared.limits.TheConstants.{MOST_FILE};
ghost use Rattle.micro_isa.specs.Formed.{IsFormedBundle};
ghost use Rattle.semantics.specs.Source.{code_in};
ghost use Rattle.micro_isa.specs.Pieces.{pieces};
ghost use Rattle.flow_graph.specs.Paths.{IsClosedCode};
ghost use Rattle.plan.specs.ValidPlans.{IsValidPlan};
ghost use Rattle.emitted.specs.Words.{words_of_plan, glue_of};
ghost use Rattle.emitted.specs.Emitted.{plan_at, start_of, size_of, context_of, emitted, ArePlans, PlansFit, IsEmitted};
ghost use Rattle.emit.specs.Layouts.{register_at};
ghost use Rattle.emit.specs.Totals.{glue_of_plans};

use crate::layout::Layout;
use crate::rows::number_at;
use crate::still::still_words;
use crate::words::context_words;
use budget::Budget;
use micro_isa::{Bundle, Code, Image, Line, List, NoMemory, Program, Range, Word};
use plan::{FlatPlan, Plan};
use std::alloc::Global;

/// The image of a bundle for these plans and this budget. It is formed and does what the bundle
/// does, for every bound and every list of events.
#[tactic(auto, using(crate::proofs::Imaging::is_emitted_as))]
pub fn emit(
    alloc: Global,
    bundle: &Bundle,
    plans: &[Plan],
    budget: &Budget,
) -> Result<Image, NoMemory>
    requires formed { IsFormedBundle bundle.now }
    requires plans { ArePlans bundle.now plans.now }
    requires room { PlansFit bundle.now plans.now budget.now }
    ensures image { IfOk result (λ image. image ≡ emitted bundle.now plans.now budget.now) }
    ensures law { IfOk result (λ image. IsEmitted bundle.now plans.now budget.now image) }
{
    let flat = flattened(alloc, plans)?;
    image_of(alloc, bundle, flat.as_slice(), budget, false)
}

/// The plans, each with its rows in one list.
fn flattened(alloc: Global, plans: &[Plan]) -> Result<List<FlatPlan>, NoMemory>
    ensures { IfOk result (λ flat. flat ≡ plans.now) }
{
    let mut flat = List::new(alloc);
    flat.reserve(plans.len())?;
    for plan in plans {
        let plan = FlatPlan::of(alloc, plan)?;
        if flat.push(plan).is_err() {
            return Err(NoMemory);
        }
    }
    Ok(flat)
}

/// The same image, for a caller that knows how many glue words the plans have in all: where they have
/// none, no edge is looked at.
#[tactic(auto, using(crate::proofs::Imaging::is_emitted_as))]
pub fn emit_counted(
    alloc: Global,
    bundle: &Bundle,
    plans: &[FlatPlan],
    budget: &Budget,
    glue: u32,
) -> Result<Image, NoMemory>
    requires formed { IsFormedBundle bundle.now }
    requires plans { ArePlans bundle.now plans.now }
    requires room { PlansFit bundle.now plans.now budget.now }
    requires glue { glue ≡ glue_of_plans bundle.now plans.now }
    ensures image { IfOk result (λ image. image ≡ emitted bundle.now plans.now budget.now) }
    ensures law { IfOk result (λ image. IsEmitted bundle.now plans.now budget.now image) }
{
    image_of(alloc, bundle, plans, budget, glue == 0)
}

/// The image; `still` only where no plan has glue.
fn image_of(
    alloc: Global,
    bundle: &Bundle,
    plans: &[FlatPlan],
    budget: &Budget,
    still: bool,
) -> Result<Image, NoMemory>
    requires formed { IsFormedBundle bundle.now }
    requires plans { ArePlans bundle.now plans.now }
    requires room { PlansFit bundle.now plans.now budget.now }
    requires still { still ≡ true → glue_of_plans bundle.now plans.now ≡ 0 }
    ensures { IfOk result (λ image. image ≡ emitted bundle.now plans.now budget.now) }
{
    let setting = bundle.setting.copy(alloc)?;
    let shared = total(budget.private.as_slice());
    let contexts = contexts_of(alloc, bundle, plans, budget, shared, still)?;
    Ok(Image {
        file: bundle.file,
        setting,
        shared: Range {
            start: shared,
            size: budget.shared,
        },
        contexts,
    })
}

#[tactic(auto, using(crate::proofs::Imaging::next_sum, crate::proofs::Imaging::sum_more))]
fn total(numbers: &[u32]) -> u32
    requires { sum numbers.now ≤ MOST_FILE }
    ensures { result ≡ sum numbers.now }
{
    let mut total = 0u32;
    for i in 0..numbers.len() {
        total += number_at(numbers, i);
    }
    total
}

fn code_at(programs: &[Program], c: usize) -> &[Line]
    ensures { result.now ≡ code_in (slice_get programs.now c) }
{
    match programs.get(c) {
        Some(program) => program.code.as_slice(),
        None => &[],
    }
}

fn plan_at(plans: &[FlatPlan], c: usize) -> &FlatPlan
    requires { c < length plans.now }
    ensures { result.now ≡ plan_at plans.now c }
{
    &plans[c]
}

#[tactic(auto, using(crate::proofs::Imaging::next_sum, crate::proofs::Imaging::sum_more, crate::proofs::Laying::next_piece))]
fn contexts_of(
    alloc: Global,
    bundle: &Bundle,
    plans: &[FlatPlan],
    budget: &Budget,
    shared: u32,
    still: bool,
) -> Result<List<Code>, NoMemory>
    requires formed { IsFormedBundle bundle.now }
    requires plans { ArePlans bundle.now plans.now }
    requires room { PlansFit bundle.now plans.now budget.now }
    requires shared { shared ≡ sum budget.now.private }
    requires still { still ≡ true → glue_of_plans bundle.now plans.now ≡ 0 }
    ensures { IfOk result (λ contexts. contexts ≡ pieces (λ c. context_of bundle.now plans.now budget.now c ∷ []) (length bundle.now.programs)) }
{
    let mut contexts = List::new(alloc);
    let mut start = 0u32;
    for c in 0..bundle.programs.len() {
        let own = number_at(budget.private.as_slice(), c);
        let code = context_of(
            alloc,
            bundle,
            plans,
            budget,
            c,
            Layout { start, own, shared },
            still,
        )?;
        push_context(&mut contexts, code)?;
        start += own;
    }
    Ok(contexts)
}

fn push_context(contexts: &mut List<Code>, code: Code) -> Result<(), NoMemory>
    ensures { OnOk result (contexts.new ≡ contexts.old ++ code ∷ []) }
{
    if contexts.push(code).is_err() {
        return Err(NoMemory);
    }
    Ok(())
}

fn context_of(
    alloc: Global,
    bundle: &Bundle,
    plans: &[FlatPlan],
    budget: &Budget,
    c: usize,
    layout: Layout,
    still: bool,
) -> Result<Code, NoMemory>
    requires formed { IsFormedBundle bundle.now }
    requires plans { ArePlans bundle.now plans.now }
    requires room { PlansFit bundle.now plans.now budget.now }
    requires within { c < length bundle.now.programs }
    requires start { layout.start ≡ start_of budget.now.private c }
    requires own { layout.own ≡ size_of budget.now.private c }
    requires shared { layout.shared ≡ sum budget.now.private }
    requires still { still ≡ true → glue_of_plans bundle.now plans.now ≡ 0 }
    ensures { IfOk result (λ code. code ≡ context_of bundle.now plans.now budget.now c) }
{
    let code = code_at(bundle.programs.as_slice(), c);
    let words = words_of(alloc, code, plan_at(plans, c), layout, still)?;
    Ok(Code {
        private: Range {
            start: layout.start,
            size: layout.own,
        },
        words,
    })
}

/// The words of a context; `still` only where its plan has no glue.
fn words_of(
    alloc: Global,
    code: &[Line],
    plan: &FlatPlan,
    layout: Layout,
    still: bool,
) -> Result<List<Word>, NoMemory>
    requires closed { IsClosedCode code.now }
    requires valid { IsValidPlan code.now plan.now }
    requires still { still ≡ true → glue_of code.now plan.now ≡ 0 }
    ensures { IfOk result (λ words. words ≡ words_of_plan code.now plan.now (register_at layout)) }
{
    if still {
        still_words(alloc, code, plan, layout)
    } else {
        context_words(alloc, code, plan, layout)
    }
}

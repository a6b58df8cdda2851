//! The words of an emitted image one by one: one register of its own, and one that is shared.

ghost use Rattle.std.specs.Prelude.{◌≡◌, Some, IfOk, slice_get};
ghost use Rattle.micro_isa.specs.declared.program.Program.{Program as ProgramModel};
ghost use Rattle.micro_isa.specs.Formed.{IsFormedBundle};
ghost use Rattle.plan.specs.ValidPlans.{IsValidPlan};

use crate::bundles::{SPLIT, bundle_of, context_of};
use crate::walks::walk_of;
use budget::Budget;
use emit::emit;
use micro_isa::{Bundle, Code, Image, Instr, List, PReg, Range, Test, Word};
use plan::Plan;
use std::alloc::Global;
use std::test::Fail;

/// The words of the split program: its branch goes to a block, which ends with a jump.
const WORDS: [(Instr<PReg>, bool, u32); 10] = [
    (Instr::Li { to: PReg(0), n: 5 }, true, 4),
    (Instr::Yield, true, 5),
    (Instr::Li { to: PReg(1), n: 9 }, true, 6),
    (
        Instr::Branch {
            test: Test::Eq,
            a: PReg(0),
            b: PReg(1),
            target: 8,
        },
        true,
        7,
    ),
    (
        Instr::Mov {
            to: PReg(0),
            from: PReg(1),
        },
        false,
        0,
    ),
    (Instr::Yield, true, 9),
    (
        Instr::Send {
            channel: 0,
            from: PReg(0),
        },
        true,
        10,
    ),
    (Instr::Halt, true, 11),
    (
        Instr::Mov {
            to: PReg(0),
            from: PReg(1),
        },
        false,
        0,
    ),
    (Instr::Jmp { target: 5 }, false, 0),
];

/// The walk of the first context at its pressures.
fn first_walk(alloc: Global, bundle: &Bundle) -> Result<Plan, Fail>
    requires { IsFormedBundle bundle.now }
    ensures { IfOk result (λ plan. (p : ProgramModel) → slice_get bundle.now.programs 0 ≡ Some p → IsValidPlan p.code plan) }
{
    walk_of(alloc, context_of(bundle, 0)?, (0, 0))
}

/// The image of a bundle of one context for this plan, with one register of its own and one that is
/// shared.
fn image_of(alloc: Global, bundle: &Bundle, plan: Plan) -> Result<Image, Fail>
    requires formed { IsFormedBundle bundle.now }
    requires valid { (p : ProgramModel) → slice_get bundle.now.programs 0 ≡ Some p → IsValidPlan p.code plan }
{
    if bundle.programs.len() != 1 || bundle.file < 2 || 1 < plan.p || 2 < plan.r {
        return Err("one context, and a plan of two places".into());
    }
    let mut plans = List::new(alloc);
    plans.push(plan)?;
    let mut private = List::new(alloc);
    private.push(1)?;
    let budget = Budget {
        private,
        shared: 1,
        cost: 3,
    };
    Ok(emit(alloc, bundle, plans.as_slice(), &budget)?)
}

fn are_words(words: &[Word]) -> bool {
    if words.len() != WORDS.len() {
        return false;
    }
    for i in 0..WORDS.len() {
        let (instr, counted, line) = WORDS[i];
        if words[i].instr != instr || words[i].counted != counted || words[i].line != line {
            return false;
        }
    }
    true
}

fn is_context(code: &Code) -> bool {
    code.private == Range { start: 0, size: 1 } && are_words(code.words.as_slice())
}

fn is_image(image: &Image) -> bool {
    match image.contexts.as_slice().first() {
        Some(code) => image.shared == Range { start: 1, size: 1 } && is_context(code),
        None => false,
    }
}

#[test]
fn words_of_two_edges_with_one_target(rt: HostRuntime) -> Result<(), Fail> {
    let bundle = bundle_of(rt.alloc(), SPLIT)?;
    let plan = first_walk(rt.alloc(), &bundle)?;
    let image = image_of(rt.alloc(), &bundle, plan)?;
    assert!(rt; is_image(&image));
    Ok(())
}

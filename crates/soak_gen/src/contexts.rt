//! The programs of the contexts, one behind the other.

ghost use Rattle.std.specs.Prelude.{◌≡◌, ◌≤◌, ◌+◌, ◌*◌, ◌^◌, ◌<◌, ◌++◌, ◌∷◌, [], length, codes, OnOk, IfOk};
ghost use Rattle.soak_gen.specs.Bundles.{context_name, order, program, with_context, contexts, on_lines, lined};
ghost use Rattle.soak_gen.specs.Drafts.{drafted};

use crate::draft::{REGISTERS, drafted};
use crate::naming::{name_of, names_in, numbers_in, order_in};
use micro_isa::{Instr, Label, Line, List, Name, NoMemory, Program, VReg};
use std::alloc::Global;

/// Contexts of a bundle.
const CONTEXTS: u8 = 8;
/// The line of the first context.
const FIRST_LINE: u32 = 4;
/// Each name with its own place for a number.
const PLACES: [u16; REGISTERS] = [0, 1, 2, 3, 4, 5, 6, 7, 8, 9, 10, 11];

/// The programs so far, the line of the next, and the state in which its draws begin.
#[derive(Drop)]
pub(crate) struct Contexts {
    pub programs: List<Program>,
    pub line: u32,
    pub state: u32,
}

fn context_name(alloc: Global, context: u8) -> Result<Name, NoMemory>
    requires { context < 8 }
    ensures { IfOk result (λ name. name ≡ context_name context) }
{
    name_of(alloc, &[b'c', b'0' + context])
}

fn labels(alloc: Global) -> Result<List<Label>, NoMemory>
    ensures { IfOk result (λ labels. labels ≡ record { name = codes "top"; target = 2 } ∷ []) }
{
    let name = name_of(alloc, b"top")?;
    let mut labels = List::new(alloc);
    match labels.push(Label { name, target: 2 }) {
        Ok(()) => Ok(labels),
        Err(_) => Err(NoMemory),
    }
}

/// Appends instructions on lines that follow each other.
fn put_lines(lines: &mut List<Line>, instrs: &[Instr<VReg>], first: u32) -> Result<(), NoMemory>
    requires { first + length instrs.now < 2 ^ 32 }
    ensures { OnOk result (lines.new ≡ lines.old ++ on_lines first instrs.now) }
{
    let mut line = first;
    for instr in instrs {
        match lines.push(Line {
            instr: *instr,
            line,
        }) {
            Ok(()) => line += 1,
            Err(_) => return Err(NoMemory),
        }
    }
    Ok(())
}

/// The code behind a context's line.
fn lined(alloc: Global, line: u32, code: &[Instr<VReg>]) -> Result<List<Line>, NoMemory>
    requires some { 2 ≤ length code.now }
    requires few { line + 4 + length code.now < 2 ^ 32 }
    ensures { IfOk result (λ lines. lines ≡ lined line code.now) }
{
    let mut lines = List::new(alloc);
    lines.reserve(code.len())?;
    put_lines(&mut lines, &code[..2], line + 1)?;
    put_lines(&mut lines, &code[2..], line + 4)?;
    Ok(lines)
}

/// The program of a context on this line, whose draws begin in this state and whose registers appear in this order.
#[tactic(auto, using(crate::proofs::Drafting::drafted_sizes, crate::proofs::Ordering::order_few), unfolding(crate::specs::Bundles::program))]
fn program(
    alloc: Global,
    context: u8,
    line: u32,
    state: u32,
    appearing: &[u16],
) -> Result<Program, NoMemory>
    requires context { context < 8 }
    requires line { line ≤ 4 + 1608 * 8 }
    requires order { appearing.now ≡ order state }
    ensures { IfOk result (λ made. made ≡ program context line state) }
{
    let draft = drafted(alloc, &numbers_in(appearing), state)?;
    let name = context_name(alloc, context)?;
    let registers = names_in(alloc, appearing)?;
    let labels = labels(alloc)?;
    let code = lined(alloc, line, draft.code.as_slice())?;
    Ok(Program {
        name,
        registers,
        labels,
        code,
    })
}

/// Appends a context.
#[tactic(auto, using(crate::proofs::Drafting::drafted_sizes), unfolding(crate::specs::Bundles::with_context, crate::specs::Bundles::order))]
fn add_context(alloc: Global, all: &mut Contexts, context: u8) -> Result<(), NoMemory>
    requires context { context < 8 }
    requires line { all.old.line ≤ 4 + 1608 * context }
    ensures ok { OnOk result (all.new ≡ with_context all.old context) }
    ensures line { OnOk result (all.new.line ≤ 4 + 1608 * (context + 1)) }
{
    let draft = drafted(alloc, &PLACES, all.state)?;
    let order = order_in(alloc, draft.code.as_slice())?;
    let program = program(alloc, context, all.line, all.state, order.as_slice())?;
    match all.programs.push(program) {
        Ok(()) => {
            all.line += draft.code.len() as u32 + 2;
            all.state = draft.state;
            Ok(())
        }
        Err(_) => Err(NoMemory),
    }
}

/// The contexts of a number.
#[tactic(auto, unfolding(crate::specs::Bundles::contexts))]
pub(crate) fn made_contexts(alloc: Global, number: u32) -> Result<Contexts, NoMemory>
    ensures { IfOk result (λ made. made ≡ contexts number) }
{
    let mut all = Contexts {
        programs: List::new(alloc),
        line: FIRST_LINE,
        state: number,
    };
    for context in 0..CONTEXTS {
        add_context(alloc, &mut all, context)?;
    }
    Ok(all)
}

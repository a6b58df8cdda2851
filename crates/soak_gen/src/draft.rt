//! The code of a context, over registers of given numbers.

ghost use Rattle.std.specs.Prelude.{◌≡◌, ◌<◌, ◌++◌, ◌∷◌, [], OnOk, IfOk};
ghost use Rattle.soak_gen.specs.Draws.{next, draw};
ghost use Rattle.soak_gen.specs.Drafts.{register, value, operation, with_code, operation_code, number_code, load_code, store_code, with_picked, with_row, with_rows, opened, closing, drafted};

use crate::draws::draw;
use micro_isa::{AluOp, Instr, List, NoMemory, Test, VReg};
use std::alloc::Global;

/// Registers that the code of a context names: `n`, `k`, `z`, and `r0` to `r8`.
pub(crate) const REGISTERS: usize = 12;
/// Rows of the table that a context has.
const ROWS: usize = 800;
/// Instructions of a context at most: two before the rows, two a row, and four behind them.
const MOST_CODE: usize = 2 + 2 * ROWS + 4;

const COUNT: u32 = 0;

const ONE: u32 = 1;

const NOUGHT: u32 = 2;

/// The code so far, and the state of the draws.
#[derive(Drop)]
pub(crate) struct Draft {
    pub code: List<Instr<VReg>>,
    pub state: u32,
}

/// The register of a name, by the numbers of the names.
fn register(numbers: &[u16; REGISTERS], name: u32) -> VReg
    requires { name < 12 }
    ensures { result ≡ register numbers.now name }
{
    VReg(numbers[name as usize])
}

/// The register of a drawn number: `r0` to `r8`.
fn drawn_register(numbers: &[u16; REGISTERS], state: &mut u32) -> VReg
    ensures register { result ≡ register numbers.now (value (draw 9 state.old)) }
    ensures state { state.new ≡ next state.old }
{
    let drawn = draw(state, 9);
    register(numbers, 3 + drawn)
}

fn push(code: &mut List<Instr<VReg>>, instr: Instr<VReg>) -> Result<(), NoMemory>
    ensures { OnOk result (code.new ≡ code.old ++ instr ∷ []) }
{
    match code.push(instr) {
        Ok(()) => Ok(()),
        Err(_) => Err(NoMemory),
    }
}

fn operation(drawn: u32) -> AluOp
    requires { drawn < 10 }
    ensures { result ≡ operation drawn }
{
    match drawn {
        0 => AluOp::Add,
        1 => AluOp::Sub,
        2 => AluOp::Mul,
        3 => AluOp::And,
        4 => AluOp::Or,
        5 => AluOp::Xor,
        6 => AluOp::Shl,
        7 => AluOp::Shr,
        8 => AluOp::Ltu,
        _ => AluOp::Eq,
    }
}

fn put_operation(draft: &mut Draft, numbers: &[u16; REGISTERS]) -> Result<(), NoMemory>
    ensures { OnOk result (draft.new ≡ with_code draft.old (operation_code numbers.now draft.old.state) 4) }
{
    let op = operation(draw(&mut draft.state, 10));
    let to = drawn_register(numbers, &mut draft.state);
    let a = drawn_register(numbers, &mut draft.state);
    let b = drawn_register(numbers, &mut draft.state);
    push(&mut draft.code, Instr::Alu { op, to, a, b })
}

fn put_number(draft: &mut Draft, numbers: &[u16; REGISTERS]) -> Result<(), NoMemory>
    ensures { OnOk result (draft.new ≡ with_code draft.old (number_code numbers.now draft.old.state) 2) }
{
    let to = drawn_register(numbers, &mut draft.state);
    let n = draw(&mut draft.state, 65_536);
    push(&mut draft.code, Instr::Li { to, n })
}

fn put_load(draft: &mut Draft, numbers: &[u16; REGISTERS]) -> Result<(), NoMemory>
    ensures { OnOk result (draft.new ≡ with_code draft.old (load_code numbers.now draft.old.state) 3) }
{
    let address = drawn_register(numbers, &mut draft.state);
    let n = draw(&mut draft.state, 1024);
    let to = drawn_register(numbers, &mut draft.state);
    push(&mut draft.code, Instr::Li { to: address, n })?;
    push(&mut draft.code, Instr::Load { to, address })
}

fn put_store(draft: &mut Draft, numbers: &[u16; REGISTERS]) -> Result<(), NoMemory>
    ensures { OnOk result (draft.new ≡ with_code draft.old (store_code numbers.now draft.old.state) 3) }
{
    let address = drawn_register(numbers, &mut draft.state);
    let n = draw(&mut draft.state, 1024);
    let from = drawn_register(numbers, &mut draft.state);
    push(&mut draft.code, Instr::Li { to: address, n })?;
    push(&mut draft.code, Instr::Store { address, from })
}

/// Appends the row of the table that a draw below 10 picked.
fn put_picked(draft: &mut Draft, numbers: &[u16; REGISTERS], pick: u32) -> Result<(), NoMemory>
    ensures { OnOk result (draft.new ≡ with_picked pick numbers.now draft.old) }
{
    match pick {
        0..=5 => put_operation(draft, numbers),
        6 => put_number(draft, numbers),
        7 => put_load(draft, numbers),
        8 => put_store(draft, numbers),
        _ => push(&mut draft.code, Instr::Yield),
    }
}

#[tactic(auto, unfolding(crate::specs::Drafts::with_row))]
fn put_row(draft: &mut Draft, numbers: &[u16; REGISTERS]) -> Result<(), NoMemory>
    ensures { OnOk result (draft.new ≡ with_row numbers.now draft.old) }
{
    let pick = draw(&mut draft.state, 10);
    put_picked(draft, numbers, pick)
}

fn put_rows(draft: &mut Draft, numbers: &[u16; REGISTERS]) -> Result<(), NoMemory>
    ensures { OnOk result (draft.new ≡ with_rows ROWS numbers.now draft.old) }
{
    for row in 0..ROWS {
        put_row(draft, numbers)?;
    }
    Ok(())
}

/// Appends what stands behind the rows.
fn put_closing(code: &mut List<Instr<VReg>>, numbers: &[u16; REGISTERS]) -> Result<(), NoMemory>
    ensures { OnOk result (code.new ≡ code.old ++ closing numbers.now) }
{
    let count = register(numbers, COUNT);
    let one = register(numbers, ONE);
    push(
        code,
        Instr::Alu {
            op: AluOp::Sub,
            to: count,
            a: count,
            b: one,
        },
    )?;
    push(
        code,
        Instr::Branch {
            test: Test::Ne,
            a: count,
            b: register(numbers, NOUGHT),
            target: 2,
        },
    )?;
    push(
        code,
        Instr::Send {
            channel: 0,
            from: register(numbers, 3),
        },
    )?;
    push(code, Instr::Halt)
}

/// The code of a context whose draws begin in this state, and the state after them.
#[tactic(auto, unfolding(crate::specs::Drafts::drafted))]
pub(crate) fn drafted(
    alloc: Global,
    numbers: &[u16; REGISTERS],
    state: u32,
) -> Result<Draft, NoMemory>
    ensures { IfOk result (λ draft. draft ≡ drafted numbers.now state) }
{
    let mut draft = opened(alloc, numbers, state)?;
    put_rows(&mut draft, numbers)?;
    put_closing(&mut draft.code, numbers)?;
    Ok(draft)
}

fn opened(alloc: Global, numbers: &[u16; REGISTERS], state: u32) -> Result<Draft, NoMemory>
    ensures { IfOk result (λ draft. draft ≡ opened numbers.now state) }
{
    let mut code = List::new(alloc);
    code.reserve(MOST_CODE)?;
    push(
        &mut code,
        Instr::Li {
            to: register(numbers, COUNT),
            n: 4,
        },
    )?;
    push(
        &mut code,
        Instr::Li {
            to: register(numbers, ONE),
            n: 1,
        },
    )?;
    Ok(Draft { code, state })
}

//! Moves at once as steps: exchanges, chains and cycles, with a free register and without.

ghost use Rattle.edge_moves.specs.ParallelMove.{AreDistinct, IsFree};

use edge_moves::{Step, cost, costs, sequence};
use micro_isa::PReg;
use std::alloc::Global;
use std::test::Fail;

/// Whether pairs become these steps, as many as they cost: `2=1 ` moves to register 2 what register 1 holds, `0^1 ` is
/// an exclusive-or into register 0.
fn becomes(
    alloc: Global,
    pairs: &[(PReg, PReg)],
    free: Option<PReg>,
    want: &str,
) -> Result<bool, Fail>
    requires distinct { AreDistinct pairs.now }
    requires free { IsFree pairs.now free }
{
    let steps = sequence(alloc, pairs, free)?;
    Ok(costs_so(pairs, free, steps.len()) && is_shown(alloc, steps.as_slice(), want)?)
}

fn costs_so(pairs: &[(PReg, PReg)], free: Option<PReg>, steps: usize) -> bool
    requires { AreDistinct pairs.now }
{
    cost(pairs, free.is_some()) as usize == steps && counted(pairs, free) as usize == steps
}

fn is_shown(alloc: Global, steps: &[Step], want: &str) -> Result<bool, Fail> {
    let text = shown(alloc, steps)?;
    Ok(text.as_str() == want)
}

/// What is counted for both cases at once.
fn counted(pairs: &[(PReg, PReg)], free: Option<PReg>) -> u32
    requires { AreDistinct pairs.now }
{
    let both = costs(pairs);
    match free {
        Some(_) => both.with_free,
        None => both.without,
    }
}

fn shown(alloc: Global, steps: &[Step]) -> Result<String, Fail> {
    let mut text = String::new(alloc);
    for step in steps {
        text.push_str(step_text(alloc, *step)?.as_str())?;
    }
    Ok(text)
}

fn step_text(alloc: Global, step: Step) -> Result<String, Fail> {
    match step {
        Step::Mov { to, from } => Ok(format!(in alloc; "{}={} ", to.0, from.0)?),
        Step::Xor { to, with } => Ok(format!(in alloc; "{}^{} ", to.0, with.0)?),
    }
}

#[test]
fn exchanges(rt: HostRuntime) -> Result<(), Fail> {
    let swap = [(PReg(0), PReg(1)), (PReg(1), PReg(0))];
    assert!(rt; becomes(rt.alloc(), &swap, None, "0^1 1^0 0^1 ")?);
    assert!(rt; becomes(rt.alloc(), &swap, Some(PReg(2)), "2=1 1=0 0=2 ")?);
    Ok(())
}

#[test]
fn chains(rt: HostRuntime) -> Result<(), Fail> {
    let chain = [(PReg(0), PReg(1)), (PReg(1), PReg(2))];
    assert!(rt; becomes(rt.alloc(), &chain, None, "2=1 1=0 ")?);
    assert!(rt; becomes(rt.alloc(), &chain, Some(PReg(3)), "2=1 1=0 ")?);
    Ok(())
}

#[test]
fn nothing_moves(rt: HostRuntime) -> Result<(), Fail> {
    assert!(rt; becomes(rt.alloc(), &[(PReg(4), PReg(4))], None, "")?);
    assert!(rt; becomes(rt.alloc(), &[], Some(PReg(3)), "")?);
    Ok(())
}

#[test]
fn cycle_of_three(rt: HostRuntime) -> Result<(), Fail> {
    let three = [(PReg(0), PReg(1)), (PReg(1), PReg(2)), (PReg(2), PReg(0))];
    assert!(rt; becomes(rt.alloc(), &three, Some(PReg(3)), "3=1 1=0 0=2 2=3 ")?);
    assert!(rt; becomes(rt.alloc(), &three, None, "0^1 1^0 0^1 0^2 2^0 0^2 ")?);
    Ok(())
}

/// Two cycles, a chain between them and a pair that stays.
#[test]
fn cycles_and_a_chain(rt: HostRuntime) -> Result<(), Fail> {
    let pairs = [
        (PReg(0), PReg(1)),
        (PReg(5), PReg(6)),
        (PReg(1), PReg(0)),
        (PReg(4), PReg(4)),
        (PReg(2), PReg(3)),
        (PReg(6), PReg(7)),
        (PReg(3), PReg(2)),
    ];
    let exchanges = "7=6 6=5 0^1 1^0 0^1 2^3 3^2 2^3 ";
    assert!(rt; becomes(rt.alloc(), &pairs, None, exchanges)?);
    let moves = "7=6 6=5 9=1 1=0 0=9 9=3 3=2 2=9 ";
    assert!(rt; becomes(rt.alloc(), &pairs, Some(PReg(9)), moves)?);
    Ok(())
}

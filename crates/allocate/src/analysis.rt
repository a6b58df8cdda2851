//! Which registers of each program are live, and how many it needs.

ghost use Rattle.std.specs.Prelude.{◌≡◌, ◌<◌, ◌++◌, ◌∷◌, [], IfOk, OnOk, length};
ghost use Rattle.std.specs.List.{All};
ghost use Rattle.flow_graph.specs.Paths.{IsClosedCode};
ghost use Rattle.liveness.specs.Lives.{IsLiveOf};
ghost use Rattle.pressure.specs.Pressures.{IsPart, IsPressureOf};
ghost use Rattle.allocate.specs.Needs.{AreLives, ArePressures};
ghost use Rattle.allocate.specs.Items.{AreClosed, IsItem};

use flow_graph::Flow;
use liveness::Live;
use micro_isa::{List, NoMemory, Program};
use pressure::{Pressure, pressures};
use std::alloc::Global;

/// The live registers of each program.
#[tactic(auto, using(crate::proofs::Zipping::cover_push, crate::proofs::Zipping::cover_all))]
pub(crate) fn lives_of(alloc: Global, programs: &[Program]) -> Result<List<Live>, NoMemory>
    requires { AreClosed programs.now }
    ensures { IfOk result (λ lives. AreLives programs.now lives) }
{
    let mut lives = List::new(alloc);
    for c in 0..programs.len() {
        let live = live_at(alloc, programs, c)?;
        push_live(&mut lives, live)?;
    }
    Ok(lives)
}

fn live_at(alloc: Global, programs: &[Program], c: usize) -> Result<Live, NoMemory>
    requires closed { AreClosed programs.now }
    requires within { c < length programs.now }
    ensures { IfOk result (λ live. IsItem IsLiveOf programs.now c live) }
{
    live_of(alloc, &programs[c])
}

fn live_of(alloc: Global, program: &Program) -> Result<Live, NoMemory>
    requires { IsClosedCode program.now.code }
    ensures { IfOk result (λ live. IsLiveOf program.now.code live) }
{
    let flow = Flow::of(alloc, program)?;
    Live::of(alloc, program, &flow)
}

fn push_live(lives: &mut List<Live>, live: Live) -> Result<(), NoMemory>
    ensures { OnOk result (lives.new ≡ lives.old ++ live ∷ []) }
{
    if lives.push(live).is_err() {
        return Err(NoMemory);
    }
    Ok(())
}

/// The pressures of each program, whose live registers are given.
#[tactic(auto, using(crate::proofs::Zipping::cover_push, crate::proofs::Zipping::cover_all))]
pub(crate) fn pressures_of(
    alloc: Global,
    programs: &[Program],
    lives: &[Live],
) -> Result<List<Pressure>, NoMemory>
    requires closed { AreClosed programs.now }
    requires lives { AreLives programs.now lives.now }
    ensures exact { IfOk result (λ parts. ArePressures programs.now parts) }
    ensures parts { IfOk result (λ parts. All IsPart parts) }
{
    let mut parts = List::new(alloc);
    for c in 0..programs.len() {
        push_pressure(&mut parts, pressure_at(programs, lives, c))?;
    }
    Ok(parts)
}

fn pressure_at(programs: &[Program], lives: &[Live], c: usize) -> Pressure
    requires closed { AreClosed programs.now }
    requires lives { AreLives programs.now lives.now }
    requires within { c < length programs.now }
    ensures exact { IsItem IsPressureOf programs.now c result }
    ensures part { IsPart result }
{
    pressures(&programs[c], &lives[c])
}

fn push_pressure(parts: &mut List<Pressure>, part: Pressure) -> Result<(), NoMemory>
    ensures { OnOk result (parts.new ≡ parts.old ++ part ∷ []) }
{
    if parts.push(part).is_err() {
        return Err(NoMemory);
    }
    Ok(())
}

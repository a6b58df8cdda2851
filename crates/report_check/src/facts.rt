//! What is told of each program.

ghost use Rattle.std.specs.Prelude.{◌≡◌, ◌≤◌, map, length, IfOk};
ghost use Rattle.std.specs.List.{All};
ghost use Rattle.micro_isa.specs.declared.limits.TheConstants.{MOST_INSTRUCTIONS};
ghost use Rattle.flow_graph.specs.Paths.{IsClosedCode};
ghost use Rattle.flow_graph.specs.Flows.{marks_in, IsFlowOf};
ghost use Rattle.pressure.specs.Pressures.{IsPart};
ghost use Rattle.report_check.specs.Facts.{lost_lines, AreFactsOf, AreAllFacts};

use flow_graph::Flow;
use liveness::Live;
use micro_isa::{Line, List, NoMemory, Program};
use pressure::{Pressure, Regions, pressures};
use std::alloc::Global;

/// The pressures of a program, the number of its regions, and the lines of the instructions that no
/// path reaches.
#[derive(Debug, Drop)]
pub struct Facts {
    pub pressure: Pressure,
    pub regions: u32,
    pub unreachable: List<u32>,
}

/// The facts of each program.
pub(crate) fn all_facts(alloc: Global, programs: &[Program]) -> Result<List<Facts>, NoMemory>
    requires { All (λ program. IsClosedCode program.code) programs.now }
    ensures exact { IfOk result (λ all. AreAllFacts programs.now all) }
    ensures one_each { IfOk result (λ all. length all ≡ length programs.now) }
    ensures parts { IfOk result (λ all. All (λ facts. IsPart facts.pressure) all) }
{
    let mut all = List::new(alloc);
    for program in programs {
        let facts = facts_of(alloc, program)?;
        let Ok(()) = all.push(facts) else {
            return Err(NoMemory);
        };
    }
    Ok(all)
}

fn facts_of(alloc: Global, program: &Program) -> Result<Facts, NoMemory>
    requires { IsClosedCode program.now.code }
    ensures exact { IfOk result (λ facts. AreFactsOf program.now facts) }
    ensures part { IfOk result (λ facts. IsPart facts.pressure) }
{
    let flow = Flow::of(alloc, program)?;
    let live = Live::of(alloc, program, &flow)?;
    let regions = Regions::of(alloc, program, &flow)?;
    let unreachable = unreachable_lines(alloc, program.code.as_slice(), &flow)?;
    Ok(Facts {
        pressure: pressures(program, &live),
        regions: regions.count(),
        unreachable,
    })
}

/// The lines of the instructions that no path reaches.
#[tactic(auto, using(micro_kit::proofs::InOrder::next_list))]
fn unreachable_lines(alloc: Global, code: &[Line], flow: &Flow) -> Result<List<u32>, NoMemory>
    requires few { length code.now ≤ MOST_INSTRUCTIONS }
    requires flow { IsFlowOf code.now flow.now }
    ensures { IfOk result (λ lines. lines ≡ lost_lines code.now (marks_in flow.now)) }
{
    let mut lines = List::new(alloc);
    for i in 0..code.len() {
        if flow.reachable(i as u32) {
            continue;
        }
        let Ok(()) = lines.push(code[i].line) else {
            return Err(NoMemory);
        };
    }
    Ok(lines)
}

pub(crate) fn pressures_in(alloc: Global, all: &[Facts]) -> Result<List<Pressure>, NoMemory>
    ensures { IfOk result (λ parts. parts ≡ map (λ facts. facts.pressure) all.now) }
{
    let mut parts = List::new(alloc);
    for facts in all {
        let Ok(()) = parts.push(facts.pressure) else {
            return Err(NoMemory);
        };
    }
    Ok(parts)
}

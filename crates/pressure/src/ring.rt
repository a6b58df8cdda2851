ghost use Rattle.std.specs.Prelude.{◌≡◌, ◌<◌, ◌≤◌, None, length, slice_index_or, IfOk};
ghost use Rattle.micro_isa.specs.declared.limits.TheConstants.{MOST_INSTRUCTIONS};
ghost use Rattle.flow_graph.specs.Paths.{Below, IsClosedCode};
ghost use Rattle.flow_graph.specs.Flows.{IsFlowOf};
ghost use Rattle.pressure.specs.Rings.{AreRings, IsAlone, IsNobody, IsTarget, own_after, target_after};

use flow_graph::Flow;
use micro_isa::{Line, List, NoMemory, switches};
use std::alloc::Global;

/// A ring for each instruction: on it are the instruction and those that edges of one kind join
/// with it, where those do not switch.
#[derive(Drop)]
pub struct Rings {
    /// Who comes after an instruction on its own ring.
    own: List<Option<u32>>,
    /// Who comes after it on the ring of the instruction that it leads to.
    target: List<Option<u32>>,
}

impl Rings {
    /// The rings by the edges of jumps, or by those of instructions that fall through.
    pub fn of(alloc: Global, code: &[Line], flow: &Flow, jumps: bool) -> Result<Rings, NoMemory>
        requires closed { IsClosedCode code.now }
        requires flow { IsFlowOf code.now flow.now }
        ensures { IfOk result (λ rings. AreRings code.now jumps (length code.now) rings.own rings.target) }
    {
        let mut own = alone(alloc, code.len())?;
        let mut target = nobody(alloc, code.len())?;
        put_all(code, flow, jumps, &mut own, &mut target);
        Ok(Rings {
            own: List::of(own),
            target: List::of(target),
        })
    }

    /// Who comes after instruction `i` on its own ring.
    pub fn after_on_own(&self, i: u32) -> Option<u32>
        requires { i < length self.now.own }
        ensures { result ≡ slice_index_or self.now.own i None }
    {
        self.own.as_slice()[i as usize]
    }

    /// Who comes after it on the ring of the instruction that it leads to.
    pub fn after_on_target(&self, i: u32) -> Option<u32>
        requires { i < length self.now.target }
        ensures { result ≡ slice_index_or self.now.target i None }
    {
        self.target.as_slice()[i as usize]
    }
}

/// Each of `n` instructions alone on its ring.
fn alone(alloc: Global, n: usize) -> Result<Vec<Option<u32>>, NoMemory>
    requires { n ≤ MOST_INSTRUCTIONS }
    ensures { IfOk result (λ own. IsAlone n own.items) }
{
    let mut own = Vec::new(alloc);
    'places: for i in 0..n as u32 {
        if own.push(Some(i)).is_err() {
            return Err(NoMemory);
        }
    }
    Ok(own)
}

/// Nobody at each of `n` instructions.
pub fn nobody(alloc: Global, n: usize) -> Result<Vec<Option<u32>>, NoMemory>
    ensures { IfOk result (λ list. IsNobody n list.items) }
{
    let mut list = Vec::new(alloc);
    'places: for _place in 0..n {
        if list.push(None).is_err() {
            return Err(NoMemory);
        }
    }
    Ok(list)
}

/// Puts each instruction on the ring of the one that it leads to.
fn put_all(
    code: &[Line],
    flow: &Flow,
    jumps: bool,
    own: &mut [Option<u32>],
    target: &mut [Option<u32>],
)
    requires closed { IsClosedCode code.now }
    requires flow { IsFlowOf code.now flow.now }
    requires alone { IsAlone (length code.now) own.old }
    requires nobody { IsNobody (length code.now) target.old }
    ensures { AreRings code.now jumps (length code.now) own.new target.new }
{
    'lines: for i in 0..code.len() {
        let to = target_at(code, flow, i, jumps);
        put(own, target, i as u32, to);
    }
}

/// What instruction `i` jumps or falls to, where it does not switch.
fn target_at(code: &[Line], flow: &Flow, i: usize, jumps: bool) -> Option<u32>
    requires flow { IsFlowOf code.now flow.now }
    requires here { i < length code.now }
    requires few { length code.now ≤ MOST_INSTRUCTIONS }
    ensures { IsTarget code.now jumps i result }
{
    if switches(&code[i].instr) {
        return None;
    }
    let next = flow.successors_of(i as u32);
    if jumps { next.jump } else { next.fall }
}

/// Puts instruction `i` on the ring of the one that it leads to, right after that one.
fn put(own: &mut [Option<u32>], target: &mut [Option<u32>], i: u32, to: Option<u32>)
    requires here { i < length target.old }
    requires there { Below to (length own.old) }
    ensures own { own.new ≡ own_after own.old i to }
    ensures target { target.new ≡ target_after own.old target.old i to }
{
    let Some(to) = to else {
        return;
    };
    target[i as usize] = own[to as usize];
    own[to as usize] = Some(i);
}

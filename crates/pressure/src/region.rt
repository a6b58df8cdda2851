ghost use Rattle.std.specs.Prelude.{◌≡◌, ℕ, ◌+◌, ◌<◌, ◌≤◌, Some, length, slice_index, IfOk};
ghost use Rattle.flow_graph.specs.Paths.{IsClosedCode};
ghost use Rattle.flow_graph.specs.Flows.{IsFlowOf};
ghost use Rattle.pressure.specs.Regions.{numbers_in, count_in, AreRegionsOf};
ghost use Rattle.pressure.specs.Rings.{AreRinged, IsNobody};
ghost use Rattle.pressure.specs.Floods.{AreNumbered, ArePlain};

use crate::flood::flood;
use crate::ring::{Rings, nobody};
use flow_graph::Flow;
use micro_isa::{Line, List, NoMemory, Program};
use std::alloc::Global;

/// The connected parts of a program that are left where each switching instruction is cut off from
/// its successors, numbered by their least instructions.
#[derive(Debug, Drop)]
pub struct Regions {
    numbers: List<u32>,
    count: u32,
}

impl Regions {
    /// The regions of a program, whose flow is given.
    pub fn of(alloc: Global, program: &Program, flow: &Flow) -> Result<Regions, NoMemory>
        requires closed { IsClosedCode program.now.code }
        requires flow { IsFlowOf program.now.code flow.now }
        ensures { IfOk result (λ regions. AreRegionsOf program.now.code regions) }
    {
        let code = program.code.as_slice();
        let falls = Rings::of(alloc, code, flow, false)?;
        let jumps = Rings::of(alloc, code, flow, true)?;
        let mut numbers = nobody(alloc, code.len())?;
        numbered(alloc, code, &falls, &jumps, &mut numbers)
    }

    /// The number of the region of instruction `i`.
    pub fn region_of(&self, i: u32) -> u32
        requires { i < length (numbers_in self.now) }
        ensures { result ≡ slice_index (numbers_in self.now) i }
    {
        self.numbers.as_slice()[i as usize]
    }

    /// How many regions there are.
    pub fn count(&self) -> u32
        ensures { result ≡ count_in self.now }
    {
        self.count
    }
}

/// The regions, numbered one after the other, by a flood from the least instruction of each.
fn numbered(
    alloc: Global,
    code: &[Line],
    falls: &Rings,
    jumps: &Rings,
    numbers: &mut [Option<u32>],
) -> Result<Regions, NoMemory>
    requires rings { AreRinged code.now falls.now jumps.now }
    requires nobody { IsNobody (length code.now) numbers.old }
    ensures { IfOk result (λ regions. AreRegionsOf code.now regions) }
{
    let mut count = 0;
    'places: for i in 0..code.len() {
        count = number_from(alloc, code, falls, jumps, numbers, i as u32, count)?;
    }
    let numbers = plain(alloc, numbers)?;
    Ok(Regions { numbers, count })
}

/// Numbers the region of instruction `i`, if it has no number yet. How many are numbered then.
fn number_from(
    alloc: Global,
    code: &[Line],
    falls: &Rings,
    jumps: &Rings,
    numbers: &mut [Option<u32>],
    i: u32,
    count: u32,
) -> Result<u32, NoMemory>
    requires rings { AreRinged code.now falls.now jumps.now }
    requires here { i < length code.now }
    requires few { count ≤ i }
    requires numbered { AreNumbered code.now i count numbers.old }
    ensures numbered { IfOk result (λ more. AreNumbered code.now (i + 1) more numbers.new) }
    ensures few { IfOk result (λ more. more ≤ i + 1) }
{
    if numbers[i as usize].is_some() {
        return Ok(count);
    }
    flood(alloc, falls, jumps, numbers, i, count)?;
    Ok(count + 1)
}

/// The numbers, where each instruction has one.
fn plain(alloc: Global, numbers: &[Option<u32>]) -> Result<List<u32>, NoMemory>
    ensures { IfOk result (λ plain. ArePlain numbers.now plain) }
{
    let mut list = List::new(alloc);
    'places: for i in 0..numbers.len() {
        let Ok(()) = list.push(or_none(numbers[i])) else {
            return Err(NoMemory);
        };
    }
    Ok(list)
}

fn or_none(number: Option<u32>) -> u32
    ensures { (a : ℕ) → number ≡ Some a → result ≡ a }
{
    match number {
        Some(number) => number,
        None => 0,
    }
}

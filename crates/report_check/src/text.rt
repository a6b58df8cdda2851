//! The text, line by line. After a refusal a part of a line may stand in it.

ghost use Rattle.std.specs.Prelude.{◌≡◌, ◌++◌, ◌<◌, ◌≤◌, length, map, slice_get, OnOk, IfOk};
ghost use Rattle.std.specs.List.{All, flat_map};
ghost use Rattle.std.specs.Option.{option_copied};
ghost use Rattle.micro_isa.specs.declared.limits.TheConstants.{MOST_CONTEXTS};
ghost use Rattle.micro_isa.specs.Formed.{IsFormedBundle};
ghost use Rattle.pressure.specs.Pressures.{IsPart, need_of};
ghost use Rattle.micro_kit.specs.Text.{in_order};
ghost use Rattle.report_check.specs.Checks.{pressure_line, unreachable_line, context_lines, need_line, check_text, IsCheckOf, HasOneCheck};

use crate::facts::{Facts, all_facts, pressures_in};
use micro_isa::{Bundle, List, NoMemory};
use micro_kit::{put_bytes, put_named};
use pressure::need;
use std::alloc::Global;

/// The text that tells for each context its pressures, its regions and its unreachable lines, and
/// last what all contexts need of the file. A bundle has one such text.
pub fn print_check(alloc: Global, bundle: &Bundle) -> Result<Vec<u8>, NoMemory>
    requires formed { IsFormedBundle bundle.now }
    ensures text { IfOk result (λ text. IsCheckOf bundle.now text.items) }
    ensures once { HasOneCheck bundle.now }
{
    let all = all_facts(alloc, bundle.programs.as_slice())?;
    print_facts(alloc, &all, bundle.file)
}

#[tactic(auto, unfolding(crate::specs::Checks::check_text))]
fn print_facts(alloc: Global, all: &List<Facts>, file: u32) -> Result<Vec<u8>, NoMemory>
    requires some { 0 < length all.now }
    requires few { length all.now ≤ MOST_CONTEXTS }
    requires parts { All (λ facts. IsPart facts.pressure) all.now }
    ensures { IfOk result (λ text. text.items ≡ check_text all.now file) }
{
    let mut text = Vec::new(alloc);
    put_contexts(&mut text, all)?;
    put_need(&mut text, need_of_all(alloc, all.as_slice())?, file)?;
    Ok(text)
}

#[tactic(auto, using(crate::proofs::Gathering::all_parts))]
fn need_of_all(alloc: Global, all: &[Facts]) -> Result<u32, NoMemory>
    requires some { 0 < length all.now }
    requires few { length all.now ≤ MOST_CONTEXTS }
    requires parts { All (λ facts. IsPart facts.pressure) all.now }
    ensures { IfOk result (λ n. n ≡ need_of (map (λ facts. facts.pressure) all.now)) }
{
    let parts = pressures_in(alloc, all)?;
    Ok(need(parts.as_slice()))
}

#[tactic(auto, using(micro_kit::proofs::InOrder::next_list))]
fn put_contexts(text: &mut Vec<u8>, all: &List<Facts>) -> Result<(), NoMemory>
    requires few { length all.now ≤ MOST_CONTEXTS }
    ensures { OnOk result (text.new.items ≡ text.old.items ++ in_order (length all.now) (λ c. context_lines c (slice_get all.now c))) }
{
    for c in 0..all.len() {
        put_context(text, c as u32, all.get(c))?;
    }
    Ok(())
}

fn put_context(text: &mut Vec<u8>, c: u32, facts: Option<&Facts>) -> Result<(), NoMemory>
    ensures { OnOk result (text.new.items ≡ text.old.items ++ context_lines c (option_copied facts.entry)) }
{
    let Some(facts) = facts else {
        return Ok(());
    };
    put_pressure(text, c, facts)?;
    put_unreachable(text, c, facts.unreachable.as_slice())
}

fn put_pressure(text: &mut Vec<u8>, c: u32, facts: &Facts) -> Result<(), NoMemory>
    ensures { OnOk result (text.new.items ≡ text.old.items ++ pressure_line c facts.now) }
{
    put_named(text, b"context ", c)?;
    put_named(text, b" private ", facts.pressure.private)?;
    put_named(text, b" all ", facts.pressure.all)?;
    put_named(text, b" regions ", facts.regions)?;
    put_bytes(text, b"\n")
}

fn put_unreachable(text: &mut Vec<u8>, c: u32, lines: &[u32]) -> Result<(), NoMemory>
    ensures { OnOk result (text.new.items ≡ text.old.items ++ flat_map (unreachable_line c) lines.now) }
{
    for line in lines {
        put_unreachable_line(text, c, *line)?;
    }
    Ok(())
}

#[tactic(auto, unfolding(crate::specs::Checks::unreachable_line))]
fn put_unreachable_line(text: &mut Vec<u8>, c: u32, line: u32) -> Result<(), NoMemory>
    ensures { OnOk result (text.new.items ≡ text.old.items ++ unreachable_line c line) }
{
    put_named(text, b"unreachable ", c)?;
    put_named(text, b" ", line)?;
    put_bytes(text, b"\n")
}

fn put_need(text: &mut Vec<u8>, need: u32, file: u32) -> Result<(), NoMemory>
    ensures { OnOk result (text.new.items ≡ text.old.items ++ need_line need file) }
{
    put_named(text, b"need ", need)?;
    put_named(text, b" file ", file)?;
    put_bytes(text, b"\n")
}

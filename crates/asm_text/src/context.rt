ghost use Rattle.std.specs.Prelude.{◌≡◌, ◌+◌, ◌<◌, ◌≤◌, [], None, IfOk, OnOk, IfErr, length, option_map};
ghost use Rattle.asm_lines.specs.Faults.{Causes};
ghost use Rattle.asm_lines.specs.Sections.{ahead, after, IsPast};
ghost use Rattle.micro_isa.specs.declared.limits.TheConstants.{MOST_CHANNELS};
ghost use Rattle.asm_lines.specs.Tables.{words_seen};
ghost use Rattle.asm_header.specs.Views.{seen_header};
ghost use Rattle.asm_text.specs.Contexts.{name_in, has_instruction, start_fault, context_fault, names_with, contexts_fault, program_at, programs};

use asm_context::{has_instruction, read_context};
use asm_header::Header;
use asm_lines::{BundleFault, BundleKind, Lines, Row, declare, knows};
use indexmap::IndexSet;
use micro_isa::{List, MOST_CONTEXTS, Program, is_name};
use std::alloc::Global;

/// The programs of all contexts, or the first fault in them.
pub fn read_contexts<'a>(
    alloc: Global,
    header: &Header<'a>,
    lines: &mut Lines<'a>,
) -> Result<List<Program>, BundleFault>
    requires there { after lines.old.lines ≡ lines.old.lines }
    requires few { length lines.old.lines < 4294967295 }
    requires channels { length header.now.names.keys ≤ MOST_CHANNELS }
    ensures free { OnOk result (contexts_fault (seen_header header.now) [] lines.old.lines ≡ None) }
    ensures programs { IfOk result (λ all. all ≡ programs (seen_header header.now) lines.old.lines) }
    ensures count { OnOk result (lines.new.number ≡ lines.old.number + length lines.old.lines) }
    ensures cause { IfErr result (λ why. Causes why (contexts_fault (seen_header header.now) [] lines.old.lines)) }
{
    let mut names = IndexSet::new(alloc);
    let mut all = List::new(alloc);
    'contexts: while let Some(row) = lines.next() {
        let program = read_one(alloc, header, &mut names, &row, lines)?;
        match all.push(program) {
            Ok(()) => {}
            Err(_) => return Err(BundleFault::NoMemory),
        }
    }
    Ok(all)
}

/// The program of one context, whose line is `row` and whose other lines come next.
fn read_one<'a>(
    alloc: Global,
    header: &Header<'a>,
    names: &mut IndexSet<&'a [u8]>,
    row: &Row<'a>,
    lines: &mut Lines<'a>,
) -> Result<Program, BundleFault>
    requires few { length (ahead lines.old.lines) < 4294967295 }
    requires channels { length header.now.names.keys ≤ MOST_CHANNELS }
    ensures names { OnOk result (words_seen names.new.keys ≡ names_with (words_seen names.old.keys) row.now) }
    ensures free { OnOk result (context_fault (seen_header header.now) (words_seen names.old.keys) row.now (ahead lines.old.lines) ≡ None) }
    ensures program { IfOk result (λ p. p ≡ program_at (seen_header header.now) row.now (ahead lines.old.lines)) }
    ensures past { OnOk result (IsPast lines.old lines.new) }
    ensures cause { IfErr result (λ why. Causes why (context_fault (seen_header header.now) (words_seen names.old.keys) row.now (ahead lines.old.lines))) }
{
    let words = row.words(alloc)?;
    let name = name_in(words.as_slice());
    if let Some(kind) = start_fault(header, names, row, name, lines) {
        return Err(BundleFault::At {
            line: row.number(),
            kind,
        });
    }
    let Some(name) = name else { unreachable!() };
    declare(names, name)?;
    read_context(
        alloc,
        &header.names,
        header.channels.as_slice(),
        name,
        lines,
    )
}

/// The first kind of fault that a context line has, which names the context so, and whose other lines come next.
fn start_fault<'a>(
    header: &Header<'a>,
    names: &IndexSet<&'a [u8]>,
    row: &Row<'a>,
    name: Option<&'a [u8]>,
    lines: &Lines<'a>,
) -> Option<BundleKind>
    requires { option_map (λ n. n.now) name ≡ name_in row.now.words }
    ensures { result ≡ start_fault (seen_header header.now) (words_seen names.now.keys) row.now (ahead lines.now.lines) }
{
    if !row.fair() {
        return Some(BundleKind::Byte);
    }
    let Some(name) = name else {
        return Some(BundleKind::Operands);
    };
    if !is_name(name) {
        return Some(BundleKind::Name);
    }
    if MOST_CONTEXTS <= names.len() {
        return Some(BundleKind::Limit);
    }
    if knows(names, name) {
        return Some(BundleKind::Repeated);
    }
    if header.file.is_none() && names.len() == 0 {
        return Some(BundleKind::Missing);
    }
    if !has_instruction_line(lines) {
        return Some(BundleKind::Empty);
    }
    None
}

fn name_in<'a>(words: &[&'a [u8]]) -> Option<&'a [u8]>
    ensures { option_map (λ n. n.now) result ≡ name_in (words_seen words.now) }
{
    match words {
        [_, name] => Some(name),
        _ => None,
    }
}

/// Whether an instruction line stands before the next context line.
fn has_instruction_line(lines: &Lines) -> bool
    ensures { result ≡ has_instruction (ahead lines.now.lines) }
{
    let mut left = lines.again();
    'lines: while let Some(row) = left.next_inside() {
        if has_instruction(&row) {
            return true;
        }
    }
    false
}

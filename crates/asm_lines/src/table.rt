ghost use Rattle.std.specs.Prelude.{◌≡◌, ◌<◌, IfOk, IfSome, OnOk, length, option_map, position, not, true};
ghost use Rattle.std.specs.Str.{bytes_eq};
ghost use Rattle.std.specs.List.{list_all, list_any};
ghost use Rattle.micro_isa.specs.Names.{IsName, name_test};
ghost use Rattle.asm_lines.specs.Tables.{words_seen, knows, place_of, declare, misnamed, one};

use indexmap::IndexSet;
use micro_isa::{List, Name, NoMemory, is_name};
use std::alloc::Global;

/// The place of a name in a table, counted from 0.
pub fn find<'a>(names: &IndexSet<&'a [u8]>, name: &'a [u8]) -> Option<usize>
    ensures place { result ≡ position (λ n. bytes_eq name.now n) (words_seen names.now.keys) }
    ensures within { IfSome result (λ at. at < length names.now.keys) }
{
    names.get_index_of(&name)
}

/// The place of a name in a table, and 0 where it is not there.
pub fn place_of<'a>(names: &IndexSet<&'a [u8]>, name: &'a [u8]) -> usize
    ensures { result ≡ place_of (words_seen names.now.keys) name.now }
{
    find(names, name).unwrap_or(0)
}

pub fn knows<'a>(names: &IndexSet<&'a [u8]>, name: &'a [u8]) -> bool
    ensures { result ≡ knows (words_seen names.now.keys) name.now }
{
    names.contains(&name)
}

/// Adds a name to a table, where it is new, and answers its place and whether it is new.
#[inline(always)]
pub fn declare<'a>(
    names: &mut IndexSet<&'a [u8]>,
    name: &'a [u8],
) -> Result<(usize, bool), NoMemory>
    ensures place { IfOk result (λ r. r.0 ≡ place_of (words_seen names.new.keys) name.now) }
    ensures fresh { IfOk result (λ r. r.1 ≡ not (knows (words_seen names.old.keys) name.now)) }
    ensures names { OnOk result (words_seen names.new.keys ≡ declare (words_seen names.old.keys) name.now) }
{
    match names.insert_full(name) {
        Ok((place, is_new)) => Ok((place, is_new)),
        Err(_) => Err(NoMemory),
    }
}

/// Whether there is a name, and it is in the table.
pub fn has_name<'a>(names: &IndexSet<&'a [u8]>, name: Option<&'a [u8]>) -> bool
    ensures { result ≡ list_any (knows (words_seen names.now.keys)) (one (option_map (λ n. n.now) name.entry)) }
{
    match name {
        Some(name) => knows(names, name),
        None => false,
    }
}

/// Whether there is a name, and it is not in the table.
pub fn is_stray<'a>(names: &IndexSet<&'a [u8]>, name: Option<&'a [u8]>) -> bool
    ensures { result ≡ list_any (λ name. not (knows (words_seen names.now.keys) name)) (one (option_map (λ n. n.now) name.entry)) }
{
    match name {
        Some(name) => !knows(names, name),
        None => false,
    }
}

/// Whether there is a word that is no name.
pub fn is_misnamed(word: Option<&[u8]>) -> bool
    ensures { result ≡ misnamed (one (option_map (λ n. n.now) word.entry)) }
{
    match word {
        Some(word) => !is_name(word),
        None => false,
    }
}

/// The name that a word is.
pub fn name_of(alloc: Global, word: &[u8]) -> Result<Name, NoMemory>
    requires { IsName word.now }
    ensures { IfOk result (λ name. name ≡ word.now) }
{
    match Name::of(alloc, word) {
        Ok(Some(name)) => Ok(name),
        Ok(None) => unreachable!(),
        Err(_) => Err(NoMemory),
    }
}

/// Names of these words.
pub fn names_of(alloc: Global, words: &[&[u8]]) -> Result<List<Name>, NoMemory>
    requires { list_all name_test (words_seen words.now) ≡ true }
    ensures { IfOk result (λ names. names ≡ words_seen words.now) }
{
    let mut names = List::new(alloc);
    for word in words {
        let name = name_of(alloc, word)?;
        match names.push(name) {
            Ok(()) => {}
            Err(_) => return Err(NoMemory),
        }
    }
    Ok(names)
}

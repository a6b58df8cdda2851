ghost use Rattle.std.specs.Prelude.{◌≡◌, IfOk, MatchOption, nat_eq};
ghost use Rattle.std.specs.List.{list_all};
ghost use Rattle.std.specs.Cmp.{partial_equiv_from_equiv};
ghost use Rattle.std.specs.Cmp.Lexicographic.{pointwise, nat_list_eq_equiv};
ghost use Rattle.micro_isa.specs.Names.{IsName, name_test, is_head, is_tail};

use crate::limits::LONGEST_NAME;
use crate::list::{Copyable, NoMemory};
use std::alloc::Global;
use std::marker::Model;

/// The name of a register, a label, a channel or a context.
#[derive(Debug, Drop)]
pub struct Name {
    bytes: Vec<u8>,
}

impl Model for Name {
    ghost use Rattle.std.specs.Prelude.{List, ℕ};
    ghost use Rattle.micro_isa.specs.Names.{IsName};

    ghost Value = { List ℕ };

    ghost view = { λ n. n.bytes.items };

    ghost invariant = { λ n. IsName n.bytes.items };
}

impl Name {
    pub fn of(alloc: Global, bytes: &[u8]) -> Result<Option<Name>, NoMemory>
        ensures { IfOk result (λ found. MatchOption found (IsName bytes.now → ⊥) (λ name. (name ≡ bytes.now) × IsName bytes.now)) }
    {
        if !is_name(bytes) {
            return Ok(None);
        }
        match Vec::from_slice(alloc, bytes) {
            Ok(bytes) => Ok(Some(Name { bytes })),
            Err(_) => Err(NoMemory),
        }
    }

    pub fn bytes(&self) -> &[u8]
        ensures value { result.now ≡ self.now }
        ensures name { IsName self.now }
    {
        self.bytes.as_slice()
    }
}

impl Copyable for Name {
    fn copy(&self, alloc: Global) -> Result<Name, NoMemory> {
        match Vec::from_slice(alloc, self.bytes.as_slice()) {
            Ok(bytes) => Ok(Name { bytes }),
            Err(_) => Err(NoMemory),
        }
    }
}

impl PartialEq for Name {
    ghost eq = { pointwise nat_eq };

    ghost laws = { partial_equiv_from_equiv nat_list_eq_equiv };

    fn eq(&self, other: &Name) -> bool {
        self.bytes.as_slice() == other.bytes.as_slice()
    }
}

/// Whether the bytes are a name: 1 to `LONGEST_NAME` of them, first a letter or `_`, then letters, digits, `_` or `.`.
pub fn is_name(bytes: &[u8]) -> bool
    ensures { result ≡ name_test bytes.now }
{
    match bytes {
        [] => false,
        [first, ..] => bytes.len() <= LONGEST_NAME && is_head(*first) && all_tails(bytes),
    }
}

fn all_tails(bytes: &[u8]) -> bool
    ensures { result ≡ list_all is_tail bytes.now }
{
    bytes.iter().all(|b| is_tail(*b))
}

fn is_head(b: u8) -> bool
    ensures { result ≡ is_head b }
{
    (97 <= b && b <= 122) || (65 <= b && b <= 90) || b == 95
}

fn is_tail(b: u8) -> bool
    ensures { result ≡ is_tail b }
{
    is_head(b) || (48 <= b && b <= 57) || b == 46
}

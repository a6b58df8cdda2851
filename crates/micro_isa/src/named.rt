//! What has a name, and whether names are distinct.

ghost use Rattle.std.specs.Prelude.{◌≡◌};
ghost use Rattle.std.specs.List.{list_any};
ghost use Rattle.std.specs.Str.{bytes_eq};
ghost use Rattle.micro_isa.specs.Formed.{is_distinct};

use crate::name::Name;
use crate::program::{Label, Program};

/// What has a name among others of its kind.
pub(crate) trait Named {
    ghost use Rattle.std.specs.Prelude.{List, ℕ};

    ghost name_of: { Self → List ℕ };

    fn name(&self) -> &Name
        ensures { result.now ≡ name_of self.now };
}

impl Named for Name {
    ghost name_of = { λ n. n };

    fn name(&self) -> &Name {
        self
    }
}

impl Named for Label {
    ghost name_of = { λ l. l.name };

    fn name(&self) -> &Name {
        &self.name
    }
}

impl Named for Program {
    ghost name_of = { λ p. p.name };

    fn name(&self) -> &Name {
        &self.name
    }
}

/// Whether no two of the items have one name.
pub(crate) fn has_distinct_names<T: Named>(items: &[T]) -> bool
    ensures { result ≡ is_distinct (λ a b. bytes_eq (T.name_of a) (T.name_of b)) items.now }
{
    let mut rest = items;
    while let Some((first, after)) = rest.split_first() {
        if has_name(after, first.name()) {
            return false;
        }
        rest = after;
    }
    true
}

fn has_name<T: Named>(items: &[T], name: &Name) -> bool
    ensures { result ≡ list_any (λ item. bytes_eq name.now (T.name_of item)) items.now }
{
    items.iter().any(|item| *name == *item.name())
}

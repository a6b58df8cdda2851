//! How many registers the contexts need of their own.

ghost use Rattle.std.specs.Prelude.{◌≡◌, ◌≤◌};
ghost use Rattle.std.specs.List.{sum_by};

use micro_isa::MOST_FILE;
use pressure::Pressure;

/// How many registers all contexts need of their own.
pub(crate) fn own_total(parts: &[Pressure]) -> u32
    requires { sum_by (λ part. part.private) parts.now ≤ MOST_FILE }
    ensures { result ≡ sum_by (λ part. part.private) parts.now }
{
    let mut total = 0;
    for part in parts {
        total += part.private;
    }
    total
}

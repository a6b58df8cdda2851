ghost use Rattle.std.specs.Prelude.{◌≡◌, ◌<◌, ◌≤◌, length};
ghost use Rattle.std.specs.List.{All};
ghost use Rattle.micro_isa.specs.declared.limits.TheConstants.{MOST_CONTEXTS};
ghost use Rattle.pressure.specs.Pressures.{need_of, IsPart};

use crate::pressure_of::Pressure;

/// How many registers contexts with these pressures need together.
pub fn need(parts: &[Pressure]) -> u32
    requires some { 0 < length parts.now }
    requires few { length parts.now ≤ MOST_CONTEXTS }
    requires parts { All IsPart parts.now }
    ensures { result ≡ need_of parts.now }
{
    let mut private = 0;
    let mut shared = 0;
    'parts: for part in parts {
        private += part.private;
        shared = shared.max(part.all - part.private);
    }
    private + shared
}

ghost use Rattle.std.specs.Prelude.{◌+◌, ◌≤◌};
ghost use Rattle.micro_isa.specs.declared.limits.TheConstants.{MOST_FILE};

/// Where a context's places lie in the file: `own` registers of its own from `start` on, and behind
/// them the shared ones from `shared` on.
#[derive(Clone, Copy, Debug, PartialEq, Eq)]
pub(crate) struct Layout {
    pub start: u32,
    pub own: u32,
    pub shared: u32,
    ghost own_within: { start + own ≤ MOST_FILE },
    ghost shared_within: { shared ≤ MOST_FILE },
}

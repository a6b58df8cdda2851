use micro_isa::PReg;

/// `Mov` sets `to` to what `from` holds; `Xor` sets `to` to its exclusive-or with `with`.
#[derive(Clone, Copy, Debug, PartialEq, Eq)]
pub enum Step {
    Mov { to: PReg, from: PReg },
    Xor { to: PReg, with: PReg },
}

impl Default for Step {
    fn default() -> Step {
        Step::Mov {
            to: PReg(0),
            from: PReg(0),
        }
    }
}

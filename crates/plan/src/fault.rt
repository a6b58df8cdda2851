use micro_isa::VReg;

/// What is wrong with a plan. `at` is the instruction of the row.
#[derive(Clone, Copy, Debug, PartialEq, Eq)]
pub enum PlanFault {
    /// The private places are more than all, or all are more than a file has.
    Sizes {
        p: u32,
        r: u32,
    },
    /// There is not one row for each instruction.
    Length {
        rows: usize,
        code: usize,
    },
    /// A register that is live in is not listed, or the place of a write is missing.
    Missing {
        at: u32,
        register: VReg,
    },
    /// A listed register is not live in, or does not come above the one before it.
    Extra {
        at: u32,
        register: VReg,
    },
    /// There is the place of a write, and nothing is written.
    ExtraWrite {
        at: u32,
    },
    /// A place is not among the plan's places.
    Range {
        at: u32,
        register: VReg,
        place: u8,
    },
    /// Two listed registers share a place, or a survivor shares it with the write.
    Twice {
        at: u32,
        first: VReg,
        second: VReg,
        place: u8,
    },
    /// A register that crosses has a place that is not private.
    Crossing {
        at: u32,
        register: VReg,
        place: u8,
    },
}

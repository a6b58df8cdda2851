use micro_isa::{List, VReg};

/// The place of a register.
#[derive(Clone, Copy, Debug, PartialEq, Eq)]
pub struct Place {
    pub register: VReg,
    pub place: u8,
}

/// The places of the registers that are live in at an instruction, in increasing order of register,
/// and the place of what it writes. A register that survives the instruction keeps its place.
#[derive(Debug, Drop, PartialEq)]
pub struct PlanRow {
    pub places: List<Place>,
    pub write: Option<u8>,
}

/// A row for each instruction of a program. Places are numbers below `r`; those below `p` are the
/// context's own, also while another context runs.
#[derive(Debug, Drop, PartialEq)]
pub struct Plan {
    pub p: u32,
    pub r: u32,
    pub rows: List<PlanRow>,
}

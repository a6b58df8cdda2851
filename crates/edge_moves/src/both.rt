/// How many steps moves at once take, with a free register and without.
#[derive(Clone, Copy, Debug, PartialEq, Eq)]
pub struct Costs {
    pub with_free: u32,
    pub without: u32,
}

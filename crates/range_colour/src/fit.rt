ghost use Rattle.std.specs.Prelude.{◌≡◌, ◌<◌, ◌&&◌, nat_le, length, IfOk};
ghost use Rattle.std.specs.List.{All};
ghost use Rattle.flow_graph.specs.Paths.{IsClosedCode};
ghost use Rattle.liveness.specs.Lives.{IsLiveOf};
ghost use Rattle.range_colour.specs.Groups.{Among};
ghost use Rattle.range_colour.specs.Fits.{IsFit, least_private, least_all, places_in};

use crate::colour::{Sizes, settle_group};
use crate::group::{Group, gather, width};
use liveness::Live;
use micro_isa::{Line, List, MOST_REGISTERS, NoMemory};
use std::alloc::Global;

/// The first fit over a group of instructions: a place for each register that is in use there. It
/// knows no sizes but the least that it fits in.
#[derive(Debug, Drop)]
pub struct Fit {
    places: List<u16>,
    least: Sizes,
}

impl Fit {
    /// The fit over the group of these instructions. `meets` and `taken` are room to work in.
    pub fn over(
        alloc: Global,
        code: &[Line],
        live: &Live,
        members: &[u32],
        meets: &mut [u128],
        taken: &mut Vec<u128>,
    ) -> Result<Fit, NoMemory>
        requires closed { IsClosedCode code.now }
        requires live { IsLiveOf code.now live.now }
        requires members { All (λ i. i < length code.now) members.now }
        requires long { length meets.old ≡ MOST_REGISTERS }
        ensures { IfOk result (IsFit code.now (Among members.now)) }
    {
        let Group {
            registers,
            crossing,
        } = gather(code, live, members, meets);
        let Ok(mut places) = Vec::from_elem(alloc, 0u16, width(registers)) else {
            return Err(NoMemory);
        };
        let least = settle_group(registers, crossing, meets, &mut places, taken)?;
        Ok(Fit {
            places: List::of(places),
            least,
        })
    }

    /// Whether it fits in `p` places for crossing registers and `r` for the others.
    pub fn fits(&self, p: u32, r: u32) -> bool
        ensures { result ≡ (nat_le (least_private self.now) p && nat_le (least_all self.now) r) }
    {
        self.least.p <= p && self.least.r <= r
    }

    /// The places by register.
    pub fn places(&self) -> &[u16]
        ensures { result.now ≡ places_in self.now }
    {
        self.places.as_slice()
    }
}

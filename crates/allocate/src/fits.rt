//! The fits of a context, which serve all sizes. Those over the first regions are made first, since they
//! mostly tell what the plans by all of them cost more than.

ghost use Rattle.std.specs.Prelude.{◌≡◌, IfOk, OnOk, true};
ghost use Rattle.flow_graph.specs.Paths.{IsClosedCode};
ghost use Rattle.liveness.specs.Lives.{IsLiveOf};
ghost use Rattle.range_colour.specs.Fits.{IsFit};
ghost use Rattle.range_colour.specs.Groups.{Every};
ghost use Rattle.allocate.specs.Fits.{AreAllThere, AreFitsOf};

use flow_graph::Flow;
use liveness::Live;
use micro_isa::{List, NoMemory, Program};
use pressure::Regions;
use range_colour::{Fit, first_region_fits, region_fits};
use std::alloc::Global;

/// The fits over so many regions are made before it is known that more are needed.
const FIRST_REGIONS: u32 = 16;

/// The fit over the whole program, its regions and the fits over the first of them or over all.
#[derive(Debug, Drop)]
pub(crate) struct Fits {
    pub whole: Fit,
    pub division: Regions,
    pub regions: List<Fit>,
}

/// The first fits of a program, of which that over the whole of it is given.
pub(crate) fn fits_of(
    alloc: Global,
    program: &Program,
    live: &Live,
    whole: Fit,
) -> Result<Fits, NoMemory>
    requires closed { IsClosedCode program.now.code }
    requires live { IsLiveOf program.now.code live.now }
    requires whole { IsFit program.now.code Every whole }
    ensures { IfOk result (AreFitsOf program.now.code) }
{
    let flow = Flow::of(alloc, program)?;
    let division = Regions::of(alloc, program, &flow)?;
    let few = division.count().min(FIRST_REGIONS);
    let regions = first_region_fits(alloc, program.code.as_slice(), live, &division, few)?;
    Ok(Fits {
        whole,
        division,
        regions,
    })
}

/// Whether the fits over all regions are there.
pub(crate) fn are_all_there(fits: &Fits) -> bool
    ensures { result ≡ true → AreAllThere fits.now }
{
    fits.regions.len() == fits.division.count() as usize
}

/// Makes the fits over all regions.
pub(crate) fn make_all(
    alloc: Global,
    program: &Program,
    live: &Live,
    fits: &mut Fits,
) -> Result<(), NoMemory>
    requires closed { IsClosedCode program.now.code }
    requires live { IsLiveOf program.now.code live.now }
    requires fits { AreFitsOf program.now.code fits.old }
    ensures fits { OnOk result (AreFitsOf program.now.code fits.new) }
    ensures whole { OnOk result (AreAllThere fits.new) }
{
    let regions = region_fits(alloc, program.code.as_slice(), live, &fits.division)?;
    fits.regions = regions;
    Ok(())
}

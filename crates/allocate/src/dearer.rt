//! Whether the plans by the fits over the regions have more glue than a walk, by no more fits than it takes
//! to know.

ghost use Rattle.std.specs.Prelude.{◌≡◌, IfOk, false, true};
ghost use Rattle.flow_graph.specs.Paths.{IsClosedCode};
ghost use Rattle.liveness.specs.Lives.{IsLiveOf};
ghost use Rattle.allocate.specs.Fits.{AreAllThere, AreDearer, AreFitsOf};

use crate::fits::{Fits, are_all_there, make_all};
use crate::moving::moves_more;
use liveness::Live;
use micro_isa::{NoMemory, Program};
use std::alloc::Global;

/// Whether each plan by the fits over the regions has more than so many glue words. Where the fits that
/// are there do not tell it, all are made.
pub(crate) fn is_dearer(
    alloc: Global,
    program: &Program,
    live: &Live,
    fits: &mut Fits,
    words: u32,
) -> Result<bool, NoMemory>
    requires closed { IsClosedCode program.now.code }
    requires live { IsLiveOf program.now.code live.now }
    requires fits { AreFitsOf program.now.code fits.old }
    ensures fits { IfOk result (λ dearer. AreFitsOf program.now.code fits.new) }
    ensures dearer { IfOk result (λ dearer. dearer ≡ true → AreDearer program.now.code words) }
    ensures whole { IfOk result (λ dearer. dearer ≡ false → AreAllThere fits.new) }
{
    if tell_dearer(program, live, fits, words) {
        return Ok(true);
    }
    if are_all_there(fits) {
        return Ok(false);
    }
    make_all(alloc, program, live, fits)?;
    Ok(tell_dearer(program, live, fits, words))
}

/// Whether the fits that are there tell that each plan by the fits over the regions has more than so many
/// glue words.
pub(crate) fn tell_dearer(program: &Program, live: &Live, fits: &Fits, words: u32) -> bool
    requires closed { IsClosedCode program.now.code }
    requires live { IsLiveOf program.now.code live.now }
    requires fits { AreFitsOf program.now.code fits.now }
    ensures { result ≡ true → AreDearer program.now.code words }
{
    let code = program.code.as_slice();
    let regions = fits.regions.as_slice();
    moves_more(code, live, &fits.division, regions, words)
}

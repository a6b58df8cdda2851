//! What each task does with an image.

ghost use Rattle.std.specs.Prelude.{◌≤◌, IfOk};
ghost use Rattle.micro_isa.specs.Formed.{IsFormedImage};
ghost use Rattle.commands.specs.Openings.{TellsInTheEnd, ToldOfImage};
ghost use Rattle.commands.specs.Tells.{steps_of_image};

use crate::image_runs::open_run;
use crate::prepared::Opening;
use crate::task::ImageTask;
use micro_isa::{Image, MOST_STEPS, NoMemory};
use std::alloc::Global;

/// Does a task with a formed image, up to what asks ports or hands them anything. Nothing in an image
/// is a cause to refuse it.
#[tactic(auto, using(crate::proofs::Preparing::exec_is_asked))]
pub fn prepare_image(alloc: Global, task: ImageTask, image: Image) -> Result<Opening, NoMemory>
    requires formed { IsFormedImage image }
    requires bounded { steps_of_image task ≤ MOST_STEPS }
    ensures comes { IfOk result (TellsInTheEnd (ToldOfImage task image)) }
{
    match task {
        ImageTask::Exec { steps, order: _ } => open_run(alloc, image, None, steps),
    }
}

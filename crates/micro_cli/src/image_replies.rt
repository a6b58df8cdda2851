//! Replies to an input that is read as an image's bytes.

ghost use Rattle.std.specs.Prelude.{◌≡◌, ◌≤◌, IfOk, IfErr, length};
ghost use Rattle.commands.specs.Openings.{ComesTo};
ghost use Rattle.commands.specs.Tells.{steps_of_image};
ghost use Rattle.commands.specs.declared.status.Status.TheVariants as status;
ghost use Rattle.commands.specs.declared.task.Task.TheVariants.{OfImage};
ghost use Rattle.image_load.specs.Faults.{Causes};
ghost use Rattle.image_load.specs.Loading.{image_fault, Unspelled};
ghost use Rattle.image_load.specs.Spelling.{Spells};
ghost use Rattle.micro_cli.specs.Lines.{bad_image_line};
ghost use Rattle.micro_cli.specs.Preparing.{SaysBy};

use crate::lines::bad_image_line;
use commands::{ImageTask, Prepared, Reply, Status, prepare_image};
use image_load::{ImageFault, ImageKind, read_image};
use micro_isa::{Image, LONGEST_IMAGE, MOST_STEPS, NoMemory};
use std::alloc::Global;

/// What a task comes to for the whole bytes of an image.
#[tactic(auto, using(crate::proofs::Preparing::bytes_fault_comes))]
pub(crate) fn prepare(alloc: Global, task: ImageTask, bytes: Vec<u8>) -> Result<Prepared, NoMemory>
    requires short { length bytes.items ≤ LONGEST_IMAGE }
    requires bounded { steps_of_image task ≤ MOST_STEPS }
    ensures comes { IfOk result (ComesTo (SaysBy (OfImage task) bytes.items)) }
{
    match loaded(alloc, bytes) {
        Ok(image) => Ok(Prepared::Run(prepare_image(alloc, task, image)?)),
        Err(ImageFault::At { offset, kind }) => {
            Ok(Prepared::Reply(bad_image(alloc, offset, kind)?))
        }
        Err(ImageFault::NoMemory) => Err(NoMemory),
    }
}

/// The image that bytes spell. The bytes are let go: they may be as large as the image.
fn loaded(alloc: Global, bytes: Vec<u8>) -> Result<Image, ImageFault>
    requires short { length bytes.items ≤ LONGEST_IMAGE }
    ensures spelled { IfOk result (Spells bytes.items) }
    ensures cause { IfErr result (λ why. Causes why (image_fault bytes.items)) }
    ensures unspelled { IfErr result (λ why. Unspelled why bytes.items) }
{
    read_image(alloc, &bytes)
}

fn bad_image(alloc: Global, offset: u32, kind: ImageKind) -> Result<Reply, NoMemory>
    ensures { IfOk result (λ r. (r.status ≡ status.BadImage) × (r.text.items ≡ bad_image_line offset kind)) }
{
    let text = bad_image_line(alloc, offset, kind)?;
    Ok(Reply {
        status: Status::BadImage,
        text,
    })
}

//! The lines of refusals.

ghost use Rattle.std.specs.Prelude.{◌≡◌, ◌≤◌, IfOk};
ghost use Rattle.commands.specs.declared.status.Status.TheVariants as status;
ghost use Rattle.micro_cli.specs.Lines.{usage_line, limit_of, too_long_line, bad_bundle_line, bad_image_line};

use asm_lines::{BundleKind, kind_text};
use commands::{Reply, Status, Task};
use image_load::ImageKind;
use micro_isa::{LONGEST_BUNDLE, LONGEST_IMAGE, LONGEST_JOURNAL, NoMemory};
use micro_kit::{put_bytes, put_number};
use std::alloc::Global;

pub(crate) fn usage_line(alloc: Global) -> Result<Vec<u8>, NoMemory>
    ensures { IfOk result (λ line. line.items ≡ usage_line) }
{
    text_of(
        alloc,
        b"usage: micro COMMAND [NUMBER] [--steps N] [--order round|threads]\n",
    )
}

/// The input of a task has this many bytes at most.
pub(crate) fn limit_of(task: Task) -> usize
    ensures limit { result ≡ limit_of task }
    ensures small { result ≤ LONGEST_IMAGE }
{
    match task {
        Task::OfBundle(_) => LONGEST_BUNDLE,
        Task::OfImage(_) => LONGEST_IMAGE,
        Task::OfJournal(_) => LONGEST_JOURNAL,
    }
}

/// The reply to more bytes than a limit.
pub(crate) fn too_long(alloc: Global, limit: usize) -> Result<Reply, NoMemory>
    requires { limit ≤ LONGEST_IMAGE }
    ensures { IfOk result (λ r. (r.status ≡ status.TooLong) × (r.text.items ≡ too_long_line limit)) }
{
    let text = too_long_line(alloc, limit)?;
    Ok(Reply {
        status: Status::TooLong,
        text,
    })
}

fn too_long_line(alloc: Global, limit: usize) -> Result<Vec<u8>, NoMemory>
    requires { limit ≤ LONGEST_IMAGE }
    ensures { IfOk result (λ line. line.items ≡ too_long_line limit) }
{
    let mut text = text_of(alloc, b"toolong ")?;
    put_number(&mut text, limit as u32)?;
    put_bytes(&mut text, b"\n")?;
    Ok(text)
}

pub(crate) fn bad_bundle_line(
    alloc: Global,
    line: u32,
    kind: BundleKind,
) -> Result<Vec<u8>, NoMemory>
    ensures { IfOk result (λ text. text.items ≡ bad_bundle_line (record { line = line; kind = kind })) }
{
    let mut text = text_of(alloc, b"bundle ")?;
    put_number(&mut text, line)?;
    put_bytes(&mut text, b" ")?;
    put_bytes(&mut text, kind_text(kind))?;
    put_bytes(&mut text, b"\n")?;
    Ok(text)
}

pub(crate) fn bad_image_line(
    alloc: Global,
    offset: u32,
    kind: ImageKind,
) -> Result<Vec<u8>, NoMemory>
    ensures { IfOk result (λ text. text.items ≡ bad_image_line offset kind) }
{
    let mut text = text_of(alloc, b"image ")?;
    put_number(&mut text, offset)?;
    put_bytes(&mut text, b" ")?;
    put_bytes(&mut text, image_load::kind_text(kind))?;
    put_bytes(&mut text, b"\n")?;
    Ok(text)
}

fn text_of(alloc: Global, bytes: &[u8]) -> Result<Vec<u8>, NoMemory>
    ensures { IfOk result (λ text. text.items ≡ bytes.now) }
{
    match Vec::from_slice(alloc, bytes) {
        Ok(text) => Ok(text),
        Err(_) => Err(NoMemory),
    }
}

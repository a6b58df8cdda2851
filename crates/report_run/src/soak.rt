//! The summary of the run of a generated bundle.

ghost use Rattle.std.specs.Prelude.{◌≡◌, length, IfOk};
ghost use Rattle.report_run.specs.Report.{sum_out, soak_summary};

use crate::image::put_image;
use crate::lines::put_end;
use crate::report::Outcome;
use micro_isa::{Image, NoMemory};
use micro_kit::{put_count_line, put_number_line};
use std::alloc::Global;
use world::{Entry, Output};

/// The text of the summary of a run of the bundle that `number` generates.
#[tactic(auto, unfolding(crate::specs::Report::soak_summary))]
pub fn print_soak(
    alloc: Global,
    number: u32,
    need: u32,
    image: &Image,
    entries: &[Entry],
    last: &Outcome,
) -> Result<Vec<u8>, NoMemory>
    ensures { IfOk result (λ text. text.items ≡ soak_summary number need image.now (length entries.now) last.now.view.steps last.now.view.outputs last.now.ending) }
{
    let mut text = Vec::new(alloc);
    put_number_line(&mut text, b"soak ", number)?;
    put_number_line(&mut text, b"need ", need)?;
    put_image(&mut text, image)?;
    put_count_line(&mut text, b"segments ", entries.len())?;
    put_number_line(&mut text, b"steps ", last.view.steps)?;
    put_number_line(&mut text, b"sum ", sum_out(last.view.outputs.as_slice()))?;
    put_end(&mut text, last.ending)?;
    Ok(text)
}

/// The sum of the words that were put out, modulo 2^32.
fn sum_out(outputs: &[Output]) -> u32
    ensures { result ≡ sum_out outputs.now }
{
    let mut sum = 0u32;
    for output in outputs {
        sum = sum.wrapping_add(output.word);
    }
    sum
}

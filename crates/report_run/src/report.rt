ghost use Rattle.std.specs.Prelude.{◌≡◌, ◌++◌, OnOk, IfOk};
ghost use Rattle.std.specs.Option.{option_copied};
ghost use Rattle.std.specs.List.{flat_map};
ghost use Rattle.journal_text.specs.Entries.{entry_line};
ghost use Rattle.report_run.specs.Report.{report_text, TellsEntries, need_line, image_lines, output_lines, queue_lines, context_lines, view_lines};

use crate::image::put_image;
use crate::lines::{put_context, put_end, put_file, put_memory, put_output, put_queue};
use journal_text::put_entry;
use micro_isa::{Channel, Image, List, NoMemory};
use micro_kit::put_number_line;
use std::alloc::Global;
use world::{End, Entry, Output, Phase, View};

/// How a run stands at its end: what it shows, the registers of its file, and how it ended, if it
/// did. The sources have no file.
#[derive(Debug, Drop)]
pub struct Outcome {
    pub view: View,
    pub file: Option<List<u32>>,
    pub ending: Option<End>,
}

/// The text of a report. The lines of `need` and of `image` are left out where there is none. The
/// text tells its entries.
#[tactic(auto, using(crate::proofs::Telling::tells), unfolding(crate::specs::Report::report_text))]
pub fn print_report(
    alloc: Global,
    need: Option<u32>,
    image: Option<&Image>,
    channels: &List<Channel>,
    entries: &[Entry],
    last: &Outcome,
) -> Result<Vec<u8>, NoMemory>
    ensures text { IfOk result (λ text. text.items ≡ report_text need (option_copied image.entry) channels.now entries.now last.now) }
    ensures once { IfOk result (λ text. TellsEntries text.items need (option_copied image.entry) channels.now entries.now last.now) }
{
    let mut text = Vec::new(alloc);
    put_need(&mut text, need)?;
    put_built(&mut text, image)?;
    put_entries(&mut text, entries)?;
    put_view(&mut text, channels, &last.view)?;
    put_file(&mut text, last.file.as_ref())?;
    put_number_line(&mut text, b"steps ", last.view.steps)?;
    put_end(&mut text, last.ending)?;
    Ok(text)
}

fn put_need(text: &mut Vec<u8>, need: Option<u32>) -> Result<(), NoMemory>
    ensures { OnOk result (text.new.items ≡ text.old.items ++ need_line need) }
{
    match need {
        Some(need) => put_number_line(text, b"need ", need),
        None => Ok(()),
    }
}

fn put_built(text: &mut Vec<u8>, image: Option<&Image>) -> Result<(), NoMemory>
    ensures { OnOk result (text.new.items ≡ text.old.items ++ image_lines (option_copied image.entry)) }
{
    match image {
        Some(image) => put_image(text, image),
        None => Ok(()),
    }
}

fn put_entries(text: &mut Vec<u8>, entries: &[Entry]) -> Result<(), NoMemory>
    ensures { OnOk result (text.new.items ≡ text.old.items ++ flat_map entry_line entries.now) }
{
    for entry in entries {
        put_entry(text, entry)?;
    }
    Ok(())
}

/// Channels, memory and contexts.
fn put_view(text: &mut Vec<u8>, channels: &List<Channel>, view: &View) -> Result<(), NoMemory>
    ensures { OnOk result (text.new.items ≡ text.old.items ++ view_lines channels.now view.now) }
{
    put_outputs(text, channels, view.outputs.as_slice())?;
    put_queues(text, channels, view)?;
    put_memory(text, view.memory.as_slice())?;
    put_contexts(text, &view.phases)
}

#[tactic(auto, using(micro_kit::proofs::InOrder::next_list))]
fn put_outputs(
    text: &mut Vec<u8>,
    channels: &List<Channel>,
    outputs: &[Output],
) -> Result<(), NoMemory>
    ensures { OnOk result (text.new.items ≡ text.old.items ++ output_lines channels.now outputs.now) }
{
    for k in 0..channels.len() {
        put_output(text, outputs, k, channels.get(k))?;
    }
    Ok(())
}

#[tactic(auto, using(micro_kit::proofs::InOrder::next_list))]
fn put_queues(text: &mut Vec<u8>, channels: &List<Channel>, view: &View) -> Result<(), NoMemory>
    ensures { OnOk result (text.new.items ≡ text.old.items ++ queue_lines channels.now view.now) }
{
    for k in 0..channels.len() {
        put_queue(
            text,
            k,
            channels.get(k),
            view.left.get(k),
            view.rings.get(k),
        )?;
    }
    Ok(())
}

#[tactic(auto, using(micro_kit::proofs::InOrder::next_list))]
fn put_contexts(text: &mut Vec<u8>, phases: &List<Phase>) -> Result<(), NoMemory>
    ensures { OnOk result (text.new.items ≡ text.old.items ++ context_lines phases.now) }
{
    for c in 0..phases.len() {
        put_context(text, c, phases.get(c))?;
    }
    Ok(())
}

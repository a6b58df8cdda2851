//! The lines of what a run shows, each kind by one function.

ghost use Rattle.std.specs.Prelude.{◌≡◌, ◌++◌, OnOk};
ghost use Rattle.std.specs.Option.{option_copied};
ghost use Rattle.world.specs.declared.event.Phase.TheVariants.{Sending, Trapped};
ghost use Rattle.micro_kit.specs.Text.{numbers};
ghost use Rattle.report_run.specs.Report.{put_on, output_words, output_line, held_line, queue_line, memory_line, memory_lines, phase_words, context_line, file_line, ending_word, end_line};

use journal_text::trap_word;
use micro_isa::{Channel, List, NoMemory};
use micro_kit::{put_bytes, put_count, put_named, put_numbers};
use world::{End, Output, Phase, Trap};

pub(crate) fn put_output(
    text: &mut Vec<u8>,
    outputs: &[Output],
    k: usize,
    channel: Option<&Channel>,
) -> Result<(), NoMemory>
    ensures { OnOk result (text.new.items ≡ text.old.items ++ output_line outputs.now k (option_copied channel.entry)) }
{
    match channel {
        Some(Channel::Output { .. }) => put_output_words(text, outputs, k),
        _ => Ok(()),
    }
}

fn put_output_words(text: &mut Vec<u8>, outputs: &[Output], k: usize) -> Result<(), NoMemory>
    ensures { OnOk result (text.new.items ≡ text.old.items ++ output_words k (put_on k outputs.now)) }
{
    put_bytes(text, b"output ")?;
    put_count(text, k)?;
    put_words_on(text, outputs, k)?;
    put_bytes(text, b"\n")
}

fn put_words_on(text: &mut Vec<u8>, outputs: &[Output], k: usize) -> Result<(), NoMemory>
    ensures { OnOk result (text.new.items ≡ text.old.items ++ numbers (put_on k outputs.now)) }
{
    for output in outputs {
        if output.channel as usize != k {
            continue;
        }
        put_named(text, b" ", output.word)?;
    }
    Ok(())
}

pub(crate) fn put_queue(
    text: &mut Vec<u8>,
    k: usize,
    channel: Option<&Channel>,
    left: Option<&List<u32>>,
    ring: Option<&List<u32>>,
) -> Result<(), NoMemory>
    ensures { OnOk result (text.new.items ≡ text.old.items ++ queue_line k (option_copied channel.entry) (option_copied left.entry) (option_copied ring.entry)) }
{
    match (channel, left, ring) {
        (Some(Channel::Inner { .. } | Channel::Input { .. }), Some(left), Some(ring)) => {
            put_held(text, k, left.as_slice(), ring.as_slice())
        }
        _ => Ok(()),
    }
}

fn put_held(text: &mut Vec<u8>, k: usize, left: &[u32], ring: &[u32]) -> Result<(), NoMemory>
    ensures { OnOk result (text.new.items ≡ text.old.items ++ held_line k (left.now ++ ring.now)) }
{
    if left.is_empty() && ring.is_empty() {
        return Ok(());
    }
    put_bytes(text, b"queue ")?;
    put_count(text, k)?;
    put_numbers(text, left)?;
    put_numbers(text, ring)?;
    put_bytes(text, b"\n")
}

#[tactic(auto, using(micro_kit::proofs::InOrder::next_list))]
pub(crate) fn put_memory(text: &mut Vec<u8>, memory: &[u32]) -> Result<(), NoMemory>
    ensures { OnOk result (text.new.items ≡ text.old.items ++ memory_lines memory.now) }
{
    for address in 0..memory.len() {
        put_memory_word(text, address, memory[address])?;
    }
    Ok(())
}

fn put_memory_word(text: &mut Vec<u8>, address: usize, word: u32) -> Result<(), NoMemory>
    ensures { OnOk result (text.new.items ≡ text.old.items ++ memory_line address word) }
{
    if word == 0 {
        return Ok(());
    }
    put_bytes(text, b"memory ")?;
    put_count(text, address)?;
    put_named(text, b" ", word)?;
    put_bytes(text, b"\n")
}

pub(crate) fn put_context(
    text: &mut Vec<u8>,
    c: usize,
    phase: Option<&Phase>,
) -> Result<(), NoMemory>
    ensures { OnOk result (text.new.items ≡ text.old.items ++ context_line c (option_copied phase.entry)) }
{
    match phase {
        Some(phase) => put_context_line(text, c, *phase),
        None => Ok(()),
    }
}

fn put_context_line(text: &mut Vec<u8>, c: usize, phase: Phase) -> Result<(), NoMemory>
    ensures { OnOk result (text.new.items ≡ text.old.items ++ context_line c (Some phase)) }
{
    put_bytes(text, b"context ")?;
    put_count(text, c)?;
    put_bytes(text, b" ")?;
    put_phase(text, phase)?;
    put_bytes(text, b"\n")
}

fn put_phase(text: &mut Vec<u8>, phase: Phase) -> Result<(), NoMemory>
    ensures { OnOk result (text.new.items ≡ text.old.items ++ phase_words phase) }
{
    match phase {
        Phase::Ready => put_bytes(text, b"ready"),
        Phase::Due(word) => put_named(text, b"due ", word),
        Phase::Receiving(channel) => put_named(text, b"receive ", channel as u32),
        Phase::Sending { channel, word } => put_sending(text, channel, word),
        Phase::Halted => put_bytes(text, b"halted"),
        Phase::Trapped { trap, line } => put_trapped(text, trap, line),
    }
}

fn put_sending(text: &mut Vec<u8>, channel: u8, word: u32) -> Result<(), NoMemory>
    ensures { OnOk result (text.new.items ≡ text.old.items ++ phase_words (Sending channel word)) }
{
    put_named(text, b"send ", channel as u32)?;
    put_named(text, b" ", word)
}

fn put_trapped(text: &mut Vec<u8>, trap: Trap, line: u32) -> Result<(), NoMemory>
    ensures { OnOk result (text.new.items ≡ text.old.items ++ phase_words (Trapped trap line)) }
{
    put_bytes(text, trap_word(trap))?;
    put_named(text, b" ", line)
}

pub(crate) fn put_file(text: &mut Vec<u8>, file: Option<&List<u32>>) -> Result<(), NoMemory>
    ensures { OnOk result (text.new.items ≡ text.old.items ++ file_line (option_copied file.entry)) }
{
    let Some(file) = file else {
        return Ok(());
    };
    put_bytes(text, b"file")?;
    put_numbers(text, file.as_slice())?;
    put_bytes(text, b"\n")
}

pub(crate) fn put_end(text: &mut Vec<u8>, ending: Option<End>) -> Result<(), NoMemory>
    ensures { OnOk result (text.new.items ≡ text.old.items ++ end_line ending) }
{
    put_bytes(text, b"end ")?;
    put_bytes(text, ending_word(ending))?;
    put_bytes(text, b"\n")
}

fn ending_word(ending: Option<End>) -> &'static [u8]
    ensures { result.now ≡ ending_word ending }
{
    match ending {
        None => b"open",
        Some(End::Finished) => b"finished",
        Some(End::Stuck) => b"stuck",
        Some(End::Bound) => b"bound",
        Some(End::Idle) => b"idle",
    }
}

//! Entries as text.

ghost use Rattle.std.specs.Prelude.{◌≡◌, ◌++◌, List, OnOk};
ghost use Rattle.std.specs.List.{flat_map, AllByRecursion};
ghost use Rattle.journal_text.specs.Entries.{trap_word, end_word, entry_words, entry_line, IsFitting};
ghost use Rattle.world.specs.declared.event.Entry.TheVariants.{Ran, Fed};

use micro_isa::NoMemory;
use micro_kit::{put_bytes, put_named};
use world::{Entry, SegmentEnd, Trap};

/// The word of a trap, in entries and in what a report tells of a context.
pub fn trap_word(trap: Trap) -> &'static [u8]
    ensures { result.now ≡ trap_word trap }
{
    match trap {
        Trap::Divide => b"divide",
        Trap::Address => b"address",
    }
}

fn end_word(end: SegmentEnd) -> &'static [u8]
    ensures { result.now ≡ end_word end }
{
    match end {
        SegmentEnd::Load => b"load",
        SegmentEnd::Store => b"store",
        SegmentEnd::Yield => b"yield",
        SegmentEnd::Recv => b"recv",
        SegmentEnd::Send => b"send",
        SegmentEnd::Halt => b"halt",
        SegmentEnd::Trap(trap) => trap_word(trap),
        SegmentEnd::Bound => b"bound",
    }
}

/// Appends the line of an entry, its newline included. After a refusal a part of it may stand there.
/// Lists of entries that have the same lines are the same.
#[tactic(auto, using(crate::proofs::Telling::told_once))]
pub fn put_entry(text: &mut Vec<u8>, entry: &Entry) -> Result<(), NoMemory>
    ensures line { OnOk result (text.new.items ≡ text.old.items ++ entry_line entry.now) }
    ensures once { (es fs : List Entry) → AllByRecursion IsFitting es → AllByRecursion IsFitting fs → flat_map entry_line es ≡ flat_map entry_line fs → es ≡ fs }
{
    put_entry_words(text, entry)?;
    put_bytes(text, b"\n")
}

/// Appends the words of an entry, without a newline. After a refusal a part of them may stand there.
pub fn put_entry_words(text: &mut Vec<u8>, entry: &Entry) -> Result<(), NoMemory>
    ensures { OnOk result (text.new.items ≡ text.old.items ++ entry_words entry.now) }
{
    match *entry {
        Entry::Ran {
            context,
            steps,
            end,
        } => put_ran(text, context, steps, end),
        Entry::Fed { channel, word } => put_fed(text, channel, word),
        Entry::Unplugged { channel } => put_named(text, b"unplug ", channel as u32),
    }
}

fn put_ran(text: &mut Vec<u8>, context: u32, steps: u32, end: SegmentEnd) -> Result<(), NoMemory>
    ensures { OnOk result (text.new.items ≡ text.old.items ++ entry_words (Ran context steps end)) }
{
    put_named(text, b"run ", context)?;
    put_named(text, b" ", steps)?;
    put_bytes(text, b" ")?;
    put_bytes(text, end_word(end))
}

fn put_fed(text: &mut Vec<u8>, channel: u8, word: u32) -> Result<(), NoMemory>
    ensures { OnOk result (text.new.items ≡ text.old.items ++ entry_words (Fed channel word)) }
{
    put_named(text, b"feed ", channel as u32)?;
    put_named(text, b" ", word)
}

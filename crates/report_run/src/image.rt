//! What a report tells of an image.

ghost use Rattle.std.specs.Prelude.{◌≡◌, ◌++◌, not, count_by, OnOk, IfOk};
ghost use Rattle.report_run.specs.Report.{private_sizes, private_part, budget_line, glue_words, image_lines};

use micro_isa::{Code, Image, List, NoMemory, Word};
use micro_kit::{put_bytes, put_count, put_named, put_number_line};

/// The sizes of the ranges, and the number of words that are not counted.
pub(crate) fn put_image(text: &mut Vec<u8>, image: &Image) -> Result<(), NoMemory>
    ensures { OnOk result (text.new.items ≡ text.old.items ++ image_lines (Some image.now)) }
{
    put_budget(text, image)?;
    put_bytes(text, b"glue ")?;
    put_count(text, glue_words(image)?)?;
    put_bytes(text, b"\n")
}

fn put_budget(text: &mut Vec<u8>, image: &Image) -> Result<(), NoMemory>
    ensures { OnOk result (text.new.items ≡ text.old.items ++ budget_line image.now) }
{
    put_private_part(text, &image.contexts)?;
    put_number_line(text, b" shared ", image.shared.size)
}

fn put_private_part(text: &mut Vec<u8>, contexts: &List<Code>) -> Result<(), NoMemory>
    ensures { OnOk result (text.new.items ≡ text.old.items ++ private_part contexts.now) }
{
    put_bytes(text, b"budget private")?;
    put_private_sizes(text, contexts)
}

fn put_private_sizes(text: &mut Vec<u8>, contexts: &List<Code>) -> Result<(), NoMemory>
    ensures { OnOk result (text.new.items ≡ text.old.items ++ private_sizes contexts.now) }
{
    for code in contexts.as_slice() {
        put_named(text, b" ", code.private.size)?;
    }
    Ok(())
}

/// No memory holds more words than a `usize` counts.
fn glue_words(image: &Image) -> Result<usize, NoMemory>
    ensures { IfOk result (λ n. n ≡ glue_words image.now) }
{
    let mut sum = 0usize;
    for code in image.contexts.as_slice() {
        match sum.checked_add(uncounted(code.words.as_slice())) {
            Some(more) => sum = more,
            None => return Err(NoMemory),
        }
    }
    Ok(sum)
}

fn uncounted(words: &[Word]) -> usize
    ensures { result ≡ count_by (λ word. not word.counted) words.now }
{
    words.iter().filter(|word| !word.counted).count()
}

ghost use Rattle.std.specs.Prelude.{◌≡◌, ◌≤◌, List as Sequence, length, codes, IfOk, IfErr, IfSome, IfNone};
ghost use Rattle.std.specs.Str.{bytes_eq};
ghost use Rattle.world.specs.declared.event.Entry.{Entry};
ghost use Rattle.journal_text.specs.Journals.{IsJournal, IsFirstStray, bundle_part, journal_part};
ghost use Rattle.journal_text.specs.Firsts.{HasEntries};
ghost use Rattle.journal_text.specs.Faults.{StraysAt, IsUnread};

use crate::front::first_entry;
use crate::lines::line_at;
use micro_isa::{LONGEST_JOURNAL, List};
use std::alloc::Global;
use thiserror::Error;
use world::Entry;

/// Why no journal was read.
#[derive(Clone, Copy, Debug, PartialEq, Eq, Error)]
pub enum JournalFault {
    /// The line of this number, counted from 1, is the first that is no entry.
    #[error("line {at} is no entry")]
    Reading { at: u32 },
    #[error("out of memory")]
    NoMemory,
}

/// The entries of a journal, one for each line. Only one list of entries has these lines.
#[tactic(auto, using(crate::proofs::Reading::read_none, crate::proofs::Reading::read_more, crate::proofs::Reading::read_all, crate::proofs::Reading::read_alone, crate::proofs::Reading::strays_at, crate::proofs::Reading::stray_unread))]
pub fn read_journal(alloc: Global, text: &[u8]) -> Result<List<Entry>, JournalFault>
    requires { length text.now ≤ LONGEST_JOURNAL }
    ensures fine { IfOk result (IsJournal text.now) }
    ensures alone { IfOk result (λ es. (other : Sequence Entry) → IsJournal text.now other → other ≡ es) }
    ensures cause { IfErr result (λ why. StraysAt why text.now) }
    ensures unread { IfErr result (λ why. IsUnread why text.now) }
{
    let mut entries = List::new(alloc);
    let mut rest = text;
    'lines: while !rest.is_empty() {
        match first_entry(rest) {
            Some((entry, behind)) => {
                if entries.push(entry).is_err() {
                    return Err(JournalFault::NoMemory);
                }
                rest = behind;
            }
            None => {
                return Err(JournalFault::Reading {
                    at: entries.len() as u32 + 1,
                });
            }
        }
    }
    Ok(entries)
}

/// The number of a text's first line that is no entry, counted from 1; none exactly where each line is one.
#[tactic(auto, using(crate::proofs::Reading::strays_after, crate::proofs::Reading::read_after))]
pub fn first_stray(text: &[u8]) -> Option<u32>
    requires { length text.now ≤ LONGEST_JOURNAL }
    ensures some { IfSome result (IsFirstStray text.now) }
    ensures none { IfNone result (HasEntries text.now) }
    ensures within { IfSome result (λ at. at ≤ length text.now) }
{
    let mut rest = text;
    let mut count = 0u32;
    'lines: while !rest.is_empty() {
        match first_entry(rest) {
            Some((_, behind)) => {
                count += 1;
                rest = behind;
            }
            None => return Some(count + 1),
        }
    }
    None
}

/// The part of a text before the first line `journal`, and the part behind it. Without such a line the
/// whole text is the first part, and the second is empty.
#[tactic(auto, using(crate::proofs::Reading::searched_none, crate::proofs::Reading::searched_more, crate::proofs::Reading::found_bundle, crate::proofs::Reading::found_journal, crate::proofs::Reading::searched_all, crate::proofs::Reading::searched_empty))]
pub fn split_journal<'a>(text: &'a [u8]) -> (&'a [u8], &'a [u8])
    ensures bundle { result.0.now ≡ bundle_part text.now }
    ensures journal { result.1.now ≡ journal_part text.now }
    ensures within { length result.1.now ≤ length text.now }
{
    let mut start = 0;
    'lines: while start < text.len() {
        let (line, behind) = line_at(text, start);
        if is_mark(line) {
            return (&text[..start], behind);
        }
        start = text.len() - behind.len();
    }
    (text, &[])
}

fn is_mark(line: &[u8]) -> bool
    ensures { result ≡ bytes_eq line.now (codes "journal") }
{
    line == b"journal".as_slice()
}

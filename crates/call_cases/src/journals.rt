//! Journals that are followed, and journals that are refused.

use crate::calls::{EXAMPLE, REPORT, tells};
use micro_cli::Status;
use std::alloc::Global;
use std::test::Fail;

/// The report of a replay of no entries.
const OPENING: &[u8] =
    b"need 2\nbudget private 0 shared 2\nglue 0\noutput 0\ncontext 0 ready\nfile 0 0\nsteps 0\nend open\n";

/// Two contexts that share one register beside one of their own each.
const PAIR: &[u8] =
    b"file 3\noutput out\ncontext a\nli x, 7\nyield\nli y, 1\nadd x, x, y\nsend out, x\nhalt\ncontext b\nli x, 7\nyield\nli y, 1\nadd x, x, y\nsend out, x\nhalt\n";

/// A bundle and lines after it, what `replay` must write for them, and with which status.
type Row = (&'static [u8], &'static [u8], &'static [u8], Status);

const REPLAYS: [Row; 8] = [
    (
        EXAMPLE,
        b"journal\nrun 0 4 send\nrun 0 1 halt\n",
        REPORT,
        Status::Done,
    ),
    (EXAMPLE, b"journal", OPENING, Status::Done),
    (EXAMPLE, b"", OPENING, Status::Done),
    (
        EXAMPLE,
        b"journal\nrun 0 4 send\nrun 0 4 send",
        b"journal 2 differs run 0 4 send found run 0 1 halt\n",
        Status::BadJournal,
    ),
    (
        EXAMPLE,
        b"journal\nrun 0 4 send\nrun 0 1 halt\nrun 0 1 halt\n",
        b"journal 3 illegal run 0 1 halt\n",
        Status::BadJournal,
    ),
    (
        EXAMPLE,
        b"journal\nrun 0 1 halt\nrun 0 04 send\n",
        b"journal 2 reading\n",
        Status::BadJournal,
    ),
    (
        PAIR,
        b"journal\nfeed 0 1\n",
        b"journal 1 illegal feed 0 1\n",
        Status::BadJournal,
    ),
    (
        PAIR,
        b"journal\nrun 2 1 halt\n",
        b"journal 1 illegal run 2 1 halt\n",
        Status::BadJournal,
    ),
];

/// Whether `replay` of a bundle and these lines answers so.
fn replays_so(alloc: Global, row: &Row) -> Result<bool, Fail> {
    let (bundle, lines, wrote, status) = *row;
    let mut input = Vec::from_slice(alloc, bundle)?;
    input.extend_from_slice(lines)?;
    tells(alloc, &["replay"], &input, status, wrote)
}

#[test]
fn replays_journals(rt: HostRuntime) -> Result<(), Fail> {
    for row in &REPLAYS {
        assert!(rt; replays_so(rt.alloc(), row)?);
    }
    Ok(())
}

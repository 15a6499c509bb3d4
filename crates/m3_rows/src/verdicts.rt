//! The check of journals: what is legal, and the first entry that isn't, with its cause.

use crate::runs::expect_written;
use std::alloc::{AllocError, Global};
use std::process::Abort;

/// Activity 0 sends to activity 1.
const PAIR: &[u8] =
    b"machine tiles 4 memory 4096\nact 0 tile 2\nact 1 tile 3\nrecv 1 0 slots 2 size 16\nsend 0 0 of 1 label 7 credits 2\n";

/// The first message, and what its journal ends with.
const FIRST: &[&[u8]] = &[
    b"do 0 send 0 6869: flying 0.1",
    b"take 3 2: landed 0.1",
    b"take 2 3: answered 0.1 sent",
    b"do 1 fetch 0: message 0 from 0 label 7 6869",
];

const FIRST_AUDIT: &[u8] =
    b"audit credit 2 held 1 flying 0 queued 1 limit 2\naudit tile 2 act 0\naudit tile 3 act 1\naudit flights 0\naudit quiet yes\n";

/// Entries in the place of one of the first message's, each with the answer of the check.
const CHANGES: &[(usize, &[u8], &str)] = &[
    (4, b"do 1 fetch 0: message 0 from 0 label 7 6869", "legal 4"),
    (1, b"do 0 send 0 686a: flying 0.1", "illegal 4 reply"),
    (1, b"do 0 send 0 6869: flying 0.2", "illegal 1 reply"),
    (1, b"do 0 send 0 6869: flying 1.1", "illegal 1 reply"),
    (1, b"do 0 send 0 6869: flying k.1", "illegal 1 reply"),
    (
        1,
        b"do 0 send 0 6869: refused 2 no-credits",
        "illegal 1 reply",
    ),
    (1, b"do 0 send 3 6869: flying 0.1", "illegal 1 reply"),
    (1, b"do 0 send 0 6869: none", "illegal 1 step"),
    (1, b"do 0 send 0 6869: landed 0.1", "illegal 1 step"),
    (1, b"do 0 send 0 6869: idle busy", "illegal 2 step"),
    (1, b"do 0 send 0 6869: idle empty-link", "illegal 1 step"),
    (1, b"do 9 send 0 6869: flying 9.1", "illegal 1 step"),
    (1, b"do 9 send 0 6869: idle not-current", "illegal 2 step"),
    (1, b"turn 0 send 0 6869: flying 0.1", "legal 4"),
    (2, b"take 9 9: landed 0.1", "legal 4"),
    (2, b"tend 1: landed 0.1", "legal 4"),
    (2, b"tend 9: landed 0.1 restore 5", "legal 4"),
    (2, b"take 3 2: landed 0.1 restore 1", "illegal 2 step"),
    (2, b"take 3 2: landed 0.2", "illegal 2 step"),
    (2, b"take 3 2: landed 7.9", "illegal 2 step"),
    (2, b"take 3 2: landed k.1", "illegal 2 step"),
    (2, b"take 3 2: answered 0.1 sent", "illegal 2 step"),
    (2, b"take 3 2: refused 0.1 5 full", "illegal 2 reply"),
    (2, b"take 3 2: credited 0.1 2", "illegal 2 reply"),
    (2, b"take 3 2: closed 0.1 2", "illegal 2 step"),
    (2, b"switch 3 1: landed 0.1", "illegal 2 step"),
    (2, b"take 3 2: bounced 0.1", "illegal 3 step"),
    (3, b"take 2 3: landed 0.1", "illegal 3 step"),
    (3, b"take 2 3: answered 3.1 sent", "illegal 3 step"),
    (3, b"take 2 3: answered 0.1 replied", "illegal 3 reply"),
    (
        3,
        b"take 2 3: answered 0.1 refused 5 full",
        "illegal 3 reply",
    ),
    (3, b"take 2 3: answered 0.1 sent closed 2", "illegal 3 step"),
    (3, b"take 2 3: idle empty-link", "illegal 5 audit"),
    (3, b"take 2 3: held 0.1 0", "illegal 5 audit"),
    (3, b"take 0 3: done 9", "illegal 3 step"),
    (3, b"take 0 3: done 2", "illegal 3 step"),
    (3, b"revoke 9: revoking 9", "illegal 3 reply"),
    (3, b"revoke 9: refused no-grant", "illegal 5 audit"),
    (3, b"revoke 9: refused slot-taken", "illegal 3 reply"),
    (3, b"revoke 9: refused not-home", "illegal 3 step"),
    (3, b"close: close 2 k.1 routed", "illegal 3 step"),
    (3, b"close: close 9 k.1 routed", "illegal 3 step"),
    (
        3,
        b"grant send 0 0 of 1 label 7 credits 1: granted 3 k.1 routed",
        "illegal 3 reply",
    ),
    (
        3,
        b"grant send 0 1 of 9 label 7 credits 1: granted 3 k.1 routed",
        "illegal 3 reply",
    ),
    (
        3,
        b"grant send 9 0 of 1 label 7 credits 1: refused no-grant",
        "illegal 3 step",
    ),
    (
        4,
        b"do 1 fetch 0: message 0 from 0 label 7 6868",
        "illegal 4 reply",
    ),
    (
        4,
        b"do 1 fetch 0: message 0 from 0 label 7 -",
        "illegal 4 reply",
    ),
    (
        4,
        b"do 1 fetch 0: message 0 from 0 label 8 6869",
        "illegal 4 reply",
    ),
    (
        4,
        b"do 1 fetch 0: message 0 from 1 label 7 6869",
        "illegal 4 reply",
    ),
    (
        4,
        b"do 1 fetch 0: message 1 from 0 label 7 6869",
        "illegal 4 reply",
    ),
    (
        4,
        b"do 1 fetch 0: reply 0 from 0 label 7 6869",
        "illegal 4 reply",
    ),
    (4, b"do 1 fetch 0: none", "illegal 4 reply"),
    (4, b"do 1 fetch 0: flying 1.1", "illegal 4 reply"),
    (4, b"do 1 fetch 0: acknowledged", "illegal 4 step"),
    (
        4,
        b"do 1 fetch 1: message 0 from 0 label 7 6869",
        "illegal 4 reply",
    ),
    (
        4,
        b"do 1 ack 0 0: acknowledged credit 1.1",
        "illegal 4 reply",
    ),
    (4, b"do 1 ack 0 7: refused 9 no-such-token", "legal 4"),
    (4, b"do 1 reply 0 7 00: flying 1.1", "illegal 4 reply"),
    (4, b"do 9 fetch 0: none", "illegal 4 step"),
    (4, b"do 9 fetch 0: idle busy", "legal 4"),
    (4, b"turn 1 end: ended", "legal 4"),
    (4, b"switch 9 9: save 5", "legal 4"),
    (4, b"switch 3 1: refused already", "legal 4"),
    (4, b"switch 3 1: refused no-grant", "illegal 4 step"),
    (4, b"take 0 3: saved 1 restore 2", "legal 4"),
    (4, b"take 0 3: yielded 5", "legal 4"),
    (4, b"tend 1: saved 1", "illegal 4 step"),
];

/// Closing lines of the first message's journal, each with the answer of the check.
const AUDITS: &[(&[u8], &str)] = &[
    (
        b"audit credit 2 held 1 flying 0 queued 1 limit 2\naudit flights 0\n",
        "legal 4",
    ),
    (
        b"audit flights 0\naudit credit 2 held 1 flying 0 queued 1 limit 2\n",
        "legal 4",
    ),
    (
        b"audit quiet no\naudit tile 9 none\naudit credit 2 held 1 flying 0 queued 1 limit 2\naudit tile 2 act 63\naudit quiet yes\naudit flights 0\n",
        "legal 4",
    ),
    (
        b"audit credit 2 held 2 flying 0 queued 1 limit 2\naudit flights 0\n",
        "illegal 5 audit",
    ),
    (
        b"audit credit 2 held 4294967295 flying 0 queued 1 limit 2\naudit flights 0\n",
        "illegal 5 audit",
    ),
    (
        b"audit credit 2 held 1 flying 1 queued 1 limit 2\naudit flights 0\n",
        "illegal 5 audit",
    ),
    (
        b"audit credit 2 held 1 flying 0 queued 0 limit 2\naudit flights 0\n",
        "illegal 5 audit",
    ),
    (
        b"audit credit 2 held 1 flying 0 queued 1 limit 3\naudit flights 0\n",
        "illegal 5 audit",
    ),
    (
        b"audit credit 3 held 1 flying 0 queued 1 limit 2\naudit flights 0\n",
        "illegal 5 audit",
    ),
    (
        b"audit credit 2 held 1 flying 0 queued 1 limit 2\naudit credit 2 held 1 flying 0 queued 1 limit 2\naudit flights 0\n",
        "illegal 5 audit",
    ),
    (
        b"audit credit 1 held 0 flying 0 queued 0 limit 2\naudit credit 2 held 1 flying 0 queued 1 limit 2\naudit flights 0\n",
        "illegal 5 audit",
    ),
    (b"audit flights 0\n", "illegal 5 audit"),
    (
        b"audit credit 2 held 1 flying 0 queued 1 limit 2\naudit flights 1\n",
        "illegal 5 audit",
    ),
    (
        b"audit credit 2 held 1 flying 0 queued 1 limit 2\n",
        "illegal 5 audit",
    ),
    (
        b"audit credit 2 held 1 flying 0 queued 1 limit 2\naudit flights 0\naudit flights 0\n",
        "illegal 5 audit",
    ),
    (b"", "illegal 5 audit"),
];

/// A journal of these setup lines, entries and closing lines.
pub fn journal_of(
    alloc: Global,
    setup: &[u8],
    entries: &[u8],
    audit: &[u8],
) -> Result<Vec<u8>, AllocError> {
    let mut journal = Vec::from_slice(alloc, b"m3x journal 1\n")?;
    journal.extend_from_slice(setup)?;
    journal.extend_from_slice(b"begin\n")?;
    journal.extend_from_slice(entries)?;
    journal.extend_from_slice(b"end\n")?;
    journal.extend_from_slice(audit)?;
    Ok(journal)
}

/// Asserts what the check of this input writes, and its status.
pub fn expect_answer(
    rt: &impl Abort,
    alloc: Global,
    input: Vec<u8>,
    answer: &str,
) -> Result<(), AllocError> {
    let status = if answer.starts_with("legal ") {
        0
    } else if answer.starts_with("illegal ") {
        7
    } else {
        2
    };
    let line = format!(in alloc; "{answer}\n")?;
    expect_written(rt, alloc, &["check"], input, status, line.as_bytes())
}

// The first message's entries, of which this one, counted from 1, is another.
fn entries_with(alloc: Global, number: usize, entry: &[u8]) -> Result<Vec<u8>, AllocError> {
    let mut entries = Vec::new(alloc);
    for (at, first) in FIRST.iter().enumerate() {
        if at + 1 == number {
            entries.extend_from_slice(entry)?;
        } else {
            entries.extend_from_slice(first)?;
        }
        entries.push(b'\n')?;
    }
    Ok(entries)
}

#[test]
fn the_first_entry_that_fails_is_named(rt: HostRuntime) -> Result<(), AllocError> {
    let alloc = rt.alloc();
    for (number, entry, answer) in CHANGES {
        let entries = entries_with(alloc, *number, entry)?;
        let journal = journal_of(alloc, PAIR, entries.as_slice(), FIRST_AUDIT)?;
        expect_answer(&rt, alloc, journal, answer)?;
    }
    Ok(())
}

/// The lines on credits and on flights are compared; those on tiles and quiet say nothing of the ideal machine.
#[test]
fn the_audit_is_compared(rt: HostRuntime) -> Result<(), AllocError> {
    let alloc = rt.alloc();
    for (audit, answer) in AUDITS {
        let entries = entries_with(alloc, 0, b"")?;
        let journal = journal_of(alloc, PAIR, entries.as_slice(), audit)?;
        expect_answer(&rt, alloc, journal, answer)?;
    }
    Ok(())
}

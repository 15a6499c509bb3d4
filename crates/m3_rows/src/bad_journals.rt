//! Journals as text that are refused, with the number of the first bad line and its first cause.

use crate::verdicts::expect_answer;
use std::alloc::{AllocError, Global};

/// The journal of the first message, line by line.
const LINES: &[&[u8]] = &[
    b"m3x journal 1",
    b"machine tiles 4 memory 4096",
    b"act 0 tile 2",
    b"act 1 tile 3",
    b"recv 1 0 slots 2 size 16",
    b"send 0 0 of 1 label 7 credits 2",
    b"begin",
    b"do 0 send 0 6869: flying 0.1",
    b"take 3 2: landed 0.1",
    b"take 2 3: answered 0.1 sent",
    b"do 1 fetch 0: message 0 from 0 label 7 6869",
    b"end",
    b"audit credit 2 held 1 flying 0 queued 1 limit 2",
    b"audit tile 2 act 0",
    b"audit tile 3 act 1",
    b"audit flights 0",
    b"audit quiet yes",
];

/// Lines in the place of one of them, each with the answer of the check.
const CHANGES: &[(usize, &[u8], &str)] = &[
    (1, b"", "bad line 1: form"),
    (1, b"m3x journal", "bad line 1: form"),
    (1, b"m3x journal 01", "bad line 1: form"),
    (1, b"m3x journal 2", "bad line 1: form"),
    (1, b"{}", "bad line 1: form"),
    (1, b"begin", "bad line 1: place"),
    (2, b"machine tiles 17 memory 1", "bad line 2: number"),
    (2, b"act 0 tile 2", "bad line 2: place"),
    (2, b"m3x journal 1", "bad line 2: place"),
    (3, b"act 0 tile 16", "bad line 3: number"),
    (3, b"act 0 tile 9", "bad line 3: rule"),
    (4, b"act 0 tile 3", "bad line 4: rule"),
    (4, b"prog 0 send 0 AA", "bad line 4: hex"),
    (4, b"do 0 fetch 0", "bad line 4: form"),
    (5, b"recv 1 0 slots 2 size 16 # room", "bad line 5: form"),
    (6, b"send 0 0 of 2 label 7 credits 2", "bad line 6: rule"),
    (7, b"close: idle nothing-to-close", "bad line 7: place"),
    (7, b"end", "bad line 7: place"),
    (8, b"", "bad line 8: form"),
    (8, b"# a comment", "bad line 8: form"),
    (8, b"do 0 send 0 6869", "bad line 8: form"),
    (8, b"do 0 send 0 6869 flying 0.1", "bad line 8: form"),
    (8, b"do 0 send 0 6869: flying", "bad line 8: form"),
    (8, b"do 0 send 0 6869: flying one", "bad line 8: form"),
    (8, b"do 0 jump: flying 0.1", "bad line 8: form"),
    (8, b"do 0 send 0 6869: refused 4 full", "bad line 8: form"),
    (8, b"do 0 send 0 6869: refused 11 full", "bad line 8: form"),
    (8, b"turn 0 fetch 0: idle busy", "bad line 8: form"),
    (8, b"turn 0: ended", "bad line 8: form"),
    (8, b"take 3 2: bounced 0.1 restore 1", "bad line 8: form"),
    (8, b"do 0 send 0 6869\t: flying 0.1", "bad line 8: form"),
    (8, b"do 0 send 0 6869: flying 0.0", "bad line 8: number"),
    (8, b"do 0 send 0 6869: flying 0.01", "bad line 8: number"),
    (8, b"do 0 send 0 6869: flying 64.1", "bad line 8: number"),
    (
        8,
        b"do 0 send 0 6869: flying 0.4294967296",
        "bad line 8: number",
    ),
    (8, b"do 0 send 16 686: flying 0.1", "bad line 8: number"),
    (8, b"take 16 2: idle empty-link", "bad line 8: number"),
    (8, b"do 0 send 0 6A69: flying 0.1", "bad line 8: hex"),
    (8, b"do 0 send 0 686: flying 0.1", "bad line 8: hex"),
    (
        11,
        b"do 1 fetch 0: message 0 from 0 label 7 6A69",
        "bad line 11: hex",
    ),
    (8, b"begin", "bad line 8: place"),
    (8, b"act 2 tile 2", "bad line 8: place"),
    (8, b"audit flights 0", "bad line 8: place"),
    (8, b"m3x journal 1", "bad line 8: place"),
    (12, b"close: idle nothing-to-close", "bad line 13: place"),
    (13, b"end", "bad line 13: place"),
    (13, b"close: idle nothing-to-close", "bad line 13: place"),
    (13, b"audit", "bad line 13: form"),
    (14, b"audit tile 2", "bad line 14: form"),
    (16, b"audit flights", "bad line 16: form"),
    (17, b"audit quiet maybe", "bad line 17: form"),
    (17, b"", "bad line 17: form"),
    (
        13,
        b"audit credit 0 held 1 flying 0 queued 1 limit 2",
        "bad line 13: number",
    ),
    (
        13,
        b"audit credit 2 held 4294967296 flying 0 queued 1 limit 2",
        "bad line 13: number",
    ),
    (14, b"audit tile 16 act 0", "bad line 14: number"),
    (14, b"audit tile 2 act 64", "bad line 14: number"),
    (16, b"audit flights 4294967296", "bad line 16: number"),
    (5, b"  recv  1 0   slots 2 size 16  \r", "legal 4"),
    (8, b"do 0  send 0 6869:  flying 0.1\r", "legal 4"),
    (12, b" end ", "legal 4"),
];

// The first lines, so many of them, of which this one, counted from 1, is another.
fn journal_with(
    alloc: Global,
    count: usize,
    number: usize,
    line: &[u8],
) -> Result<Vec<u8>, AllocError> {
    let mut journal = Vec::new(alloc);
    for (at, own) in LINES.iter().enumerate() {
        if at == count {
            break;
        }
        if at + 1 == number {
            journal.extend_from_slice(line)?;
        } else {
            journal.extend_from_slice(own)?;
        }
        journal.push(b'\n')?;
    }
    Ok(journal)
}

#[test]
fn lines_are_refused_by_their_first_cause(rt: HostRuntime) -> Result<(), AllocError> {
    let alloc = rt.alloc();
    for (number, line, answer) in CHANGES {
        let journal = journal_with(alloc, LINES.len(), *number, line)?;
        expect_answer(&rt, alloc, journal, answer)?;
    }
    Ok(())
}

/// A journal that ends before its line `end` is refused at the line after its last; its audit may have no line.
#[test]
fn a_journal_has_its_end(rt: HostRuntime) -> Result<(), AllocError> {
    let alloc = rt.alloc();
    for (count, answer) in [
        (0, "bad line 1: place"),
        (1, "bad line 2: place"),
        (6, "bad line 7: place"),
        (7, "bad line 8: place"),
        (11, "bad line 12: place"),
        (12, "illegal 5 audit"),
        (16, "legal 4"),
        (17, "legal 4"),
    ] {
        let mut journal = journal_with(alloc, count, 0, b"")?;
        // the last line may lack its newline
        let _ = journal.pop();
        expect_answer(&rt, alloc, journal, answer)?;
    }
    Ok(())
}

//! The check of journals with grants and with programs.

use crate::verdicts::{expect_answer, journal_of};
use std::alloc::AllocError;

/// Activity 0 has two ways to activity 1.
const TREE: &[u8] =
    b"machine tiles 4 memory 4096\nact 0 tile 2\nact 1 tile 3\nrecv 1 0 slots 2 size 16\nsend 0 0 of 1 label 7 credits 2\nsend 0 1 of 1 label 8 credits 1\n";

/// Activity 0 may read bytes of memory.
const READER: &[u8] = b"machine tiles 3 memory 4096\nact 0 tile 2\nrange 0 0 at 0 len 64 perm r\n";

/// Two activities on one tile, one of which receives.
const SHARED: &[u8] =
    b"machine tiles 3 memory 64\nact 0 tile 2\nact 1 tile 2\nrecv 0 0 slots 1 size 4\n";

/// Journals of grants and of programs: the setup, the entries and the answer. At their end there is no flight.
const JOURNALS: &[(&[u8], &[u8], &str)] = &[
    (
        TREE,
        b"revoke 1: revoking 1\nclose: close 3 k.1 routed\nclose: close 2 k.2 held\ntake 2 0: closed k.1 3\ntake 2 0: closed k.2 2\ntake 0 2: done 3\ntake 0 2: done 2\nclose: close 1 k.3 held\ntake 3 0: closed k.3 1\ntake 0 3: done 1 revoked 1\n",
        "legal 10",
    ),
    (
        TREE,
        b"revoke 1: revoking 1\nclose: close 1 k.1 routed\n",
        "illegal 2 step",
    ),
    (
        TREE,
        b"revoke 2: revoking 2\nclose: close 3 k.1 routed\n",
        "illegal 2 step",
    ),
    (
        TREE,
        b"revoke 2: revoking 2\nclose: close 2 k.2 routed\n",
        "illegal 2 reply",
    ),
    (
        TREE,
        b"revoke 2: revoking 2\nclose: close 2 k.1 routed\nclose: close 2 k.2 routed\n",
        "illegal 3 step",
    ),
    (
        TREE,
        b"revoke 2: revoking 2\nclose: close 2 k.1 routed\ntake 2 0: closed k.1 3\n",
        "illegal 3 step",
    ),
    (
        TREE,
        b"revoke 2: revoking 2\nclose: close 2 k.1 routed\ntake 2 0: closing k.1 2\n",
        "illegal 3 reply",
    ),
    (
        TREE,
        b"revoke 2: revoking 2\nclose: close 2 k.1 routed\ntake 2 0: landed k.1\n",
        "illegal 3 reply",
    ),
    (
        TREE,
        b"revoke 2: revoking 2\nclose: close 2 k.1 routed\ntake 2 0: closed k.1 2\ntake 0 2: done 2\n",
        "illegal 4 reply",
    ),
    (
        TREE,
        b"revoke 2: revoking 2\ntake 0 2: done 2 revoked 2\n",
        "illegal 2 step",
    ),
    (
        TREE,
        b"revoke 2: revoking 2\nrevoke 2: revoking 2\n",
        "illegal 2 reply",
    ),
    (TREE, b"revoke 2: refused no-grant\n", "illegal 1 reply"),
    (TREE, b"revoke 2: revoking 3\n", "illegal 1 reply"),
    (
        READER,
        b"grant part 0 1 of 1 at 32 len 33 perm r: refused outside-parent\ngrant part 0 1 of 1 at 32 len 32 perm rw: refused more-permission\ngrant part 0 0 of 1 at 0 len 1 perm r: granted 2 k.1 routed\ngrant part 0 1 of 9 at 0 len 1 perm r: refused no-grant\ngrant part 0 1 of 1 at 32 len 32 perm r: granted 2 k.1 routed\ntake 2 0: installed k.1 2\n",
        "illegal 3 reply",
    ),
    (
        READER,
        b"grant part 0 1 of 1 at 32 len 32 perm r: granted 3 k.1 routed\n",
        "illegal 1 reply",
    ),
    (
        READER,
        b"grant part 0 1 of 1 at 32 len 32 perm r: granted 2 k.2 routed\n",
        "illegal 1 reply",
    ),
    (
        READER,
        b"grant part 0 1 of 1 at 32 len 32 perm r: granted 2 k.1 held\ntend 0: installed k.1 2 restore 9\ndo 0 read 1 0 33: refused 6 out-of-range\n",
        "legal 3",
    ),
    (
        READER,
        b"grant part 0 1 of 1 at 32 len 32 perm r: granted 2 k.1 routed\ndo 0 read 1 0 1: flying 0.1\n",
        "illegal 2 reply",
    ),
    (
        READER,
        b"grant part 0 1 of 1 at 32 len 32 perm r: revoking 2\n",
        "illegal 1 step",
    ),
    (
        READER,
        b"do 0 read 0 0 2: flying 0.1\ntake 1 2: landed 0.1\ntake 2 1: answered 0.1 bytes 0000\n",
        "legal 3",
    ),
    (
        READER,
        b"do 0 read 0 0 2: flying 0.1\ntake 1 2: landed 0.1\ntake 2 1: answered 0.1 bytes 0001\n",
        "illegal 3 reply",
    ),
    (
        SHARED,
        b"turn 0 await 0: yield\nturn 1 await 7: asleep\nturn 0 quantum: yield\nturn 9 quantum: yield\nturn 9 end: ended\nturn 9: idle waiting\n",
        "legal 6",
    ),
    (SHARED, b"turn 0 await 0: awake\n", "illegal 1 reply"),
    (SHARED, b"turn 9 await 0: yield\n", "illegal 1 step"),
    (SHARED, b"turn 0 await 0: none\n", "illegal 1 step"),
    (SHARED, b"turn 0 end: yield\n", "illegal 1 step"),
    (SHARED, b"turn 0 fetch 0: none\n", "legal 1"),
];

/// Grants are replayed, children close first, in any order among themselves, and an await is told what it finds.
#[test]
fn grants_and_awaits_are_replayed(rt: HostRuntime) -> Result<(), AllocError> {
    let alloc = rt.alloc();
    for (setup, entries, answer) in JOURNALS {
        let journal = journal_of(alloc, setup, entries, b"audit flights 0\n")?;
        expect_answer(&rt, alloc, journal, answer)?;
    }
    Ok(())
}

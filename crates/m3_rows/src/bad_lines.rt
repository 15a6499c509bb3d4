//! Scripts that are refused, with the number of the first bad line and its first cause.

use crate::runs::{expect_written, run_of};
use std::alloc::{AllocError, Global};
use std::process::Abort;

/// Activity 0 sends to activity 1: six lines.
const PAIR: &[u8] =
    b"machine tiles 4 memory 4096\nact 0 tile 2\nact 1 tile 3\nrecv 1 0 slots 2 size 16\nsend 0 0 of 1 label 7 credits 2\nbegin\n";

/// One activity: two lines.
const ONE: &[u8] = b"machine tiles 4 memory 4096\nact 0 tile 2\n";

/// Lines after `begin`, each with its cause.
const EVENTS: &[(&[u8], &str)] = &[
    (b"do 0 jump", "form"),
    (b"do 0 fetch", "form"),
    (b"do 0 fetch 0 0", "form"),
    (b"DO 0 fetch 0", "form"),
    (b"close 1", "form"),
    (b"end", "form"),
    (b"do 0 fetch 0: none", "form"),
    (b"grant", "form"),
    (b"grant act 2 tile 2", "form"),
    (b"grant send 0 0 of 1 label 7", "form"),
    (b"grant range 0 0 at 0 len 1 perm wr", "form"),
    (b"revoke", "form"),
    (b"file create a", "form"),
    (b"\tclose", "form"),
    (b"close\r\r", "form"),
    (b"do 0 fetch \x00", "form"),
    (b"do 0 fetch \x7f", "form"),
    (b"do 0 fetch \x80", "form"),
    (b"# \x00", "form"),
    (b"# \x7f", "form"),
    (b"# \x80", "form"),
    (b"do 0 fetch 16", "number"),
    (b"do 64 fetch 0", "number"),
    (b"do 00 fetch 0", "number"),
    (b"do +0 fetch 0", "number"),
    (b"do 0 fetch zero", "number"),
    (b"do 0 ack 0 4294967296", "number"),
    (b"do 0 read 0 0 65536", "number"),
    (b"take 16 2", "number"),
    (b"switch 3 64", "number"),
    (b"grant recv 0 0 slots 33 size 16", "number"),
    (b"grant recv 0 16 slots 1 size 16", "number"),
    (b"grant send 0 0 of 0 label 7 credits 1", "number"),
    (b"grant send 0 0 of 4097 label 7 credits 1", "number"),
    (b"grant range 0 0 at 0 len 0 perm r", "number"),
    (b"revoke 0", "number"),
    (b"revoke 4097", "number"),
    (b"do 0 send 0 686 reply 16", "number"),
    (b"do 0 send 16 6g", "number"),
    (b"do 0 send 0 686", "hex"),
    (b"do 0 send 0 6g", "hex"),
    (b"do 0 send 0 0x68", "hex"),
    (b"do 0 send 0 --", "hex"),
    (b"do 9 send 0 686", "hex"),
    (b"begin", "place"),
    (b"act 2 tile 2", "place"),
    (b"machine tiles 4 memory 4096", "place"),
    (b"quantum 8", "place"),
    (b"act 0 tile 9", "place"),
    (b"tend 2", "rule"),
    (b"do 2 fetch 0", "rule"),
    (b"take 3 4", "rule"),
    (b"take 4 3", "rule"),
    (b"switch 4 1", "rule"),
    (b"switch 3 2", "rule"),
    (b"turn 0", "rule"),
    (b"grant range 2 0 at 0 len 1 perm r", "rule"),
    (b"grant send 2 0 of 1 label 7 credits 1", "rule"),
];

/// Lines of a setup, each with its cause.
const SETUPS: &[(&[u8], &str)] = &[
    (b"act 1", "form"),
    (b"act 1 tile 2 tile 3", "form"),
    (b"end", "form"),
    (b"range 0 0 at 0 len 1 perm x", "form"),
    (b"prog 0 jump", "form"),
    (b"prog 0 await", "form"),
    (b"files 1", "form"),
    (b"writer 0 mem 0 send 1 reply 2 chunk 1 ring 1 00", "form"),
    (b"reader 0 mem 0 recv 1 chunk 1 ring 1 fuel 1", "form"),
    (b"box 0 0 fuel 1", "form"),
    (b"act 64 tile 2", "number"),
    (b"act 1 tile 16", "number"),
    (b"recv 0 16 slots 2 size 16", "number"),
    (b"recv 0 0 slots 0 size 16", "number"),
    (b"recv 0 0 slots 33 size 16", "number"),
    (b"recv 0 0 slots 2 size 513", "number"),
    (
        b"send 0 0 of 1 label 18446744073709551616 credits 2",
        "number",
    ),
    (b"send 0 0 of 1 label 7 credits 33", "number"),
    (b"range 0 0 at 0 len 0 perm rw", "number"),
    (b"range 0 0 at 4294967296 len 1 perm rw", "number"),
    (b"quantum 0", "number"),
    (b"quantum 65", "number"),
    (b"prog 0 send 0 686", "hex"),
    (b"do 0 fetch 0", "place"),
    (b"close", "place"),
    (b"revoke 1", "place"),
    (b"machine tiles 4 memory 4096", "place"),
    (b"act 0 tile 3", "rule"),
    (b"act 1 tile 1", "rule"),
    (b"act 1 tile 4", "rule"),
    (b"recv 1 0 slots 2 size 16", "rule"),
    (b"send 0 0 of 1 label 7 credits 2", "rule"),
    (b"range 0 0 at 4000 len 97 perm rw", "rule"),
    (b"part 0 0 of 1 at 0 len 1 perm r", "rule"),
    (b"prog 1 fetch 0", "rule"),
];

/// Whole scripts, each with the number of its bad line, and the cause.
const SCRIPTS: &[(&[u8], u32, &str)] = &[
    (b"", 1, "place"),
    (b"\n\n", 3, "place"),
    (b"begin\n", 1, "place"),
    (b"act 0 tile 2\n", 1, "place"),
    (b"close\n", 1, "place"),
    (b"m3x journal 1\n", 1, "form"),
    (b"machine tiles 2 memory 1\n", 1, "number"),
    (b"machine tiles 17 memory 1\n", 1, "number"),
    (b"machine tiles 3 memory 0\n", 1, "number"),
    (b"machine tiles 3 memory 1048577\n", 1, "number"),
    (b"machine tiles 3 memory 1", 2, "place"),
    (b"machine tiles 3 memory 1\n", 2, "place"),
    (b"machine tiles 3 memory 1\n# no more\n\n", 4, "place"),
    (
        b"# first\n\nmachine tiles 3 memory 1\nact 0 tile 16\n",
        4,
        "number",
    ),
    (
        b"machine tiles 3 memory 1\nquantum 8\nquantum 8\nbegin\n",
        3,
        "rule",
    ),
    (
        b"machine tiles 3 memory 1\nact 0 tile 9\nact 0 jump\n",
        2,
        "rule",
    ),
    (
        b"machine tiles 3 memory 1\nact 0 tile 2\nbegin\ndo 0 jump\ndo 1 fetch 0\n",
        4,
        "form",
    ),
    (
        b"machine tiles 4 memory 4096\nact 0 tile 9\nact 1 tile 3\nrecv 1 0 slots 2 size 16\nsend 0 0 of 1 label 7 credits 2\nbegin\n",
        2,
        "rule",
    ),
];

/// Lines after `begin` where only orders may stand, each with its cause.
const NO_ORDERS: &[(&[u8], &str)] = &[
    (b"do 0 jump", "form"),
    (b"take 3 16", "number"),
    (b"turn 0", "place"),
    (b"take 2 2", "place"),
    (b"tend 0", "place"),
    (b"close", "place"),
    (b"do 0 fetch 0", "place"),
    (b"do 9 fetch 0", "place"),
    (b"prog 0 fetch 0", "place"),
    (b"switch 4 1", "rule"),
];

fn expect_bad(
    rt: &impl Abort,
    alloc: Global,
    word: &str,
    script: Vec<u8>,
    line: u32,
    why: &str,
) -> Result<(), AllocError> {
    let written = format!(in alloc; "bad line {line}: {why}\n")?;
    expect_written(rt, alloc, &[word], script, 2, written.as_bytes())
}

// A script of these lines, and one more.
fn script_with(alloc: Global, lines: &[u8], line: &[u8]) -> Result<Vec<u8>, AllocError> {
    let mut script = Vec::from_slice(alloc, lines)?;
    script.extend_from_slice(line)?;
    script.push(b'\n')?;
    Ok(script)
}

#[test]
fn lines_are_refused_by_their_first_cause(rt: HostRuntime) -> Result<(), AllocError> {
    let alloc = rt.alloc();
    for (line, why) in EVENTS {
        expect_bad(&rt, alloc, "run", script_with(alloc, PAIR, line)?, 7, why)?;
    }
    for (line, why) in SETUPS {
        expect_bad(&rt, alloc, "run", script_with(alloc, ONE, line)?, 3, why)?;
    }
    for (line, why) in NO_ORDERS {
        expect_bad(&rt, alloc, "auto", script_with(alloc, PAIR, line)?, 7, why)?;
    }
    Ok(())
}

#[test]
fn scripts_are_refused_at_their_first_bad_line(rt: HostRuntime) -> Result<(), AllocError> {
    let alloc = rt.alloc();
    for (script, line, why) in SCRIPTS {
        let script = Vec::from_slice(alloc, script)?;
        expect_bad(&rt, alloc, "run", script, *line, why)?;
    }
    Ok(())
}

/// Of HEX 8,192 bytes are read, and of orders 4,096 where nothing else may stand; one more is too many.
#[test]
fn a_byte_or_an_order_too_many(rt: HostRuntime) -> Result<(), AllocError> {
    let alloc = rt.alloc();
    for (bytes, status) in [(8192, 0), (8193, 2)] {
        let mut script = Vec::from_slice(alloc, PAIR)?;
        script.extend_from_slice(b"do 0 send 0 ")?;
        script.resize(PAIR.len() + 12 + 2 * bytes, b'0')?;
        assert_eq!(rt; run_of(alloc, &["run"], script)?.0, status);
    }
    for (word, orders, status) in [("auto", 4096, 0), ("auto", 4097, 2), ("run", 4097, 0)] {
        let mut script = Vec::from_slice(alloc, b"machine tiles 3 memory 64\nbegin\n")?;
        for _ in 0..orders {
            script.extend_from_slice(b"revoke 1\n")?;
        }
        if status == 2 {
            expect_bad(&rt, alloc, word, script, 4099, "place")?;
        } else {
            assert_eq!(rt; run_of(alloc, &[word], script)?.0, status);
        }
    }
    Ok(())
}

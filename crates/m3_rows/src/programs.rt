//! Programs: turns under `run`, the driver under `auto`, and the load.

use crate::runs::{expect_journal, expect_written, words_of};
use m3_base::memory_streams::{BytesSource, InfallibleSink};
use m3_cmd::run_words;
use std::alloc::AllocError;

/// Two programs share a tile, and a stay there has one move.
const QUANTUM: &[u8] =
    b"machine tiles 3 memory 64\nact 0 tile 2\nact 1 tile 2\nquantum 1\nrecv 0 0 slots 1 size 4\nprog 0 fetch 0\nprog 0 await 0\nprog 1 fetch 0\n";

/// Two programs share a tile; the first sends to the second.
const PAIR: &[u8] =
    b"machine tiles 3 memory 64\nact 0 tile 2\nact 1 tile 2\nrecv 1 0 slots 1 size 4\nsend 0 0 of 1 label 5 credits 1\nprog 0 send 0 2a\nprog 1 await 0\nprog 1 fetch 0\n";

/// The quantum is spent, the await is pending, and the tile wants a switch.
#[test]
fn a_program_yields_after_its_quantum(rt: HostRuntime) -> Result<(), AllocError> {
    let mut input = Vec::from_slice(rt.alloc(), QUANTUM)?;
    input.extend_from_slice(b"begin\nturn 1\nturn 0\nturn 0\ntake 0 2\nturn 0\nturn 0\n")?;
    let mut written = Vec::from_slice(rt.alloc(), b"m3x journal 1\n")?;
    written.extend_from_slice(QUANTUM)?;
    written.extend_from_slice(
        b"begin\nturn 1: idle not-current\nturn 0 fetch 0: none\nturn 0 quantum: yield\ntake 0 2: yielded 0\nturn 0 await 0: asleep\nturn 0: idle waiting\nend\naudit tile 2 act 0\naudit flights 0\naudit quiet no\n",
    )?;
    expect_journal(&rt, rt.alloc(), "run", input, written, 6)
}

/// The driver brings the message over by way of the kernel, and ends quiet.
#[test]
fn the_driver_runs_two_programs_on_one_tile(rt: HostRuntime) -> Result<(), AllocError> {
    let mut input = Vec::from_slice(rt.alloc(), PAIR)?;
    input.extend_from_slice(b"begin\n")?;
    let mut written = Vec::from_slice(rt.alloc(), b"m3x journal 1\n")?;
    written.extend_from_slice(PAIR)?;
    written.extend_from_slice(
        b"begin\nturn 0 send 0 2a: flying 0.1\ntake 2 2: bounced 0.1\ntake 0 2: held 0.1 1\ntend 1: landed 0.1\ntake 2 0: answered 0.1 sent\nturn 0 end: ended\ntake 0 2: yielded 0\nswitch 2 1: save 0\ntake 2 0: saving 0\ntake 0 2: saved 0 restore 1\ntake 2 0: current 1\nturn 1 await 0: awake\nturn 1 fetch 0: message 0 from 0 label 5 2a\nturn 1 end: ended\ntake 0 2: yielded 1\nend\naudit credit 2 held 0 flying 0 queued 1 limit 1\naudit tile 2 act 1\naudit flights 0\naudit quiet yes\n",
    )?;
    expect_journal(&rt, rt.alloc(), "auto", input, written, 15)
}

/// An order comes before a switch of the kernel's own, and its outcome is an entry.
#[test]
fn the_driver_carries_out_the_script_s_orders(rt: HostRuntime) -> Result<(), AllocError> {
    let setup = b"machine tiles 3 memory 64\nact 0 tile 2\nrecv 0 0 slots 1 size 4\n".as_slice();
    let mut input = Vec::from_slice(rt.alloc(), setup)?;
    input.extend_from_slice(b"begin\nrevoke 2\n")?;
    let mut written = Vec::from_slice(rt.alloc(), b"m3x journal 1\n")?;
    written.extend_from_slice(setup)?;
    written.extend_from_slice(
        b"begin\nrevoke 2: refused no-grant\nend\naudit tile 2 act 0\naudit flights 0\naudit quiet yes\n",
    )?;
    expect_journal(&rt, rt.alloc(), "auto", input, written, 1)
}

/// Each round's four messages and four replies are fetched, and all credits come back. The source isn't read.
#[test]
fn a_load_ends_quiet_with_all_messages_fetched(rt: HostRuntime) -> Result<(), AllocError> {
    let words = words_of(rt.alloc(), &["load", "1"])?;
    let mut source = BytesSource::new(Vec::new(rt.alloc()), 1000, Vec::new(rt.alloc()));
    let mut sink = InfallibleSink::new(rt.alloc(), 16384, 7)?;
    let status = run_words(rt.alloc(), words.as_slice(), &mut source, &mut sink);
    assert_eq!(rt; status, 0);
    let written = sink.bytes().unwrap_or(b"");
    assert!(rt;
        written.starts_with(b"load 1\nentries "),
        "the load and its entries come first"
    );
    assert!(rt;
        has_part(written, b"\nfetched 8\n"),
        "all messages are fetched"
    );
    assert!(rt; has_part(written, CREDITS), "all credits are held");
    assert!(rt;
        written.ends_with(b"audit flights 0\naudit quiet yes\n"),
        "it ends quiet"
    );
    Ok(())
}

/// The credits at the end of a load.
const CREDITS: &[u8] =
    b"audit credit 9 held 2 flying 0 queued 0 limit 2\naudit credit 10 held 2 flying 0 queued 0 limit 2\naudit credit 11 held 2 flying 0 queued 0 limit 2\naudit credit 12 held 2 flying 0 queued 0 limit 2\n";

fn has_part(text: &[u8], part: &[u8]) -> bool {
    for at in 0..text.len() {
        if text[at..].starts_with(part) {
            return true;
        }
    }
    false
}

/// The summary of two rounds, whole.
#[test]
fn the_summary_of_two_rounds(rt: HostRuntime) -> Result<(), AllocError> {
    let mut written = Vec::from_slice(
        rt.alloc(),
        b"load 2\nentries 176\nfetched 16\nbounced 7\nswitches 10\n",
    )?;
    written.extend_from_slice(CREDITS)?;
    written.extend_from_slice(
        b"audit tile 2 act 4\naudit tile 3 act 1\naudit tile 4 act 2\naudit tile 5 act 7\naudit flights 0\naudit quiet yes\n",
    )?;
    let unread = Vec::from_slice(rt.alloc(), b"what isn't read")?;
    expect_written(
        &rt,
        rt.alloc(),
        &["load", "2"],
        unread,
        0,
        written.as_slice(),
    )
}

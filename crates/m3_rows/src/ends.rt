//! What is written, and the status, for input that is too long, and where an end fails.

use crate::runs::{expect_written, words_of};
use m3_base::memory_streams::{BytesSink, BytesSource, InfallibleSink};
use m3_cmd::run_words;
use std::alloc::AllocError;

/// A message from activity 0 to activity 1.
const SCRIPT: &[u8] =
    b"machine tiles 4 memory 4096\nact 0 tile 2\nact 1 tile 3\nrecv 1 0 slots 2 size 16\nsend 0 0 of 1 label 7 credits 2\nbegin\ndo 0 send 0 6869\ntake 3 2\ntake 2 3\ndo 1 fetch 0\n";

/// The limit itself isn't too long: a line of letters is no line. A journal may be longer than a script.
#[test]
fn too_long(rt: HostRuntime) -> Result<(), AllocError> {
    let alloc = rt.alloc();
    for (word, count, status, written) in [
        ("run", 1_048_576, 2, b"bad line 1: form\n".as_slice()),
        ("run", 1_048_577, 8, b"too long\n".as_slice()),
        ("auto", 1_048_577, 8, b"too long\n"),
        ("check", 1_048_577, 2, b"bad line 1: form\n"),
    ] {
        let mut input = Vec::new(alloc);
        input.resize(count, b'a')?;
        expect_written(&rt, alloc, &[word], input, status, written)?;
    }
    Ok(())
}

#[test]
fn read_fault(rt: HostRuntime) -> Result<(), AllocError> {
    let alloc = rt.alloc();
    let words = words_of(alloc, &["run"])?;
    for call in [1, 2] {
        let input = Vec::from_slice(alloc, SCRIPT)?;
        let mut source = BytesSource::new(input, 20, Vec::from_slice(alloc, &[call])?);
        let mut sink = InfallibleSink::new(alloc, 4096, 7)?;
        let status = run_words(alloc, words.as_slice(), &mut source, &mut sink);
        assert_eq!(rt; status, 3);
        assert_eq!(rt; sink.bytes(), Some(b"read fault\n".as_slice()));
    }
    Ok(())
}

#[test]
fn write_fault(rt: HostRuntime) -> Result<(), AllocError> {
    let alloc = rt.alloc();
    for (word, room, most, fails, prefix) in [
        ("run", 0, 3, [].as_slice(), b"".as_slice()),
        ("run", 20, 3, &[], b"m3x journal 1\nmachin"),
        ("walk", 5, 3, &[], b"usage"),
        // whole calls of 16 bytes, and the second fails
        ("run", 4096, 16, &[2], b"m3x journal 1\nma"),
        ("run", 4096, 16, &[1], b""),
    ] {
        let words = words_of(alloc, &[word])?;
        let input = Vec::from_slice(alloc, SCRIPT)?;
        let mut source = BytesSource::new(input, 1000, Vec::new(alloc));
        let mut sink = BytesSink::new(alloc, room, most, Vec::from_slice(alloc, fails)?)?;
        let status = run_words(alloc, words.as_slice(), &mut source, &mut sink);
        assert_eq!(rt; status, 4);
        assert_eq!(rt; sink.bytes(), prefix);
    }
    Ok(())
}

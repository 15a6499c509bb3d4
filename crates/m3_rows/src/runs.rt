//! A run of the program: what it writes, by the setup, the events with their outcomes, and the closing lines.

use m3_base::memory_streams::{BytesSource, InfallibleSink};
use m3_cmd::run_words;
use std::alloc::{AllocError, Global};
use std::process::Abort;

/// The words of a command line.
pub fn words_of(alloc: Global, words: &[&str]) -> Result<Vec<String>, AllocError> {
    let mut all = Vec::new(alloc);
    for word in words {
        all.push(String::from_str(alloc, word)?)?;
    }
    Ok(all)
}

/// Runs the words on this input, and asserts the status and all that is written.
pub fn expect_written(
    rt: &impl Abort,
    alloc: Global,
    words: &[&str],
    input: Vec<u8>,
    status: u8,
    written: &[u8],
) -> Result<(), AllocError> {
    let words = words_of(alloc, words)?;
    let mut source = BytesSource::new(input, 1000, Vec::new(alloc));
    let mut sink = InfallibleSink::new(alloc, 16384, 7)?;
    let answer = run_words(alloc, words.as_slice(), &mut source, &mut sink);
    assert_eq!(rt; answer, status);
    assert_eq!(rt; sink.bytes(), Some(written));
    Ok(())
}

/// What the words write on this input, and the status.
pub fn run_of(alloc: Global, words: &[&str], input: Vec<u8>) -> Result<(u8, Vec<u8>), AllocError> {
    let words = words_of(alloc, words)?;
    let mut source = BytesSource::new(input, 1000, Vec::new(alloc));
    let mut sink = InfallibleSink::new(alloc, 16384, 7)?;
    let status = run_words(alloc, words.as_slice(), &mut source, &mut sink);
    let written = Vec::from_slice(alloc, sink.bytes().unwrap_or(b""))?;
    Ok((status, written))
}

/// Asserts that the check of this journal, which is text or JSON, finds it legal, with so many entries.
pub fn expect_legal(
    rt: &impl Abort,
    alloc: Global,
    journal: Vec<u8>,
    entries: usize,
) -> Result<(), AllocError> {
    let line = format!(in alloc; "legal {entries}\n")?;
    expect_written(rt, alloc, &["check"], journal, 0, line.as_bytes())
}

/// Runs the words on this input, as text and as JSON, and asserts that what is written is this text, of a journal with
/// so many entries, and that both are legal.
pub fn expect_journal(
    rt: &impl Abort,
    alloc: Global,
    word: &str,
    input: Vec<u8>,
    written: Vec<u8>,
    entries: usize,
) -> Result<(), AllocError> {
    let (status, json) = run_of(alloc, &[word, "--json"], input.clone()?)?;
    assert_eq!(rt; status, 0);
    expect_legal(rt, alloc, json, entries)?;
    expect_written(rt, alloc, &[word], input, 0, written.as_slice())?;
    expect_legal(rt, alloc, written, entries)
}

/// Runs a script of these setup lines and events, and asserts that each event has its outcome, and the closing lines;
/// and that the journal is legal.
pub fn expect_run(
    rt: &impl Abort,
    alloc: Global,
    setup: &[u8],
    told: &[(&[u8], &[u8])],
    audit: &[u8],
) -> Result<(), AllocError> {
    let mut input = Vec::from_slice(alloc, setup)?;
    let mut written = Vec::from_slice(alloc, b"m3x journal 1\n")?;
    written.extend_from_slice(setup)?;
    input.extend_from_slice(b"begin\n")?;
    written.extend_from_slice(b"begin\n")?;
    for (event, outcome) in told {
        input.extend_from_slice(event)?;
        input.push(b'\n')?;
        written.extend_from_slice(event)?;
        written.extend_from_slice(b": ")?;
        written.extend_from_slice(outcome)?;
        written.push(b'\n')?;
    }
    written.extend_from_slice(b"end\n")?;
    written.extend_from_slice(audit)?;
    expect_journal(rt, alloc, "run", input, written, told.len())
}

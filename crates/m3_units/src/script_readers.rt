//! Lines by their words, as journals read them, and lines that miss their form by a number or a word.

use m3_base::event::{Event, Made};
use m3_base::order::FileLine;
use m3_base::setup_line::SetupLine;
use m3_script::{Why, read_entry_event, read_event, read_machine, read_setup_line};
use m3_text::flights::read_flight;
use m3_text::hexes::HexCase;
use m3_text::lines::cut_words;
use m3_text::refusal::LineRefusal;
use std::alloc::{AllocError, Global};
use std::process::Abort;

fn words_of<'a>(alloc: Global, line: &'a str) -> Result<Vec<&'a [u8]>, AllocError> {
    let mut words = Vec::new(alloc);
    cut_words(line.as_bytes(), 16, &mut words)?;
    Ok(words)
}

/// Asserts that the line was read, or refused for this cause.
fn expect<T: Drop>(rt: &impl Abort, line: &str, read: Result<T, LineRefusal>, cause: Option<Why>) {
    let seen = match read {
        Ok(_) => None,
        Err(LineRefusal::Bad(why)) => Some(why),
        Err(LineRefusal::NoMemory) => Some(Why::Place),
    };
    assert!(rt; seen == cause, "{line}");
}

#[test]
fn setup_lines_are_read_and_refused(rt: HostRuntime) -> Result<(), AllocError> {
    for (line, cause) in [
        ("act 63 tile 15", None),
        ("act 64 tile 15", Some(Why::Number)),
        ("act 0 tile 16", Some(Why::Number)),
        ("act 0 tile", Some(Why::Form)),
        ("quantum 1", None),
        ("quantum 64", None),
        ("quantum 0", Some(Why::Number)),
        ("quantum 65", Some(Why::Number)),
        ("quantum", Some(Why::Form)),
        ("quantum 8 8", Some(Why::Form)),
        ("files 4096", None),
        ("files 0", Some(Why::Number)),
        ("files 4097", Some(Why::Number)),
        ("files", Some(Why::Form)),
        ("prog 63 send 15 00ff reply 15", None),
        ("prog 0 await 15", None),
        ("prog 0 await 16", Some(Why::Number)),
        ("prog 64 await 0", Some(Why::Number)),
        ("prog 0 await", Some(Why::Form)),
        ("prog 64 await 0 0", Some(Why::Form)),
        ("prog 64 jump", Some(Why::Form)),
        ("prog 64 send 0 zz", Some(Why::Number)),
        ("prog 0 send 0 zz", Some(Why::Hex)),
        ("prog 0 send 0 aA", Some(Why::Hex)),
        ("prog 0 quantum", Some(Why::Form)),
        ("prog 0", Some(Why::Form)),
        ("prog", Some(Why::Form)),
        (
            "writer 63 mem 15 send 15 reply 15 chunk 4096 ring 32 -",
            None,
        ),
        (
            "writer 0 mem 0 send 1 reply 2 chunk 0 ring 4 00",
            Some(Why::Number),
        ),
        (
            "writer 0 mem 0 send 1 reply 2 chunk 4097 ring 4 00",
            Some(Why::Number),
        ),
        (
            "writer 0 mem 0 send 1 reply 2 chunk 16 ring 33 0",
            Some(Why::Number),
        ),
        (
            "writer 0 mem 0 send 1 reply 2 chunk 16 ring 4 0",
            Some(Why::Hex),
        ),
        (
            "writer 0 mem 0 send 1 reply 2 chunk 16 ring 4 0F",
            Some(Why::Hex),
        ),
        (
            "writer 0 mem 0 send 1 reply 2 chunk 16 ring 4",
            Some(Why::Form),
        ),
        (
            "writer 0 mem 0 recv 1 reply 2 chunk 16 ring 4 00",
            Some(Why::Form),
        ),
        (
            "reader 63 mem 15 recv 15 chunk 4096 ring 32 fuel 16384",
            None,
        ),
        (
            "reader 1 mem 0 recv 1 chunk 16 ring 4 fuel 0",
            Some(Why::Number),
        ),
        (
            "reader 1 mem 0 recv 1 chunk 16 ring 4 fuel 16385",
            Some(Why::Number),
        ),
        ("reader 1 mem 0 recv 1 chunk 16 ring 4", Some(Why::Form)),
        ("box 63 4294967295 fuel 16384", None),
        ("box 0 4294967296 fuel 1", Some(Why::Number)),
        ("box 0 0 fuel 0", Some(Why::Number)),
        ("box 0 0 fuel", Some(Why::Form)),
        ("part 0 2 of 1 at 0 len 1 perm rw", None),
        ("part 64 2 of 1 at 0 len 1 perm x", Some(Why::Form)),
        ("machine tiles 3 memory 1", Some(Why::Form)),
        ("begin", Some(Why::Form)),
        ("# act 0 tile 2", Some(Why::Form)),
        ("", Some(Why::Form)),
    ] {
        let words = words_of(rt.alloc(), line)?;
        let read = read_setup_line(rt.alloc(), HexCase::Lower, words.as_slice());
        expect(&rt, line, read, cause);
    }
    Ok(())
}

#[test]
fn events_of_entries_are_read_and_refused(rt: HostRuntime) -> Result<(), AllocError> {
    for (line, cause) in [
        ("do 63 reply 15 4294967295 00", None),
        ("do 63 reply 15 4294967295 0A", Some(Why::Hex)),
        ("do", Some(Why::Form)),
        ("take 15 15", None),
        ("take 16 0", Some(Why::Number)),
        ("take 0 16", Some(Why::Number)),
        ("take 0", Some(Why::Form)),
        ("tend 63", None),
        ("turn 63", None),
        ("turn 64", Some(Why::Number)),
        ("turn", Some(Why::Form)),
        ("turn 0 await 15", None),
        ("turn 0 await 16", Some(Why::Number)),
        ("turn 64 await", Some(Why::Form)),
        ("turn 0 await 0 0", Some(Why::Form)),
        ("turn 0 quantum", None),
        ("turn 0 quantum 1", Some(Why::Form)),
        ("turn 0 end", None),
        ("turn 64 end 0", Some(Why::Form)),
        ("turn 0 ack 15 4294967295", None),
        ("turn 64 jump", Some(Why::Form)),
        ("turn 0 send 0 AA", Some(Why::Hex)),
        ("close", None),
        ("close 1", Some(Why::Form)),
        ("switch 15 63", None),
        ("revoke 4096", None),
        ("revoke 4097", Some(Why::Number)),
        ("revoke 0", Some(Why::Number)),
        ("revoke", Some(Why::Form)),
        ("grant recv 63 15 slots 32 size 512", None),
        ("grant recv 63 15 slots 33 size 512", Some(Why::Number)),
        ("grant range 64 0 at 0 len 1 perm x", Some(Why::Form)),
        ("grant act 0 tile 2", Some(Why::Form)),
        ("grant", Some(Why::Form)),
        ("file create A:", None),
        ("file create", Some(Why::Form)),
        ("file create a b", Some(Why::Form)),
        ("file extend a 4294967295", None),
        ("file extend a 4294967296", Some(Why::Number)),
        ("file extend a 0", Some(Why::Number)),
        ("file remove a", None),
        ("file open a 4294967295 63 15 rw", None),
        ("file open a 0 64 0 rw", Some(Why::Number)),
        ("file open a 0 64 0 x", Some(Why::Form)),
        ("file open a 0 0 0", Some(Why::Form)),
        ("file close 4096", None),
        ("file close 0", Some(Why::Number)),
        ("file rename a b", Some(Why::Form)),
        ("file", Some(Why::Form)),
        ("", Some(Why::Form)),
    ] {
        let words = words_of(rt.alloc(), line)?;
        let read = read_entry_event(rt.alloc(), HexCase::Lower, words.as_slice());
        expect(&rt, line, read, cause);
    }
    Ok(())
}

#[test]
fn a_turn_of_a_script_has_no_move(rt: HostRuntime) -> Result<(), AllocError> {
    for (line, cause) in [
        ("turn 63", None),
        ("turn 64", Some(Why::Number)),
        ("turn 0 end", Some(Why::Form)),
        ("do 0 send 0 aA", None),
    ] {
        let words = words_of(rt.alloc(), line)?;
        let read = read_event(rt.alloc(), HexCase::Either, words.as_slice());
        expect(&rt, line, read, cause);
    }
    Ok(())
}

#[test]
fn the_numbers_of_a_setup_line_stand_where_they_are_named(
    rt: HostRuntime,
) -> Result<(), LineRefusal> {
    let words = words_of(rt.alloc(), "tiles 16 memory 1048576")?;
    let (tiles, memory) = read_machine(words.as_slice())?;
    assert_eq!(rt; tiles, 16);
    assert_eq!(rt; memory, 1048576);
    let words = words_of(
        rt.alloc(),
        "writer 1 mem 2 send 3 reply 4 chunk 5 ring 6 070809",
    )?;
    let line = read_setup_line(rt.alloc(), HexCase::Lower, words.as_slice())?;
    match &line {
        SetupLine::Writer {
            act,
            mem,
            send,
            reply,
            chunk,
            ring,
            bytes,
        } => {
            assert_eq!(rt; (act.number(), mem.number()), (1, 2));
            assert_eq!(rt; (send.number(), reply.number()), (3, 4));
            assert_eq!(rt; (*chunk, *ring, bytes.len()), (5, 6, 3));
        }
        _ => assert!(rt; false, "the line is a writer"),
    }
    Ok(())
}

#[test]
fn the_numbers_of_an_event_stand_where_they_are_named(rt: HostRuntime) -> Result<(), LineRefusal> {
    let words = words_of(rt.alloc(), "turn 7 await 8")?;
    let (event, made) = read_entry_event(rt.alloc(), HexCase::Lower, words.as_slice())?;
    assert_eq!(rt; actor(&event), 7);
    assert_eq!(rt; awaited(&made), 8);
    let words = words_of(rt.alloc(), "file open log 9 10 11 w")?;
    let event = read_event(rt.alloc(), HexCase::Lower, words.as_slice())?;
    assert_eq!(rt; opened(&event), (9, 10, 11));
    Ok(())
}

fn actor(event: &Event) -> u8 {
    match event {
        Event::Turn(act) => act.number(),
        _ => 255,
    }
}

fn awaited(made: &Option<Made>) -> u8 {
    match made {
        Some(Made::Await(ep)) => ep.number(),
        _ => 255,
    }
}

fn opened(event: &Event) -> (u32, u8, u8) {
    match event {
        Event::File(FileLine::Open { off, act, ep, .. }) => (*off, act.number(), ep.number()),
        _ => (0, 255, 255),
    }
}

#[test]
fn names_of_flights_are_read_and_refused(rt: HostRuntime) {
    for (word, wanted) in [
        ("0.1", Some((0, 1))),
        ("63.4294967295", Some((63, 4294967295))),
        ("k.17", Some((64, 17))),
    ] {
        let seen = read_flight(word.as_bytes()).ok();
        assert!(rt; seen.map(|id| (id.issuer, id.number)) == wanted, "{word}");
    }
    for (word, cause) in [
        ("", Why::Form),
        ("7", Why::Form),
        ("k", Why::Form),
        (".", Why::Number),
        ("0.", Why::Number),
        (".1", Why::Number),
        ("64.1", Why::Number),
        ("K.1", Why::Number),
        ("00.1", Why::Number),
        ("0.0", Why::Number),
        ("0.01", Why::Number),
        ("0.4294967296", Why::Number),
        ("0.1.2", Why::Number),
    ] {
        expect(&rt, word, read_flight(word.as_bytes()), Some(cause));
    }
}

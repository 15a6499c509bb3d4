//! Each form of a line, and lines that miss it by a number or a word.

use m3_base::command::Command;
use m3_base::event::Event;
use m3_base::ids::{ActId, EpId, GrantId};
use m3_base::order::{GrantLine, Order};
use m3_base::packet::Perm;
use m3_base::payload::Payload;
use m3_base::setup_line::SetupLine;
use m3_script::{Mode, ScriptRefusal, Why, parse};
use std::alloc::{AllocError, Global};
use std::process::Abort;

// A range of 32 bytes is the first grant; the line to try is the fourth.
pub const RANGED: &[u8] =
    b"machine tiles 4 memory 4096\nact 0 tile 2\nrange 0 1 at 64 len 32 perm r\n";

// The line to try is the fifth.
const BEGUN: &[u8] =
    b"machine tiles 4 memory 4096\nact 0 tile 2\nrange 0 1 at 64 len 32 perm r\nbegin\n";

// Two activities live on one tile; the line to try is the sixth.
const SHARED: &[u8] =
    b"machine tiles 4 memory 4096\nact 0 tile 2\nact 1 tile 2\nact 63 tile 3\nbegin\n";

pub fn joined(
    alloc: Global,
    front: &[u8],
    line: &[u8],
    back: &[u8],
) -> Result<Vec<u8>, AllocError> {
    let mut text = Vec::from_slice(alloc, front)?;
    text.extend_from_slice(line)?;
    text.extend_from_slice(back)?;
    Ok(text)
}

/// Asserts that the script is read, or refused at this line for this cause.
pub fn expect(rt: &impl Abort, alloc: Global, text: &[u8], line: u32, cause: Option<Why>) {
    expect_in(rt, alloc, Mode::Run, text, line, cause);
}

pub fn expect_in(
    rt: &impl Abort,
    alloc: Global,
    mode: Mode,
    text: &[u8],
    line: u32,
    cause: Option<Why>,
) {
    assert!(rt; text.len() <= 1_048_576, "the script is short");
    match (parse(alloc, text, mode, 0), cause) {
        (Ok(_), None) => {}
        (Err(ScriptRefusal::Bad { line: at, why }), Some(cause)) => {
            assert_eq!(rt; at, line);
            assert_eq!(rt; why, cause);
        }
        (Ok(_), _) => assert!(rt; false, "the line is read"),
        (Err(ScriptRefusal::NoMemory), _) => assert!(rt; false, "memory is ample"),
        (Err(ScriptRefusal::Bad { why, .. }), None) => assert!(rt; false, "the line is bad: {why}"),
    }
}

#[test]
fn lines_of_memory_are_read_and_refused(rt: HostRuntime) -> Result<(), AllocError> {
    for (line, cause) in [
        ("range 0 2 at 0 len 4096 perm rw", None),
        ("range 0 15 at 4095 len 1 perm w", None),
        ("range 64 2 at 0 len 16 perm r", Some(Why::Number)),
        ("range 0 16 at 0 len 16 perm r", Some(Why::Number)),
        ("range 0 2 at 4294967295 len 1 perm r", Some(Why::Rule)),
        ("range 0 2 at 4294967296 len 1 perm r", Some(Why::Number)),
        ("range 0 2 at 0 len 4097 perm r", Some(Why::Rule)),
        ("range 0 2 at 0 len 4294967295 perm r", Some(Why::Rule)),
        ("range 0 2 at 0 len 4294967296 perm r", Some(Why::Number)),
        ("range 0 2 at 0 len 0 perm r", Some(Why::Number)),
        ("range 0 2 at 0 len 16 perm wr", Some(Why::Form)),
        ("range 0 2 at 0 len 16 perm R", Some(Why::Form)),
        ("range 64 2 at 0 len 16 perm x", Some(Why::Form)),
        ("range 0 2 at 0 len 16 perm", Some(Why::Form)),
        ("range 0 2 at 0 len 16 perm r w", Some(Why::Form)),
        ("range 0 2 at 0 size 16 perm r", Some(Why::Form)),
        ("range 0 1 at 0 len 16 perm r", Some(Why::Rule)),
        ("range 1 2 at 0 len 16 perm r", Some(Why::Rule)),
        ("part 0 2 of 1 at 0 len 32 perm r", None),
        ("part 0 2 of 1 at 31 len 1 perm r", None),
        ("part 64 2 of 1 at 0 len 1 perm r", Some(Why::Number)),
        ("part 0 16 of 1 at 0 len 1 perm r", Some(Why::Number)),
        ("part 0 2 of 0 at 0 len 1 perm r", Some(Why::Number)),
        ("part 0 2 of 4096 at 0 len 1 perm r", Some(Why::Rule)),
        ("part 0 2 of 4097 at 0 len 1 perm r", Some(Why::Number)),
        (
            "part 0 2 of 1 at 4294967295 len 4294967295 perm r",
            Some(Why::Rule),
        ),
        (
            "part 0 2 of 1 at 4294967296 len 1 perm r",
            Some(Why::Number),
        ),
        ("part 0 2 of 1 at 1 len 32 perm r", Some(Why::Rule)),
        (
            "part 0 2 of 1 at 0 len 4294967296 perm r",
            Some(Why::Number),
        ),
        ("part 0 2 of 1 at 0 len 0 perm r", Some(Why::Number)),
        ("part 0 2 of 1 at 0 len 1 perm rw", Some(Why::Rule)),
        ("part 0 2 of 1 at 0 len 1 perm -", Some(Why::Form)),
        ("part 0 2 of 4097 at 0 len 1 perm -", Some(Why::Form)),
        ("part 0 2 at 0 len 1 perm r", Some(Why::Form)),
        ("part 0 2 of 1 at 0 len 1 perm r r", Some(Why::Form)),
        ("do 0 fetch 0", Some(Why::Place)),
        ("files 1", Some(Why::Form)),
        (
            "writer 0 mem 0 send 1 reply 2 chunk 16 ring 4 00",
            Some(Why::Form),
        ),
        (
            "reader 0 mem 0 recv 1 chunk 16 ring 4 fuel 8",
            Some(Why::Form),
        ),
        ("box 0 0 fuel 8", Some(Why::Form)),
    ] {
        let text = joined(rt.alloc(), RANGED, line.as_bytes(), b"\nbegin")?;
        expect(&rt, rt.alloc(), text.as_slice(), 4, cause);
    }
    Ok(())
}

#[test]
fn commands_are_read_and_refused(rt: HostRuntime) -> Result<(), AllocError> {
    for (line, cause) in [
        ("do 0 send 15 -", None),
        ("do 0 send 15 00 reply 15", None),
        ("do 0 send 16 00 reply 0", Some(Why::Number)),
        ("do 0 send 0 00 reply 16", Some(Why::Number)),
        ("do 0 send 0 0 reply 16", Some(Why::Number)),
        ("do 0 send 0 0 reply 1", Some(Why::Hex)),
        ("do 0 send 0 00 reply", Some(Why::Form)),
        ("do 0 send 0 reply 1", Some(Why::Form)),
        ("do 0 send 0 00 reply 1 2", Some(Why::Form)),
        ("do 0 send 0 00 wait 1", Some(Why::Form)),
        ("do 0 reply 15 4294967295 fF", None),
        ("do 0 reply 16 0 ff", Some(Why::Number)),
        ("do 0 reply 0 4294967296 ff", Some(Why::Number)),
        ("do 0 reply 0 00 f", Some(Why::Number)),
        ("do 0 reply 0 0 f", Some(Why::Hex)),
        ("do 0 reply 0 0", Some(Why::Form)),
        ("do 0 reply 0 0 ff ff", Some(Why::Form)),
        ("do 0 ack 15 4294967295", None),
        ("do 0 ack 16 0", Some(Why::Number)),
        ("do 0 ack 0 4294967296", Some(Why::Number)),
        ("do 0 ack 0", Some(Why::Form)),
        ("do 0 ack 0 0 0", Some(Why::Form)),
        ("do 0 acknowledge 0 0", Some(Why::Form)),
        ("do 0 read 15 4294967295 65535", None),
        ("do 0 read 0 0 0", None),
        ("do 0 read 16 0 1", Some(Why::Number)),
        ("do 0 read 0 4294967296 1", Some(Why::Number)),
        ("do 0 read 0 0 65536", Some(Why::Number)),
        ("do 0 read 0 0", Some(Why::Form)),
        ("do 0 read 0 0 1 1", Some(Why::Form)),
        ("do 0 write 15 4294967295 -", None),
        ("do 0 write 16 0 ff", Some(Why::Number)),
        ("do 0 write 0 4294967296 ff", Some(Why::Number)),
        ("do 0 write 0 0 xx", Some(Why::Hex)),
        ("do 0 write 0 0", Some(Why::Form)),
        ("do 0 write 0 0 ff ff", Some(Why::Form)),
        ("do 64 write 0 0 xx", Some(Why::Number)),
        ("do 64 write 0 0", Some(Why::Form)),
        ("do 1 read 0 0 0", Some(Why::Rule)),
        ("range 0 2 at 0 len 1 perm r", Some(Why::Place)),
    ] {
        let text = joined(rt.alloc(), BEGUN, line.as_bytes(), b"\n")?;
        expect(&rt, rt.alloc(), text.as_slice(), 5, cause);
    }
    Ok(())
}

#[test]
fn switches_and_tends_are_read_and_refused(rt: HostRuntime) -> Result<(), AllocError> {
    for (line, cause) in [
        ("switch 2 0", None),
        ("switch 2 1", None),
        ("switch 3 63", None),
        ("switch 0 0", None),
        ("switch 4 0", Some(Why::Rule)),
        ("switch 16 0", Some(Why::Number)),
        ("switch 2 2", Some(Why::Rule)),
        ("switch 2 64", Some(Why::Number)),
        ("switch 02 0", Some(Why::Number)),
        ("switch 2", Some(Why::Form)),
        ("switch 2 0 0", Some(Why::Form)),
        ("switch", Some(Why::Form)),
        ("tend 0", None),
        ("tend 63", None),
        ("tend 2", Some(Why::Rule)),
        ("tend 64", Some(Why::Number)),
        ("tend", Some(Why::Form)),
        ("tend 0 0", Some(Why::Form)),
        ("Tend 0", Some(Why::Form)),
        ("act 2 tile 2", Some(Why::Place)),
        ("turn 0", Some(Why::Rule)),
        ("turn 2", Some(Why::Rule)),
        ("turn 64", Some(Why::Number)),
        ("turn", Some(Why::Form)),
        ("turn 0 0", Some(Why::Form)),
        ("turn 0 fetch 0", Some(Why::Form)),
        ("file create a", Some(Why::Form)),
    ] {
        let text = joined(rt.alloc(), SHARED, line.as_bytes(), b"\n")?;
        expect(&rt, rt.alloc(), text.as_slice(), 6, cause);
    }
    Ok(())
}

#[test]
fn grants_revokes_and_closes_are_read_and_refused(rt: HostRuntime) -> Result<(), AllocError> {
    for (line, cause) in [
        ("grant recv 0 15 slots 32 size 512", None),
        (
            "grant send 63 0 of 4096 label 18446744073709551615 credits 32",
            None,
        ),
        ("grant range 0 0 at 4294967295 len 4294967295 perm w", None),
        ("grant part 0 0 of 1 at 0 len 1 perm rw", None),
        ("grant", Some(Why::Form)),
        ("grant switch 2 0", Some(Why::Form)),
        ("grant act 1 tile 2", Some(Why::Form)),
        ("grant grant recv 0 0 slots 1 size 1", Some(Why::Form)),
        ("grant recv 0 0 slots 1", Some(Why::Form)),
        ("grant range 99 0 at 0 len 0 perm wr", Some(Why::Form)),
        ("grant recv 0 16 slots 1 size 1", Some(Why::Number)),
        ("grant recv 0 0 slots 33 size 1", Some(Why::Number)),
        ("grant recv 0 0 slots 1 size 513", Some(Why::Number)),
        ("grant recv 64 0 slots 1 size 1", Some(Why::Number)),
        ("grant send 0 0 of 0 label 0 credits 1", Some(Why::Number)),
        (
            "grant send 0 0 of 4097 label 0 credits 1",
            Some(Why::Number),
        ),
        ("grant send 0 0 of 1 label 0 credits 33", Some(Why::Number)),
        ("grant range 0 0 at 0 len 0 perm r", Some(Why::Number)),
        (
            "grant part 0 0 of 1 at 4294967296 len 1 perm r",
            Some(Why::Number),
        ),
        ("grant recv 2 0 slots 1 size 1", Some(Why::Rule)),
        ("revoke 1", None),
        ("revoke 4096", None),
        ("revoke 0", Some(Why::Number)),
        ("revoke 4097", Some(Why::Number)),
        ("revoke", Some(Why::Form)),
        ("revoke 1 2", Some(Why::Form)),
        ("close", None),
        ("close 1", Some(Why::Form)),
    ] {
        let text = joined(rt.alloc(), SHARED, line.as_bytes(), b"\n")?;
        expect(&rt, rt.alloc(), text.as_slice(), 6, cause);
    }
    Ok(())
}

#[test]
fn the_driver_leaves_orders_to_the_script(rt: HostRuntime) -> Result<(), AllocError> {
    for (line, cause) in [
        ("switch 2 1", None),
        ("switch 2 2", Some(Why::Rule)),
        ("tend 0", Some(Why::Place)),
        ("tend 2", Some(Why::Place)),
        ("take 2 2", Some(Why::Place)),
        ("do 0 fetch 0", Some(Why::Place)),
        ("grant recv 0 0 slots 1 size 1", None),
        ("revoke 1", None),
        ("close", Some(Why::Place)),
    ] {
        let text = joined(rt.alloc(), SHARED, line.as_bytes(), b"")?;
        expect_in(&rt, rt.alloc(), Mode::Auto, text.as_slice(), 6, cause);
        expect_in(&rt, rt.alloc(), Mode::Tiles, text.as_slice(), 6, cause);
    }
    Ok(())
}

#[test]
fn the_4097th_order_is_out_of_place_but_in_a_run(rt: HostRuntime) -> Result<(), AllocError> {
    let mut most = Vec::from_slice(rt.alloc(), SHARED)?;
    for _ in 0..4096 {
        most.extend_from_slice(b"switch 2 1\n")?;
    }
    let over = joined(rt.alloc(), most.as_slice(), b"switch 2 2\n", b"")?;
    for (mode, cause) in [
        (Mode::Run, Why::Rule),
        (Mode::Auto, Why::Place),
        (Mode::Tiles, Why::Place),
    ] {
        expect_in(&rt, rt.alloc(), mode, most.as_slice(), 4102, None);
        expect_in(&rt, rt.alloc(), mode, over.as_slice(), 4102, Some(cause));
    }
    Ok(())
}

#[test]
fn a_payload_has_at_most_8192_bytes(rt: HostRuntime) -> Result<(), AllocError> {
    for (front, back) in [
        ("do 0 send 0 ", ""),
        ("do 0 send 0 ", " reply 0"),
        ("do 0 reply 0 0 ", ""),
        ("do 0 write 0 0 ", ""),
    ] {
        let mut text = joined(rt.alloc(), BEGUN, front.as_bytes(), b"")?;
        for _ in 0..8192 {
            text.extend_from_slice(b"ab")?;
        }
        let longest = joined(rt.alloc(), text.as_slice(), back.as_bytes(), b"")?;
        expect(&rt, rt.alloc(), longest.as_slice(), 5, None);
        let longer = joined(rt.alloc(), text.as_slice(), b"cd", back.as_bytes())?;
        expect(&rt, rt.alloc(), longer.as_slice(), 5, Some(Why::Hex));
    }
    Ok(())
}

#[test]
fn the_numbers_of_a_line_stand_where_they_are_named(rt: HostRuntime) -> Result<(), ScriptRefusal> {
    let text =
        b"machine tiles 4 memory 4096\nact 7 tile 2\nrange 7 1 at 64 len 32 perm rw\npart 7 2 of 1 at 3 len 4 perm w\nbegin\ndo 7 send 3 0a reply 4\ndo 7 reply 5 6 0b\ndo 7 ack 8 9\ndo 7 read 10 11 12\ndo 7 write 13 14 0c\nswitch 2 7\ntend 7".as_slice();
    let script = parse(rt.alloc(), text, Mode::Run, 0)?;
    assert_eq!(rt; script.setup.lines().len(), 3);
    assert_eq!(rt; script.events.len(), 7);
    let act = ActId::new(7);
    for (line, grant) in script.setup.lines().iter().skip(1).zip([
        GrantLine::Range {
            act,
            ep: EpId::new(1),
            at: 64,
            len: 32,
            perm: Perm::Rw,
        },
        GrantLine::Part {
            act,
            ep: EpId::new(2),
            of: GrantId::new(1),
            at: 3,
            len: 4,
            perm: Perm::W,
        },
    ]) {
        match line {
            SetupLine::Grant(line) => assert_eq!(rt; *line, grant),
            _ => assert!(rt; false, "the line is a grant"),
        }
    }
    let seen = script.events.iter().map(|event| match event {
        Event::Do { act, command } if act.number() == 7 => numbers(command),
        Event::Order(Order::Switch { tile, act }) => (tile.number(), act.number() as u32, 0, 0),
        Event::Tend(act) => (act.number(), 0, 0, 0),
        _ => (0, 0, 0, 0),
    });
    for (seen, wanted) in seen.zip([
        (3, 4, 0, 10),
        (5, 6, 0, 11),
        (8, 9, 0, 0),
        (10, 11, 12, 0),
        (13, 14, 0, 12),
    ]) {
        assert_eq!(rt; seen, wanted);
    }
    Ok(())
}

/// The endpoint, the number after it, that after it again, and the first byte.
fn numbers(command: &Command) -> (u8, u32, u16, u8) {
    match command {
        Command::Send { ep, payload, reply } => {
            let reply = reply.map_or(0, |ep| ep.number() as u32);
            (ep.number(), reply, 0, first(payload))
        }
        Command::Reply { ep, token, payload } => (ep.number(), *token, 0, first(payload)),
        Command::Fetch { ep } => (ep.number(), 0, 0, 0),
        Command::Acknowledge { ep, token } => (ep.number(), *token, 0, 0),
        Command::Read { ep, off, len } => (ep.number(), *off, *len, 0),
        Command::Write { ep, off, payload } => (ep.number(), *off, 0, first(payload)),
    }
}

fn first(payload: &Payload) -> u8 {
    payload.bytes().first().copied().unwrap_or(0)
}

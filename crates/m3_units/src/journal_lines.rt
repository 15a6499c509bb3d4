//! Lines of journals, each with its form's greatest numbers where these fit.

use crate::journal::entry;
use m3_base::command::{Answer, Command, Refusal};
use m3_base::event::{Event, IdleWhy, No, Said};
use m3_base::ids::{ActId, EpId, FlightId, GrantId, TileId};
use m3_base::order::{GrantLine, Order};
use m3_base::packet::Perm;
use m3_base::payload::Payload;
use m3_journal::{put_entries, put_grant};
use std::alloc::{AllocError, Global};
use std::process::Abort;

fn payload(alloc: Global, bytes: &[u8]) -> Result<Payload, AllocError> {
    Ok(Payload::new(Vec::from_slice(alloc, bytes)?))
}

fn flight(issuer: u8, number: u32) -> FlightId {
    FlightId { issuer, number }
}

fn taken() -> Event {
    Event::Take {
        to: TileId::new(3),
        from: TileId::new(2),
    }
}

fn done(command: Command) -> Event {
    Event::Do {
        act: ActId::new(63),
        command,
    }
}

/// Asserts that the entry is printed as this line.
fn expect_entry(
    rt: &impl Abort,
    alloc: Global,
    event: Event,
    said: Said,
    restore: Option<ActId>,
    line: &str,
) -> Result<(), AllocError> {
    let entries = Vec::from_array(alloc, [entry(event, said, restore)])?;
    let mut out = String::new(alloc);
    put_entries(&mut out, entries.as_slice())?;
    assert_eq!(rt; out.strip_suffix("\n"), Some(line));
    Ok(())
}

#[test]
fn grants_of_memory_are_printed(rt: HostRuntime) -> Result<(), AllocError> {
    let act = ActId::new(0);
    let of = GrantId::new(4096);
    for (line, text) in [
        (
            GrantLine::Range {
                act,
                ep: EpId::new(2),
                at: 4294967295,
                len: 16,
                perm: Perm::Rw,
            },
            "range 0 2 at 4294967295 len 16 perm rw",
        ),
        (
            GrantLine::Range {
                act,
                ep: EpId::new(15),
                at: 0,
                len: 4294967295,
                perm: Perm::W,
            },
            "range 0 15 at 0 len 4294967295 perm w",
        ),
        (
            GrantLine::Part {
                act,
                ep: EpId::new(3),
                of,
                at: 64,
                len: 32,
                perm: Perm::R,
            },
            "part 0 3 of 4096 at 64 len 32 perm r",
        ),
    ] {
        let mut out = String::new(rt.alloc());
        put_grant(&mut out, &line)?;
        assert_eq!(rt; out.as_str(), text);
    }
    Ok(())
}

#[test]
fn commands_and_what_comes_of_them_are_printed(rt: HostRuntime) -> Result<(), AllocError> {
    let alloc = rt.alloc();
    let ep = EpId::new(15);
    let token = 4294967295;
    let off = 4294967295;
    for (command, said, line) in [
        (
            Command::Send {
                ep,
                payload: payload(alloc, b"")?,
                reply: Some(EpId::new(1)),
            },
            Said::Flying(flight(63, 1)),
            "do 63 send 15 - reply 1: flying 63.1",
        ),
        (
            Command::Reply {
                ep,
                token,
                payload: payload(alloc, b"\xaa\x01")?,
            },
            Said::Refused(Refusal::NoReplyWanted),
            "do 63 reply 15 4294967295 aa01: refused 8 no-reply-wanted",
        ),
        (
            Command::Fetch { ep },
            Said::ReplyMessage {
                token: 0,
                from: ActId::new(1),
                label: 18446744073709551615,
                payload: payload(alloc, b"\xaa")?,
            },
            "do 63 fetch 15: reply 0 from 1 label 18446744073709551615 aa",
        ),
        (Command::Fetch { ep }, Said::Nothing, "do 63 fetch 15: none"),
        (
            Command::Acknowledge { ep, token },
            Said::Acknowledged(None),
            "do 63 ack 15 4294967295: acknowledged",
        ),
        (
            Command::Acknowledge { ep, token: 0 },
            Said::Acknowledged(Some(flight(63, 4294967295))),
            "do 63 ack 15 0: acknowledged credit 63.4294967295",
        ),
        (
            Command::Acknowledge { ep, token: 0 },
            Said::Refused(Refusal::NoSuchToken),
            "do 63 ack 15 0: refused 9 no-such-token",
        ),
        (
            Command::Read {
                ep,
                off,
                len: 65535,
            },
            Said::Refused(Refusal::TooLarge),
            "do 63 read 15 4294967295 65535: refused 3 too-large",
        ),
        (
            Command::Read { ep, off: 0, len: 0 },
            Said::Refused(Refusal::OutOfRange),
            "do 63 read 15 0 0: refused 6 out-of-range",
        ),
        (
            Command::Write {
                ep,
                off,
                payload: payload(alloc, b"\x0f")?,
            },
            Said::Refused(Refusal::NoPermission),
            "do 63 write 15 4294967295 0f: refused 7 no-permission",
        ),
        (
            Command::Send {
                ep,
                payload: payload(alloc, b"")?,
                reply: Some(ep),
            },
            Said::Refused(Refusal::BadReplyEndpoint),
            "do 63 send 15 - reply 15: refused 10 bad-reply-endpoint",
        ),
        (
            Command::Fetch { ep },
            Said::Refused(Refusal::Revoked),
            "do 63 fetch 15: refused 4 revoked",
        ),
    ] {
        expect_entry(&rt, alloc, done(command), said, None, line)?;
    }
    Ok(())
}

#[test]
fn landings_are_printed(rt: HostRuntime) -> Result<(), AllocError> {
    let alloc = rt.alloc();
    let id = flight(0, 1);
    for (said, line) in [
        (
            Said::LandRefused(id, Refusal::Revoked),
            "take 3 2: refused 0.1 4 revoked",
        ),
        (
            Said::Credited(id, GrantId::new(3)),
            "take 3 2: credited 0.1 3",
        ),
        (
            Said::Discarded(id, GrantId::new(4096)),
            "take 3 2: discarded 0.1 4096",
        ),
        (
            Said::Answered {
                id,
                answer: Answer::Replied,
                closed: None,
            },
            "take 3 2: answered 0.1 replied",
        ),
        (
            Said::Answered {
                id,
                answer: Answer::Written,
                closed: None,
            },
            "take 3 2: answered 0.1 written",
        ),
        (
            Said::Answered {
                id,
                answer: Answer::Bytes(payload(alloc, b"\x00\xff")?),
                closed: None,
            },
            "take 3 2: answered 0.1 bytes 00ff",
        ),
        (
            Said::Answered {
                id,
                answer: Answer::Bytes(payload(alloc, b"")?),
                closed: None,
            },
            "take 3 2: answered 0.1 bytes -",
        ),
        (
            Said::Answered {
                id,
                answer: Answer::Refused(Refusal::Full),
                closed: None,
            },
            "take 3 2: answered 0.1 refused 5 full",
        ),
    ] {
        expect_entry(&rt, alloc, taken(), said, None, line)?;
    }
    Ok(())
}

#[test]
fn switches_and_what_comes_of_them_are_printed(rt: HostRuntime) -> Result<(), AllocError> {
    let alloc = rt.alloc();
    let act = ActId::new(63);
    for (tile, said, line) in [
        (15, Said::Save(ActId::new(0)), "switch 15 63: save 0"),
        (2, Said::No(No::NotHome), "switch 2 63: refused not-home"),
        (2, Said::No(No::Already), "switch 2 63: refused already"),
        (2, Said::No(No::Leaving), "switch 2 63: refused leaving"),
    ] {
        let order = Order::Switch {
            tile: TileId::new(tile),
            act,
        };
        expect_entry(&rt, alloc, Event::Order(order), said, None, line)?;
    }
    for (said, restore, line) in [
        (Said::Saving(act), None, "take 3 2: saving 63"),
        (Said::Saved(act), None, "take 3 2: saved 63"),
        (
            Said::Saved(act),
            Some(ActId::new(2)),
            "take 3 2: saved 63 restore 2",
        ),
        (Said::Current(act), None, "take 3 2: current 63"),
        (Said::Yielded(act), None, "take 3 2: yielded 63"),
        (Said::Bounced(flight(0, 1)), None, "take 3 2: bounced 0.1"),
        (Said::Routed(flight(64, 2)), None, "take 3 2: routed k.2"),
        (Said::Held(flight(0, 1), act), None, "take 3 2: held 0.1 63"),
    ] {
        expect_entry(&rt, alloc, taken(), said, restore, line)?;
    }
    Ok(())
}

#[test]
fn tends_and_idle_events_are_printed(rt: HostRuntime) -> Result<(), AllocError> {
    let alloc = rt.alloc();
    let act = ActId::new(63);
    let id = flight(0, 1);
    for (said, restore, line) in [
        (Said::Landed(id), None, "tend 63: landed 0.1"),
        (
            Said::Landed(id),
            Some(act),
            "tend 63: landed 0.1 restore 63",
        ),
        (
            Said::LandRefused(id, Refusal::Full),
            Some(act),
            "tend 63: refused 0.1 5 full restore 63",
        ),
        (
            Said::Answered {
                id,
                answer: Answer::Sent,
                closed: None,
            },
            Some(act),
            "tend 63: answered 0.1 sent restore 63",
        ),
        (
            Said::Answered {
                id,
                answer: Answer::Bytes(payload(alloc, b"\x00\xff")?),
                closed: None,
            },
            None,
            "tend 63: answered 0.1 bytes 00ff",
        ),
        (
            Said::Credited(id, GrantId::new(3)),
            Some(act),
            "tend 63: credited 0.1 3 restore 63",
        ),
        (
            Said::Discarded(id, GrantId::new(3)),
            None,
            "tend 63: discarded 0.1 3",
        ),
        (
            Said::Idle(IdleWhy::NotResting),
            None,
            "tend 63: idle not-resting",
        ),
        (
            Said::Idle(IdleWhy::EmptyHold),
            None,
            "tend 63: idle empty-hold",
        ),
    ] {
        expect_entry(&rt, alloc, Event::Tend(act), said, restore, line)?;
    }
    let ep = EpId::new(0);
    let absent = Said::Idle(IdleWhy::NotCurrent);
    expect_entry(
        &rt,
        alloc,
        done(Command::Fetch { ep }),
        absent,
        None,
        "do 63 fetch 0: idle not-current",
    )
}

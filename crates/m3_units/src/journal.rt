//! A small journal, whole.

use m3_base::command::{Answer, Command};
use m3_base::event::{Entry, Event, Outcome, Said};
use m3_base::ids::{ActId, EpId, FlightId, GrantId, TileId};
use m3_base::journal::{Audit, AuditLine, Journal};
use m3_base::order::GrantLine;
use m3_base::payload::Payload;
use m3_base::setup::Setup;
use m3_base::setup_line::SetupLine;
use m3_journal::{parse_journal, print};
use m3_script::{ScriptRefusal, Why};
use std::alloc::{AllocError, Global};
use std::process::Abort;

const TEXT: &[u8] =
    b"m3x journal 1\nmachine tiles 4 memory 4096\nact 0 tile 2\nrecv 0 0 slots 2 size 16\nsend 0 1 of 1 label 7 credits 2\nbegin\ndo 0 send 1 6869: flying 0.1\ntake 2 2: answered 0.1 sent\ndo 0 fetch 0: message 0 from 0 label 7 6869\ntake 0 2: installed k.1 2 restore 0\nend\naudit credit 2 held 1 flying 0 queued 1 limit 2\naudit tile 2 act 0\naudit tile 3 none\naudit flights 0\naudit quiet yes\n";

fn setup(alloc: Global) -> Result<Setup, AllocError> {
    let act = ActId::new(0);
    let mut setup = Setup::new(alloc, 4, 4096).map_err(|_| AllocError)?;
    for line in [
        SetupLine::Act {
            act,
            tile: TileId::new(2),
        },
        SetupLine::Grant(GrantLine::Recv {
            act,
            ep: EpId::new(0),
            slots: 2,
            size: 16,
        }),
        SetupLine::Grant(GrantLine::Send {
            act,
            ep: EpId::new(1),
            of: GrantId::new(1),
            label: 7,
            credits: 2,
        }),
    ] {
        setup.add(line).map_err(|_| AllocError)?;
    }
    Ok(setup)
}

/// An entry of an event that is no turn.
pub fn entry(event: Event, said: Said, restore: Option<ActId>) -> Entry {
    Entry {
        event,
        outcome: Outcome {
            made: None,
            said,
            restore,
        },
    }
}

fn entries(alloc: Global) -> Result<Vec<Entry>, AllocError> {
    let act = ActId::new(0);
    let tile = TileId::new(2);
    let id = FlightId {
        issuer: 0,
        number: 1,
    };
    let sent = Payload::new(Vec::from_slice(alloc, b"hi")?);
    let fetched = Payload::new(Vec::from_slice(alloc, b"hi")?);
    let send = Command::Send {
        ep: EpId::new(1),
        payload: sent,
        reply: None,
    };
    let message = Said::Message {
        token: 0,
        from: act,
        label: 7,
        payload: fetched,
    };
    let answered = Said::Answered {
        id,
        answer: Answer::Sent,
        closed: None,
    };
    let installed = Said::Installed(
        FlightId {
            issuer: 64,
            number: 1,
        },
        GrantId::new(2),
    );
    let entries = Vec::from_array(
        alloc,
        [
            entry(Event::Do { act, command: send }, Said::Flying(id), None),
            entry(
                Event::Take {
                    to: tile,
                    from: tile,
                },
                answered,
                None,
            ),
            entry(
                Event::Do {
                    act,
                    command: Command::Fetch { ep: EpId::new(0) },
                },
                message,
                None,
            ),
            entry(
                Event::Take {
                    to: TileId::new(0),
                    from: tile,
                },
                installed,
                Some(act),
            ),
        ],
    )?;
    Ok(entries)
}

#[test]
fn a_journal_is_printed(rt: HostRuntime) -> Result<(), AllocError> {
    let alloc = rt.alloc();
    let journal = Journal {
        setup: setup(alloc)?,
        entries: entries(alloc)?,
    };
    let lines = Vec::from_array(
        alloc,
        [
            AuditLine::Credit {
                grant: GrantId::new(2),
                held: 1,
                flying: 0,
                queued: 1,
                limit: 2,
            },
            AuditLine::Tile {
                tile: TileId::new(2),
                act: Some(ActId::new(0)),
            },
            AuditLine::Tile {
                tile: TileId::new(3),
                act: None,
            },
            AuditLine::Flights(0),
            AuditLine::Quiet(true),
        ],
    )?;
    let text = print(alloc, &journal, &Audit { lines })?;
    assert_eq!(rt; text.as_slice(), TEXT);
    Ok(())
}

#[test]
fn a_printed_journal_is_read_back(rt: HostRuntime) -> Result<(), AllocError> {
    let alloc = rt.alloc();
    let (journal, audit) = parse_journal(alloc, TEXT).map_err(|_| AllocError)?;
    let text = print(alloc, &journal, &audit)?;
    assert_eq!(rt; text.as_slice(), TEXT);
    Ok(())
}

// The line and the cause for which a text is refused; 0 where it is taken.
fn refused_at(
    rt: &impl Abort,
    alloc: Global,
    text: &[u8],
) -> Result<(u32, Option<Why>), AllocError> {
    assert!(rt; text.len() <= 67_108_864, "the journal is short");
    match parse_journal(alloc, text) {
        Ok(_) => Ok((0, None)),
        Err(ScriptRefusal::Bad { line, why }) => Ok((line, Some(why))),
        Err(ScriptRefusal::NoMemory) => Err(AllocError),
    }
}

// A journal whose fifth line is this entry.
fn with_entry(
    rt: &impl Abort,
    alloc: Global,
    entry: &str,
) -> Result<(u32, Option<Why>), AllocError> {
    let mut text = String::new(alloc);
    text.push_str("m3x journal 1\nmachine tiles 3 memory 1\nact 0 tile 2\nbegin\n")?;
    text.push_str(entry)?;
    text.push_str("\nend\naudit quiet no\n")?;
    refused_at(rt, alloc, text.as_bytes())
}

#[test]
fn entries_are_read_by_their_forms(rt: HostRuntime) -> Result<(), AllocError> {
    let entries: [(&str, Option<Why>); 44] = [
        ("do 0 send 0 6869 reply 1: flying 0.1", None),
        ("do 0  fetch 0:  none ", None),
        ("turn 0 quantum: yield", None),
        ("turn 0: idle ended", None),
        ("turn 0: ended", Some(Why::Form)),
        ("turn 0 fetch 0: idle busy", Some(Why::Form)),
        ("turn 0 await 3: asleep", None),
        ("turn 0 end: ended", None),
        ("take 3 2: landed 0.1 restore 1", None),
        ("take 0 2: saved 0 restore 1", None),
        ("take 0 2: saving 0 restore 1", Some(Why::Form)),
        ("take 2 2: answered 0.1 bytes - closed 4 restore 0", None),
        ("take 2 2: answered 0.1 refused 4 revoked closed 4", None),
        ("take 2 2: answered 0.1 refused 4 full", Some(Why::Form)),
        ("take 2 2: refused 0.1 4 revoked", None),
        ("do 0 send 0 00: refused 11 full", Some(Why::Form)),
        ("do 0 send 0 00: refused 2 no-credits", None),
        ("do 0 send 0 AB: flying 0.1", Some(Why::Hex)),
        ("do 0 fetch 0: message 0 from 0 label 7 aB", Some(Why::Hex)),
        (
            "do 0 fetch 0: message 0 from 64 label 7 zz",
            Some(Why::Number),
        ),
        (
            "do 0 fetch 0: reply 0 from 0 label restore 00",
            Some(Why::Number),
        ),
        ("do 0 send 0 zz: flying 1", Some(Why::Form)),
        ("do 0 send 0 zz: flying x.1", Some(Why::Number)),
        ("do 0 send 0 00: flying k.0", Some(Why::Number)),
        ("do 0 send 0 00: flying 0.1.2", Some(Why::Number)),
        ("do 0 send 0 00: flying 0.1:", Some(Why::Number)),
        ("do 0 send 0 00 : flying 0.1", Some(Why::Form)),
        ("do 0 send 0 00", Some(Why::Form)),
        ("file create a:: refused bad-name", None),
        ("file create :: refused bad-name", None),
        ("file create :", Some(Why::Form)),
        ("file open a: 0 1 2 rw: part of 1 at 0 len 5", None),
        ("file open a 0 1 2 x: none", Some(Why::Form)),
        ("close: close 2 k.3 held", None),
        ("close: idle nothing-to-close", None),
        (
            "grant part 0 3 of 1 at 768 len 188 perm r: granted 2 k.1 routed",
            None,
        ),
        ("revoke 2: done 2 revoked 3", None),
        ("revoke 4097: revoking 2", Some(Why::Number)),
        ("switch 2 0: refused not-home", None),
        ("tend 0: discarded 0.1 5 restore 0", None),
        ("begin", Some(Why::Place)),
        ("act 1 tile 2", Some(Why::Place)),
        ("# take 0 2: idle empty-link", Some(Why::Form)),
        ("", Some(Why::Form)),
    ];
    for (entry, why) in entries {
        let (line, cause) = with_entry(&rt, rt.alloc(), entry)?;
        assert_eq!(rt; line, if why.is_none() { 0 } else { 5 });
        assert!(rt; cause == why);
    }
    Ok(())
}

#[test]
fn other_texts_are_refused(rt: HostRuntime) -> Result<(), AllocError> {
    let texts: [(&[u8], u32, Option<Why>); 14] = [
        (
            b"m3x journal 1\r\n machine tiles 3  memory 1\nbegin\nend",
            0,
            None,
        ),
        (b"", 1, Some(Why::Place)),
        (b"m3x journal 2\n", 1, Some(Why::Form)),
        (b"machine tiles 3 memory 1\n", 1, Some(Why::Place)),
        (b"m3x journal 1\nbegin\n", 2, Some(Why::Place)),
        (
            b"m3x journal 1\nmachine tiles 3 memory 0\n",
            2,
            Some(Why::Number),
        ),
        (
            b"m3x journal 1\nmachine tiles 3 memory 1\nact 0 tile 3\n",
            3,
            Some(Why::Rule),
        ),
        (
            b"m3x journal 1\nmachine tiles 3 memory 1\nprog 0 send 0 A0\n",
            3,
            Some(Why::Hex),
        ),
        (
            b"m3x journal 1\nmachine tiles 3 memory 1\nbegin\n",
            4,
            Some(Why::Place),
        ),
        (
            b"m3x journal 1\nmachine tiles 3 memory 1\nbegin\naudit flights 0\n",
            4,
            Some(Why::Place),
        ),
        (
            b"m3x journal 1\nmachine tiles 3 memory 1\nbegin\nend\naudit flights 00\n",
            5,
            Some(Why::Number),
        ),
        (
            b"m3x journal 1\nmachine tiles 3 memory 1\nbegin\nend\naudit credit 1 held 0 flying 0 queued 0 limit 4294967295\naudit quiet no",
            0,
            None,
        ),
        (
            b"m3x journal 1\nmachine tiles 3 memory 1\nbegin\nend\nend\n",
            5,
            Some(Why::Place),
        ),
        (b"m3x\tjournal 1\n", 1, Some(Why::Form)),
    ];
    for (text, line, why) in texts {
        let (at, cause) = refused_at(&rt, rt.alloc(), text)?;
        assert_eq!(rt; at, line);
        assert!(rt; cause == why);
    }
    Ok(())
}

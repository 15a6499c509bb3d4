//! The setup of a load, and the summary of entries.

use crate::journal::entry;
use m3_base::command::Command;
use m3_base::event::{Event, No, Said};
use m3_base::ids::{ActId, FlightId, TileId};
use m3_base::order::Order;
use m3_base::payload::Payload;
use m3_base::setup_line::SetupLine;
use m3_load::{load_setup, put_summary, summary_of};
use std::alloc::AllocError;

#[test]
fn a_load_has_21_lines_and_28_for_each_round(rt: HostRuntime) -> Result<(), AllocError> {
    for (rounds, lines) in [(1, 49), (2, 77), (500, 14_021)] {
        let setup = load_setup(rt.alloc(), rounds)?;
        assert_eq!(rt; setup.tiles(), 6);
        assert_eq!(rt; setup.memory(), 65_536);
        assert_eq!(rt; setup.lines().len(), lines);
    }
    Ok(())
}

#[test]
fn the_first_client_sends_its_bytes_round_by_round(rt: HostRuntime) -> Result<(), AllocError> {
    let setup = load_setup(rt.alloc(), 2)?;
    let mut is_second = false;
    for line in setup.lines() {
        match line {
            SetupLine::Item(act, Command::Send { payload, .. }) if act.number() == 0 => {
                let first = payload.bytes().first().copied().unwrap_or(0);
                assert_eq!(rt; payload.len(), 4);
                assert_eq!(rt; first, if is_second { 0xa6 } else { 0x39 });
                if is_second {
                    return Ok(());
                }
                is_second = true;
            }
            _ => {}
        }
    }
    assert!(rt; false, "the first client has two sends");
    Ok(())
}

#[test]
fn a_summary_counts_messages_bounces_and_switches(rt: HostRuntime) -> Result<(), AllocError> {
    let act = ActId::new(1);
    let tile = TileId::new(2);
    let id = FlightId {
        issuer: act.number(),
        number: 1,
    };
    let mut entries = Vec::new(rt.alloc());
    for said in [
        Said::Nothing,
        Said::Message {
            token: 0,
            from: act,
            label: 7,
            payload: Payload::new(Vec::new(rt.alloc())),
        },
        Said::ReplyMessage {
            token: 1,
            from: act,
            label: 7,
            payload: Payload::new(Vec::new(rt.alloc())),
        },
    ] {
        entries.push(entry(Event::Turn(act), said, None))?;
    }
    for said in [
        Said::Bounced(id),
        Said::Landed(id),
        Said::Bounced(id),
        Said::Bounced(id),
    ] {
        entries.push(entry(
            Event::Take {
                to: tile,
                from: tile,
            },
            said,
            None,
        ))?;
    }
    for said in [Said::Save(act), Said::No(No::Leaving)] {
        entries.push(entry(Event::Order(Order::Switch { tile, act }), said, None))?;
    }
    assert!(rt; entries.len() == 9);
    let mut text = String::new(rt.alloc());
    put_summary(&mut text, &summary_of(7, entries.as_slice()))?;
    assert_eq!(rt;
        text.as_str(),
        "load 7\nentries 9\nfetched 2\nbounced 3\nswitches 1\n"
    );
    Ok(())
}

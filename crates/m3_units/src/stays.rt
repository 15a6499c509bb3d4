//! What no clause says: that the memory for a turn is there where memory suffices, and turns of one stay in a row.

use m3_base::command::{Answer, Command, Reply};
use m3_base::event::Said;
use m3_base::ids::{ActId, EpId};
use m3_base::payload::Payload;
use m3_base::program::Seen;
use m3_core::parcel::Heard;
use m3_engine::spares::{Spares, buffer, copied};
use m3_engine::stay::{Hearing, Stay};

/// A stay sends one Yield, and the next stay another.
#[test]
fn a_stay_yields_once(rt: HostRuntime) {
    let ep = EpId::new(0);
    let mut stay = Stay::new(ActId::new(1));
    let first = stay.turn_await(ep, false);
    assert!(rt; matches!(first.outcome.said, Said::Yield) && first.emit.is_some());
    let second = stay.turn_await(ep, false);
    assert!(rt; matches!(second.outcome.said, Said::Asleep) && second.emit.is_none());
    stay.restart(None);
    let third = stay.turn_await(ep, false);
    assert!(rt; matches!(third.outcome.said, Said::Yield) && third.emit.is_some());
    let woken = stay.turn_await(ep, true);
    assert!(rt; matches!(woken.outcome.said, Said::Awake) && woken.emit.is_none());
    assert!(rt; matches!(stay.seen(), Some(Seen::Awake)));
}

/// A program hears the answer to the command that it waits for, and no other.
#[test]
fn a_stay_hears_its_answer(rt: HostRuntime) {
    let mut stay = Stay::new(ActId::new(1));
    assert!(rt; matches!(stay.seen(), Some(Seen::First)));
    stay.after_command(Hearing::Waits(7));
    for (number, is_heard) in [(8, false), (7, true)] {
        stay.hear(Some(Heard {
            number,
            answer: Answer::Sent,
        }));
        assert_eq!(rt;
            matches!(stay.seen(), Some(Seen::Answer(Reply::Sent))),
            is_heard
        );
    }
}

/// The longest payload of a move and the longest read find memory.
#[test]
fn the_longest_move_has_memory(rt: HostRuntime) {
    let mut spares = Spares::new(rt.alloc());
    spares.refill().expect(&rt, "memory");
    let mut bytes = Vec::new(rt.alloc());
    bytes.resize(8192, 7).expect(&rt, "memory");
    let write = Command::Write {
        ep: EpId::new(0),
        off: 0,
        payload: Payload::new(bytes),
    };
    assert!(rt; write.is_short());
    let copy = copied(rt.alloc(), &mut spares.payload, &write);
    assert!(rt; matches!(&copy, Command::Write { payload, .. } if payload.len() == 8192));
    let read = Command::Read {
        ep: EpId::new(0),
        off: 0,
        len: 4096,
    };
    assert_eq!(rt; buffer(rt.alloc(), &mut spares.buffer, &read).len(), 4096);
}

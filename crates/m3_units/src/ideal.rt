use m3_base::command::{Answer, Command};
use m3_base::event::{Event, No, Outcome, Said};
use m3_base::ids::{ActId, EpId, FlightId, GrantId};
use m3_base::order::GrantLine;
use m3_base::packet::Fresh;
use m3_base::payload::Payload;
use m3_ideal::belongs::is_of;
use m3_ideal::context::Context;
use m3_ideal::contexts::Contexts;
use m3_ideal::flights::Flights;
use m3_ideal::grants::Grants;
use m3_ideal::issued::Issued;
use m3_ideal::letter::Letter;
use m3_ideal::memory::{bytes_at, write_at};
use m3_ideal::shows::shows;
use m3_ideal::steps::{EntrySteps, steps_of};
use m3_ideal::word::Word;

/// With memory an activity sends to itself, the message lands, and its answer ends the command.
#[test]
fn a_message_to_itself_lands(rt: HostRuntime) {
    let act = ActId::new(3);
    let inbox = EpId::new(0);
    let outbox = EpId::new(1);
    let grant = GrantId::new(1);
    let mut context = Context::new(rt.alloc(), act).expect(&rt, "memory");
    let receive = Fresh::Receive {
        grant,
        slots: 2,
        size: 16,
    };
    let send = Fresh::Send {
        grant: GrantId::new(2),
        to: act,
        to_ep: inbox,
        to_grant: grant,
        label: 7,
        size: 16,
        limit: 2,
    };
    assert!(rt; context.install(rt.alloc(), inbox, &receive).is_ok());
    assert!(rt; context.install(rt.alloc(), outbox, &send).is_ok());
    let command = Command::Send {
        ep: outbox,
        payload: Payload::new(Vec::new(rt.alloc())),
        reply: None,
    };
    let issued = context.issue(rt.alloc(), command);
    assert!(rt; matches!(&issued, Ok(Some(Issued::Flies(..)))));
    let payload = Payload::new(Vec::new(rt.alloc()));
    let letter = Letter::message(act, 1, None, GrantId::new(2), 7, payload);
    assert!(rt; matches!(context.land(inbox, grant, letter), Ok(None)));
    assert!(rt; context.is_busy());
    assert!(rt; context.has_unread(inbox));
    assert!(rt; matches!(context.answer(1, &Answer::Sent), Ok(Some(None))));
    assert!(rt; !context.is_busy());
    let fetched = context.issue(rt.alloc(), Command::Fetch { ep: inbox });
    assert!(rt; matches!(&fetched, Ok(Some(Issued::Fetched { token: 0, .. }))));
    assert_eq!(rt; context.close(inbox, grant), Some(false));
    assert!(rt; context.free(inbox, grant));
}

/// With memory there are tables of contexts and flights, and bytes of memory.
#[test]
fn there_is_room(rt: HostRuntime) {
    let act = ActId::new(3);
    let mut contexts = Contexts::new(rt.alloc()).expect(&rt, "memory");
    assert!(rt; contexts.add(rt.alloc(), act).is_ok());
    assert!(rt; contexts.get(act).is_some());
    let mut flights = Flights::new(rt.alloc()).expect(&rt, "memory");
    assert!(rt; flights.reserve(3).is_ok());
    let id = FlightId {
        issuer: 3,
        number: 1,
    };
    assert!(rt; flights.get(id).is_none());
    let mut memory = Vec::new(rt.alloc());
    assert!(rt; memory.resize(8, 0).is_ok());
    assert!(rt; write_at(&mut memory, 2, b"ab").is_ok());
    let bytes = bytes_at(rt.alloc(), &memory, 1, 3).expect(&rt, "memory");
    assert_eq!(rt; bytes.bytes(), b"\0ab".as_slice());
}

/// An entry's outcome is one of its event, and what its step says.
#[test]
fn a_landing_is_read(rt: HostRuntime) {
    let id = FlightId {
        issuer: 0,
        number: 1,
    };
    let event = Event::Tend(ActId::new(1));
    let outcome = Outcome {
        made: None,
        said: Said::Landed(id),
        restore: None,
    };
    assert!(rt; is_of(&event, &outcome.made, &outcome.said));
    let steps = steps_of(rt.alloc(), &event, &outcome).expect(&rt, "memory");
    assert!(rt; matches!(steps, EntrySteps::One(_)));
    assert!(rt; shows(&Word::Landed(id), &outcome.said));
}

/// With memory a grant is made, revoked, closed and done.
#[test]
fn a_grant_goes(rt: HostRuntime) {
    let mut grants = Grants::new(rt.alloc()).expect(&rt, "memory");
    let line = GrantLine::Recv {
        act: ActId::new(1),
        ep: EpId::new(0),
        slots: 2,
        size: 16,
    };
    assert!(rt; grants.refusal(4096, &line).is_none());
    assert!(rt; matches!(grants.first(&line), Ok(Some(_))));
    let Ok(Some((g, fresh))) = grants.next(&line) else {
        assert!(rt; false);
        return;
    };
    assert!(rt; grants.push(line, fresh).is_ok());
    assert_eq!(rt; grants.refusal(4096, &line), Some(No::SlotTaken));
    assert!(rt; grants.revoke_refusal(g).is_none());
    assert!(rt; grants.revoke(rt.alloc(), g).is_ok());
    assert!(rt; grants.may_close(g));
    grants.send_close(g);
    assert!(rt; !grants.may_close(g));
    grants.close(g);
    grants.finish(g);
    assert!(rt; grants.refusal(4096, &line).is_none());
}

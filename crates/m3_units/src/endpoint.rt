use m3_base::ids::{ActId, GrantId};
use m3_base::message::{Header, Message};
use m3_base::payload::Payload;
use m3_endpoint::receive::ReceiveEp;

fn message(rt: &HostRuntime) -> Message {
    let header = Header {
        flags: 0,
        reply_ep: 255,
        sender: ActId::new(0),
        lane: 0,
        length: 0,
        send: 2,
        reply: 0,
        number: 1,
        label: 7,
    };
    Message {
        header,
        payload: Payload::new(Vec::new(rt.alloc())),
    }
}

/// With memory there is a receive record, which takes a message and gives it under its first token.
#[test]
fn a_new_record_takes_a_message(rt: HostRuntime) {
    let mut record = ReceiveEp::new(rt.alloc()).expect(&rt, "memory");
    record.open(GrantId::new(1), 2, 16);
    assert!(rt; record.deposit(message(&rt)).is_ok());
    assert_eq!(rt; record.unread_len(), 1);
    assert_eq!(rt; record.front().map(|m| m.header.label), Some(7));
    assert_eq!(rt; record.fetch(), Some(0));
    assert_eq!(rt; record.fetched(0).map(|m| m.header.label), Some(7));
    assert_eq!(rt; record.fetched_token(0), Some(0));
}

use m3_base::command::Command;
use m3_base::ids::{ActId, EpId, GrantId};
use m3_base::packet::Fresh;
use m3_base::payload::Payload;
use m3_core::arrived::Arrived;
use m3_core::context::Context;
use m3_core::issued::Issued;

/// With memory there is a context, and what its activity sends to itself lands there.
#[test]
fn a_message_to_itself_lands(rt: HostRuntime) {
    let act = ActId::new(3);
    let mut context = Context::new(rt.alloc(), act).expect(&rt, "memory");
    let inbox = EpId::new(0);
    let outbox = EpId::new(1);
    let grant = GrantId::new(1);
    context.install(
        inbox,
        Fresh::Receive {
            grant,
            slots: 2,
            size: 16,
        },
    );
    context.install(
        outbox,
        Fresh::Send {
            grant: GrantId::new(2),
            to: act,
            to_ep: inbox,
            to_grant: grant,
            label: 7,
            size: 16,
            limit: 2,
        },
    );
    let send = Command::Send {
        ep: outbox,
        payload: Payload::new(Vec::new(rt.alloc())),
        reply: None,
    };
    let issued = context.issue(send, Payload::new(Vec::new(rt.alloc())));
    let landed = match issued {
        Issued::Flies(_, packet) => {
            context.fits(&packet) && matches!(context.arrive(packet), Arrived::Landed(_))
        }
        _ => false,
    };
    assert!(rt; landed);
    assert!(rt; context.busy());
    assert_eq!(rt; context.held(GrantId::new(2)), Some(1));
    assert_eq!(rt; context.queued(GrantId::new(2)), 1);
    let mut held = [0; 3];
    let mut queued = [0; 3];
    context.count(&mut held, &mut queued);
    assert_eq!(rt; held, [0, 0, 1]);
    assert_eq!(rt; queued, [0, 0, 1]);
    assert_eq!(rt; context.front(inbox).map(|m| m.header.label), Some(7));
}

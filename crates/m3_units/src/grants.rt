//! What no clause says: that grants are made where memory suffices.

ghost use Rattle.std.specs.Prelude.{◌≡◌, ◌<◌};

use m3_base::ids::{ActId, EpId, GrantId};
use m3_base::order::GrantLine;
use m3_base::packet::Perm;
use m3_base::setup::Setup;
use m3_grants::grants::Grants;
use m3_grants::refusal::GrantRefusal;

// The endpoint of this number, of 16 for each activity.
fn endpoint(at: u16) -> (ActId, EpId)
    requires { at < 1024 }
{
    (ActId::new((at / 16) as u8), EpId::new((at % 16) as u8))
}

fn range(at: u16, from: u32, len: u32, perm: Perm) -> GrantLine
    requires { at < 1024 }
{
    let (act, ep) = endpoint(at);
    GrantLine::Range {
        act,
        ep,
        at: from,
        len,
        perm,
    }
}

fn part(at: u16, of: GrantId, from: u32, len: u32, perm: Perm) -> GrantLine
    requires { at < 1024 }
{
    let (act, ep) = endpoint(at);
    GrantLine::Part {
        act,
        ep,
        of,
        at: from,
        len,
        perm,
    }
}

fn send(at: u16, of: GrantId) -> GrantLine
    requires { at < 1024 }
{
    let (act, ep) = endpoint(at);
    GrantLine::Send {
        act,
        ep,
        of,
        label: 7,
        credits: 1,
    }
}

// The Close that is due goes out, and the grant is done: the root's number where it is one.
fn close_one(grants: &mut Grants) -> Option<GrantId> {
    let due = grants.next_close()?;
    grants.sent(due);
    grants.closed(due)
}

#[test]
fn refusals_come_in_their_order(rt: HostRuntime) {
    let alloc = rt.alloc();
    let setup = Setup::new(alloc, 4, 4096).expect(&rt, "four tiles are fine");
    let mut grants = Grants::new(alloc, &setup).expect(&rt, "there is memory");
    let memory = GrantId::new(1);
    let mailbox = GrantId::new(2);
    let (act, ep) = endpoint(17);
    let receives = GrantLine::Recv {
        act,
        ep,
        slots: 2,
        size: 16,
    };
    assert_eq!(rt; grants.make(range(16, 0, 1024, Perm::R)), Ok(memory));
    assert_eq!(rt; grants.make(receives), Ok(mailbox));
    for (line, refusal) in [
        (send(16, GrantId::new(9)), GrantRefusal::NoGrant),
        (send(16, memory), GrantRefusal::NoGrant),
        (part(16, mailbox, 0, 1, Perm::R), GrantRefusal::NoGrant),
        (part(16, memory, 1000, 25, Perm::W), GrantRefusal::SlotTaken),
        (
            part(18, memory, 1000, 25, Perm::W),
            GrantRefusal::OutsideParent,
        ),
        (range(18, 4096, 1, Perm::R), GrantRefusal::OutsideParent),
        (
            part(18, memory, 1000, 24, Perm::Rw),
            GrantRefusal::MorePermission,
        ),
    ] {
        assert_eq!(rt; grants.make(line), Err(refusal));
    }
    for at in 0..64u16 {
        assert!(rt; grants.make(send(32 + at, mailbox)).is_ok());
    }
    assert_eq!(rt;
        grants.make(send(17, mailbox)),
        Err(GrantRefusal::SlotTaken)
    );
    assert_eq!(rt; grants.make(send(18, mailbox)), Err(GrantRefusal::TooMany));
    assert_eq!(rt; grants.revoke(memory), Ok(()));
    assert_eq!(rt; grants.revoke(memory), Err(GrantRefusal::Closing));
    assert_eq!(rt;
        grants.make(part(16, memory, 1000, 25, Perm::W)),
        Err(GrantRefusal::Closing)
    );
    assert_eq!(rt; close_one(&mut grants), Some(memory));
    assert_eq!(rt; grants.revoke(memory), Err(GrantRefusal::NoGrant));
    assert_eq!(rt;
        grants.make(part(16, memory, 1000, 25, Perm::W)),
        Err(GrantRefusal::NoGrant)
    );
}

#[test]
fn a_tree_is_closed_from_its_leaves(rt: HostRuntime) {
    let alloc = rt.alloc();
    let setup = Setup::new(alloc, 4, 4096).expect(&rt, "four tiles are fine");
    let mut grants = Grants::new(alloc, &setup).expect(&rt, "there is memory");
    for round in 0..4u16 {
        let root = GrantId::new(round * 1024 + 1);
        assert_eq!(rt; grants.make(range(0, 0, 64, Perm::Rw)), Ok(root));
        for at in 1..1024u16 {
            let of = GrantId::new(round * 1024 + 1 + (at - 1) / 2);
            assert!(rt; grants.make(part(at, of, 0, 64, Perm::Rw)).is_ok());
        }
        assert_eq!(rt; grants.revoke(root), Ok(()));
        for _ in 1..1024u16 {
            assert_eq!(rt; close_one(&mut grants), None);
        }
        assert_eq!(rt; close_one(&mut grants), Some(root));
        assert_eq!(rt; grants.next_close(), None);
    }
    assert_eq!(rt;
        grants.make(range(0, 0, 64, Perm::Rw)),
        Err(GrantRefusal::TooMany)
    );
}

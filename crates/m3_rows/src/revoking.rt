//! Grants that are made and revoked while the machine runs.

use crate::runs::expect_run;
use std::alloc::AllocError;

/// Activity 0 sends to activity 1.
const PAIR: &[u8] =
    b"machine tiles 4 memory 4096\nact 0 tile 2\nact 1 tile 3\nrecv 1 0 slots 2 size 16\nsend 0 0 of 1 label 7 credits 2\n";

/// As above, and activity 0 waits for replies at another endpoint.
const ASKING: &[u8] =
    b"machine tiles 4 memory 4096\nact 0 tile 2\nact 1 tile 3\nrecv 1 0 slots 2 size 16\nrecv 0 1 slots 1 size 16\nsend 0 0 of 1 label 7 credits 2\n";

/// Activity 0 has two ways to activity 1.
const TREE: &[u8] =
    b"machine tiles 4 memory 4096\nact 0 tile 2\nact 1 tile 3\nrecv 1 0 slots 2 size 16\nsend 0 0 of 1 label 7 credits 2\nsend 0 1 of 1 label 8 credits 1\n";

/// Activity 0 has bytes of memory, to read and to write.
const BYTES: &[u8] = b"machine tiles 4 memory 4096\nact 0 tile 2\nrange 0 2 at 0 len 16 perm rw\n";

/// Activity 0 has bytes of memory, to read.
const READER: &[u8] = b"machine tiles 3 memory 4096\nact 0 tile 2\nrange 0 0 at 0 len 64 perm r\n";

/// Activity 0 shares its tile with activity 2, and sends to activity 1.
const SHARED: &[u8] =
    b"machine tiles 4 memory 4096\nact 0 tile 2\nact 1 tile 3\nact 2 tile 2\nrecv 1 0 slots 2 size 16\nsend 0 0 of 1 label 7 credits 2\n";

/// An endpoint that was revoked gets another grant, and a credit of the first comes too late for it.
#[test]
fn a_late_credit_is_discarded(rt: HostRuntime) -> Result<(), AllocError> {
    let told = [
        (b"do 0 send 0 01".as_slice(), b"flying 0.1".as_slice()),
        (b"take 3 2".as_slice(), b"landed 0.1".as_slice()),
        (b"take 2 3".as_slice(), b"answered 0.1 sent".as_slice()),
        (
            b"do 1 fetch 0".as_slice(),
            b"message 0 from 0 label 7 01".as_slice(),
        ),
        (b"revoke 2".as_slice(), b"revoking 2".as_slice()),
        (b"close".as_slice(), b"close 2 k.1 routed".as_slice()),
        (b"take 2 0".as_slice(), b"closed k.1 2".as_slice()),
        (b"take 0 2".as_slice(), b"done 2 revoked 2".as_slice()),
        (
            b"grant send 0 0 of 1 label 9 credits 1".as_slice(),
            b"granted 3 k.2 routed".as_slice(),
        ),
        (b"take 2 0".as_slice(), b"installed k.2 3".as_slice()),
        (
            b"do 1 ack 0 0".as_slice(),
            b"acknowledged credit 1.1".as_slice(),
        ),
        (b"take 2 3".as_slice(), b"discarded 1.1 2".as_slice()),
    ];
    let audit =
        b"audit credit 3 held 1 flying 0 queued 0 limit 1\naudit tile 2 act 0\naudit tile 3 act 1\naudit flights 0\naudit quiet yes\n";
    expect_run(&rt, rt.alloc(), PAIR, told.as_slice(), audit)
}

/// A command that flies ends before its endpoint is closed.
#[test]
fn a_revoke_waits_for_a_flying_command(rt: HostRuntime) -> Result<(), AllocError> {
    let told = [
        (b"do 0 write 2 0 ab".as_slice(), b"flying 0.1".as_slice()),
        (b"revoke 1".as_slice(), b"revoking 1".as_slice()),
        (b"close".as_slice(), b"close 1 k.1 routed".as_slice()),
        (b"take 2 0".as_slice(), b"closing k.1 1".as_slice()),
        (b"do 0 write 2 0 cd".as_slice(), b"idle busy".as_slice()),
        (b"close".as_slice(), b"idle nothing-to-close".as_slice()),
        (b"take 1 2".as_slice(), b"landed 0.1".as_slice()),
        (
            b"take 2 1".as_slice(),
            b"answered 0.1 written closed 1".as_slice(),
        ),
        (b"take 0 2".as_slice(), b"done 1 revoked 1".as_slice()),
        (
            b"do 0 write 2 0 cd".as_slice(),
            b"refused 1 no-endpoint".as_slice(),
        ),
    ];
    let audit = b"audit tile 2 act 0\naudit tile 3 none\naudit flights 0\naudit quiet yes\n";
    expect_run(&rt, rt.alloc(), BYTES, told.as_slice(), audit)
}

/// A reply that flies lands, though the endpoint from which it comes is closing.
#[test]
fn a_reply_ends_before_its_endpoint_closes(rt: HostRuntime) -> Result<(), AllocError> {
    let told = [
        (
            b"do 0 send 0 01 reply 1".as_slice(),
            b"flying 0.1".as_slice(),
        ),
        (b"take 3 2".as_slice(), b"landed 0.1".as_slice()),
        (b"take 2 3".as_slice(), b"answered 0.1 sent".as_slice()),
        (
            b"do 1 fetch 0".as_slice(),
            b"message 0 from 0 label 7 01".as_slice(),
        ),
        (b"do 1 reply 0 0 aa".as_slice(), b"flying 1.1".as_slice()),
        (b"revoke 1".as_slice(), b"revoking 1".as_slice()),
        (b"close".as_slice(), b"close 3 k.1 routed".as_slice()),
        (b"take 2 0".as_slice(), b"closed k.1 3".as_slice()),
        (b"take 0 2".as_slice(), b"done 3".as_slice()),
        (b"close".as_slice(), b"close 1 k.2 routed".as_slice()),
        (b"take 3 0".as_slice(), b"closing k.2 1".as_slice()),
        (b"do 1 fetch 0".as_slice(), b"refused 4 revoked".as_slice()),
        (b"take 2 3".as_slice(), b"landed 1.1".as_slice()),
        (
            b"take 3 2".as_slice(),
            b"answered 1.1 replied closed 1".as_slice(),
        ),
        (b"take 0 3".as_slice(), b"done 1 revoked 1".as_slice()),
    ];
    let audit = b"audit tile 2 act 0\naudit tile 3 act 1\naudit flights 0\naudit quiet yes\n";
    expect_run(&rt, rt.alloc(), ASKING, told.as_slice(), audit)
}

/// What stands under a grant is closed before it is, and each revoke is answered by its own root.
#[test]
fn children_are_closed_first(rt: HostRuntime) -> Result<(), AllocError> {
    let told = [
        (b"revoke 2".as_slice(), b"revoking 2".as_slice()),
        (b"revoke 1".as_slice(), b"revoking 1".as_slice()),
        (b"revoke 2".as_slice(), b"refused closing".as_slice()),
        (b"close".as_slice(), b"close 2 k.1 routed".as_slice()),
        (b"close".as_slice(), b"close 3 k.2 routed".as_slice()),
        (b"close".as_slice(), b"idle nothing-to-close".as_slice()),
        (b"take 2 0".as_slice(), b"closed k.1 2".as_slice()),
        (b"take 2 0".as_slice(), b"closed k.2 3".as_slice()),
        (b"take 0 2".as_slice(), b"done 2 revoked 2".as_slice()),
        (b"take 0 2".as_slice(), b"done 3".as_slice()),
        (b"close".as_slice(), b"close 1 k.3 routed".as_slice()),
        (b"take 3 0".as_slice(), b"closed k.3 1".as_slice()),
        (b"take 0 3".as_slice(), b"done 1 revoked 1".as_slice()),
        (
            b"grant send 0 0 of 1 label 7 credits 1".as_slice(),
            b"refused no-grant".as_slice(),
        ),
        (b"revoke 1".as_slice(), b"refused no-grant".as_slice()),
    ];
    let audit = b"audit tile 2 act 0\naudit tile 3 act 1\naudit flights 0\naudit quiet yes\n";
    expect_run(&rt, rt.alloc(), TREE, told.as_slice(), audit)
}

/// A part of a range is refused where it goes past the range or permits more, and where its endpoint is taken or its
/// parent isn't there.
#[test]
fn a_part_keeps_within_its_range(rt: HostRuntime) -> Result<(), AllocError> {
    let told = [
        (
            b"grant part 0 1 of 1 at 32 len 33 perm r".as_slice(),
            b"refused outside-parent".as_slice(),
        ),
        (
            b"grant part 0 1 of 1 at 32 len 32 perm rw".as_slice(),
            b"refused more-permission".as_slice(),
        ),
        (
            b"grant part 0 0 of 1 at 0 len 1 perm r".as_slice(),
            b"refused slot-taken".as_slice(),
        ),
        (
            b"grant part 0 1 of 9 at 0 len 1 perm r".as_slice(),
            b"refused no-grant".as_slice(),
        ),
        (
            b"grant part 0 1 of 1 at 32 len 32 perm r".as_slice(),
            b"granted 2 k.1 routed".as_slice(),
        ),
        (b"take 2 0".as_slice(), b"installed k.1 2".as_slice()),
    ];
    let audit = b"audit tile 2 act 0\naudit flights 0\naudit quiet yes\n";
    expect_run(&rt, rt.alloc(), READER, told.as_slice(), audit)
}

/// Of the causes that refuse a grant the first is told: each of these lines has all that come after its own, as far as
/// one line can.
#[test]
fn the_first_cause_refuses_a_grant(rt: HostRuntime) -> Result<(), AllocError> {
    let told = [
        (
            b"grant part 0 0 of 9 at 64 len 1 perm rw".as_slice(),
            b"refused no-grant".as_slice(),
        ),
        (
            b"grant send 0 0 of 1 label 0 credits 1".as_slice(),
            b"refused no-grant".as_slice(),
        ),
        (
            b"grant part 0 0 of 1 at 64 len 1 perm rw".as_slice(),
            b"refused slot-taken".as_slice(),
        ),
        (
            b"grant part 0 1 of 1 at 64 len 1 perm rw".as_slice(),
            b"refused outside-parent".as_slice(),
        ),
        (
            b"grant range 0 1 at 4096 len 1 perm rw".as_slice(),
            b"refused outside-parent".as_slice(),
        ),
        (
            b"grant part 0 1 of 1 at 0 len 1 perm w".as_slice(),
            b"refused more-permission".as_slice(),
        ),
        (b"revoke 1".as_slice(), b"revoking 1".as_slice()),
        (
            b"grant part 0 0 of 1 at 64 len 1 perm rw".as_slice(),
            b"refused closing".as_slice(),
        ),
    ];
    let audit = b"audit tile 2 act 0\naudit flights 0\naudit quiet no\n";
    expect_run(&rt, rt.alloc(), READER, told.as_slice(), audit)
}

/// A receive grant has at most 64 children that aren't done: one that is closing counts, and one that is done doesn't.
#[test]
fn the_sixty_fifth_child_is_refused(rt: HostRuntime) -> Result<(), AllocError> {
    let alloc = rt.alloc();
    let mut setup = Vec::from_slice(
        alloc,
        b"machine tiles 7 memory 1\nact 0 tile 2\nact 1 tile 3\nact 2 tile 4\nact 3 tile 5\nact 4 tile 6\nrecv 0 0 slots 1 size 1\n",
    )?;
    for act in 1..5 {
        for ep in 0..16 {
            let line = format!(in alloc; "send {act} {ep} of 1 label 0 credits 1\n")?;
            setup.extend_from_slice(line.as_bytes())?;
        }
    }
    let told = [
        (
            b"grant send 0 1 of 1 label 0 credits 1".as_slice(),
            b"refused too-many".as_slice(),
        ),
        (
            b"grant send 1 0 of 1 label 0 credits 1".as_slice(),
            b"refused slot-taken".as_slice(),
        ),
        (b"revoke 2".as_slice(), b"revoking 2".as_slice()),
        (
            b"grant send 0 1 of 1 label 0 credits 1".as_slice(),
            b"refused too-many".as_slice(),
        ),
        (b"close".as_slice(), b"close 2 k.1 routed".as_slice()),
        (b"take 3 0".as_slice(), b"closed k.1 2".as_slice()),
        (b"take 0 3".as_slice(), b"done 2 revoked 2".as_slice()),
        (
            b"grant send 0 1 of 1 label 0 credits 1".as_slice(),
            b"granted 66 k.2 routed".as_slice(),
        ),
    ];
    let mut audit = Vec::new(alloc);
    for grant in 3..67 {
        let line = format!(in alloc; "audit credit {grant} held 1 flying 0 queued 0 limit 1\n")?;
        audit.extend_from_slice(line.as_bytes())?;
    }
    audit.extend_from_slice(
        b"audit tile 2 act 0\naudit tile 3 act 1\naudit tile 4 act 2\naudit tile 5 act 3\naudit tile 6 act 4\naudit flights 1\naudit quiet no\n",
    )?;
    expect_run(
        &rt,
        alloc,
        setup.as_slice(),
        told.as_slice(),
        audit.as_slice(),
    )
}

/// The Close of a grant, the answer that its endpoint waits for and the Install of the next grant reach a holder that is
/// away, in the kernel.
#[test]
fn a_revoke_reaches_an_absent_holder(rt: HostRuntime) -> Result<(), AllocError> {
    let told = [
        (b"do 0 send 0 6869".as_slice(), b"flying 0.1".as_slice()),
        (b"switch 2 2".as_slice(), b"save 0".as_slice()),
        (b"take 2 0".as_slice(), b"saving 0".as_slice()),
        (b"take 0 2".as_slice(), b"saved 0 restore 2".as_slice()),
        (b"take 2 0".as_slice(), b"current 2".as_slice()),
        (b"revoke 2".as_slice(), b"revoking 2".as_slice()),
        (b"close".as_slice(), b"close 2 k.1 held".as_slice()),
        (b"take 3 2".as_slice(), b"landed 0.1".as_slice()),
        (b"tend 0".as_slice(), b"closing k.1 2".as_slice()),
        (b"take 2 3".as_slice(), b"bounced 0.1".as_slice()),
        (b"take 0 2".as_slice(), b"held 0.1 0".as_slice()),
        (
            b"tend 0".as_slice(),
            b"answered 0.1 sent closed 2".as_slice(),
        ),
        (b"take 0 0".as_slice(), b"done 2 revoked 2".as_slice()),
        (
            b"grant send 0 0 of 1 label 9 credits 1".as_slice(),
            b"granted 3 k.2 held".as_slice(),
        ),
        (b"switch 2 0".as_slice(), b"save 2".as_slice()),
        (b"take 2 0".as_slice(), b"saving 2".as_slice()),
        (b"take 0 2".as_slice(), b"saved 2".as_slice()),
        (
            b"tend 0".as_slice(),
            b"installed k.2 3 restore 0".as_slice(),
        ),
        (b"take 2 0".as_slice(), b"current 0".as_slice()),
        (b"do 0 send 0 6a".as_slice(), b"flying 0.2".as_slice()),
    ];
    let audit =
        b"audit credit 3 held 0 flying 1 queued 0 limit 1\naudit tile 2 act 0\naudit tile 3 act 1\naudit flights 1\naudit quiet no\n";
    expect_run(&rt, rt.alloc(), SHARED, told.as_slice(), audit)
}

//! Activities that share a tile: switches, and what comes for one that is away.

use crate::runs::expect_run;
use std::alloc::AllocError;

/// Activity 0 sends to activity 1, which shares its tile with activity 2.
const RECEIVERS: &[u8] =
    b"machine tiles 4 memory 4096\nact 0 tile 2\nact 1 tile 3\nact 2 tile 3\nrecv 1 0 slots 2 size 16\nsend 0 0 of 1 label 7 credits 2\n";

/// Activity 0, which shares its tile with activity 2, sends to activity 1.
const SENDERS: &[u8] =
    b"machine tiles 4 memory 4096\nact 0 tile 2\nact 1 tile 3\nact 2 tile 2\nrecv 1 0 slots 2 size 16\nsend 0 0 of 1 label 7 credits 2\n";

/// A message that landed before a switch is fetched after the switch back.
#[test]
fn a_message_waits_for_its_reader(rt: HostRuntime) -> Result<(), AllocError> {
    let told = [
        (b"do 0 send 0 6869".as_slice(), b"flying 0.1".as_slice()),
        (b"take 3 2".as_slice(), b"landed 0.1".as_slice()),
        (b"take 2 3".as_slice(), b"answered 0.1 sent".as_slice()),
        (b"switch 3 2".as_slice(), b"save 1".as_slice()),
        (b"take 3 0".as_slice(), b"saving 1".as_slice()),
        (b"take 0 3".as_slice(), b"saved 1 restore 2".as_slice()),
        (b"take 3 0".as_slice(), b"current 2".as_slice()),
        (b"switch 3 1".as_slice(), b"save 2".as_slice()),
        (b"take 3 0".as_slice(), b"saving 2".as_slice()),
        (b"take 0 3".as_slice(), b"saved 2 restore 1".as_slice()),
        (b"take 3 0".as_slice(), b"current 1".as_slice()),
        (
            b"do 1 fetch 0".as_slice(),
            b"message 0 from 0 label 7 6869".as_slice(),
        ),
    ];
    let audit =
        b"audit credit 2 held 1 flying 0 queued 1 limit 2\naudit tile 2 act 0\naudit tile 3 act 1\naudit flights 0\naudit quiet yes\n";
    expect_run(&rt, rt.alloc(), RECEIVERS, told.as_slice(), audit)
}

/// A message for an activity that is away bounces, is held, and lands in the kernel.
#[test]
fn a_message_finds_an_absent_receiver(rt: HostRuntime) -> Result<(), AllocError> {
    let told = [
        (b"switch 3 2".as_slice(), b"save 1".as_slice()),
        (b"take 3 0".as_slice(), b"saving 1".as_slice()),
        (b"take 0 3".as_slice(), b"saved 1 restore 2".as_slice()),
        (b"take 3 0".as_slice(), b"current 2".as_slice()),
        (b"do 0 send 0 6869".as_slice(), b"flying 0.1".as_slice()),
        (b"take 3 2".as_slice(), b"bounced 0.1".as_slice()),
        (b"take 0 3".as_slice(), b"held 0.1 1".as_slice()),
        (b"tend 1".as_slice(), b"landed 0.1".as_slice()),
        (b"take 2 0".as_slice(), b"answered 0.1 sent".as_slice()),
        (b"do 1 fetch 0".as_slice(), b"idle not-current".as_slice()),
    ];
    let audit =
        b"audit credit 2 held 1 flying 0 queued 1 limit 2\naudit tile 2 act 0\naudit tile 3 act 2\naudit flights 0\naudit quiet yes\n";
    expect_run(&rt, rt.alloc(), RECEIVERS, told.as_slice(), audit)
}

/// An activity comes back when what was held for it has landed.
#[test]
fn what_is_held_comes_first(rt: HostRuntime) -> Result<(), AllocError> {
    let told = [
        (b"switch 3 2".as_slice(), b"save 1".as_slice()),
        (b"take 3 0".as_slice(), b"saving 1".as_slice()),
        (b"take 0 3".as_slice(), b"saved 1 restore 2".as_slice()),
        (b"take 3 0".as_slice(), b"current 2".as_slice()),
        (b"do 0 send 0 6869".as_slice(), b"flying 0.1".as_slice()),
        (b"take 3 2".as_slice(), b"bounced 0.1".as_slice()),
        (b"take 0 3".as_slice(), b"held 0.1 1".as_slice()),
        (b"switch 3 1".as_slice(), b"save 2".as_slice()),
        (b"take 3 0".as_slice(), b"saving 2".as_slice()),
        (b"take 0 3".as_slice(), b"saved 2".as_slice()),
        (b"tend 1".as_slice(), b"landed 0.1 restore 1".as_slice()),
        (b"take 3 0".as_slice(), b"current 1".as_slice()),
        (
            b"do 1 fetch 0".as_slice(),
            b"message 0 from 0 label 7 6869".as_slice(),
        ),
    ];
    let audit =
        b"audit credit 2 held 1 flying 0 queued 1 limit 2\naudit tile 2 act 0\naudit tile 3 act 1\naudit flights 1\naudit quiet no\n";
    expect_run(&rt, rt.alloc(), RECEIVERS, told.as_slice(), audit)
}

/// An answer for an activity that is away reaches it by the kernel, and the next command flies.
#[test]
fn an_answer_finds_an_absent_issuer(rt: HostRuntime) -> Result<(), AllocError> {
    let told = [
        (b"do 0 send 0 6869".as_slice(), b"flying 0.1".as_slice()),
        (b"switch 2 2".as_slice(), b"save 0".as_slice()),
        (b"take 3 2".as_slice(), b"landed 0.1".as_slice()),
        (b"take 2 0".as_slice(), b"saving 0".as_slice()),
        (b"take 2 3".as_slice(), b"bounced 0.1".as_slice()),
        (b"take 0 2".as_slice(), b"saved 0 restore 2".as_slice()),
        (b"take 0 2".as_slice(), b"held 0.1 0".as_slice()),
        (b"take 2 0".as_slice(), b"current 2".as_slice()),
        (b"tend 0".as_slice(), b"answered 0.1 sent".as_slice()),
        (b"switch 2 0".as_slice(), b"save 2".as_slice()),
        (b"take 2 0".as_slice(), b"saving 2".as_slice()),
        (b"take 0 2".as_slice(), b"saved 2 restore 0".as_slice()),
        (b"take 2 0".as_slice(), b"current 0".as_slice()),
        (b"do 0 send 0 6a".as_slice(), b"flying 0.2".as_slice()),
    ];
    let audit =
        b"audit credit 2 held 0 flying 1 queued 1 limit 2\naudit tile 2 act 0\naudit tile 3 act 1\naudit flights 1\naudit quiet no\n";
    expect_run(&rt, rt.alloc(), SENDERS, told.as_slice(), audit)
}

/// Events that can do nothing, and switches that the kernel refuses, by their causes.
#[test]
fn idle_events_and_refused_switches(rt: HostRuntime) -> Result<(), AllocError> {
    let told = [
        (b"do 1 fetch 0".as_slice(), b"none".as_slice()),
        (b"do 0 send 0 ff".as_slice(), b"flying 0.1".as_slice()),
        (b"do 0 send 0 ff".as_slice(), b"idle busy".as_slice()),
        (b"take 2 3".as_slice(), b"idle empty-link".as_slice()),
        (b"tend 0".as_slice(), b"idle not-resting".as_slice()),
        (b"tend 2".as_slice(), b"idle empty-hold".as_slice()),
        (b"close".as_slice(), b"idle nothing-to-close".as_slice()),
        (b"switch 3 0".as_slice(), b"refused not-home".as_slice()),
        (b"switch 3 1".as_slice(), b"refused already".as_slice()),
        (b"switch 3 2".as_slice(), b"save 1".as_slice()),
        (b"switch 3 2".as_slice(), b"refused already".as_slice()),
        (b"switch 3 1".as_slice(), b"refused leaving".as_slice()),
    ];
    let audit =
        b"audit credit 2 held 1 flying 1 queued 0 limit 2\naudit tile 2 act 0\naudit tile 3 act 1\naudit flights 1\naudit quiet no\n";
    expect_run(&rt, rt.alloc(), RECEIVERS, told.as_slice(), audit)
}

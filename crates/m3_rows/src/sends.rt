//! Messages from one activity to another.

use crate::runs::expect_run;
use std::alloc::AllocError;

/// Activity 0 sends to activity 1, with two credits.
const PAIR: &[u8] =
    b"machine tiles 4 memory 4096\nact 0 tile 2\nact 1 tile 3\nrecv 1 0 slots 2 size 16\nsend 0 0 of 1 label 7 credits 2\n";

/// Activity 0 has two ways to activity 1, with four credits for two slots.
const CROWD: &[u8] =
    b"machine tiles 4 memory 4096\nact 0 tile 2\nact 1 tile 3\nrecv 1 0 slots 2 size 16\nsend 0 0 of 1 label 7 credits 2\nsend 0 1 of 1 label 8 credits 2\n";

/// A message is sent, lands, is answered and fetched.
#[test]
fn the_first_message(rt: HostRuntime) -> Result<(), AllocError> {
    let told = [
        (b"do 0 send 0 6869".as_slice(), b"flying 0.1".as_slice()),
        (b"take 3 2".as_slice(), b"landed 0.1".as_slice()),
        (b"take 2 3".as_slice(), b"answered 0.1 sent".as_slice()),
        (
            b"do 1 fetch 0".as_slice(),
            b"message 0 from 0 label 7 6869".as_slice(),
        ),
    ];
    let audit =
        b"audit credit 2 held 1 flying 0 queued 1 limit 2\naudit tile 2 act 0\naudit tile 3 act 1\naudit flights 0\naudit quiet yes\n";
    expect_run(&rt, rt.alloc(), PAIR, told.as_slice(), audit)
}

/// A message may have no bytes.
#[test]
fn a_message_without_bytes(rt: HostRuntime) -> Result<(), AllocError> {
    let told = [
        (b"do 0 send 0 -".as_slice(), b"flying 0.1".as_slice()),
        (b"take 3 2".as_slice(), b"landed 0.1".as_slice()),
        (b"take 2 3".as_slice(), b"answered 0.1 sent".as_slice()),
        (
            b"do 1 fetch 0".as_slice(),
            b"message 0 from 0 label 7 -".as_slice(),
        ),
    ];
    let audit =
        b"audit credit 2 held 1 flying 0 queued 1 limit 2\naudit tile 2 act 0\naudit tile 3 act 1\naudit flights 0\naudit quiet yes\n";
    expect_run(&rt, rt.alloc(), PAIR, told.as_slice(), audit)
}

/// A message of as many bytes as a slot holds is sent, and one byte more is refused.
#[test]
fn a_message_fills_its_slot(rt: HostRuntime) -> Result<(), AllocError> {
    let told = [
        (
            b"do 0 send 0 000102030405060708090a0b0c0d0e0f10".as_slice(),
            b"refused 3 too-large".as_slice(),
        ),
        (
            b"do 0 send 0 000102030405060708090a0b0c0d0e0f".as_slice(),
            b"flying 0.1".as_slice(),
        ),
    ];
    let audit =
        b"audit credit 2 held 1 flying 1 queued 0 limit 2\naudit tile 2 act 0\naudit tile 3 act 1\naudit flights 1\naudit quiet no\n";
    expect_run(&rt, rt.alloc(), PAIR, told.as_slice(), audit)
}

/// A send without a credit is refused.
#[test]
fn no_credit_is_left(rt: HostRuntime) -> Result<(), AllocError> {
    let told = [
        (b"do 0 send 0 01".as_slice(), b"flying 0.1".as_slice()),
        (b"take 3 2".as_slice(), b"landed 0.1".as_slice()),
        (b"take 2 3".as_slice(), b"answered 0.1 sent".as_slice()),
        (b"do 0 send 0 02".as_slice(), b"flying 0.2".as_slice()),
        (b"take 3 2".as_slice(), b"landed 0.2".as_slice()),
        (b"take 2 3".as_slice(), b"answered 0.2 sent".as_slice()),
        (
            b"do 0 send 0 03".as_slice(),
            b"refused 2 no-credits".as_slice(),
        ),
    ];
    let audit =
        b"audit credit 2 held 0 flying 0 queued 2 limit 2\naudit tile 2 act 0\naudit tile 3 act 1\naudit flights 0\naudit quiet yes\n";
    expect_run(&rt, rt.alloc(), PAIR, told.as_slice(), audit)
}

/// Where no slot is free the message is refused, and gives its credit back.
#[test]
fn a_full_buffer_refuses(rt: HostRuntime) -> Result<(), AllocError> {
    let told = [
        (b"do 0 send 0 01".as_slice(), b"flying 0.1".as_slice()),
        (b"take 3 2".as_slice(), b"landed 0.1".as_slice()),
        (b"take 2 3".as_slice(), b"answered 0.1 sent".as_slice()),
        (b"do 0 send 1 02".as_slice(), b"flying 0.2".as_slice()),
        (b"take 3 2".as_slice(), b"landed 0.2".as_slice()),
        (b"take 2 3".as_slice(), b"answered 0.2 sent".as_slice()),
        (b"do 0 send 1 03".as_slice(), b"flying 0.3".as_slice()),
        (b"take 3 2".as_slice(), b"refused 0.3 5 full".as_slice()),
        (
            b"take 2 3".as_slice(),
            b"answered 0.3 refused 5 full".as_slice(),
        ),
    ];
    let audit =
        b"audit credit 2 held 1 flying 0 queued 1 limit 2\naudit credit 3 held 1 flying 0 queued 1 limit 2\naudit tile 2 act 0\naudit tile 3 act 1\naudit flights 0\naudit quiet yes\n";
    expect_run(&rt, rt.alloc(), CROWD, told.as_slice(), audit)
}

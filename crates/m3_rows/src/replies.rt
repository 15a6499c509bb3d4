//! Replies, acknowledgements and credits.

use crate::runs::expect_run;
use std::alloc::AllocError;

/// Activity 0 asks activity 1, which replies to a buffer of one slot.
const ASKING: &[u8] =
    b"machine tiles 4 memory 4096\nact 0 tile 2\nact 1 tile 3\nrecv 1 0 slots 2 size 16\nrecv 0 1 slots 1 size 16\nsend 0 0 of 1 label 7 credits 2\n";

/// Activity 0 sends to activity 1, and may read bytes of memory.
const READING: &[u8] =
    b"machine tiles 4 memory 4096\nact 0 tile 2\nact 1 tile 3\nrecv 1 0 slots 2 size 16\nsend 0 0 of 1 label 7 credits 2\nrange 0 2 at 0 len 16 perm r\n";

/// A reply that finds no slot is refused, and its message can still be acknowledged.
#[test]
fn a_refused_reply_leaves_its_message(rt: HostRuntime) -> Result<(), AllocError> {
    let told = [
        (
            b"do 0 send 0 01 reply 1".as_slice(),
            b"flying 0.1".as_slice(),
        ),
        (b"take 3 2".as_slice(), b"landed 0.1".as_slice()),
        (b"take 2 3".as_slice(), b"answered 0.1 sent".as_slice()),
        (
            b"do 0 send 0 02 reply 1".as_slice(),
            b"flying 0.2".as_slice(),
        ),
        (b"take 3 2".as_slice(), b"landed 0.2".as_slice()),
        (b"take 2 3".as_slice(), b"answered 0.2 sent".as_slice()),
        (
            b"do 1 fetch 0".as_slice(),
            b"message 0 from 0 label 7 01".as_slice(),
        ),
        (b"do 1 reply 0 0 aa".as_slice(), b"flying 1.1".as_slice()),
        (b"take 2 3".as_slice(), b"landed 1.1".as_slice()),
        (b"take 3 2".as_slice(), b"answered 1.1 replied".as_slice()),
        (
            b"do 1 fetch 0".as_slice(),
            b"message 1 from 0 label 7 02".as_slice(),
        ),
        (b"do 1 reply 0 1 bb".as_slice(), b"flying 1.2".as_slice()),
        (b"take 2 3".as_slice(), b"refused 1.2 5 full".as_slice()),
        (
            b"take 3 2".as_slice(),
            b"answered 1.2 refused 5 full".as_slice(),
        ),
        (
            b"do 1 ack 0 1".as_slice(),
            b"acknowledged credit 1.3".as_slice(),
        ),
        (b"take 2 3".as_slice(), b"credited 1.3 3".as_slice()),
        (
            b"do 0 fetch 1".as_slice(),
            b"reply 0 from 1 label 7 aa".as_slice(),
        ),
    ];
    let audit =
        b"audit credit 3 held 2 flying 0 queued 0 limit 2\naudit tile 2 act 0\naudit tile 3 act 1\naudit flights 0\naudit quiet yes\n";
    expect_run(&rt, rt.alloc(), ASKING, told.as_slice(), audit)
}

/// Each refusal at issue leaves everything as it was.
#[test]
fn commands_are_refused_by_their_cause(rt: HostRuntime) -> Result<(), AllocError> {
    let told = [
        (
            b"do 0 write 2 0 aa".as_slice(),
            b"refused 7 no-permission".as_slice(),
        ),
        (
            b"do 0 write 2 16 aa".as_slice(),
            b"refused 6 out-of-range".as_slice(),
        ),
        (
            b"do 0 send 0 01 reply 5".as_slice(),
            b"refused 10 bad-reply-endpoint".as_slice(),
        ),
        (
            b"do 0 send 3 01".as_slice(),
            b"refused 1 no-endpoint".as_slice(),
        ),
        (b"do 0 send 0 01".as_slice(), b"flying 0.1".as_slice()),
        (b"take 3 2".as_slice(), b"landed 0.1".as_slice()),
        (b"take 2 3".as_slice(), b"answered 0.1 sent".as_slice()),
        (
            b"do 1 ack 0 0".as_slice(),
            b"refused 9 no-such-token".as_slice(),
        ),
        (
            b"do 1 fetch 0".as_slice(),
            b"message 0 from 0 label 7 01".as_slice(),
        ),
        (
            b"do 1 reply 0 0 aa".as_slice(),
            b"refused 8 no-reply-wanted".as_slice(),
        ),
        (
            b"do 1 ack 0 0".as_slice(),
            b"acknowledged credit 1.1".as_slice(),
        ),
        (
            b"do 1 ack 0 0".as_slice(),
            b"refused 9 no-such-token".as_slice(),
        ),
    ];
    let audit =
        b"audit credit 2 held 1 flying 1 queued 0 limit 2\naudit tile 2 act 0\naudit tile 3 act 1\naudit flights 1\naudit quiet no\n";
    expect_run(&rt, rt.alloc(), READING, told.as_slice(), audit)
}

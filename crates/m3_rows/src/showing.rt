//! Packets that are shown, of each kind, and bytes that are none.

use crate::runs::expect_written;
use std::alloc::{AllocError, Global};
use std::process::Abort;

/// Activity 0's first message, of two bytes, to endpoint 0 of activity 1.
const MESSAGE: &[u8] =
    b"\x01\x01\x00\x01\x00\x00\x00\x00\xff\x00\x00\x02\x00\x00\x00\x02\x00\x00\x00\x00\x00\x00\x00\x01\x00\x00\x00\x07\x00\x00\x00\x00\x00\x00\x00hi";

/// A packet of each kind and each form, with its line.
const SHOWN: &[(&[u8], &[u8])] = &[
    (
        MESSAGE,
        b"message 0.1 to 1 ep 0 grant 1 send 2 label 7 reply none 6869\n",
    ),
    (
        b"\x01\x3f\x0f\x00\x10\x00\x00\x00\x0f\x3f\x00\x00\x00\x00\x00\x00\x10\x00\x00\x00\x10\x00\x00\xff\xff\xff\xff\xff\xff\xff\xff\xff\xff\xff\xff",
        b"message 63.4294967295 to 63 ep 15 grant 4096 send 4096 label 18446744073709551615 reply 15 grant 4096 -\n",
    ),
    (
        b"\x01\x00\x01\x03\x00\x00\x00\x01\xff\x01\x00\x01\x00\x00\x00\x02\x00\x00\x00\x00\x00\x00\x00\x00\x01\x00\x00\x07\x00\x00\x00\x00\x00\x00\x00\xaa",
        b"reply 1.256 to 0 ep 1 grant 3 send 2 label 7 reply none aa\n",
    ),
    (
        b"\x02\x01\x03\x00\x00\x00\x00\x02\x00\x00\x00",
        b"credit 1.3 to 0 grant 2\n",
    ),
    (
        b"\x03\x00\x01\x00\x00\x00\x01\x00\x00\x00\x00\x02\x00\x00\x03\x00",
        b"read 0.1 grant 1 place 512 len 3\n",
    ),
    (
        b"\x04\x00\x01\x00\x00\x00\x01\x00\x00\x00\x00\x02\x00\x00\x03\x00\x00\x80\xff",
        b"write 0.1 grant 1 place 512 0080ff\n",
    ),
    (b"\x05\x00\x01\x00\x00\x00\x00", b"answer 0.1 sent\n"),
    (b"\x05\x00\x01\x00\x00\x00\x01", b"answer 0.1 replied\n"),
    (b"\x05\x00\x01\x00\x00\x00\x02", b"answer 0.1 written\n"),
    (
        b"\x05\x00\x01\x00\x00\x00\x03\x02\x00\x00\xff",
        b"answer 0.1 bytes 00ff\n",
    ),
    (
        b"\x05\x3f\x02\x00\x00\x00\x04\x0a",
        b"answer 63.2 refused 10 bad-reply-endpoint\n",
    ),
    (
        b"\x06\x01\x00\x00\x00\x00\x00\x01\x02\x00\x00\x00\x01\x00\x01\x00\x00\x00\x07\x00\x00\x00\x00\x00\x00\x00\x10\x00\x02",
        b"install k.1 to 0 ep 0 send grant 2 to 1 ep 0 grant 1 label 7 size 16 credits 2\n",
    ),
    (
        b"\x06\x01\x00\x00\x00\x01\x00\x02\x01\x00\x00\x00\x20\x00\x02",
        b"install k.1 to 1 ep 0 recv grant 1 slots 32 size 512\n",
    ),
    (
        b"\x06\x02\x00\x00\x00\x00\x02\x03\x01\x00\x00\x00\x00\x00\x00\x00\x00\x00\x10\x00\x03",
        b"install k.2 to 0 ep 2 range grant 1 at 0 len 1048576 perm rw\n",
    ),
    (
        b"\x07\x01\x00\x00\x00\x3f\x0f\x00\x10\x00\x00",
        b"close k.1 to 63 ep 15 grant 4096\n",
    ),
];

fn expect_shown(
    rt: &impl Abort,
    alloc: Global,
    bytes: &[u8],
    status: u8,
    written: &[u8],
) -> Result<(), AllocError> {
    let input = Vec::from_slice(alloc, bytes)?;
    expect_written(rt, alloc, &["show"], input, status, written)
}

#[test]
fn each_kind(rt: HostRuntime) -> Result<(), AllocError> {
    for (bytes, line) in SHOWN {
        expect_shown(&rt, rt.alloc(), bytes, 0, line)?;
    }
    Ok(())
}

#[test]
fn one_after_the_other(rt: HostRuntime) -> Result<(), AllocError> {
    let alloc = rt.alloc();
    let mut input = Vec::new(alloc);
    let mut lines = Vec::new(alloc);
    for (bytes, line) in SHOWN {
        input.extend_from_slice(bytes)?;
        lines.extend_from_slice(line)?;
    }
    expect_shown(&rt, alloc, input.as_slice(), 0, lines.as_slice())?;
    expect_shown(&rt, alloc, b"", 0, b"")
}

#[test]
fn bad_bytes(rt: HostRuntime) -> Result<(), AllocError> {
    for (bytes, line) in [
        (&MESSAGE[..36], b"bad byte 36: short\n".as_slice()),
        (b"\x09", b"bad byte 0: kind\n"),
        (b"\x01\x01\x00\x01\x00\x00\x00\x02", b"bad byte 7: flags\n"),
        (
            b"\x01\x01\x00\x01\x00\x00\x00\x00\xff\x00\x00\x02\x00\x01",
            b"bad byte 13: reserved\n",
        ),
        // behind a whole packet
        (b"\x05\x00\x01\x00\x00\x00\x00\x09", b"bad byte 7: kind\n"),
        (
            b"\x05\x00\x01\x00\x00\x00\x00\x05\x40",
            b"bad byte 8: field\n",
        ),
        (
            b"\x05\x00\x01\x00\x00\x00\x00\x05\x00",
            b"bad byte 9: short\n",
        ),
        (
            b"\x05\x00\x01\x00\x00\x00\x00\x01\x01\x00\x01\x00\x00\x00\x02",
            b"bad byte 14: flags\n",
        ),
    ] {
        expect_shown(&rt, rt.alloc(), bytes, 2, line)?;
    }
    Ok(())
}

#[test]
fn too_many_bytes(rt: HostRuntime) -> Result<(), AllocError> {
    let alloc = rt.alloc();
    for (count, status, written) in [
        (1_048_576, 2, b"bad byte 0: kind\n".as_slice()),
        (1_048_577, 8, b"too long\n".as_slice()),
    ] {
        let mut input = Vec::new(alloc);
        input.resize(count, 0)?;
        expect_written(&rt, alloc, &["show"], input, status, written)?;
    }
    Ok(())
}

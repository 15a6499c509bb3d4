//! Reads and writes.

use crate::runs::expect_run;
use std::alloc::AllocError;

/// Activity 0 may read and write sixteen bytes.
const SIXTEEN: &[u8] =
    b"machine tiles 4 memory 4096\nact 0 tile 2\nrange 0 2 at 0 len 16 perm rw\n";

/// The last byte of a range is written and read, and none beyond it.
#[test]
fn what_is_written_is_read(rt: HostRuntime) -> Result<(), AllocError> {
    let told = [
        (b"do 0 write 2 15 ff".as_slice(), b"flying 0.1".as_slice()),
        (b"take 1 2".as_slice(), b"landed 0.1".as_slice()),
        (b"take 2 1".as_slice(), b"answered 0.1 written".as_slice()),
        (
            b"do 0 write 2 16 ff".as_slice(),
            b"refused 6 out-of-range".as_slice(),
        ),
        (
            b"do 0 read 2 0 4097".as_slice(),
            b"refused 3 too-large".as_slice(),
        ),
        (b"do 0 read 2 14 2".as_slice(), b"flying 0.2".as_slice()),
        (b"take 1 2".as_slice(), b"landed 0.2".as_slice()),
        (
            b"take 2 1".as_slice(),
            b"answered 0.2 bytes 00ff".as_slice(),
        ),
    ];
    let audit = b"audit tile 2 act 0\naudit tile 3 none\naudit flights 0\naudit quiet yes\n";
    expect_run(&rt, rt.alloc(), SIXTEEN, told.as_slice(), audit)
}

/// Activity 0 may write the upper sixteen of thirty-two bytes, by a part of a range.
const UPPER: &[u8] =
    b"machine tiles 3 memory 32\nact 0 tile 2\nrange 0 2 at 0 len 32 perm rw\npart 0 3 of 1 at 16 len 16 perm w\n";

/// The first cause of several comes, and a range ends where it ends, also for no bytes at all.
#[test]
fn reads_and_writes_are_refused_by_their_cause(rt: HostRuntime) -> Result<(), AllocError> {
    let told = [
        (
            b"do 0 read 3 0 4097".as_slice(),
            b"refused 3 too-large".as_slice(),
        ),
        (
            b"do 0 read 3 0 17".as_slice(),
            b"refused 6 out-of-range".as_slice(),
        ),
        (
            b"do 0 read 3 17 0".as_slice(),
            b"refused 6 out-of-range".as_slice(),
        ),
        (
            b"do 0 read 3 4294967295 1".as_slice(),
            b"refused 6 out-of-range".as_slice(),
        ),
        (
            b"do 0 read 3 0 16".as_slice(),
            b"refused 7 no-permission".as_slice(),
        ),
        (
            b"do 0 read 3 16 0".as_slice(),
            b"refused 7 no-permission".as_slice(),
        ),
        (
            b"do 0 write 3 15 aabb".as_slice(),
            b"refused 6 out-of-range".as_slice(),
        ),
        (b"do 0 write 3 16 -".as_slice(), b"flying 0.1".as_slice()),
        (b"take 1 2".as_slice(), b"landed 0.1".as_slice()),
        (b"take 2 1".as_slice(), b"answered 0.1 written".as_slice()),
        (b"do 0 write 3 14 aabb".as_slice(), b"flying 0.2".as_slice()),
        (b"do 0 read 2 30 2".as_slice(), b"idle busy".as_slice()),
        (b"take 1 2".as_slice(), b"landed 0.2".as_slice()),
        (b"take 1 2".as_slice(), b"idle empty-link".as_slice()),
        (b"take 2 1".as_slice(), b"answered 0.2 written".as_slice()),
        (b"do 0 read 2 29 3".as_slice(), b"flying 0.3".as_slice()),
        (b"take 1 2".as_slice(), b"landed 0.3".as_slice()),
        (
            b"take 2 1".as_slice(),
            b"answered 0.3 bytes 00aabb".as_slice(),
        ),
    ];
    let audit = b"audit tile 2 act 0\naudit flights 0\naudit quiet yes\n";
    expect_run(&rt, rt.alloc(), UPPER, told.as_slice(), audit)
}

//! Headers and packets that were spelled by hand, and what becomes of them where they are cut or changed.

use m3_base::ids::ActId;
use m3_base::message::Header;
use m3_wire::{WireRefusal, decode_header, decode_packet, encode_header, encode_packet};
use std::alloc::{AllocError, Global};
use std::process::Abort;

/// A message without a reply endpoint: activity 0's first, of two bytes, through send grant 2 with label 7.
const HEADER: &[u8] =
    b"\x00\xff\x00\x00\x02\x00\x00\x00\x02\x00\x00\x00\x00\x00\x00\x00\x01\x00\x00\x00\x07\x00\x00\x00\x00\x00\x00\x00";

/// A packet of each kind, and of each form of a record and of an answer.
const PACKETS: &[&[u8]] = &[
    // a message, one that wants a reply, and a reply
    b"\x01\x01\x00\x01\x00\x00\x00\x00\xff\x00\x00\x02\x00\x00\x00\x02\x00\x00\x00\x00\x00\x00\x00\x01\x00\x00\x00\x07\x00\x00\x00\x00\x00\x00\x00hi",
    b"\x01\x3f\x0f\x00\x10\x00\x00\x00\x0f\x3f\x00\x00\x00\x00\x00\x00\x10\x00\x00\x00\x10\x00\x00\xff\xff\xff\xff\xff\xff\xff\xff\xff\xff\xff\xff",
    b"\x01\x00\x01\x03\x00\x00\x00\x01\xff\x01\x00\x01\x00\x00\x00\x02\x00\x00\x00\x00\x00\x00\x00\x00\x01\x00\x00\x07\x00\x00\x00\x00\x00\x00\x80\xaa",
    // a credit
    b"\x02\x01\x03\x00\x00\x00\x00\x02\x00\x00\x00",
    // a read, and one at the end of the largest memory
    b"\x03\x00\x01\x00\x00\x00\x01\x00\x00\x00\x00\x02\x00\x00\x03\x00",
    b"\x03\x00\x01\x00\x00\x00\x01\x00\x00\x00\x00\xf0\x0f\x00\x00\x10",
    // a write
    b"\x04\x00\x01\x00\x00\x00\x01\x00\x00\x00\x00\x02\x00\x00\x03\x00\x00\x80\xff",
    // answers
    b"\x05\x00\x01\x00\x00\x00\x00",
    b"\x05\x00\x01\x00\x00\x00\x01",
    b"\x05\x00\x01\x00\x00\x00\x02",
    b"\x05\x00\x01\x00\x00\x00\x03\x02\x00\x00\xff",
    b"\x05\x3f\x00\x00\x00\x80\x04\x0a",
    // records of each form installed, the last of the whole memory
    b"\x06\x01\x00\x00\x00\x00\x00\x01\x02\x00\x00\x00\x01\x00\x01\x00\x00\x00\x07\x00\x00\x00\x00\x00\x00\x00\x10\x00\x02",
    b"\x06\x01\x00\x00\x00\x01\x00\x02\x01\x00\x00\x00\x20\x00\x02",
    b"\x06\x02\x00\x00\x00\x00\x02\x03\x01\x00\x00\x00\x00\x00\x00\x00\x00\x00\x10\x00\x03",
    // a close
    b"\x07\x01\x00\x00\x00\x3f\x0f\x00\x10\x00\x00",
];

fn place(refusal: WireRefusal) -> Option<usize> {
    match refusal {
        WireRefusal::Short { at } => Some(at),
        WireRefusal::BadKind { at } => Some(at),
        WireRefusal::BadFlags { at } => Some(at),
        WireRefusal::BadReserved { at } => Some(at),
        WireRefusal::BadField { at } => Some(at),
        WireRefusal::NoMemory => None,
    }
}

fn refusal_of(alloc: Global, bytes: &[u8]) -> Option<WireRefusal> {
    match decode_packet(alloc, bytes) {
        Ok(_) => None,
        Err(refusal) => Some(refusal),
    }
}

/// The bytes with the one at this place, which there is, set to this value.
fn with_byte(alloc: Global, bytes: &[u8], at: usize, value: u8) -> Result<Vec<u8>, AllocError> {
    let mut changed = Vec::from_slice(alloc, bytes)?;
    if at < changed.len() {
        changed[at] = value;
    }
    Ok(changed)
}

#[test]
fn header(rt: HostRuntime) -> Result<(), AllocError> {
    let header = Header {
        flags: 0,
        reply_ep: 255,
        sender: ActId::new(0),
        lane: 0,
        length: 2,
        send: 2,
        reply: 0,
        number: 1,
        label: 7,
    };
    assert_eq!(rt; encode_header(&header).as_slice(), HEADER);
    assert_eq!(rt; decode_header(HEADER), Ok(header));
    Ok(())
}

#[test]
fn refused_headers(rt: HostRuntime) -> Result<(), AllocError> {
    let alloc = rt.alloc();
    for (at, value, refusal) in [
        (0, 2, WireRefusal::BadFlags { at: 0 }),
        // a reply wants no reply
        (1, 16, WireRefusal::BadField { at: 1 }),
        (2, 64, WireRefusal::BadField { at: 2 }),
        (3, 1, WireRefusal::BadField { at: 3 }),
        // 514 bytes
        (5, 2, WireRefusal::BadField { at: 5 }),
        (6, 1, WireRefusal::BadReserved { at: 6 }),
        (7, 128, WireRefusal::BadReserved { at: 7 }),
        // grant 4,098, and grant 0 or one above 65,535
        (9, 16, WireRefusal::BadField { at: 9 }),
        (8, 0, WireRefusal::BadField { at: 9 }),
        // a grant for a reply endpoint that there isn't
        (12, 1, WireRefusal::BadField { at: 12 }),
        // the number 0
        (16, 0, WireRefusal::BadField { at: 19 }),
    ] {
        let changed = with_byte(alloc, HEADER, at, value)?;
        assert_eq!(rt; decode_header(changed.as_slice()), Err(refusal));
    }
    for at in 0..28 {
        assert_eq!(rt;
            decode_header(&HEADER[..at]),
            Err(WireRefusal::Short { at })
        );
    }
    Ok(())
}

#[test]
fn packets(rt: HostRuntime) -> Result<(), AllocError> {
    let alloc = rt.alloc();
    for bytes in PACKETS {
        let mut longer = Vec::from_slice(alloc, bytes)?;
        longer.push(9)?;
        match decode_packet(alloc, longer.as_slice()) {
            Ok((packet, len)) => {
                assert_eq!(rt; len, bytes.len());
                let again = encode_packet(alloc, &packet)?;
                assert_eq!(rt; again.as_slice(), *bytes);
            }
            Err(_) => panic!(rt; "a packet is refused"),
        }
    }
    Ok(())
}

#[test]
fn cut_packets(rt: HostRuntime) -> Result<(), AllocError> {
    for bytes in PACKETS {
        for at in 0..bytes.len() {
            assert_eq!(rt;
                refusal_of(rt.alloc(), &bytes[..at]),
                Some(WireRefusal::Short { at })
            );
        }
    }
    Ok(())
}

/// Bytes that are refused at a place go on up to it, and are refused there whatever follows.
fn expect_first_bad(rt: &impl Abort, alloc: Global, bytes: &[u8], refusal: WireRefusal) {
    match place(refusal) {
        Some(at) if at < bytes.len() => {
            assert_eq!(rt;
                refusal_of(alloc, &bytes[..at]),
                Some(WireRefusal::Short { at })
            );
            assert_eq!(rt; refusal_of(alloc, &bytes[..at + 1]), Some(refusal));
        }
        Some(at) => assert_eq!(rt; refusal, WireRefusal::Short { at }),
        None => panic!(rt; "no memory"),
    }
}

/// A changed packet is refused at the changed byte or later, or spelled just so.
fn expect_sound(
    rt: &impl Abort,
    alloc: Global,
    bytes: &[u8],
    changed: usize,
) -> Result<(), AllocError> {
    match decode_packet(alloc, bytes) {
        Ok((packet, len)) => {
            let again = encode_packet(alloc, &packet)?;
            assert_eq!(rt; again.as_slice(), &bytes[..len]);
        }
        Err(refusal) => {
            assert_eq!(rt; place(refusal).is_some_and(|at| changed <= at), true);
            expect_first_bad(rt, alloc, bytes, refusal);
        }
    }
    Ok(())
}

#[test]
fn changed_packets(rt: HostRuntime) -> Result<(), AllocError> {
    let alloc = rt.alloc();
    for bytes in PACKETS {
        for at in 0..bytes.len() {
            for value in [0x00, 0x01, 0x7f, 0x80, 0xff] {
                let changed = with_byte(alloc, bytes, at, value)?;
                expect_sound(&rt, alloc, changed.as_slice(), at)?;
            }
        }
    }
    Ok(())
}

#[test]
fn refused_packets(rt: HostRuntime) -> Result<(), AllocError> {
    let alloc = rt.alloc();
    for (bytes, refusal) in [
        (b"\x09".as_slice(), WireRefusal::BadKind { at: 0 }),
        (b"\x00", WireRefusal::BadKind { at: 0 }),
        // a message's header has flags 2, and a reserved byte
        (
            b"\x01\x01\x00\x01\x00\x00\x00\x02",
            WireRefusal::BadFlags { at: 7 },
        ),
        (
            b"\x01\x01\x00\x01\x00\x00\x00\x00\xff\x00\x00\x02\x00\x01",
            WireRefusal::BadReserved { at: 13 },
        ),
        // a reply that wants a reply
        (
            b"\x01\x01\x00\x01\x00\x00\x00\x01\x0f",
            WireRefusal::BadField { at: 8 },
        ),
        // a reply endpoint without its grant
        (
            b"\x01\x01\x00\x01\x00\x00\x00\x00\x0f\x00\x00\x02\x00\x00\x00\x02\x00\x00\x00\x00\x00",
            WireRefusal::BadField { at: 20 },
        ),
        // grant 4,097, and grant 4,096
        (
            b"\x02\x00\x01\x00\x00\x00\x00\x01\x10",
            WireRefusal::BadField { at: 8 },
        ),
        (
            b"\x02\x00\x01\x00\x00\x00\x00\x00\x10",
            WireRefusal::Short { at: 9 },
        ),
        // the kernel is no issuer of a credit
        (b"\x02\x40", WireRefusal::BadField { at: 1 }),
        // a place above memory, and a place from which one byte is too many
        (
            b"\x03\x00\x01\x00\x00\x00\x01\x00\x00\x00\x01\x00\x10",
            WireRefusal::BadField { at: 12 },
        ),
        (
            b"\x03\x00\x01\x00\x00\x00\x01\x00\x00\x00\x00\x00\x10\x00\x01",
            WireRefusal::BadField { at: 14 },
        ),
        (
            b"\x04\x00\x01\x00\x00\x00\x01\x00\x00\x00\x00\x00\x10\x00\x01",
            WireRefusal::BadField { at: 14 },
        ),
        // 4,097 bytes
        (
            b"\x03\x00\x01\x00\x00\x00\x01\x00\x00\x00\x00\x00\x00\x00\x01\x10",
            WireRefusal::BadField { at: 15 },
        ),
        // a form and codes that there aren't
        (
            b"\x05\x00\x01\x00\x00\x00\x05",
            WireRefusal::BadField { at: 6 },
        ),
        (
            b"\x05\x00\x01\x00\x00\x00\x04\x00",
            WireRefusal::BadField { at: 7 },
        ),
        (
            b"\x05\x00\x01\x00\x00\x00\x04\x0b",
            WireRefusal::BadField { at: 7 },
        ),
        (
            b"\x06\x01\x00\x00\x00\x00\x00\x04",
            WireRefusal::BadField { at: 7 },
        ),
        // no slots, and no bytes in a slot
        (
            b"\x06\x01\x00\x00\x00\x00\x00\x02\x01\x00\x00\x00\x00",
            WireRefusal::BadField { at: 12 },
        ),
        (
            b"\x06\x01\x00\x00\x00\x00\x00\x02\x01\x00\x00\x00\x01\x00\x00",
            WireRefusal::BadField { at: 14 },
        ),
        // a range that begins where memory ends, and one that runs past its end
        (
            b"\x06\x01\x00\x00\x00\x00\x00\x03\x01\x00\x00\x00\x00\x00\x10",
            WireRefusal::BadField { at: 14 },
        ),
        (
            b"\x06\x01\x00\x00\x00\x00\x00\x03\x01\x00\x00\x00\xff\xff\x0f\x00\x02",
            WireRefusal::BadField { at: 16 },
        ),
        // no permission
        (
            b"\x06\x01\x00\x00\x00\x00\x00\x03\x01\x00\x00\x00\x00\x00\x00\x00\x01\x00\x00\x00\x00",
            WireRefusal::BadField { at: 20 },
        ),
    ] {
        assert_eq!(rt; refusal_of(alloc, bytes), Some(refusal));
    }
    Ok(())
}

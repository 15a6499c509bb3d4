//! What no clause says: that a memory is made where memory suffices.

use m3_base::command::Answer;
use m3_base::ids::{FlightId, GrantId};
use m3_base::packet::Packet;
use m3_base::payload::Payload;
use m3_mem::memory::Memory;
use std::alloc::{AllocError, Global};

const ID: FlightId = FlightId {
    issuer: 0,
    number: 7,
};

fn bytes(alloc: Global, len: u16, value: u8) -> Result<Payload, AllocError> {
    let mut bytes = Vec::new(alloc);
    bytes.resize(usize::from(len), value)?;
    Ok(Payload::new(bytes))
}

/// Whether the packet is the answer of the flight with so many bytes, all of this value.
fn has_read(packet: &Packet, len: u16, value: u8) -> bool {
    match packet {
        Packet::Answer {
            id,
            answer: Answer::Bytes(payload),
        } => {
            *id == ID
                && payload.len() == usize::from(len)
                && payload.bytes().iter().all(|byte| *byte == value)
        }
        _ => false,
    }
}

/// What is written is read again, up to the memory's end, and at its end nothing.
#[test]
fn what_is_written_is_read(rt: HostRuntime) {
    let mut memory = Memory::new(rt.alloc(), 16).expect(&rt, "memory");
    let grant = GrantId::new(1);
    for (place, len, value) in [
        (0u32, 16u16, 0u8),
        (0, 2, 170),
        (15, 1, 187),
        (16, 0, 1),
        (0, 16, 204),
    ] {
        let from = place as usize;
        let payload = bytes(rt.alloc(), len, value).expect(&rt, "memory");
        assert!(rt; from + payload.len() <= memory.view().len());
        let written = memory.serve(Packet::Write {
            id: ID,
            grant,
            place,
            payload,
        });
        assert_eq!(rt; written.id(), ID);
        let buffer = bytes(rt.alloc(), len, 0).expect(&rt, "memory");
        assert!(rt; from + buffer.len() <= memory.view().len());
        let answer = memory.serve(Packet::Read {
            id: ID,
            grant,
            place,
            buffer,
        });
        assert!(rt; has_read(&answer, len, value));
    }
    assert_eq!(rt; memory.view().len(), 16);
}

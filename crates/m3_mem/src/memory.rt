//! The memory tile's bytes.

ghost use Rattle.std.specs.Prelude.{◌≡◌, ◌+◌, ◌≤◌, length, replicate, IfOk};
ghost use Rattle.m3_base.specs.Ideal.Landing.{bytes_at, written_at};
ghost use Rattle.m3_mem.specs.Access.{CanServe, answer_of, after_access};

use m3_base::command::Answer;
use m3_base::packet::Packet;
use m3_base::payload::Payload;
use std::alloc::{AllocError, Global};
use std::marker::Model;

/// The bytes of the memory tile. Contracts see their list.
#[derive(Drop)]
pub struct Memory {
    bytes: Vec<u8>,
}

impl Model for Memory {
    ghost use Rattle.std.specs.Prelude.{ℕ, List};

    ghost Value = { List ℕ };

    ghost view = { λ m. m.bytes.items };
}

/// The bytes from this place on fill the buffer.
fn read(bytes: &[u8], place: u32, buffer: &mut Payload)
    requires { place + length buffer.old ≤ length bytes.now }
    ensures { buffer.new ≡ bytes_at place (length buffer.old) bytes.now }
{
    let from = place as usize;
    let to = from + buffer.len();
    buffer.bytes_mut().copy_from_slice(&bytes[from..to]);
}

/// The payload's bytes stand from this place on.
fn write(bytes: &mut Vec<u8>, place: u32, payload: &Payload)
    requires { place + length payload.now ≤ length bytes.old.items }
    ensures { bytes.new.items ≡ written_at place payload.now bytes.old.items }
{
    let from = place as usize;
    let to = from + payload.len();
    bytes[from..to].copy_from_slice(payload.bytes());
}

impl Memory {
    /// So many bytes, all 0.
    pub fn new(alloc: Global, size: u32) -> Result<Memory, AllocError>
        ensures { IfOk result (λ m. m ≡ replicate size 0) }
    {
        let mut bytes = Vec::new(alloc);
        bytes.resize(size as usize, 0)?;
        Ok(Memory { bytes })
    }

    /// Serves a read or a write whose bytes lie inside, and gives the answer. It moves as many bytes as the packet has,
    /// however large the memory is; the buffer of a read goes into the answer. It takes no memory.
    pub fn serve(&mut self, packet: Packet) -> Packet
        requires { CanServe self.old packet }
        ensures answer { result ≡ answer_of self.old packet }
        ensures bytes { self.new ≡ after_access self.old packet }
    {
        match packet {
            Packet::Read {
                id,
                place,
                mut buffer,
                ..
            } => {
                read(self.bytes.as_slice(), place, &mut buffer);
                let answer = Answer::Bytes(buffer);
                Packet::Answer { id, answer }
            }
            Packet::Write {
                id,
                place,
                payload,
                ..
            } => {
                write(&mut self.bytes, place, &payload);
                let answer = Answer::Written;
                Packet::Answer { id, answer }
            }
            _ => unreachable!(),
        }
    }

    /// The bytes.
    pub fn view(&self) -> &[u8]
        ensures { result.now ≡ self.now }
    {
        self.bytes.as_slice()
    }
}

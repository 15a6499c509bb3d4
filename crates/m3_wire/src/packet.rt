//! Packets: a byte for the kind, and its fields.

ghost use Rattle.std.specs.Prelude.{◌≡◌, ◌<◌, ◌≤◌, ◌++◌, List, ℕ, length, replicate, IfOk, IfErr};
ghost use Rattle.m3_wire.specs.ByteReader.{Gives, Reads};
ghost use Rattle.m3_wire.specs.Grammar.{IsFirst, Refuses, IsRead};
ghost use Rattle.m3_wire.specs.Packets.{IsPacket, packet_part};
ghost use Rattle.m3_wire.specs.Decoders.{message, credit, read, write, answered_packet, install, close, packet, most_from};
ghost use Rattle.m3_wire.specs.Refusals.{IsRefusal};
ghost use Rattle.m3_base.specs.declared.packet.Packet.{Packet};

use crate::codes::PacketTag;
use crate::reader::Reader;
use crate::refusal::{Fault, Part, ReadError, WireRefusal, bad_at, header_part};
use m3_base::limits::{MOST_BYTES, MOST_MEMORY};
use m3_base::message::Message;
use m3_base::packet::Packet;
use m3_base::payload::Payload;
use std::alloc::{AllocError, Global};

/// The most bytes of one read or write from this place on.
fn most_from(place: u32) -> u16
    requires { place ≤ 1048576 }
    ensures { result ≡ most_from place }
{
    (MOST_MEMORY - place).min(MOST_BYTES as u32) as u16
}

fn zeros(alloc: Global, len: usize) -> Result<Payload, AllocError>
    ensures { IfOk result (λ p. p ≡ replicate len 0) }
{
    let mut bytes = Vec::new(alloc);
    bytes.resize(len, 0)?;
    Ok(Payload::new(bytes))
}

impl<'a> Reader<'a> {
    #[tactic(auto, unfolding(crate::specs::ByteReader::pair, crate::specs::ByteReader::mapped))]
    #[inline(always)]
    fn message(&mut self, alloc: Global) -> Result<Packet, ReadError>
        ensures { Reads result self.new.rest.now (message self.old.rest.now) }
    {
        let to = self.act()?;
        let ep = self.ep()?;
        let grant = self.grant()?;
        let header = self.header()?;
        let payload = self.payload(alloc, header.length as usize)?;
        Ok(Packet::Message {
            to,
            ep,
            grant,
            message: Message { header, payload },
        })
    }

    #[tactic(auto, unfolding(crate::specs::ByteReader::pair, crate::specs::ByteReader::mapped))]
    #[inline(always)]
    fn credit(&mut self) -> Result<Packet, Fault>
        ensures { Gives result self.new.rest.now (credit self.old.rest.now) }
    {
        let id = self.act_id()?;
        let to = self.act()?;
        let grant = self.grant()?;
        Ok(Packet::Credit { id, to, grant })
    }

    #[tactic(auto, unfolding(crate::specs::ByteReader::pair, crate::specs::ByteReader::mapped))]
    #[inline(always)]
    fn read(&mut self, alloc: Global) -> Result<Packet, ReadError>
        ensures { Reads result self.new.rest.now (read self.old.rest.now) }
    {
        let id = self.act_id()?;
        let grant = self.grant()?;
        let place = self.place()?;
        let len = self.number(2, 0, most_from(place) as u64)?;
        let buffer = zeros(alloc, len as usize)?;
        Ok(Packet::Read {
            id,
            grant,
            place,
            buffer,
        })
    }

    #[tactic(auto, unfolding(crate::specs::ByteReader::pair, crate::specs::ByteReader::mapped))]
    #[inline(always)]
    fn write(&mut self, alloc: Global) -> Result<Packet, ReadError>
        ensures { Reads result self.new.rest.now (write self.old.rest.now) }
    {
        let id = self.act_id()?;
        let grant = self.grant()?;
        let place = self.place()?;
        let payload = self.length_prefixed(alloc, most_from(place))?;
        Ok(Packet::Write {
            id,
            grant,
            place,
            payload,
        })
    }

    #[tactic(auto, unfolding(crate::specs::ByteReader::pair, crate::specs::ByteReader::mapped))]
    #[inline(always)]
    fn answered(&mut self, alloc: Global) -> Result<Packet, ReadError>
        ensures { Reads result self.new.rest.now (answered_packet self.old.rest.now) }
    {
        let id = self.act_id()?;
        let answer = self.answer(alloc)?;
        Ok(Packet::Answer { id, answer })
    }

    #[tactic(auto, unfolding(crate::specs::ByteReader::pair, crate::specs::ByteReader::mapped))]
    fn install(&mut self) -> Result<Packet, Fault>
        ensures { Gives result self.new.rest.now (install self.old.rest.now) }
    {
        let id = self.kernel_id()?;
        let to = self.act()?;
        let ep = self.ep()?;
        let fresh = self.fresh()?;
        Ok(Packet::Install { id, to, ep, fresh })
    }

    #[tactic(auto, unfolding(crate::specs::ByteReader::pair, crate::specs::ByteReader::mapped))]
    fn close(&mut self) -> Result<Packet, Fault>
        ensures { Gives result self.new.rest.now (close self.old.rest.now) }
    {
        let id = self.kernel_id()?;
        let to = self.act()?;
        let ep = self.ep()?;
        let grant = self.grant()?;
        Ok(Packet::Close { id, to, ep, grant })
    }

    /// A packet.
    #[tactic(auto, unfolding(crate::specs::ByteReader::pair, crate::specs::ByteReader::mapped))]
    fn packet(&mut self, alloc: Global) -> Result<Packet, ReadError>
        ensures { Reads result self.new.rest.now (packet self.old.rest.now) }
    {
        let kind: PacketTag = self.tagged()?;
        match kind {
            PacketTag::Message => self.message(alloc),
            PacketTag::Credit => Ok(self.credit()?),
            PacketTag::Read => self.read(alloc),
            PacketTag::Write => self.write(alloc),
            PacketTag::Answer => self.answered(alloc),
            PacketTag::Install => Ok(self.install()?),
            PacketTag::Close => Ok(self.close()?),
        }
    }
}

/// The part of a packet in which its byte `at` lies. The header of a message begins at byte 7.
fn packet_part(bytes: &[u8], at: usize) -> Part
    ensures { result ≡ packet_part bytes.now at }
{
    match bytes {
        _ if at == 0 => Part::Kind,
        [1, ..] if 7 <= at => header_part(at - 7),
        _ => Part::Field,
    }
}

fn refusal(bytes: &[u8], error: ReadError) -> WireRefusal
    ensures { IsRefusal bytes.now error result }
{
    match error {
        ReadError::NoMemory => WireRefusal::NoMemory,
        ReadError::Bad(Fault::Short) => WireRefusal::Short { at: bytes.len() },
        ReadError::Bad(Fault::Bad(left)) => {
            let at = bytes.len().saturating_sub(left);
            bad_at(packet_part(bytes, at), at)
        }
    }
}

/// The packet in the first bytes, and how many they are. What follows them doesn't matter.
pub fn decode_packet(alloc: Global, bytes: &[u8]) -> Result<(Packet, usize), WireRefusal>
    ensures found { IfOk result (λ x. IsFirst IsPacket bytes.now x.0 x.1) }
    ensures refused { IfErr result (λ e. Refuses IsPacket packet_part bytes.now e) }
    ensures again { (p : Packet) (text rest : List ℕ) → IsPacket p text → bytes.now ≡ text ++ rest →
        IsRead result (p, length text) }
{
    let mut input = Reader { rest: bytes };
    match input.packet(alloc) {
        Ok(packet) => Ok((packet, bytes.len() - input.rest.len())),
        Err(error) => Err(refusal(bytes, error)),
    }
}

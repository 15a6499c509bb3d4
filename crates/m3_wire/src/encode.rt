//! Packets, written.

ghost use Rattle.std.specs.Prelude.{◌≡◌, ◌<◌, ◌≤◌, ◌++◌, ◌∷◌, [], length, IfOk, OnOk};
ghost use Rattle.byteorder.specs.Endian.{little_bytes};
ghost use Rattle.m3_base.specs.declared.packet.Fresh.TheVariants as Fresh;
ghost use Rattle.m3_base.specs.declared.packet.Packet.TheVariants as Packet;
ghost use Rattle.m3_wire.specs.Headers.{FitsHeader, header_bytes};
ghost use Rattle.m3_wire.specs.Packets.{FitsAnswer, FitsPacket, id_bytes, counted_bytes, perm_code, answer_bytes, fresh_bytes, packet_bytes};

use crate::header::encode_header;
use byteorder::{ByteOrder, LittleEndian};
use m3_base::command::Answer;
use m3_base::ids::{ActId, EpId, FlightId, GrantId};
use m3_base::message::Message;
use m3_base::packet::{Fresh, Packet, Perm};
use m3_base::payload::Payload;
use std::alloc::{AllocError, Global};

pub fn u16_bytes(n: u16) -> [u8; 2]
    ensures { result ≡ little_bytes 2 n }
{
    let mut out = [0; 2];
    LittleEndian::write_u16(&mut out, n);
    out
}

pub fn u32_bytes(n: u32) -> [u8; 4]
    ensures { result ≡ little_bytes 4 n }
{
    let mut out = [0; 4];
    LittleEndian::write_u32(&mut out, n);
    out
}

pub fn u64_bytes(n: u64) -> [u8; 8]
    ensures { result ≡ little_bytes 8 n }
{
    let mut out = [0; 8];
    LittleEndian::write_u64(&mut out, n);
    out
}

fn put_u8(out: &mut Vec<u8>, n: u8) -> Result<(), AllocError>
    ensures { OnOk result (out.new.items ≡ out.old.items ++ n ∷ []) }
{
    Ok(out.push(n)?)
}

fn put_bytes(out: &mut Vec<u8>, bytes: &[u8]) -> Result<(), AllocError>
    ensures { OnOk result (out.new.items ≡ out.old.items ++ bytes.now) }
{
    out.extend_from_slice(bytes)
}

fn put_u16(out: &mut Vec<u8>, n: u16) -> Result<(), AllocError>
    ensures { OnOk result (out.new.items ≡ out.old.items ++ little_bytes 2 n) }
{
    let bytes = u16_bytes(n);
    put_bytes(out, &bytes)
}

fn put_u32(out: &mut Vec<u8>, n: u32) -> Result<(), AllocError>
    ensures { OnOk result (out.new.items ≡ out.old.items ++ little_bytes 4 n) }
{
    let bytes = u32_bytes(n);
    put_bytes(out, &bytes)
}

fn put_u64(out: &mut Vec<u8>, n: u64) -> Result<(), AllocError>
    ensures { OnOk result (out.new.items ≡ out.old.items ++ little_bytes 8 n) }
{
    let bytes = u64_bytes(n);
    put_bytes(out, &bytes)
}

fn put_grant(out: &mut Vec<u8>, grant: GrantId) -> Result<(), AllocError>
    ensures { OnOk result (out.new.items ≡ out.old.items ++ little_bytes 4 grant) }
{
    put_u32(out, grant.number() as u32)
}

fn put_end(out: &mut Vec<u8>, act: ActId, ep: EpId) -> Result<(), AllocError>
    ensures { OnOk result (out.new.items ≡ out.old.items ++ act ∷ ep ∷ []) }
{
    put_u8(out, act.number())?;
    put_u8(out, ep.number())
}

// An endpoint and the grant of its record.
fn put_receiver(out: &mut Vec<u8>, act: ActId, ep: EpId, grant: GrantId) -> Result<(), AllocError>
    ensures { OnOk result (out.new.items ≡ out.old.items ++ act ∷ ep ∷ little_bytes 4 grant) }
{
    put_end(out, act, ep)?;
    put_grant(out, grant)
}

fn put_id(out: &mut Vec<u8>, id: FlightId) -> Result<(), AllocError>
    ensures { OnOk result (out.new.items ≡ out.old.items ++ id_bytes id) }
{
    put_u8(out, id.issuer)?;
    put_u32(out, id.number)
}

fn put_length_prefixed(out: &mut Vec<u8>, bytes: &[u8]) -> Result<(), AllocError>
    requires { length bytes.now < 65536 }
    ensures { OnOk result (out.new.items ≡ out.old.items ++ counted_bytes bytes.now) }
{
    put_u16(out, bytes.len() as u16)?;
    put_bytes(out, bytes)
}

fn perm_code(perm: Perm) -> u8
    ensures { result ≡ perm_code perm }
{
    match perm {
        Perm::R => 1,
        Perm::W => 2,
        Perm::Rw => 3,
    }
}

fn put_answer(out: &mut Vec<u8>, answer: &Answer) -> Result<(), AllocError>
    requires { FitsAnswer answer.now }
    ensures { OnOk result (out.new.items ≡ out.old.items ++ answer_bytes answer.now) }
{
    match answer {
        Answer::Sent => put_u8(out, 0),
        Answer::Replied => put_u8(out, 1),
        Answer::Written => put_u8(out, 2),
        Answer::Bytes(bytes) => {
            put_u8(out, 3)?;
            put_length_prefixed(out, bytes.bytes())
        }
        Answer::Refused(why) => {
            put_u8(out, 4)?;
            put_u8(out, why.code())
        }
    }
}

// What a send record says of its messages.
fn put_terms(out: &mut Vec<u8>, label: u64, size: u16, limit: u8) -> Result<(), AllocError>
    ensures { OnOk result (out.new.items ≡ out.old.items ++ (little_bytes 8 label ++ little_bytes 2 size ++ limit ∷ [])) }
{
    put_u64(out, label)?;
    put_u16(out, size)?;
    put_u8(out, limit)
}

// Where a memory record lies, and what it permits.
fn put_range(out: &mut Vec<u8>, start: u32, length: u32, perm: Perm) -> Result<(), AllocError>
    ensures { OnOk result (out.new.items ≡ out.old.items ++
        (little_bytes 4 start ++ little_bytes 4 length ++ perm_code perm ∷ [])) }
{
    put_u32(out, start)?;
    put_u32(out, length)?;
    put_u8(out, perm_code(perm))
}

fn put_send(
    out: &mut Vec<u8>,
    grant: GrantId,
    to: ActId,
    to_ep: EpId,
    to_grant: GrantId,
    label: u64,
    size: u16,
    limit: u8,
) -> Result<(), AllocError>
    ensures { OnOk result (out.new.items ≡ out.old.items ++ fresh_bytes (Fresh.Send grant to to_ep to_grant label size limit)) }
{
    put_u8(out, 1)?;
    put_grant(out, grant)?;
    put_receiver(out, to, to_ep, to_grant)?;
    put_terms(out, label, size, limit)
}

fn put_receive(out: &mut Vec<u8>, grant: GrantId, slots: u8, size: u16) -> Result<(), AllocError>
    ensures { OnOk result (out.new.items ≡ out.old.items ++ fresh_bytes (Fresh.Receive grant slots size)) }
{
    put_u8(out, 2)?;
    put_grant(out, grant)?;
    put_u8(out, slots)?;
    put_u16(out, size)
}

fn put_memory(
    out: &mut Vec<u8>,
    grant: GrantId,
    start: u32,
    length: u32,
    perm: Perm,
) -> Result<(), AllocError>
    ensures { OnOk result (out.new.items ≡ out.old.items ++ fresh_bytes (Fresh.Memory grant start length perm)) }
{
    put_u8(out, 3)?;
    put_grant(out, grant)?;
    put_range(out, start, length, perm)
}

fn put_fresh(out: &mut Vec<u8>, fresh: &Fresh) -> Result<(), AllocError>
    ensures { OnOk result (out.new.items ≡ out.old.items ++ fresh_bytes fresh.now) }
{
    match fresh {
        Fresh::Send {
            grant,
            to,
            to_ep,
            to_grant,
            label,
            size,
            limit,
        } => { put_send(out, *grant, *to, *to_ep, *to_grant, *label, *size, *limit) }
        Fresh::Receive { grant, slots, size } => put_receive(out, *grant, *slots, *size),
        Fresh::Memory {
            grant,
            start,
            length,
            perm,
        } => put_memory(out, *grant, *start, *length, *perm),
    }
}

fn put_message(out: &mut Vec<u8>, message: &Message) -> Result<(), AllocError>
    requires { FitsHeader message.now.header }
    ensures { OnOk result (out.new.items ≡ out.old.items ++ (header_bytes message.now.header ++ message.now.payload)) }
{
    let header = encode_header(&message.header);
    put_bytes(out, &header)?;
    put_bytes(out, message.payload.bytes())
}

// A place in memory, and the grant that reaches it.
fn put_place(out: &mut Vec<u8>, grant: GrantId, place: u32) -> Result<(), AllocError>
    ensures { OnOk result (out.new.items ≡ out.old.items ++ (little_bytes 4 grant ++ little_bytes 4 place)) }
{
    put_grant(out, grant)?;
    put_u32(out, place)
}

fn put_sent(
    out: &mut Vec<u8>,
    to: ActId,
    ep: EpId,
    grant: GrantId,
    message: &Message,
) -> Result<(), AllocError>
    requires { FitsHeader message.now.header }
    ensures { OnOk result (out.new.items ≡ out.old.items ++ packet_bytes (Packet.Message to ep grant message.now)) }
{
    put_u8(out, 1)?;
    put_receiver(out, to, ep, grant)?;
    put_message(out, message)
}

fn put_credit(out: &mut Vec<u8>, id: FlightId, to: ActId, grant: GrantId) -> Result<(), AllocError>
    ensures { OnOk result (out.new.items ≡ out.old.items ++ packet_bytes (Packet.Credit id to grant)) }
{
    put_u8(out, 2)?;
    put_id(out, id)?;
    put_u8(out, to.number())?;
    put_grant(out, grant)
}

fn put_read(
    out: &mut Vec<u8>,
    id: FlightId,
    grant: GrantId,
    place: u32,
    buffer: &Payload,
) -> Result<(), AllocError>
    requires { length buffer.now ≤ 4096 }
    ensures { OnOk result (out.new.items ≡ out.old.items ++ packet_bytes (Packet.Read id grant place buffer.now)) }
{
    put_u8(out, 3)?;
    put_id(out, id)?;
    put_place(out, grant, place)?;
    put_u16(out, buffer.len() as u16)
}

fn put_write(
    out: &mut Vec<u8>,
    id: FlightId,
    grant: GrantId,
    place: u32,
    payload: &Payload,
) -> Result<(), AllocError>
    requires { length payload.now ≤ 4096 }
    ensures { OnOk result (out.new.items ≡ out.old.items ++ packet_bytes (Packet.Write id grant place payload.now)) }
{
    put_u8(out, 4)?;
    put_id(out, id)?;
    put_place(out, grant, place)?;
    put_length_prefixed(out, payload.bytes())
}

fn put_answered(out: &mut Vec<u8>, id: FlightId, answer: &Answer) -> Result<(), AllocError>
    requires { FitsAnswer answer.now }
    ensures { OnOk result (out.new.items ≡ out.old.items ++ packet_bytes (Packet.Answer id answer.now)) }
{
    put_u8(out, 5)?;
    put_id(out, id)?;
    put_answer(out, answer)
}

fn put_install(
    out: &mut Vec<u8>,
    id: FlightId,
    to: ActId,
    ep: EpId,
    fresh: &Fresh,
) -> Result<(), AllocError>
    ensures { OnOk result (out.new.items ≡ out.old.items ++ packet_bytes (Packet.Install id to ep fresh.now)) }
{
    put_u8(out, 6)?;
    put_u32(out, id.number)?;
    put_end(out, to, ep)?;
    put_fresh(out, fresh)
}

fn put_close(
    out: &mut Vec<u8>,
    id: FlightId,
    to: ActId,
    ep: EpId,
    grant: GrantId,
) -> Result<(), AllocError>
    ensures { OnOk result (out.new.items ≡ out.old.items ++ packet_bytes (Packet.Close id to ep grant)) }
{
    put_u8(out, 7)?;
    put_u32(out, id.number)?;
    put_receiver(out, to, ep, grant)
}

fn put_packet(out: &mut Vec<u8>, packet: &Packet) -> Result<(), AllocError>
    requires { FitsPacket packet.now }
    ensures { OnOk result (out.new.items ≡ out.old.items ++ packet_bytes packet.now) }
{
    match packet {
        Packet::Message {
            to,
            ep,
            grant,
            message,
        } => put_sent(out, *to, *ep, *grant, message),
        Packet::Credit { id, to, grant } => put_credit(out, *id, *to, *grant),
        Packet::Read {
            id,
            grant,
            place,
            buffer,
        } => put_read(out, *id, *grant, *place, buffer),
        Packet::Write {
            id,
            grant,
            place,
            payload,
        } => put_write(out, *id, *grant, *place, payload),
        Packet::Answer { id, answer } => put_answered(out, *id, answer),
        Packet::Install { id, to, ep, fresh } => put_install(out, *id, *to, *ep, fresh),
        Packet::Close { id, to, ep, grant } => put_close(out, *id, *to, *ep, *grant),
    }
}

/// The bytes of a packet whose fields are within their ranges.
pub fn encode_packet(alloc: Global, packet: &Packet) -> Result<Vec<u8>, AllocError>
    requires { FitsPacket packet.now }
    ensures { IfOk result (λ v. v.items ≡ packet_bytes packet.now) }
{
    let mut out = Vec::new(alloc);
    put_packet(&mut out, packet)?;
    Ok(out)
}

//! Packets as text.

ghost use Rattle.std.specs.Prelude.{◌≡◌, ◌≤◌, ◌∷◌, ◌++◌, [], OnOk, length, codes, decimal, string_bytes};
ghost use Rattle.m3_base.specs.declared.packet.Fresh.TheVariants as Fresh;
ghost use Rattle.m3_base.specs.declared.packet.Packet.TheVariants as Packet;
ghost use Rattle.m3_text.specs.Hex.{hex_text};
ghost use Rattle.m3_text.specs.Printing.{words_text, line_text, flight_word};
ghost use Rattle.m3_journal.specs.Packets.{message_word, wish_words, receiver_words, terms_words, record_grant_words, record_words, origin_words, content_words, access_words, packet_words};

use crate::orders::put_extent;
use crate::outcomes::put_answer;
use m3_base::ids::{ActId, EpId, FlightId, GrantId};
use m3_base::message::{Header, Message};
use m3_base::packet::{Fresh, Packet};
use m3_text::printing::{put_field, put_flight, put_hex, put_word};
use std::alloc::AllocError;

fn message_word(header: &Header) -> &'static str
    ensures { result.now ≡ message_word header.now }
{
    if header.flags == 1 {
        "reply"
    } else {
        "message"
    }
}

// The endpoint that waits for a reply, or that none does.
fn put_wish(out: &mut String, header: &Header) -> Result<(), AllocError>
    ensures { OnOk result (string_bytes out.new ≡ string_bytes out.old ++ words_text (wish_words header.now)) }
{
    if header.reply_ep == 255 {
        out.push_str(" reply none")
    } else {
        put_field(out, " reply ", header.reply_ep as u64)?;
        put_field(out, " grant ", header.reply as u64)
    }
}

// A packet's name behind its first word.
fn put_name(out: &mut String, word: &str, id: FlightId) -> Result<(), AllocError>
    ensures { OnOk result (string_bytes out.new ≡ string_bytes out.old ++ line_text (word.now ∷ flight_word id ∷ [])) }
{
    out.push_str(word)?;
    out.push_str(" ")?;
    put_flight(out, id)
}

// An endpoint and the grant of its record.
fn put_receiver(out: &mut String, act: ActId, ep: EpId, grant: GrantId) -> Result<(), AllocError>
    ensures { OnOk result (string_bytes out.new ≡ string_bytes out.old ++ words_text (receiver_words act ep grant)) }
{
    let act = act.number();
    let ep = ep.number();
    let grant = grant.number();
    put_field(out, " to ", act as u64)?;
    put_field(out, " ep ", ep as u64)?;
    put_field(out, " grant ", grant as u64)
}

fn put_payload(out: &mut String, bytes: &[u8]) -> Result<(), AllocError>
    ensures { OnOk result (string_bytes out.new ≡ string_bytes out.old ++ words_text (hex_text bytes.now ∷ [])) }
{
    out.push_str(" ")?;
    put_hex(out, bytes)
}

// The send grant of a message, and its label.
fn put_origin(out: &mut String, send: u32, label: u64) -> Result<(), AllocError>
    ensures { OnOk result (string_bytes out.new ≡ string_bytes out.old ++ words_text (origin_words send label)) }
{
    put_field(out, " send ", send as u64)?;
    put_field(out, " label ", label)
}

// What a message says beside where it goes.
fn put_content(out: &mut String, message: &Message) -> Result<(), AllocError>
    ensures { OnOk result (string_bytes out.new ≡ string_bytes out.old ++ words_text (content_words message.now)) }
{
    put_origin(out, message.header.send, message.header.label)?;
    put_wish(out, &message.header)?;
    put_payload(out, message.payload.bytes())
}

fn put_message(
    out: &mut String,
    to: ActId,
    ep: EpId,
    grant: GrantId,
    message: &Message,
) -> Result<(), AllocError>
    ensures { OnOk result (string_bytes out.new ≡ string_bytes out.old ++ line_text
        (packet_words (Packet.Message to ep grant message.now))) }
{
    put_name(out, message_word(&message.header), message.id())?;
    put_receiver(out, to, ep, grant)?;
    put_content(out, message)
}

fn put_credit(out: &mut String, id: FlightId, to: ActId, grant: GrantId) -> Result<(), AllocError>
    ensures { OnOk result (string_bytes out.new ≡ string_bytes out.old ++ line_text
        (packet_words (Packet.Credit id to grant))) }
{
    let to = to.number();
    let grant = grant.number();
    put_name(out, "credit", id)?;
    put_field(out, " to ", to as u64)?;
    put_field(out, " grant ", grant as u64)
}

// A read or a write up to its place.
fn put_access(
    out: &mut String,
    word: &str,
    id: FlightId,
    grant: GrantId,
    place: u32,
) -> Result<(), AllocError>
    ensures { OnOk result (string_bytes out.new ≡ string_bytes out.old ++ line_text (access_words word.now id grant place)) }
{
    let grant = grant.number();
    put_name(out, word, id)?;
    put_field(out, " grant ", grant as u64)?;
    put_field(out, " place ", place as u64)
}

fn put_terms(out: &mut String, label: u64, size: u16, limit: u8) -> Result<(), AllocError>
    ensures { OnOk result (string_bytes out.new ≡ string_bytes out.old ++ words_text (terms_words label size limit)) }
{
    put_field(out, " label ", label)?;
    put_field(out, " size ", size as u64)?;
    put_field(out, " credits ", limit as u64)
}

// A record's form and its grant.
fn put_record_grant(out: &mut String, form: &str, grant: GrantId) -> Result<(), AllocError>
    ensures { OnOk result (string_bytes out.new ≡ string_bytes out.old ++ words_text (record_grant_words form.now grant)) }
{
    let grant = grant.number();
    put_word(out, form)?;
    put_field(out, " grant ", grant as u64)
}

fn put_record(out: &mut String, fresh: &Fresh) -> Result<(), AllocError>
    ensures { OnOk result (string_bytes out.new ≡ string_bytes out.old ++ words_text (record_words fresh.now)) }
{
    match fresh {
        Fresh::Send {
            grant,
            to,
            to_ep,
            to_grant,
            label,
            size,
            limit,
        } => {
            put_record_grant(out, "send", *grant)?;
            put_receiver(out, *to, *to_ep, *to_grant)?;
            put_terms(out, *label, *size, *limit)
        }
        Fresh::Receive { grant, slots, size } => {
            let grant = grant.number();
            put_field(out, " recv grant ", grant as u64)?;
            put_field(out, " slots ", *slots as u64)?;
            put_field(out, " size ", *size as u64)
        }
        Fresh::Memory {
            grant,
            start,
            length,
            perm,
        } => {
            put_record_grant(out, "range", *grant)?;
            put_extent(out, *start, *length, *perm)
        }
    }
}

fn put_install(
    out: &mut String,
    id: FlightId,
    to: ActId,
    ep: EpId,
    fresh: &Fresh,
) -> Result<(), AllocError>
    ensures { OnOk result (string_bytes out.new ≡ string_bytes out.old ++ line_text
        (packet_words (Packet.Install id to ep fresh.now))) }
{
    let to = to.number();
    let ep = ep.number();
    put_name(out, "install", id)?;
    put_field(out, " to ", to as u64)?;
    put_field(out, " ep ", ep as u64)?;
    put_record(out, fresh)
}

/// A packet's line.
pub fn put_packet(out: &mut String, packet: &Packet) -> Result<(), AllocError>
    ensures { OnOk result (string_bytes out.new ≡ string_bytes out.old ++ line_text (packet_words packet.now)) }
{
    match packet {
        Packet::Message {
            to,
            ep,
            grant,
            message,
        } => put_message(out, *to, *ep, *grant, message),
        Packet::Credit { id, to, grant } => put_credit(out, *id, *to, *grant),
        Packet::Read {
            id,
            grant,
            place,
            buffer,
        } => {
            put_access(out, "read", *id, *grant, *place)?;
            put_field(out, " len ", buffer.len() as u64)
        }
        Packet::Write {
            id,
            grant,
            place,
            payload,
        } => {
            put_access(out, "write", *id, *grant, *place)?;
            put_payload(out, payload.bytes())
        }
        Packet::Answer { id, answer } => {
            put_name(out, "answer", *id)?;
            put_answer(out, answer)
        }
        Packet::Install { id, to, ep, fresh } => put_install(out, *id, *to, *ep, fresh),
        Packet::Close { id, to, ep, grant } => {
            put_name(out, "close", *id)?;
            put_receiver(out, *to, *ep, *grant)
        }
    }
}

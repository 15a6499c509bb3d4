//! Which packets a context can meet.

ghost use Rattle.std.specs.Prelude.{◌≡◌, ℕ, ◌==◌, ◌&&◌, nat_lt};
ghost use Rattle.m3_base.specs.Ideal.Landing.{flying_at};
ghost use Rattle.m3_base.specs.Ideal.Acceptance.{fits, is_reply_place, is_header, is_message, is_form, takes_credit, fits_message, is_land_refusal, is_answer_for, is_returned, fits_answer};
ghost use Rattle.m3_core.specs.FlyingView.{kind_of};

use crate::context::Context;
use crate::context::arrive::{flying_place, send_place};
use crate::flying::Kind;
use m3_base::command::{Answer, Refusal};
use m3_base::ids::{ActId, EpId, FlightId, GrantId};
use m3_base::limits::{
    ENDPOINTS, KERNEL, MOST_BYTES, MOST_CREDITS, MOST_GRANTS, MOST_MEMORY, MOST_MESSAGE,
    MOST_SLOTS, NO_REPLY,
};
use m3_base::message::{Header, Message};
use m3_base::packet::{Fresh, Packet};

impl Context {
    /// Whether a packet fits: it is for this activity and isn't for the memory; its numbers are in their ranges, and a
    /// message's payload has its header's length; an answer's command flies here, and can get this answer; an Install's
    /// endpoint is free; a Close's endpoint has that grant and is live; and a credit that comes back finds room, or no
    /// endpoint of its grant.
    pub fn fits(&self, packet: &Packet) -> bool
        ensures { result ≡ fits self.now packet.now }
    {
        match packet {
            Packet::Message {
                to,
                ep,
                grant,
                message,
            } => self.is_for(*to) && self.fits_message(*ep, *grant, message),
            Packet::Credit { id, to, grant } => {
                self.is_for(*to)
                    && id.number > 0
                    && id.issuer < KERNEL
                    && self.takes_credit(grant.number() as u32)
            }
            Packet::Read { .. } => false,
            Packet::Write { .. } => false,
            Packet::Answer { id, answer } => {
                id.issuer == self.act.number()
                    && id.number > 0
                    && self.fits_answer(id.number, answer)
            }
            Packet::Install { id, to, ep, fresh } => {
                self.is_for(*to)
                    && is_kernels(id)
                    && is_form(fresh)
                    && self.slots[ep.number() as usize].is_free()
            }
            Packet::Close { id, to, ep, grant } => {
                self.is_for(*to)
                    && is_kernels(id)
                    && self.slots[ep.number() as usize].has_live(*grant)
            }
        }
    }

    fn is_for(&self, to: ActId) -> bool
        ensures { result ≡ (to == self.now.act) }
    {
        to.number() == self.act.number()
    }

    /// Whether a message is in its ranges, and the credit that a reply brings where it lands finds room.
    fn fits_message(&self, ep: EpId, grant: GrantId, message: &Message) -> bool
        ensures { result ≡ fits_message self.now ep grant message.now }
    {
        is_message(message)
            && (message.header.flags == 0
                || self.slots[ep.number() as usize]
                    .land_refusal(grant, message)
                    .is_some()
                || self.takes_credit(message.header.send))
    }

    /// Whether a credit of this send grant finds room, or no endpoint.
    fn takes_credit(&self, send: u32) -> bool
        ensures { result ≡ takes_credit send self.now }
    {
        match send_place(&self.slots, send) {
            None => true,
            Some(place) => self.slots[place].has_credit_room(),
        }
    }

    /// Whether the command of this number flies and can get this answer, and the credit of a refused send finds room.
    fn fits_answer(&self, number: u32, answer: &Answer) -> bool
        ensures { result ≡ fits_answer self.now answer.now (flying_at number self.now.flying) }
    {
        let Some(place) = flying_place(&self.flying, number) else {
            return false;
        };
        let command = &self.flying[place];
        is_answer_for(command.kind(), answer)
            && (!is_returned(command.kind(), answer)
                || self.slots[command.ep().number() as usize].has_credit_room())
    }
}

fn is_kernels(id: &FlightId) -> bool
    ensures { result ≡ ((id.now.issuer == 64) && nat_lt 0 id.now.number) }
{
    id.issuer == KERNEL && id.number > 0
}

/// Whether a header's reply endpoint and its grant are none, or both in their ranges.
fn is_reply_place(ep: u8, grant: u32) -> bool
    ensures { result ≡ is_reply_place ep grant }
{
    if ep == NO_REPLY {
        grant == 0
    } else {
        (ep as usize) < ENDPOINTS && grant >= 1 && grant <= MOST_GRANTS as u32
    }
}

fn is_header(header: &Header) -> bool
    ensures { result ≡ is_header header.now }
{
    header.flags <= 1
        && (header.flags == 0 || header.reply_ep == NO_REPLY)
        && is_reply_place(header.reply_ep, header.reply)
        && header.lane == 0
        && header.length <= MOST_MESSAGE
        && header.send >= 1
        && header.send <= MOST_GRANTS as u32
        && header.number > 0
}

fn is_message(message: &Message) -> bool
    ensures { result ≡ is_message message.now }
{
    is_header(&message.header) && message.header.length as usize == message.payload.len()
}

fn is_form(fresh: &Fresh) -> bool
    ensures { result ≡ is_form fresh.now }
{
    match fresh {
        Fresh::Send { size, limit, .. } => *size >= 1
            && *size <= MOST_MESSAGE
            && *limit >= 1
            && *limit <= MOST_CREDITS,
        Fresh::Receive { slots, size, .. } => *slots >= 1
            && *slots <= MOST_SLOTS
            && *size >= 1
            && *size <= MOST_MESSAGE,
        Fresh::Memory { start, length, .. } => *length > 0
            && *start as u64 + *length as u64 <= MOST_MEMORY as u64,
    }
}

/// Whether a refusal can come at landing.
fn is_land_refusal(why: Refusal) -> bool
    ensures { result ≡ is_land_refusal why }
{
    match why {
        Refusal::TooLarge => true,
        Refusal::Revoked => true,
        Refusal::Full => true,
        _ => false,
    }
}

/// Whether a command of this kind can get this answer.
fn is_answer_for(kind: Kind, answer: &Answer) -> bool
    ensures { result ≡ is_answer_for (kind_of kind) answer.now }
{
    match (kind, answer) {
        (Kind::Send, Answer::Sent) => true,
        (Kind::Send, Answer::Refused(why)) => is_land_refusal(*why),
        (Kind::Reply, Answer::Replied) => true,
        (Kind::Reply, Answer::Refused(why)) => is_land_refusal(*why),
        (Kind::Read, Answer::Bytes(bytes)) => bytes.len() <= MOST_BYTES as usize,
        (Kind::Write, Answer::Written) => true,
        _ => false,
    }
}

/// Whether this answer gives a send's credit back.
fn is_returned(kind: Kind, answer: &Answer) -> bool
    ensures { result ≡ is_returned (kind_of kind) answer.now }
{
    match (kind, answer) {
        (Kind::Send, Answer::Refused(_)) => true,
        _ => false,
    }
}

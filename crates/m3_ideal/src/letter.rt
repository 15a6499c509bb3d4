//! Messages, with what their headers say in types of its own.

ghost use Rattle.std.specs.Prelude.{◌≡◌, ◌==◌, not, length, IfOk};
ghost use Rattle.m3_base.specs.Ideal.Landing.{message_id};
ghost use Rattle.m3_ideal.specs.Letters.{Addresses};
ghost use Rattle.m3_ideal.specs.LetterView.{place_ep, place_grant};

use m3_base::ids::{ActId, EpId, FlightId, GrantId};
use m3_base::message::{Header, Message};
use m3_base::payload::Payload;
use std::alloc::{AllocError, Global};
use std::marker::Model;

/// What a header names for no reply endpoint.
const NO_ENDPOINT: u8 = 255;

/// The endpoint that waits for a reply, and its receive grant.
#[derive(Clone, Copy, Debug, Drop)]
pub struct ReplyPlace {
    pub ep: EpId,
    pub grant: GrantId,
}

/// Where a reply goes.
#[derive(Clone, Copy, Debug, Drop)]
pub struct Address {
    pub to: ActId,
    pub ep: EpId,
    pub grant: GrantId,
}

/// A message or a reply. Contracts see it with its header.
#[derive(Debug, Drop)]
pub struct Letter {
    sender: ActId,
    number: u32,
    is_reply: bool,
    reply: Option<ReplyPlace>,
    send: GrantId,
    label: u64,
    payload: Payload,
}

impl Model for Letter {
    ghost use Rattle.m3_base.specs.declared.message.Message.{Message as Meaning};

    ghost Value = { Meaning };

    ghost use Rattle.m3_ideal.specs.LetterView.{message_of};

    ghost view = { message_of };
}

impl Letter {
    /// A message through the send grant `send`.
    pub fn message(
        sender: ActId,
        number: u32,
        reply: Option<ReplyPlace>,
        send: GrantId,
        label: u64,
        payload: Payload,
    ) -> Letter
        ensures { result ≡ record {
          header = record {
            flags = 0;
            reply_ep = place_ep reply;
            sender = sender;
            lane = 0;
            length = length payload;
            send = send;
            reply = place_grant reply;
            number = number;
            label = label;
          };
          payload = payload;
        } }
    {
        Letter {
            sender,
            number,
            is_reply: false,
            reply,
            send,
            label,
            payload,
        }
    }

    /// A reply to a message that came through the send grant `send`.
    pub fn reply(sender: ActId, number: u32, send: GrantId, label: u64, payload: Payload) -> Letter
        ensures { result ≡ record {
          header = record {
            flags = 1;
            reply_ep = 255;
            sender = sender;
            lane = 0;
            length = length payload;
            send = send;
            reply = 0;
            number = number;
            label = label;
          };
          payload = payload;
        } }
    {
        Letter {
            sender,
            number,
            is_reply: true,
            reply: None,
            send,
            label,
            payload,
        }
    }

    /// The name of the flight that carries it.
    pub fn id(&self) -> FlightId
        ensures { result ≡ message_id self.now }
    {
        FlightId {
            issuer: self.sender.number(),
            number: self.number,
        }
    }

    /// Whether it is a message and no reply.
    pub fn is_message(&self) -> bool
        ensures { result ≡ (self.now.header.flags == 0) }
    {
        !self.is_reply
    }

    /// Who sent it.
    pub fn sender(&self) -> ActId
        ensures { result ≡ self.now.header.sender }
    {
        self.sender
    }

    /// The send grant that it, or the message that it replies to, went through.
    pub fn send(&self) -> GrantId
        ensures { result ≡ self.now.header.send }
    {
        self.send
    }

    /// Its label.
    pub fn label(&self) -> u64
        ensures { result ≡ self.now.header.label }
    {
        self.label
    }

    /// Its bytes.
    pub fn payload(&self) -> &Payload
        ensures { result.now ≡ self.now.payload }
    {
        &self.payload
    }

    /// Where a reply to it goes. None exactly where it is itself a reply, or names no reply endpoint.
    pub fn address(&self) -> Option<Address>
        ensures { Addresses self.now result }
    {
        if self.is_reply {
            return None;
        }
        let place = self.reply?;
        Some(Address {
            to: self.sender,
            ep: place.ep,
            grant: place.grant,
        })
    }

    /// The message with its header, anew. A payload is at most 65,535 bytes long, or there is no memory for it.
    pub fn copy(&self, alloc: Global) -> Result<Message, AllocError>
        ensures { IfOk result (λ m. m ≡ self.now) }
    {
        let Ok(length) = u16::try_from(self.payload.len()) else {
            return Err(AllocError);
        };
        let payload = self.payload.copy(alloc)?;
        let header = Header {
            flags: if self.is_reply { 1 } else { 0 },
            reply_ep: match self.reply {
                Some(place) => place.ep.number(),
                None => NO_ENDPOINT,
            },
            sender: self.sender,
            lane: 0,
            length,
            send: u32::from(self.send.number()),
            reply: match self.reply {
                Some(place) => u32::from(place.grant.number()),
                None => 0,
            },
            number: self.number,
            label: self.label,
        };
        Ok(Message { header, payload })
    }
}

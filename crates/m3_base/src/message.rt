//! Messages.

ghost use Rattle.std.specs.Prelude.{◌≡◌};
ghost use Rattle.m3_base.specs.Ideal.Landing.{message_id};

use crate::ids::{ActId, FlightId};
use crate::payload::Payload;

/// What goes with a payload. `flags` is 1 for a reply, else 0. `reply_ep` is the sender's endpoint that waits for a
/// reply, with its grant in `reply`, or 255 and 0 where none is wanted. `send` is the grant that the message went
/// through, and `label` what that grant says of its sender; `number` is the flight's, and `length` the payload's.
/// `lane` is kept at 0.
#[derive(Clone, Copy, Debug, PartialEq, Eq, Drop)]
pub struct Header {
    pub flags: u8,
    pub reply_ep: u8,
    pub sender: ActId,
    pub lane: u8,
    pub length: u16,
    pub send: u32,
    pub reply: u32,
    pub number: u32,
    pub label: u64,
}

/// A message or a reply.
#[derive(Debug, Drop)]
pub struct Message {
    pub header: Header,
    pub payload: Payload,
}

impl Message {
    /// The name of the flight that carries it.
    pub fn id(&self) -> FlightId
        ensures { result ≡ message_id self.now }
    {
        let sender = self.header.sender;
        FlightId {
            issuer: sender.number(),
            number: self.header.number,
        }
    }
}

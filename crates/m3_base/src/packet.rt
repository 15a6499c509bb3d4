//! What flies: packets, and the records that the kernel installs.

ghost use Rattle.std.specs.Prelude.{◌≡◌};
ghost use Rattle.m3_base.specs.Ideal.Flights.{name_of};
ghost use Rattle.m3_base.specs.Ideal.Issue.{may_read, may_write};
ghost use Rattle.m3_base.specs.Ideal.GrantRules.{is_within_perm};

use crate::command::Answer;
use crate::ids::{ActId, EpId, FlightId, GrantId};
use crate::message::Message;
use crate::payload::Payload;

/// A permission on memory: read, write, or both.
#[derive(Clone, Copy, Debug, PartialEq, Eq, Drop)]
pub enum Perm {
    R,
    W,
    Rw,
}

impl Perm {
    /// Whether it permits reads.
    pub fn may_read(self) -> bool
        ensures { result ≡ may_read self }
    {
        matches!(self, Perm::R | Perm::Rw)
    }

    /// Whether it permits writes.
    pub fn may_write(self) -> bool
        ensures { result ≡ may_write self }
    {
        matches!(self, Perm::W | Perm::Rw)
    }

    /// Whether the other permits all that this one does.
    pub fn is_within(self, other: Perm) -> bool
        ensures { result ≡ is_within_perm self other }
    {
        (!self.may_read() || other.may_read()) && (!self.may_write() || other.may_write())
    }
}

/// A record as the kernel installs it. A send record has 1 to 32 credits and a largest payload of 1 to 512 bytes, a
/// receive record 1 to 32 slots of 1 to 512 bytes, a memory record at least one byte from `start` on.
#[derive(Clone, Copy, Debug, PartialEq, Eq, Drop)]
pub enum Fresh {
    Send {
        grant: GrantId,
        to: ActId,
        to_ep: EpId,
        to_grant: GrantId,
        label: u64,
        size: u16,
        limit: u8,
    },
    Receive {
        grant: GrantId,
        slots: u8,
        size: u16,
    },
    Memory {
        grant: GrantId,
        start: u32,
        length: u32,
        perm: Perm,
    },
}

/// A flight's packet. The name of a message is its header's sender and number; any other packet has its name.
#[derive(Debug, Drop)]
pub enum Packet {
    /// A message or a reply to the receive grant `grant` at an activity's endpoint.
    Message {
        to: ActId,
        ep: EpId,
        grant: GrantId,
        message: Message,
    },
    /// A credit for the endpoint of the send grant `grant`.
    Credit {
        id: FlightId,
        to: ActId,
        grant: GrantId,
    },
    /// A read of as many bytes as its buffer has, which are 0 until it is served.
    Read {
        id: FlightId,
        grant: GrantId,
        place: u32,
        buffer: Payload,
    },
    /// A write of the payload.
    Write {
        id: FlightId,
        grant: GrantId,
        place: u32,
        payload: Payload,
    },
    /// The answer to the command of this name.
    Answer {
        id: FlightId,
        answer: Answer,
    },
    /// The kernel installs a record.
    Install {
        id: FlightId,
        to: ActId,
        ep: EpId,
        fresh: Fresh,
    },
    /// The kernel closes a record.
    Close {
        id: FlightId,
        to: ActId,
        ep: EpId,
        grant: GrantId,
    },
}

impl Packet {
    /// The flight's name.
    pub fn id(&self) -> FlightId
        ensures { result ≡ name_of self.now }
    {
        match self {
            Packet::Message { message, .. } => message.id(),
            Packet::Credit { id, .. } => *id,
            Packet::Read { id, .. } => *id,
            Packet::Write { id, .. } => *id,
            Packet::Answer { id, .. } => *id,
            Packet::Install { id, .. } => *id,
            Packet::Close { id, .. } => *id,
        }
    }
}

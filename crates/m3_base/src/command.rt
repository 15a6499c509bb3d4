//! Commands of an activity, and what it is told of them.

ghost use Rattle.std.specs.Prelude.{◌≡◌, IfOk};
ghost use Rattle.m3_base.specs.Ideal.Issue.{flies_always};
ghost use Rattle.m3_base.specs.Limits.{is_short};
ghost use Rattle.m3_base.specs.RefusalCodes.{refusal_code, refusal_name};

use crate::ids::{EpId, FlightId};
use crate::limits::MOST_PAYLOAD;
use crate::message::Message;
use crate::payload::Payload;
use std::alloc::{AllocError, Global};

/// What an activity asks of its data transfer unit. Send, reply, read and write fly; fetch and acknowledge are
/// answered at once.
#[derive(Debug, Drop)]
pub enum Command {
    /// Send the payload through a send endpoint; `reply` is a receive endpoint of the sender that waits for a reply.
    Send {
        ep: EpId,
        payload: Payload,
        reply: Option<EpId>,
    },
    /// Reply to the fetched message of this token.
    Reply {
        ep: EpId,
        token: u32,
        payload: Payload,
    },
    /// Take the oldest unread message.
    Fetch {
        ep: EpId,
    },
    /// Free the slot of the fetched message of this token.
    Acknowledge {
        ep: EpId,
        token: u32,
    },
    /// Read `len` bytes at the offset `off` of a memory endpoint.
    Read {
        ep: EpId,
        off: u32,
        len: u16,
    },
    /// Write the payload at the offset `off` of a memory endpoint.
    Write {
        ep: EpId,
        off: u32,
        payload: Payload,
    },
}

impl Command {
    /// The same command anew.
    pub fn copy(&self, alloc: Global) -> Result<Command, AllocError>
        ensures { IfOk result (λ c. c ≡ self.now) }
    {
        match self {
            Command::Send { ep, payload, reply } => {
                let payload = payload.copy(alloc)?;
                Ok(Command::Send {
                    ep: *ep,
                    payload,
                    reply: *reply,
                })
            }
            Command::Reply { ep, token, payload } => {
                let payload = payload.copy(alloc)?;
                Ok(Command::Reply {
                    ep: *ep,
                    token: *token,
                    payload,
                })
            }
            Command::Fetch { ep } => Ok(Command::Fetch { ep: *ep }),
            Command::Acknowledge { ep, token } => Ok(Command::Acknowledge {
                ep: *ep,
                token: *token,
            }),
            Command::Read { ep, off, len } => Ok(Command::Read {
                ep: *ep,
                off: *off,
                len: *len,
            }),
            Command::Write { ep, off, payload } => {
                let payload = payload.copy(alloc)?;
                Ok(Command::Write {
                    ep: *ep,
                    off: *off,
                    payload,
                })
            }
        }
    }

    /// Whether its payload, where it has one, is at most 8,192 bytes long.
    pub fn is_short(&self) -> bool
        ensures { result ≡ is_short self.now }
    {
        match self {
            Command::Send { payload, .. } => payload.len() <= MOST_PAYLOAD,
            Command::Reply { payload, .. } => payload.len() <= MOST_PAYLOAD,
            Command::Write { payload, .. } => payload.len() <= MOST_PAYLOAD,
            _ => true,
        }
    }

    /// Whether it is one of the four that fly where they aren't refused.
    pub fn flies(&self) -> bool
        ensures { result ≡ flies_always self.now }
    {
        match self {
            Command::Fetch { .. } => false,
            Command::Acknowledge { .. } => false,
            _ => true,
        }
    }
}

/// Why a command is refused. The codes are 1 to 10 in this order.
#[derive(Clone, Copy, Debug, PartialEq, Eq, Drop)]
pub enum Refusal {
    /// The endpoint isn't of the command's kind.
    NoEndpoint,
    /// A send finds no credit held.
    NoCredits,
    /// The payload, or the length of a read, is above its limit.
    TooLarge,
    /// The record is closing, or the packet's grant has no live receive record where it lands.
    Revoked,
    /// All slots of the receive endpoint are occupied.
    Full,
    /// The bytes don't lie in the record's range.
    OutOfRange,
    /// The record doesn't permit this access.
    NoPermission,
    /// The message that is replied to names no reply endpoint, or is itself a reply.
    NoReplyWanted,
    /// No message of this token is fetched, or it is being replied to.
    NoSuchToken,
    /// A send names a reply endpoint that isn't a live receive record.
    BadReplyEndpoint,
}

impl Refusal {
    /// Its code, 1 to 10.
    pub fn code(self) -> u8
        ensures { result ≡ refusal_code self }
    {
        match self {
            Refusal::NoEndpoint => 1,
            Refusal::NoCredits => 2,
            Refusal::TooLarge => 3,
            Refusal::Revoked => 4,
            Refusal::Full => 5,
            Refusal::OutOfRange => 6,
            Refusal::NoPermission => 7,
            Refusal::NoReplyWanted => 8,
            Refusal::NoSuchToken => 9,
            Refusal::BadReplyEndpoint => 10,
        }
    }

    /// Its name, as journals print it behind the code.
    pub fn name(self) -> &'static str
        ensures { result.now ≡ refusal_name self }
    {
        match self {
            Refusal::NoEndpoint => "no-endpoint",
            Refusal::NoCredits => "no-credits",
            Refusal::TooLarge => "too-large",
            Refusal::Revoked => "revoked",
            Refusal::Full => "full",
            Refusal::OutOfRange => "out-of-range",
            Refusal::NoPermission => "no-permission",
            Refusal::NoReplyWanted => "no-reply-wanted",
            Refusal::NoSuchToken => "no-such-token",
            Refusal::BadReplyEndpoint => "bad-reply-endpoint",
        }
    }
}

/// The answer to a command that flew.
#[derive(Debug, Drop)]
pub enum Answer {
    Sent,
    Replied,
    Written,
    Bytes(Payload),
    Refused(Refusal),
}

impl Answer {
    /// The same answer anew.
    pub fn copy(&self, alloc: Global) -> Result<Answer, AllocError>
        ensures { IfOk result (λ a. a ≡ self.now) }
    {
        match self {
            Answer::Sent => Ok(Answer::Sent),
            Answer::Replied => Ok(Answer::Replied),
            Answer::Written => Ok(Answer::Written),
            Answer::Bytes(bytes) => {
                let bytes = bytes.copy(alloc)?;
                Ok(Answer::Bytes(bytes))
            }
            Answer::Refused(why) => Ok(Answer::Refused(*why)),
        }
    }
}

/// What an activity is told of a command, at issue or by its answer.
#[derive(Debug, Drop)]
pub enum Reply {
    Nothing,
    Fetched { token: u32, message: Message },
    Acknowledged(Option<FlightId>),
    Sent,
    Replied,
    Written,
    Bytes(Payload),
    Refused(Refusal),
}

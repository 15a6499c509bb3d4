//! Commands where they are issued.

ghost use Rattle.std.specs.Prelude.{◌≡◌, ℕ, ◌<◌, ◌≤◌, true, false, None, Some, length, replicate, IsTrue};
ghost use Rattle.m3_base.specs.Ideal.Context.{endpoint};
ghost use Rattle.m3_base.specs.Ideal.Issue.{issue, is_busy, flies_always};
ghost use Rattle.m3_core.specs.EndpointStep.{HasToken};
ghost use Rattle.m3_core.specs.Preconditions.{HasTokenFor, IsBufferFor};
ghost use Rattle.m3_core.specs.IssueView.{issued_by, oldest, reply_to};
ghost use Rattle.m3_base.specs.Ideal.EndpointStep.{oldest_at};

use crate::context::Context;
use crate::flying::Kind;
use crate::issued::Issued;
use m3_base::command::Command;
use m3_base::ids::{EpId, FlightId, GrantId};
use m3_base::limits::NO_REPLY;
use m3_base::message::{Header, Message};
use m3_base::packet::Packet;
use m3_base::payload::Payload;

/// A reply endpoint and its grant as a header has them, and whether the endpoint isn't a live receive record.
#[derive(Clone, Copy, Debug, Drop)]
pub struct ReplyTo {
    ep: u8,
    grant: u32,
    is_bad: bool,
}

impl Context {
    /// Issues a command. It answers the first refusal that applies, and nothing has changed then. A read of at most 4,096
    /// bytes is handed a buffer of so many zeros, which becomes its packet's; any other buffer is dropped.
    pub fn issue(&mut self, command: Command, buffer: Payload) -> Issued
        requires busy { IsTrue (flies_always command) → is_busy self.old ≡ false }
        requires number { self.old.next < 4294967295 }
        requires token { HasTokenFor self.old command }
        requires buffer { IsBufferFor command buffer }
        ensures { issue self.old command ≡ issued_by (oldest self.old command) result self.new }
    {
        match command {
            Command::Send { ep, payload, reply } => self.send(ep, payload, reply),
            Command::Reply { ep, token, payload } => self.reply(ep, token, payload),
            Command::Fetch { ep } => self.fetch(ep),
            Command::Acknowledge { ep, token } => self.acknowledge(ep, token),
            Command::Read { ep, off, len } => self.read(ep, off, len, buffer),
            Command::Write { ep, off, payload } => self.write(ep, off, payload),
        }
    }

    #[inline(always)]
    fn send(&mut self, ep: EpId, payload: Payload, reply: Option<EpId>) -> Issued
        requires busy { is_busy self.old ≡ false }
        requires number { self.old.next < 4294967295 }
        ensures { issue self.old (Command.Send ep payload reply) ≡ issued_by None result self.new }
    {
        let length = payload.len();
        let reply = self.reply_to(&reply);
        match self.slots[ep.number() as usize].send(length, reply.is_bad) {
            Err(why) => Issued::Refused(why),
            Ok(target) => {
                let id = self.next_id();
                let header = Header {
                    flags: 0,
                    reply_ep: reply.ep,
                    sender: self.act,
                    lane: 0,
                    length: length as u16,
                    send: target.send.number() as u32,
                    reply: reply.grant,
                    number: self.next,
                    label: target.label,
                };
                self.launch(Kind::Send, ep, 0);
                Issued::Flies(
                    id,
                    Packet::Message {
                        to: target.to,
                        ep: target.ep,
                        grant: target.grant,
                        message: Message { header, payload },
                    },
                )
            }
        }
    }

    #[tactic(auto, using(crate::proofs::RefusedReply::refused_reply))]
    #[inline(always)]
    fn reply(&mut self, ep: EpId, token: u32, payload: Payload) -> Issued
        requires busy { is_busy self.old ≡ false }
        requires number { self.old.next < 4294967295 }
        ensures { issue self.old (Command.Reply ep token payload) ≡ issued_by None result self.new }
    {
        let length = payload.len();
        match self.slots[ep.number() as usize].begin_reply(token, length) {
            Err(why) => Issued::Refused(why),
            Ok(to) => {
                let id = self.next_id();
                let header = Header {
                    flags: 1,
                    reply_ep: NO_REPLY,
                    sender: self.act,
                    lane: 0,
                    length: length as u16,
                    send: to.send,
                    reply: 0,
                    number: self.next,
                    label: to.label,
                };
                self.launch(Kind::Reply, ep, token);
                Issued::Flies(
                    id,
                    Packet::Message {
                        to: to.sender,
                        ep: EpId::new(to.reply_ep),
                        grant: GrantId::new(to.reply as u16),
                        message: Message { header, payload },
                    },
                )
            }
        }
    }

    #[inline(always)]
    fn fetch(&mut self, ep: EpId) -> Issued
        requires { HasToken (endpoint self.old ep) }
        ensures { issue self.old (Command.Fetch ep) ≡ issued_by (oldest_at (endpoint self.old ep)) result self.new }
    {
        match self.slots[ep.number() as usize].fetch() {
            Err(why) => Issued::Refused(why),
            Ok(token) => Issued::Fetched(token),
        }
    }

    #[inline(always)]
    fn acknowledge(&mut self, ep: EpId, token: u32) -> Issued
        requires { self.old.next < 4294967295 }
        ensures { issue self.old (Command.Acknowledge ep token) ≡ issued_by None result self.new }
    {
        match self.slots[ep.number() as usize].acknowledge(token) {
            Err(why) => Issued::Refused(why),
            Ok(header) => {
                if header.flags != 0 {
                    return Issued::Acknowledged(None);
                }
                let id = self.next_id();
                self.next += 1;
                Issued::Acknowledged(Some(Packet::Credit {
                    id,
                    to: header.sender,
                    grant: GrantId::new(header.send as u16),
                }))
            }
        }
    }

    #[inline(always)]
    fn read(&mut self, ep: EpId, off: u32, len: u16, buffer: Payload) -> Issued
        requires busy { is_busy self.old ≡ false }
        requires number { self.old.next < 4294967295 }
        requires buffer { IsBufferFor (Command.Read ep off len) buffer }
        ensures { issue self.old (Command.Read ep off len) ≡ issued_by None result self.new }
    {
        match self.slots[ep.number() as usize].access(off, len as usize, false) {
            Err(why) => Issued::Refused(why),
            Ok(place) => {
                let id = self.next_id();
                self.launch(Kind::Read, ep, 0);
                Issued::Flies(
                    id,
                    Packet::Read {
                        id,
                        grant: place.grant,
                        place: place.at,
                        buffer,
                    },
                )
            }
        }
    }

    #[inline(always)]
    fn write(&mut self, ep: EpId, off: u32, payload: Payload) -> Issued
        requires busy { is_busy self.old ≡ false }
        requires number { self.old.next < 4294967295 }
        ensures { issue self.old (Command.Write ep off payload) ≡ issued_by None result self.new }
    {
        let length = payload.len();
        match self.slots[ep.number() as usize].access(off, length, true) {
            Err(why) => Issued::Refused(why),
            Ok(place) => {
                let id = self.next_id();
                self.launch(Kind::Write, ep, 0);
                Issued::Flies(
                    id,
                    Packet::Write {
                        id,
                        grant: place.grant,
                        place: place.at,
                        payload,
                    },
                )
            }
        }
    }

    /// What a send's header says of its reply endpoint.
    #[inline(always)]
    fn reply_to(&self, reply: &Option<EpId>) -> ReplyTo
        ensures { result ≡ reply_to self.now reply.now }
    {
        match reply {
            None => ReplyTo {
                ep: NO_REPLY,
                grant: 0,
                is_bad: false,
            },
            Some(ep) => match self.slots[ep.number() as usize].live_receive() {
                None => ReplyTo {
                    ep: ep.number(),
                    grant: 0,
                    is_bad: true,
                },
                Some(grant) => ReplyTo {
                    ep: ep.number(),
                    grant: grant.number() as u32,
                    is_bad: false,
                },
            },
        }
    }
}

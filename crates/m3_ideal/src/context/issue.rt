//! Commands where they are issued.

ghost use Rattle.std.specs.Prelude.{◌≡◌, ◌<◌, false};
ghost use Rattle.m3_base.specs.Ideal.Context.{endpoint};
ghost use Rattle.m3_base.specs.Ideal.Issue.{is_busy, is_bad_reply, send, reply, fetch, acknowledge, read, write};
ghost use Rattle.m3_ideal.specs.Issuing.{issued_by, Gives_as, IssuesAt, Numbers, Numbers_as, IsPlace};

use crate::context::Context;
use crate::flight::{Cargo, Flight};
use crate::flying::Kind;
use crate::issued::Issued;
use crate::letter::{Letter, ReplyPlace};
use m3_base::command::Command;
use m3_base::ids::EpId;
use m3_base::payload::Payload;
use std::alloc::{AllocError, Global};

impl Context {
    /// Issues a command. It answers the first refusal that applies. None where as many commands fly as may, and the
    /// command is none of the two that are answered at once. Err, and nothing has changed, where memory runs out, or a
    /// number would pass 4,294,967,295.
    pub fn issue(&mut self, alloc: Global, command: Command) -> Result<Option<Issued>, AllocError>
        ensures issues { IssuesAt result command self.old self.new }
        ensures act { self.new.act ≡ self.old.act }
    {
        let flies = command.flies();
        if flies && self.is_busy() {
            return Ok(None);
        }
        if self.next == 4294967295 {
            return Err(AllocError);
        }
        let issued = match command {
            Command::Send { ep, payload, reply } => self.send(ep, payload, reply),
            Command::Reply { ep, token, payload } => self.reply(ep, token, payload),
            Command::Fetch { ep } => self.fetch(alloc, ep)?,
            Command::Acknowledge { ep, token } => self.acknowledge(ep, token),
            Command::Read { ep, off, len } => self.read(ep, off, len)?,
            Command::Write { ep, off, payload } => self.write(ep, off, payload)?,
        };
        Ok(Some(issued))
    }

    fn send(&mut self, ep: EpId, payload: Payload, reply: Option<EpId>) -> Issued
        requires busy { is_busy self.old ≡ false }
        requires number { self.old.next < 4294967295 }
        ensures issued { send self.old ep payload reply (endpoint self.old ep) ≡ issued_by result self.new }
        ensures numbers { Numbers result self.old self.new }
        ensures act { self.new.act ≡ self.old.act }
    {
        let is_bad = self.is_bad_reply(&reply);
        let place = self.reply_place(&reply);
        match self.slots[ep.number() as usize].send(payload.len(), is_bad) {
            Err(why) => Issued::Refused(why),
            Ok(target) => {
                let id = self.next_id();
                let letter = Letter::message(
                    self.act,
                    self.next,
                    place,
                    target.send,
                    target.label,
                    payload,
                );
                self.launch(Kind::Send, ep, 0);
                Issued::Flies(
                    id,
                    Flight::new(Cargo::Message {
                        to: target.to,
                        ep: target.ep,
                        grant: target.grant,
                        letter,
                    }),
                )
            }
        }
    }

    fn reply(&mut self, ep: EpId, token: u32, payload: Payload) -> Issued
        requires busy { is_busy self.old ≡ false }
        requires number { self.old.next < 4294967295 }
        ensures issued { reply self.old ep token payload (endpoint self.old ep) ≡ issued_by result self.new }
        ensures numbers { Numbers result self.old self.new }
        ensures act { self.new.act ≡ self.old.act }
    {
        match self.slots[ep.number() as usize].begin_reply(token, payload.len()) {
            Err(why) => Issued::Refused(why),
            Ok(back) => {
                let id = self.next_id();
                let letter = Letter::reply(self.act, self.next, back.send, back.label, payload);
                self.launch(Kind::Reply, ep, token);
                Issued::Flies(
                    id,
                    Flight::new(Cargo::Message {
                        to: back.address.to,
                        ep: back.address.ep,
                        grant: back.address.grant,
                        letter,
                    }),
                )
            }
        }
    }

    fn fetch(&mut self, alloc: Global, ep: EpId) -> Result<Issued, AllocError>
        ensures issued { Gives_as result (fetch self.old ep (endpoint self.old ep)) self.old self.new }
        ensures numbers { Numbers_as result self.old self.new }
        ensures act { self.new.act ≡ self.old.act }
    {
        let slot = &mut self.slots[ep.number() as usize];
        let message = match slot.front() {
            None => None,
            Some(letter) => Some(letter.copy(alloc)?),
        };
        match slot.fetch()? {
            Err(why) => Ok(Issued::Refused(why)),
            Ok(None) => Ok(Issued::Nothing),
            Ok(Some(token)) => match message {
                None => unreachable!(),
                Some(message) => Ok(Issued::Fetched { token, message }),
            },
        }
    }

    fn acknowledge(&mut self, ep: EpId, token: u32) -> Issued
        requires { self.old.next < 4294967295 }
        ensures issued { acknowledge self.old ep token (endpoint self.old ep) ≡ issued_by result self.new }
        ensures numbers { Numbers result self.old self.new }
        ensures act { self.new.act ≡ self.old.act }
    {
        match self.slots[ep.number() as usize].acknowledge(token) {
            Err(why) => Issued::Refused(why),
            Ok(None) => Issued::Acknowledged(None),
            Ok(Some(credit)) => {
                let id = self.next_id();
                self.next += 1;
                Issued::Acknowledged(Some((
                    id,
                    Flight::new(Cargo::Credit {
                        id,
                        to: credit.to,
                        grant: credit.grant,
                    }),
                )))
            }
        }
    }

    fn read(&mut self, ep: EpId, off: u32, len: u16) -> Result<Issued, AllocError>
        requires busy { is_busy self.old ≡ false }
        requires number { self.old.next < 4294967295 }
        ensures issued { Gives_as result (read self.old ep off len (endpoint self.old ep)) self.old self.new }
        ensures numbers { Numbers_as result self.old self.new }
        ensures act { self.new.act ≡ self.old.act }
    {
        match self.slots[ep.number() as usize].access(off, usize::from(len), false)? {
            Err(why) => Ok(Issued::Refused(why)),
            Ok(access) => {
                let id = self.next_id();
                self.launch(Kind::Read, ep, 0);
                Ok(Issued::Flies(
                    id,
                    Flight::new(Cargo::Read {
                        id,
                        grant: access.grant,
                        place: access.place,
                        len,
                    }),
                ))
            }
        }
    }

    fn write(&mut self, ep: EpId, off: u32, payload: Payload) -> Result<Issued, AllocError>
        requires busy { is_busy self.old ≡ false }
        requires number { self.old.next < 4294967295 }
        ensures issued { Gives_as result (write self.old ep off payload (endpoint self.old ep)) self.old self.new }
        ensures numbers { Numbers_as result self.old self.new }
        ensures act { self.new.act ≡ self.old.act }
    {
        match self.slots[ep.number() as usize].access(off, payload.len(), true)? {
            Err(why) => Ok(Issued::Refused(why)),
            Ok(access) => {
                let id = self.next_id();
                self.launch(Kind::Write, ep, 0);
                Ok(Issued::Flies(
                    id,
                    Flight::new(Cargo::Write {
                        id,
                        grant: access.grant,
                        place: access.place,
                        payload,
                    }),
                ))
            }
        }
    }

    // Whether a send names a reply endpoint that isn't a live receive record.
    fn is_bad_reply(&self, reply: &Option<EpId>) -> bool
        ensures { result ≡ is_bad_reply self.now reply.now }
    {
        match reply {
            None => false,
            Some(ep) => self.slots[ep.number() as usize].live_receive().is_none(),
        }
    }

    // The reply endpoint that a send names, and its grant.
    fn reply_place(&self, reply: &Option<EpId>) -> Option<ReplyPlace>
        ensures { is_bad_reply self.now reply.now ≡ false → IsPlace self.now reply.now result }
    {
        let ep = (*reply)?;
        let grant = self.slots[ep.number() as usize].live_receive()?;
        Some(ReplyPlace { ep, grant })
    }
}

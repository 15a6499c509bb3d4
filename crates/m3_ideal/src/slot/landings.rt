//! One endpoint's part of what lands.

ghost use Rattle.std.specs.Prelude.{◌≡◌, OnOk, OnErr};
ghost use Rattle.m3_base.specs.Ideal.Landing.{land_refusal, more_at, endpoint_after_answer};
ghost use Rattle.m3_ideal.specs.FlyingView.{kind_of};
ghost use Rattle.m3_base.specs.Ideal.EndpointStep.{joined_if};

use crate::flying::Kind;
use crate::letter::Letter;
use crate::slot::{Record, Slot};
use m3_base::command::{Answer, Refusal};
use m3_base::ids::GrantId;
use std::alloc::AllocError;

impl Slot {
    /// Why a message for this grant is refused here.
    pub fn refusal(&self, grant: GrantId, letter: &Letter) -> Option<Refusal>
        ensures { result ≡ land_refusal grant letter.now self.now }
    {
        let Record::Receive(r) = &self.record else {
            return Some(Refusal::Revoked);
        };
        if r.closing() || r.grant().number() != grant.number() {
            return Some(Refusal::Revoked);
        }
        if letter.payload().len() > usize::from(r.size()) {
            return Some(Refusal::TooLarge);
        }
        if r.is_full() {
            return Some(Refusal::Full);
        }
        None
    }

    /// A message for this grant joins the unread ones, unless it is refused.
    pub fn land(&mut self, grant: GrantId, letter: Letter) -> Option<Refusal>
        ensures answer { result ≡ land_refusal grant letter self.old }
        ensures after { self.new ≡ joined_if result letter self.old }
    {
        if let Some(why) = self.refusal(grant, &letter) {
            return Some(why);
        }
        let Record::Receive(r) = &mut self.record else {
            unreachable!()
        };
        r.join(letter);
        None
    }

    /// Its send record, where it has one, holds one credit more. Err, and nothing has changed, where it holds
    /// 4,294,967,295.
    pub fn give(&mut self) -> Result<(), AllocError>
        ensures ok { OnOk result (self.new ≡ more_at self.old) }
        ensures kept { OnErr result (self.new ≡ self.old) }
    {
        match &mut self.record {
            Record::Send(r) => r.give(),
            _ => Ok(()),
        }
    }

    /// What the answer to a command of this kind and token does here. Err, and nothing has changed, where a credit
    /// finds 4,294,967,295 held.
    pub fn settle(&mut self, kind: Kind, token: u32, answer: &Answer) -> Result<(), AllocError>
        ensures ok { OnOk result (self.new ≡ endpoint_after_answer (kind_of kind) token answer.now self.old) }
        ensures kept { OnErr result (self.new ≡ self.old) }
    {
        match (kind, answer, &mut self.record) {
            (Kind::Send, Answer::Refused(_), Record::Send(r)) => r.give(),
            (Kind::Reply, Answer::Replied, Record::Receive(r)) => {
                r.free(token);
                Ok(())
            }
            (Kind::Reply, Answer::Refused(_), Record::Receive(r)) => {
                r.mark(token, false);
                Ok(())
            }
            _ => Ok(()),
        }
    }
}

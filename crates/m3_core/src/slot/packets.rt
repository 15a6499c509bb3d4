//! One endpoint's part of what comes for it.

ghost use Rattle.std.specs.Prelude.{◌≡◌, ℕ, ◌≤◌, true, false, IsTrue, IsSome, Some, option_map};
ghost use Rattle.m3_base.specs.Ideal.Landing.{land_refusal, sends_by, more_at, endpoint_after_answer};
ghost use Rattle.m3_base.specs.Ideal.Acceptance.{takes_back, is_returned, is_message};
ghost use Rattle.m3_base.specs.Ideal.Credits.{held_at, queued_at};
ghost use Rattle.m3_endpoint.specs.Counters.{Adds};
ghost use Rattle.m3_core.specs.FlyingView.{kind_of};
ghost use Rattle.m3_core.specs.EndpointStep.{replied_at, held_in, refusal_with_room};
ghost use Rattle.m3_base.specs.Ideal.EndpointStep.{joined_if};
ghost use Rattle.m3_base.specs.Ideal.Positions.{send_at};

use crate::flying::Kind;
use crate::slot::Slot;
use m3_base::command::{Answer, Refusal};
use m3_base::ids::GrantId;
use m3_base::message::Message;
use m3_endpoint::counters::add_saturating;
use m3_endpoint::endpoint::Record;
use m3_endpoint::receive::ReceiveEp;

/// Why a message to this grant can't land in a receive record, were all its slots free.
fn refusal_with_room(receive: &ReceiveEp, grant: GrantId, message: &Message) -> Option<Refusal>
    requires { IsSome receive.now }
    ensures { Some result ≡ option_map (refusal_with_room grant message.now) receive.now }
{
    if receive.closing() || receive.grant() != grant {
        Some(Refusal::Revoked)
    } else if message.payload.len() > receive.size() as usize {
        Some(Refusal::TooLarge)
    } else {
        None
    }
}

impl Slot {
    /// Why a message to this grant can't land here.
    pub fn land_refusal(&self, grant: GrantId, message: &Message) -> Option<Refusal>
        ensures { result ≡ land_refusal grant message.now self.now }
    {
        let Record::Receive(record) = &self.installed else {
            return Some(Refusal::Revoked);
        };
        match refusal_with_room(record, grant, message) {
            Some(why) => Some(why),
            None => {
                if record.is_full() {
                    Some(Refusal::Full)
                } else {
                    None
                }
            }
        }
    }

    /// The message joins the unread ones, unless it is refused.
    #[tactic(auto, using(crate::proofs::MessageInvariant::joined_sound))]
    #[inline(always)]
    pub fn land(&mut self, grant: GrantId, message: Message) -> Option<Refusal>
        requires { is_message message ≡ true }
        ensures answer { result ≡ land_refusal grant message self.old }
        ensures after { self.new ≡ joined_if result message self.old }
    {
        let Record::Receive(record) = &mut self.installed else {
            return Some(Refusal::Revoked);
        };
        if let Some(why) = refusal_with_room(record, grant, &message) {
            return Some(why);
        }
        match record.deposit(message) {
            Ok(()) => None,
            Err(_) => Some(Refusal::Full),
        }
    }

    /// Whether it has a send record of this grant.
    #[inline(always)]
    pub fn is_send_of(&self, grant: u32) -> bool
        ensures { result ≡ sends_by grant self.now }
    {
        match &self.installed {
            Record::Send(r) => r.grant().number() as u32 == grant,
            _ => false,
        }
    }

    /// Whether a credit that comes back finds room here.
    #[inline(always)]
    pub fn has_credit_room(&self) -> bool
        ensures { result ≡ takes_back self.now }
    {
        match &self.installed {
            Record::Send(r) => r.held() < r.limit(),
            _ => true,
        }
    }

    /// A credit comes back.
    #[inline(always)]
    pub fn give_credit(&mut self)
        requires { IsTrue (takes_back self.old) }
        ensures { self.new ≡ more_at self.old }
    {
        match &mut self.installed {
            Record::Send(r) => r.give_credit(),
            _ => {}
        }
    }

    /// A command of this endpoint ends with this answer.
    #[inline(always)]
    pub fn apply_answer(&mut self, kind: Kind, token: u32, answer: &Answer)
        requires { IsTrue (is_returned (kind_of kind) answer.now) → IsTrue (takes_back self.old) }
        ensures { self.new ≡ endpoint_after_answer (kind_of kind) token answer.now self.old }
    {
        match (kind, answer) {
            (Kind::Send, Answer::Refused(_)) => self.give_credit(),
            (Kind::Reply, Answer::Replied) => self.end_reply(token, true),
            (Kind::Reply, Answer::Refused(_)) => self.end_reply(token, false),
            _ => {}
        }
    }

    #[tactic(auto, using(crate::proofs::MessageInvariant::replied_sound))]
    #[inline(always)]
    fn end_reply(&mut self, token: u32, landed: bool)
        ensures { self.new ≡ replied_at landed token self.old }
    {
        let Record::Receive(r) = &mut self.installed else {
            return;
        };
        r.end_reply(token, landed);
    }

    /// The credits held by its send record.
    pub fn held(&self) -> Option<u8>
        ensures { result ≡ option_map held_in (send_at self.now) }
    {
        match &self.installed {
            Record::Send(r) => Some(r.held()),
            _ => None,
        }
    }

    /// How many of its messages owe a credit of this grant.
    pub fn queued(&self, grant: GrantId) -> u32
        ensures count { result ≡ queued_at grant self.now }
        ensures range { result ≤ 32 }
    {
        match &self.installed {
            Record::Receive(r) => r.queued(grant),
            _ => 0,
        }
    }

    /// Adds, to the counts of their send grants, the credits that its record holds, and its messages that owe one.
    pub fn count(&self, held: &mut [u32], queued: &mut [u32])
        ensures held { Adds (λ g. held_at g self.now) held.old held.new }
        ensures queued { Adds (λ g. queued_at g self.now) queued.old queued.new }
    {
        match &self.installed {
            Record::Send(r) => add_saturating(
                held,
                u32::from(r.grant().number()),
                u32::from(r.held()),
            ),
            Record::Receive(r) => r.count_queued(queued),
            _ => {}
        }
    }
}

//! One endpoint's part of each command.

ghost use Rattle.std.specs.Prelude.{◌≡◌, ℕ, ◌<◌, ◌≤◌, true, false, IsOk, IfOk, option_copied};
ghost use Rattle.m3_core.specs.MessageInvariant.{HasSender, HasReplyPlace};
ghost use Rattle.m3_core.specs.EndpointStep.{send_target, target_of, less_unless, reply_header, acknowledge_header, access_place, fetched_message_at, HasToken};
ghost use Rattle.m3_base.specs.Ideal.EndpointStep.{unless_refused, changed_if, send_refusal_at, less_at, marking_at, fetch_outcome, after_fetch_at, freed_at, oldest_at};

use crate::slot::{AccessTarget, SendTarget, Slot};
use m3_base::command::Refusal;
use m3_base::limits::{MOST_BYTES, MOST_MESSAGE};
use m3_base::message::{Header, Message};
use m3_endpoint::endpoint::Record;
use m3_endpoint::send::SendEp;

impl Slot {
    /// Takes a credit for a payload of this length.
    #[inline(always)]
    pub fn send(&mut self, bytes: usize, is_bad_reply: bool) -> Result<SendTarget, Refusal>
        ensures answer { result ≡ send_target bytes is_bad_reply self.old }
        ensures after { self.new ≡ changed_if result (less_at self.old) self.old }
        ensures range { IsOk result → bytes ≤ 512 }
    {
        match &mut self.installed {
            Record::Send(r) => send_by(r, bytes, is_bad_reply),
            _ => Err(Refusal::NoEndpoint),
        }
    }

    /// Begins a reply of this length to the message of this token.
    #[tactic(auto, using(crate::proofs::MessageInvariant::marking_sound, crate::proofs::MessageInvariant::reply_sound))]
    #[inline(always)]
    pub fn begin_reply(&mut self, token: u32, bytes: usize) -> Result<Header, Refusal>
        ensures answer { result ≡ reply_header token bytes self.old }
        ensures after { self.new ≡ changed_if result (marking_at true token self.old) self.old }
        ensures place { IfOk result HasReplyPlace }
        ensures range { IsOk result → bytes ≤ 512 }
    {
        let Record::Receive(r) = &mut self.installed else {
            return Err(Refusal::NoEndpoint);
        };
        if r.closing() {
            return Err(Refusal::Revoked);
        }
        let _ = r.reply_header(token)?;
        if bytes > MOST_MESSAGE as usize {
            return Err(Refusal::TooLarge);
        }
        r.begin_reply(token)
    }

    /// Fetches the oldest unread message.
    #[tactic(auto, using(crate::proofs::MessageInvariant::fetched_sound))]
    #[inline(always)]
    pub fn fetch(&mut self) -> Result<Option<u32>, Refusal>
        requires { HasToken self.old }
        ensures answer { result ≡ fetch_outcome self.old }
        ensures after { self.new ≡ changed_if result (after_fetch_at self.old) self.old }
    {
        let Record::Receive(r) = &mut self.installed else {
            return Err(Refusal::NoEndpoint);
        };
        if r.closing() {
            return Err(Refusal::Revoked);
        }
        Ok(r.fetch())
    }

    /// Frees the slot of the message of this token.
    #[tactic(auto, using(crate::proofs::MessageInvariant::freed_sound, crate::proofs::MessageInvariant::header_sound))]
    #[inline(always)]
    pub fn acknowledge(&mut self, token: u32) -> Result<Header, Refusal>
        ensures answer { result ≡ acknowledge_header token self.old }
        ensures after { self.new ≡ changed_if result (freed_at token self.old) self.old }
        ensures sender { IfOk result HasSender }
    {
        let Record::Receive(r) = &mut self.installed else {
            return Err(Refusal::NoEndpoint);
        };
        if r.closing() {
            return Err(Refusal::Revoked);
        }
        r.acknowledge(token)
    }

    /// The place of a read or write of `len` bytes at the offset `off`.
    #[inline(always)]
    pub fn access(&self, off: u32, len: usize, is_write: bool) -> Result<AccessTarget, Refusal>
        ensures { result ≡ access_place off len is_write self.now }
    {
        let Record::Memory(r) = &self.installed else {
            return Err(Refusal::NoEndpoint);
        };
        if r.closing() {
            return Err(Refusal::Revoked);
        }
        if len > MOST_BYTES as usize {
            return Err(Refusal::TooLarge);
        }
        let at = r.check(off, len as u32, is_write)?;
        Ok(AccessTarget {
            grant: r.grant(),
            at,
        })
    }

    /// The oldest unread message.
    #[inline(always)]
    pub fn front(&self) -> Option<&Message>
        ensures { option_copied result ≡ oldest_at self.now }
    {
        match &self.installed {
            Record::Receive(r) => r.front(),
            _ => None,
        }
    }

    /// The fetched message of this token.
    #[inline(always)]
    pub fn fetched(&self, token: u32) -> Option<&Message>
        ensures { option_copied result ≡ fetched_message_at token self.now }
    {
        match &self.installed {
            Record::Receive(r) => r.fetched(token),
            _ => None,
        }
    }
}

/// Takes a credit of this record.
#[inline(always)]
fn send_by(r: &mut SendEp, bytes: usize, is_bad_reply: bool) -> Result<SendTarget, Refusal>
    ensures answer { result ≡ unless_refused (send_refusal_at r.old bytes is_bad_reply) (target_of r.old) }
    ensures after { r.new ≡ less_unless result r.old }
    ensures range { IsOk result → bytes ≤ 512 }
{
    if r.closing() {
        return Err(Refusal::Revoked);
    }
    if is_bad_reply {
        return Err(Refusal::BadReplyEndpoint);
    }
    if bytes > r.size() as usize {
        return Err(Refusal::TooLarge);
    }
    if !r.take_credit() {
        return Err(Refusal::NoCredits);
    }
    Ok(SendTarget {
        to: r.to(),
        ep: r.to_ep(),
        grant: r.to_grant(),
        send: r.grant(),
        label: r.label(),
    })
}

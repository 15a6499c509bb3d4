//! Receive records: unread messages in a ring of 32 places, and fetched ones beside it.

ghost use Rattle.std.specs.Prelude.{◌≡◌, ℕ, ◌<◌, ◌≤◌, ◌↔◌, ◌==◌, ◌||◌, not, IsTrue, IsSome, IsOk, IsErr, true, IfSome, IfOk, IfErr, OnOk, None, Some, length, slice_get, option_map, option_copied};
ghost use Rattle.m3_base.specs.Ideal.ReceiveRecord.{with_unread, without_fetched, with_mark_at};
ghost use Rattle.m3_base.specs.Ideal.Acceptance.{is_form};
ghost use Rattle.m3_base.specs.Ideal.Credits.{is_sent_by};
ghost use Rattle.m3_endpoint.specs.RecordForms.{receive_form};
ghost use Rattle.m3_endpoint.specs.ReceiveOps.{closing_one, is_full_one, HasToken, token_of_fetch, after_fetch, unread_at, token_in, message_at, unmarked_at, marked_at, header_or_refusal, reply_header, with_reply_mark, grant_in, size_in, closing_in, next_token_in, unread_count, fetched_count, token_at, queued_in};
ghost use Rattle.m3_base.specs.Ideal.Context.{empty_record};

mod readers;

use crate::fetched::{FetchedMessage, mark, remove};
use circular_buffer::HeapCircularBuffer;
use m3_base::command::Refusal;
use m3_base::ids::GrantId;
use m3_base::limits::MOST_SLOTS;
use m3_base::message::{Header, Message};
use m3_base::packet::Fresh;
use std::alloc::{AllocError, Global};
use std::marker::Model;

/// A receive record with room for 32 messages from the start. Contracts see its record, or none while it is unused.
#[derive(Drop)]
pub struct ReceiveEp {
    used: bool,
    grant: GrantId,
    slots: u8,
    size: u16,
    unread: HeapCircularBuffer<Message>,
    fetched: Vec<FetchedMessage>,
    next_token: u32,
    closing: bool,
}

impl Model for ReceiveEp {
    ghost use Rattle.std.specs.Prelude.{Option};
    ghost use Rattle.m3_base.specs.Ideal.Context.{ReceiveRecord};

    ghost Value = { Option ReceiveRecord };

    ghost use Rattle.m3_endpoint.specs.ReceiveView.{receive_record, IsKept};

    ghost view = { receive_record };

    ghost invariant = { IsKept };
}

impl ReceiveEp {
    /// An unused one.
    pub fn new(alloc: Global) -> Result<ReceiveEp, AllocError>
        ensures { IfOk result (λ r. r ≡ None) }
    {
        let unread = HeapCircularBuffer::with_capacity(alloc, MOST_SLOTS as usize)?;
        let fetched = Vec::with_capacity(alloc, MOST_SLOTS as usize)?;
        Ok(ReceiveEp {
            used: false,
            grant: GrantId::new(1),
            slots: 1,
            size: 1,
            unread,
            fetched,
            next_token: 0,
            closing: false,
        })
    }

    /// It is used from now on, for messages of at most `size` bytes, and has no message yet.
    pub fn open(&mut self, grant: GrantId, slots: u8, size: u16)
        requires unused { self.old ≡ None }
        requires form { IsTrue (is_form (Fresh.Receive grant slots size)) }
        ensures { self.new ≡ Some (empty_record grant slots size) }
    {
        self.used = true;
        self.grant = grant;
        self.slots = slots;
        self.size = size;
        self.next_token = 0;
        self.closing = false;
    }

    /// It is unused from now on, and its messages are dropped.
    pub fn shut(&mut self)
        ensures { self.new ≡ None }
    {
        self.unread.clear();
        self.fetched.clear();
        self.used = false;
    }

    /// The record is closing from now on.
    pub fn close(&mut self)
        requires { IsSome self.old }
        ensures { self.new ≡ option_map closing_one self.old }
    {
        self.closing = true;
    }

    /// A message joins the unread ones. Err, with the message, exactly where all slots are occupied.
    #[inline(always)]
    pub fn deposit(&mut self, message: Message) -> Result<(), Message>
        requires { IsSome self.old }
        ensures ok { OnOk result (self.new ≡ option_map (λ r. with_unread r message) self.old) }
        ensures full { IsErr result ↔ IsTrue (is_full_one self.old) }
        ensures err { IfErr result (λ back. (back ≡ message) × (self.new ≡ self.old)) }
    {
        if self.is_full() {
            return Err(message);
        }
        self.unread.try_push_back(message)
    }

    /// Whether all slots are occupied.
    #[inline(always)]
    pub fn is_full(&self) -> bool
        requires { IsSome self.now }
        ensures { result ≡ is_full_one self.now }
    {
        self.unread.len() + self.fetched.len() >= self.slots as usize
    }

    /// The oldest unread message is fetched, under the next token. None exactly where none is unread.
    #[tactic(auto, using(crate::proofs::TokenOrder::ordered_push))]
    #[inline(always)]
    pub fn fetch(&mut self) -> Option<u32>
        requires { HasToken self.old }
        ensures token { result ≡ token_of_fetch self.old }
        ensures messages { self.new ≡ after_fetch self.old }
    {
        if !self.used {
            return None;
        }
        match self.unread.pop_front() {
            None => None,
            Some(message) => {
                let token = self.next_token;
                self.next_token += 1;
                self.fetched
                    .push_reserved(FetchedMessage::new(token, message));
                Some(token)
            }
        }
    }

    /// Frees the slot of the message of this token. `NoSuchToken` exactly where none of this token is fetched, or it
    /// is being replied to; nothing has changed then.
    #[inline(always)]
    pub fn acknowledge(&mut self, token: u32) -> Result<Header, Refusal>
        ensures answer { result ≡ header_or_refusal (unmarked_at token self.old) }
        ensures freed { IsOk result → self.new ≡ option_map (λ r. without_fetched r token) self.old }
        ensures refused { IsErr result → self.new ≡ self.old }
    {
        let header = self.unmarked_header(token)?;
        remove(&mut self.fetched, token);
        Ok(header)
    }

    /// A reply to the message of this token begins. `NoSuchToken` exactly where none of this token is fetched, or it
    /// is being replied to already, and else `NoReplyWanted` exactly where the message names no reply endpoint or is
    /// itself a reply. Nothing has changed then.
    pub fn begin_reply(&mut self, token: u32) -> Result<Header, Refusal>
        ensures answer { result ≡ reply_header (unmarked_at token self.old) }
        ensures marked { IsOk result → self.new ≡ option_map (λ r. with_mark_at true r token) self.old }
        ensures refused { IsErr result → self.new ≡ self.old }
    {
        let header = self.reply_header(token)?;
        mark(&mut self.fetched, token, true);
        Ok(header)
    }

    /// The reply to the message of this token has landed, and the slot is free; or it was refused, and the message
    /// can be replied to again.
    pub fn end_reply(&mut self, token: u32, landed: bool)
        ensures { self.new ≡ option_map (with_reply_mark landed token) self.old }
    {
        if landed {
            remove(&mut self.fetched, token);
        } else {
            mark(&mut self.fetched, token, false);
        }
    }
}

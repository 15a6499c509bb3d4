//! The records that endpoints have.

ghost use Rattle.std.specs.Prelude.{◌≡◌, ◌+◌, ◌-◌, ◌==◌, ◌<◌, nat_lt, true, false, None, Some, IsOk, IfOk, OnOk, OnErr, length, slice_get, option_copied, not};
ghost use Rattle.m3_base.specs.Ideal.ReceiveRecord.{is_full, with_unread, without_fetched, with_mark_at, fetched_at, unmarked_message, fetched_token, fetched_one};
ghost use Rattle.m3_base.specs.Ideal.Issue.{less_one, may_read, may_write, access_refusal};
ghost use Rattle.m3_base.specs.Ideal.Landing.{one_more};
ghost use Rattle.m3_base.specs.Ideal.Credits.{queued_at};
ghost use Rattle.m3_base.specs.Ideal.Context.{Receives, empty_record};

use crate::fetched::{Fetched, mark, remove, token_place};
use crate::letter::Letter;
use m3_base::ids::{ActId, EpId, GrantId};
use m3_base::packet::Perm;
use std::alloc::{AllocError, Global};
use std::collections::VecDeque;
use std::marker::Model;

/// A send record.
#[derive(Debug, Drop)]
pub struct SendEnd {
    pub grant: GrantId,
    pub to: ActId,
    pub to_ep: EpId,
    pub to_grant: GrantId,
    pub label: u64,
    pub size: u16,
    pub limit: u8,
    pub held: u32,
    pub closing: bool,
}

impl SendEnd {
    /// It holds one credit more. Err, and nothing has changed, where it holds 4,294,967,295.
    pub fn give(&mut self) -> Result<(), AllocError>
        ensures ok { OnOk result (self.new ≡ record self.old { held = self.old.held + 1 }) }
        ensures kept { OnErr result (self.new ≡ self.old) }
    {
        match self.held.checked_add(1) {
            None => Err(AllocError),
            Some(held) => {
                self.held = held;
                Ok(())
            }
        }
    }
}

/// A memory record.
#[derive(Debug, Drop)]
pub struct MemoryEnd {
    pub grant: GrantId,
    pub start: u32,
    pub length: u32,
    pub perm: Perm,
    pub closing: bool,
}

/// A receive record, with room for all its slots.
#[derive(Debug, Drop)]
pub struct ReceiveEnd {
    grant: GrantId,
    slots: u8,
    size: u16,
    unread: VecDeque<Letter>,
    fetched: Vec<Fetched>,
    next_token: u32,
    closing: bool,
}

impl Model for ReceiveEnd {
    ghost use Rattle.m3_base.specs.Ideal.Context.{ReceiveRecord};

    ghost Value = { ReceiveRecord };

    ghost use Rattle.m3_ideal.specs.ReceiveView.{receive_record, HasRoom};

    ghost view = { receive_record };

    ghost invariant = { HasRoom };
}

impl ReceiveEnd {
    /// A record with no message yet.
    pub fn new(
        alloc: Global,
        grant: GrantId,
        slots: u8,
        size: u16,
    ) -> Result<ReceiveEnd, AllocError>
        ensures { IfOk result (λ r. r ≡ empty_record grant slots size) }
    {
        let unread = VecDeque::with_capacity(alloc, usize::from(slots))?;
        let fetched = Vec::with_capacity(alloc, usize::from(slots))?;
        Ok(ReceiveEnd {
            grant,
            slots,
            size,
            unread,
            fetched,
            next_token: 0,
            closing: false,
        })
    }

    /// Its grant.
    pub fn grant(&self) -> GrantId
        ensures { result ≡ self.now.grant }
    {
        self.grant
    }

    /// The largest payload that it takes.
    pub fn size(&self) -> u16
        ensures { result ≡ self.now.size }
    {
        self.size
    }

    /// Whether it is closing.
    pub fn closing(&self) -> bool
        ensures { result ≡ self.now.closing }
    {
        self.closing
    }

    /// It is closing from now on.
    pub fn close(&mut self)
        ensures { self.new ≡ record self.old { closing = true } }
    {
        self.closing = true;
    }

    /// Its unread messages, the oldest first.
    pub fn unread(&self) -> &VecDeque<Letter>
        ensures { result.now.items ≡ self.now.unread }
    {
        &self.unread
    }

    /// Its fetched messages.
    pub fn fetched(&self) -> &[Fetched]
        ensures { result.now ≡ self.now.fetched }
    {
        self.fetched.as_slice()
    }

    /// Whether a message is unread.
    pub fn has_unread(&self) -> bool
        ensures { result ≡ not (length self.now.unread == 0) }
    {
        !self.unread.is_empty()
    }

    /// Whether all slots are occupied.
    pub fn is_full(&self) -> bool
        ensures { result ≡ is_full self.now }
    {
        usize::from(self.slots) <= self.unread.len() + self.fetched.len()
    }

    /// A message joins the unread ones.
    pub fn join(&mut self, letter: Letter)
        requires { is_full self.old ≡ false }
        ensures { self.new ≡ with_unread self.old letter }
    {
        self.unread.push_back_reserved(letter);
    }

    /// The oldest unread message.
    pub fn front(&self) -> Option<&Letter>
        ensures { option_copied result ≡ slice_get self.now.unread 0 }
    {
        self.unread.front()
    }

    /// The oldest unread message is fetched, under the next token, which is below 4,294,967,295, or Err comes and
    /// nothing has changed. None exactly where none is unread.
    pub fn fetch(&mut self) -> Result<Option<u32>, AllocError>
        ensures token { IfOk result (λ t. t ≡ fetched_token self.old self.old.unread) }
        ensures fetched { OnOk result (self.new ≡ fetched_one self.old self.old.unread) }
        ensures kept { OnErr result (self.new ≡ self.old) }
    {
        let token = self.next_token;
        let Some(next) = token.checked_add(1) else {
            return Err(AllocError);
        };
        match self.unread.pop_front() {
            None => Ok(None),
            Some(letter) => {
                self.next_token = next;
                self.fetched.push_reserved(Fetched::new(token, letter));
                Ok(Some(token))
            }
        }
    }

    /// The fetched message of this token, unless it is being replied to.
    pub fn unmarked(&self, token: u32) -> Option<&Letter>
        ensures { option_copied result ≡ unmarked_message (fetched_at token self.now.fetched) }
    {
        let place = token_place(&self.fetched, token)?;
        let fetched = &self.fetched[place];
        if fetched.marked() {
            None
        } else {
            Some(fetched.letter())
        }
    }

    /// The slot of the message of this token is free.
    pub fn free(&mut self, token: u32)
        ensures { self.new ≡ without_fetched self.old token }
    {
        remove(&mut self.fetched, token);
    }

    /// The message of this token is being replied to, or no more.
    pub fn mark(&mut self, token: u32, marked: bool)
        ensures { self.new ≡ with_mark_at marked self.old token }
    {
        mark(&mut self.fetched, token, marked);
    }
}

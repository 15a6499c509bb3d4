//! One endpoint of a context.

mod commands;
mod landings;

ghost use Rattle.std.specs.Prelude.{◌≡◌, ◌==◌, true, false, IfOk, OnOk, OnErr, None, Some};
ghost use Rattle.m3_base.specs.Ideal.Context.{Free, new_endpoint};
ghost use Rattle.m3_base.specs.Ideal.Issue.{live_receive};
ghost use Rattle.m3_base.specs.Ideal.Landing.{grant_of, is_closing, has_live, has_closing, closed_at, sends_by};
ghost use Rattle.m3_base.specs.Ideal.Step.{has_unread};
ghost use Rattle.m3_ideal.specs.SlotView.{endpoint_of};

use crate::records::{MemoryEnd, ReceiveEnd, SendEnd};
use m3_base::ids::GrantId;
use m3_base::packet::Fresh;
use std::alloc::{AllocError, Global};
use std::marker::Model;

/// What an endpoint has.
#[derive(Debug, Drop)]
pub enum Record {
    Free,
    Send(SendEnd),
    Receive(ReceiveEnd),
    Memory(MemoryEnd),
}

/// One endpoint.
#[derive(Debug, Drop)]
pub struct Slot {
    record: Record,
}

impl Model for Slot {
    ghost use Rattle.m3_base.specs.Ideal.Context.{Endpoint};

    ghost Value = { Endpoint };

    ghost use Rattle.m3_ideal.specs.SlotView.{endpoint_of};

    ghost view = { λ s. endpoint_of s.record };
}

// A new record of this form.
fn opened(alloc: Global, fresh: &Fresh) -> Result<Record, AllocError>
    ensures { IfOk result (λ r. endpoint_of r ≡ new_endpoint fresh.now) }
{
    match fresh {
        Fresh::Send {
            grant,
            to,
            to_ep,
            to_grant,
            label,
            size,
            limit,
        } => Ok(Record::Send(SendEnd {
            grant: *grant,
            to: *to,
            to_ep: *to_ep,
            to_grant: *to_grant,
            label: *label,
            size: *size,
            limit: *limit,
            held: u32::from(*limit),
            closing: false,
        })),
        Fresh::Receive { grant, slots, size } => {
            let receive = ReceiveEnd::new(alloc, *grant, *slots, *size)?;
            Ok(Record::Receive(receive))
        }
        Fresh::Memory {
            grant,
            start,
            length,
            perm,
        } => Ok(Record::Memory(MemoryEnd {
            grant: *grant,
            start: *start,
            length: *length,
            perm: *perm,
            closing: false,
        })),
    }
}

impl Slot {
    /// A free one.
    pub fn new() -> Slot
        ensures { result ≡ Free }
    {
        Slot {
            record: Record::Free,
        }
    }

    /// What it has.
    pub fn record(&self) -> &Record
        ensures { endpoint_of result.now ≡ self.now }
    {
        &self.record
    }

    /// The grant of its record.
    pub fn grant(&self) -> Option<GrantId>
        ensures { result ≡ grant_of self.now }
    {
        match &self.record {
            Record::Free => None,
            Record::Send(r) => Some(r.grant),
            Record::Receive(r) => Some(r.grant()),
            Record::Memory(r) => Some(r.grant),
        }
    }

    /// Whether its record is closing.
    pub fn is_closing(&self) -> bool
        ensures { result ≡ is_closing self.now }
    {
        match &self.record {
            Record::Free => false,
            Record::Send(r) => r.closing,
            Record::Receive(r) => r.closing(),
            Record::Memory(r) => r.closing,
        }
    }

    /// Whether it has a live record of this grant.
    pub fn has_live(&self, grant: GrantId) -> bool
        ensures { result ≡ has_live grant self.now }
    {
        match self.grant() {
            None => false,
            Some(own) => own.number() == grant.number() && !self.is_closing(),
        }
    }

    /// Whether it has a closing record of this grant.
    pub fn has_closing(&self, grant: GrantId) -> bool
        ensures { result ≡ has_closing grant self.now }
    {
        match self.grant() {
            None => false,
            Some(own) => own.number() == grant.number() && self.is_closing(),
        }
    }

    /// The grant of its live receive record.
    pub fn live_receive(&self) -> Option<GrantId>
        ensures { result ≡ live_receive self.now }
    {
        match &self.record {
            Record::Receive(r) => { if r.closing() { None } else { Some(r.grant()) } }
            _ => None,
        }
    }

    /// Whether its record is of the send grant `send`.
    pub fn sends_by(&self, send: GrantId) -> bool
        ensures { result ≡ sends_by send self.now }
    {
        match &self.record {
            Record::Send(r) => r.grant.number() == send.number(),
            _ => false,
        }
    }

    /// Whether it has an unread message.
    pub fn has_unread(&self) -> bool
        ensures { result ≡ has_unread self.now }
    {
        match &self.record {
            Record::Receive(r) => r.has_unread(),
            _ => false,
        }
    }

    /// A record of this form stands here, whatever stood here before. After out of memory nothing has changed.
    pub fn install(&mut self, alloc: Global, fresh: &Fresh) -> Result<(), AllocError>
        ensures ok { OnOk result (self.new ≡ new_endpoint fresh.now) }
        ensures kept { OnErr result (self.new ≡ self.old) }
    {
        self.record = opened(alloc, fresh)?;
        Ok(())
    }

    /// Its record is gone.
    pub fn free(&mut self)
        ensures { self.new ≡ Free }
    {
        self.record = Record::Free;
    }

    /// Its record is closing from now on.
    pub fn close(&mut self)
        ensures { self.new ≡ closed_at self.old }
    {
        match &mut self.record {
            Record::Free => {}
            Record::Send(r) => r.closing = true,
            Record::Receive(r) => r.close(),
            Record::Memory(r) => r.closing = true,
        }
    }
}

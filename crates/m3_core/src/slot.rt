//! One endpoint of a context.

ghost use Rattle.std.specs.Prelude.{◌≡◌, ℕ, ◌<◌, ◌↔◌, true, false, IsTrue, IsSome, IfOk, None, Some, length, option_copied};
ghost use Rattle.m3_base.specs.Ideal.Context.{Free, new_endpoint};
ghost use Rattle.m3_base.specs.Ideal.Issue.{live_receive};
ghost use Rattle.m3_base.specs.Ideal.Landing.{grant_of, is_closing, has_live, closed_at};
ghost use Rattle.m3_base.specs.Ideal.Acceptance.{is_form, is_free};
ghost use Rattle.m3_endpoint.specs.RecordView.{endpoint_of};
ghost use Rattle.m3_core.specs.MessageInvariant.{IsSoundRecord};

mod commands;
mod packets;

use m3_base::ids::{ActId, EpId, GrantId};
use m3_base::packet::Fresh;
use m3_endpoint::endpoint::Record;
use m3_endpoint::memory::MemEp;
use m3_endpoint::receive::ReceiveEp;
use m3_endpoint::send::SendEp;
use std::alloc::{AllocError, Global};
use std::marker::Model;
use std::mem;

/// Where a send goes, and what its header takes from the record.
#[derive(Clone, Copy, Debug, Drop)]
pub struct SendTarget {
    pub to: ActId,
    pub ep: EpId,
    pub grant: GrantId,
    pub send: GrantId,
    pub label: u64,
}

/// The place in memory of a read or write, and its grant.
#[derive(Clone, Copy, Debug, Drop)]
pub struct AccessTarget {
    pub grant: GrantId,
    pub at: u32,
}

/// One endpoint. Its receive record is there from the start, so that an Install takes no memory.
#[derive(Drop)]
pub struct Slot {
    installed: Record,
    preallocated: Option<ReceiveEp>,
}

impl Model for Slot {
    ghost use Rattle.m3_base.specs.Ideal.Context.{Endpoint};

    ghost Value = { Endpoint };

    ghost use Rattle.m3_core.specs.SlotView.{slot_endpoint, IsKept};

    ghost view = { slot_endpoint };

    ghost invariant = { IsKept };
}

impl Slot {
    /// A free one.
    pub fn new(alloc: Global) -> Result<Slot, AllocError>
        ensures { IfOk result (λ s. s ≡ Free) }
    {
        let spare = ReceiveEp::new(alloc)?;
        Ok(Slot {
            installed: Record::Free,
            preallocated: Some(spare),
        })
    }

    /// Its record.
    #[inline(always)]
    pub fn installed(&self) -> &Record
        ensures same { endpoint_of result.now ≡ self.now }
        ensures sound { IsSoundRecord result.now }
    {
        &self.installed
    }

    /// Whether it has no record.
    #[inline(always)]
    pub fn is_free(&self) -> bool
        ensures { result ≡ is_free self.now }
    {
        match &self.installed {
            Record::Free => true,
            _ => false,
        }
    }

    /// The grant of its record.
    #[inline(always)]
    pub fn grant(&self) -> Option<GrantId>
        ensures { result ≡ grant_of self.now }
    {
        match &self.installed {
            Record::Free => None,
            Record::Send(r) => Some(r.grant()),
            Record::Receive(r) => Some(r.grant()),
            Record::Memory(r) => Some(r.grant()),
        }
    }

    /// Whether its record is closing.
    #[inline(always)]
    pub fn is_closing(&self) -> bool
        ensures { result ≡ is_closing self.now }
    {
        match &self.installed {
            Record::Free => false,
            Record::Send(r) => r.closing(),
            Record::Receive(r) => r.closing(),
            Record::Memory(r) => r.closing(),
        }
    }

    /// Whether it has a live record of this grant.
    #[inline(always)]
    pub fn has_live(&self, grant: GrantId) -> bool
        ensures { result ≡ has_live grant self.now }
    {
        match self.grant() {
            None => false,
            Some(own) => own.number() == grant.number() && !self.is_closing(),
        }
    }

    /// The grant of its live receive record.
    #[inline(always)]
    pub fn live_receive(&self) -> Option<GrantId>
        ensures { result ≡ live_receive self.now }
    {
        match &self.installed {
            Record::Receive(r) => { if r.closing() { None } else { Some(r.grant()) } }
            _ => None,
        }
    }

    /// A record of this form stands here.
    pub fn install(&mut self, fresh: &Fresh)
        requires free { self.old ≡ Free }
        requires form { IsTrue (is_form fresh.now) }
        ensures { self.new ≡ new_endpoint fresh.now }
    {
        match fresh {
            Fresh::Send { .. } => self.installed = Record::Send(SendEp::new(fresh)),
            Fresh::Memory { .. } => self.installed = Record::Memory(MemEp::new(fresh)),
            Fresh::Receive { grant, slots, size } => match self.preallocated.take() {
                Some(mut r) => {
                    r.open(*grant, *slots, *size);
                    self.installed = Record::Receive(r);
                }
                None => unreachable!(),
            },
        }
    }

    /// Its record is gone.
    pub fn free(&mut self)
        ensures { self.new ≡ Free }
    {
        match mem::replace(&mut self.installed, Record::Free) {
            Record::Receive(mut r) => {
                r.shut();
                self.preallocated = Some(r);
            }
            _ => {}
        }
    }

    /// Its record is closing from now on.
    pub fn close(&mut self)
        ensures { self.new ≡ closed_at self.old }
    {
        match &mut self.installed {
            Record::Free => {}
            Record::Send(r) => r.close(),
            Record::Receive(r) => r.close(),
            Record::Memory(r) => r.close(),
        }
    }
}

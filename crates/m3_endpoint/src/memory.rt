//! Memory records: a range of memory, and what may be done there.

ghost use Rattle.std.specs.Prelude.{◌≡◌, ℕ, IsTrue, true};
ghost use Rattle.m3_base.specs.Ideal.Context.{Reaches, new_endpoint};
ghost use Rattle.m3_base.specs.Ideal.Acceptance.{is_form};
ghost use Rattle.m3_endpoint.specs.RecordForms.{IsMemoryForm, memory_form};
ghost use Rattle.m3_endpoint.specs.MemoryAccess.{place_or_refusal, range_refusal};
ghost use Rattle.m3_base.specs.Ideal.Issue.{permits};

use m3_base::command::Refusal;
use m3_base::ids::GrantId;
use m3_base::packet::{Fresh, Perm};
use std::marker::Model;

/// A memory record: `length` bytes from `start` on.
#[derive(Debug, Drop)]
pub struct MemEp {
    grant: GrantId,
    start: u32,
    length: u32,
    perm: Perm,
    closing: bool,
}

impl Model for MemEp {
    ghost use Rattle.m3_base.specs.Ideal.Context.{MemoryRecord};

    ghost Value = { MemoryRecord };

    ghost use Rattle.m3_endpoint.specs.MemoryView.{memory_record, IsKept};

    ghost view = { memory_record };

    ghost invariant = { IsKept };
}

impl MemEp {
    /// The record of a memory form.
    pub fn new(fresh: &Fresh) -> MemEp
        requires { IsMemoryForm fresh.now }
        ensures { Reaches result ≡ new_endpoint fresh.now }
    {
        match fresh {
            Fresh::Memory {
                grant,
                start,
                length,
                perm,
            } => MemEp {
                grant: *grant,
                start: *start,
                length: *length,
                perm: *perm,
                closing: false,
            },
            _ => unreachable!(),
        }
    }

    /// The record is closing from now on.
    pub fn close(&mut self)
        ensures { self.new ≡ record self.old { closing = true } }
    {
        self.closing = true;
    }

    /// The place in memory of `len` bytes at the offset `off`. `OutOfRange` comes exactly where they end past the
    /// record's range, and else `NoPermission` exactly where the record doesn't permit the access.
    pub fn check(&self, off: u32, len: u32, write: bool) -> Result<u32, Refusal>
        ensures { result ≡ place_or_refusal self.now off (range_refusal self.now off len write) }
    {
        if off as u64 + len as u64 > self.length as u64 {
            return Err(Refusal::OutOfRange);
        }
        if !self.permits(write) {
            return Err(Refusal::NoPermission);
        }
        Ok(self.start + off)
    }

    /// Whether it permits a write, or a read.
    fn permits(&self, write: bool) -> bool
        ensures { result ≡ permits write self.now.perm }
    {
        match self.perm {
            Perm::R => !write,
            Perm::W => write,
            Perm::Rw => true,
        }
    }

    /// The form that it was made of.
    pub fn fresh(&self) -> Fresh
        ensures same { result ≡ memory_form self.now }
        ensures form { IsTrue (is_form result) }
    {
        Fresh::Memory {
            grant: self.grant,
            start: self.start,
            length: self.length,
            perm: self.perm,
        }
    }

    /// Whether it is closing.
    pub fn closing(&self) -> bool
        ensures { result ≡ self.now.closing }
    {
        self.closing
    }

    /// Its grant.
    pub fn grant(&self) -> GrantId
        ensures { result ≡ self.now.grant }
    {
        self.grant
    }
}

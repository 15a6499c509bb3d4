//! Counts by the numbers of grants.

ghost use Rattle.std.specs.Prelude.{◌≡◌, replicate, slice_index_or, IfOk, OnOk};
ghost use Rattle.m3_ideal.specs.Check.AuditCounts.{only, Rises};

use m3_base::ids::GrantId;
use std::alloc::{AllocError, Global};
use std::marker::Model;

/// How many numbers there are, with 0, which is no grant's.
const NUMBERS: usize = 4097;

/// A count for each grant. Contracts see them as a list, by the grants' numbers.
#[derive(Debug, Drop)]
pub struct Counts {
    counts: Vec<u64>,
}

impl Model for Counts {
    ghost use Rattle.std.specs.Prelude.{◌≡◌, ℕ, List, length};

    ghost Value = { List ℕ };

    ghost view = { λ s. s.counts.items };

    ghost invariant = { λ s. length s.counts.items ≡ 4097 };
}

impl Counts {
    /// Nothing is counted yet.
    pub fn new(alloc: Global) -> Result<Counts, AllocError>
        ensures { IfOk result (λ t. t ≡ replicate 4097 0) }
    {
        let mut counts = Vec::new(alloc);
        counts.resize(NUMBERS, 0)?;
        Ok(Counts { counts })
    }

    /// The count of this grant.
    pub fn get(&self, grant: GrantId) -> u64
        ensures { result ≡ slice_index_or self.now grant 0 }
    {
        self.counts[usize::from(grant.number())]
    }

    /// The count of this grant rises. Err where it would pass 2^64 - 1.
    pub fn add(&mut self, grant: GrantId, more: u32) -> Result<(), AllocError>
        ensures { OnOk result (Rises (only grant more) self.old self.new) }
    {
        let at = usize::from(grant.number());
        match self.counts[at].checked_add(u64::from(more)) {
            None => Err(AllocError),
            Some(count) => {
                self.counts[at] = count;
                Ok(())
            }
        }
    }
}

//! The credits of all send grants, counted in one pass over contexts and flights.

ghost use Rattle.std.specs.Prelude.{◌≡◌, replicate, IfOk};
ghost use Rattle.m3_ideal.specs.Check.AuditCounts.{AreCredits};

use crate::audits::counts::Counts;
use crate::ideal::Ideal;
use std::alloc::{AllocError, Global};

/// For each send grant its credits that are held, that fly and that are queued; and how many flights there are.
#[derive(Debug, Drop)]
pub struct Credits {
    pub held: Counts,
    pub flying: Counts,
    pub queued: Counts,
    pub flights: u64,
}

impl Credits {
    /// Nothing is counted yet.
    pub fn new(alloc: Global) -> Result<Credits, AllocError>
        ensures held { IfOk result (λ t. t.held ≡ replicate 4097 0) }
        ensures flying { IfOk result (λ t. t.flying ≡ replicate 4097 0) }
        ensures queued { IfOk result (λ t. t.queued ≡ replicate 4097 0) }
        ensures flights { IfOk result (λ t. t.flights ≡ 0) }
    {
        Ok(Credits {
            held: Counts::new(alloc)?,
            flying: Counts::new(alloc)?,
            queued: Counts::new(alloc)?,
            flights: 0,
        })
    }

    /// What the state has.
    pub fn of(alloc: Global, ideal: &Ideal) -> Result<Credits, AllocError>
        ensures { IfOk result (λ t. AreCredits ideal.now t) }
    {
        let mut credits = Credits::new(alloc)?;
        credits.contexts(ideal.contexts().table())?;
        credits.flights(ideal.contexts(), ideal.flights().lanes())?;
        Ok(credits)
    }
}

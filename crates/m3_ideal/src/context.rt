//! The context of an activity.

mod issue;
mod land;

ghost use Rattle.std.specs.Prelude.{◌≡◌, ◌+◌, ◌<◌, false, [], length, replicate, IfOk};
ghost use Rattle.m3_base.specs.Ideal.Context.{Free, new_context, endpoint};
ghost use Rattle.m3_base.specs.Ideal.Issue.{is_busy, next_id, with_flying_command};
ghost use Rattle.m3_base.specs.Ideal.Landing.{flies_at};
ghost use Rattle.m3_base.specs.Ideal.Step.{has_unread};
ghost use Rattle.m3_ideal.specs.FlyingView.{kind_of};

use crate::flying::{Flying, Kind, is_used};
use crate::slot::Slot;
use m3_base::ids::{ActId, EpId, FlightId};
use std::alloc::{AllocError, Global};
use std::marker::Model;

/// How many commands of an activity fly at most.
const WINDOW: usize = 1;

/// One activity's endpoints, its flying commands and its next number.
#[derive(Debug, Drop)]
pub struct Context {
    act: ActId,
    slots: Vec<Slot>,
    flying: Vec<Flying>,
    next: u32,
}

impl Model for Context {
    ghost use Rattle.m3_base.specs.Ideal.Context.{Context as Meaning};

    ghost Value = { Meaning };

    ghost use Rattle.m3_ideal.specs.ContextView.{context_value, IsKept};

    ghost view = { context_value };

    ghost invariant = { IsKept };
}

fn free_slots(alloc: Global) -> Result<Vec<Slot>, AllocError>
    ensures { IfOk result (λ v. v.items ≡ replicate 16 Free) }
{
    let mut slots = Vec::with_capacity(alloc, 16)?;
    for _ in 0..16u8 {
        slots.push(Slot::new())?;
    }
    Ok(slots)
}

impl Context {
    /// The context of an activity that has done nothing yet: all endpoints are free, and the next number is 1.
    pub fn new(alloc: Global, act: ActId) -> Result<Context, AllocError>
        ensures { IfOk result (λ c. c ≡ new_context act) }
    {
        let slots = free_slots(alloc)?;
        let flying = Vec::with_capacity(alloc, WINDOW)?;
        Ok(Context {
            act,
            slots,
            flying,
            next: 1,
        })
    }

    /// Its activity.
    pub fn act(&self) -> ActId
        ensures { result ≡ self.now.act }
    {
        self.act
    }

    /// Whether as many commands fly as may.
    pub fn is_busy(&self) -> bool
        ensures { result ≡ is_busy self.now }
    {
        self.flying.len() >= WINDOW
    }

    /// Whether the endpoint is a receive record with an unread message.
    pub fn has_unread(&self, ep: EpId) -> bool
        ensures { result ≡ has_unread (endpoint self.now ep) }
    {
        self.slots[ep.number() as usize].has_unread()
    }

    /// Whether a command of the endpoint flies.
    pub fn flies_at(&self, ep: EpId) -> bool
        ensures { result ≡ flies_at ep self.now }
    {
        is_used(&self.flying, ep)
    }

    /// Its endpoints, of which there are 16.
    pub fn slots(&self) -> &[Slot]
        ensures { result.now ≡ self.now.endpoints }
    {
        self.slots.as_slice()
    }

    /// Its commands that fly.
    pub fn flying(&self) -> &[Flying]
        ensures { result.now ≡ self.now.flying }
    {
        self.flying.as_slice()
    }

    // The name of its next flight.
    fn next_id(&self) -> FlightId
        ensures { result ≡ next_id self.now }
    {
        FlightId {
            issuer: self.act.number(),
            number: self.next,
        }
    }

    // One more command flies.
    fn launch(&mut self, kind: Kind, ep: EpId, token: u32)
        requires room { is_busy self.old ≡ false }
        requires number { self.old.next < 4294967295 }
        ensures { self.new ≡ with_flying_command self.old (kind_of kind) ep token }
    {
        let number = self.next;
        self.next += 1;
        self.flying
            .push_reserved(Flying::new(number, kind, ep, token));
    }
}

//! The context of an activity.

mod arrive;
mod counts;
mod fits;
mod issue;

ghost use Rattle.std.specs.Prelude.{◌≡◌, ℕ, ◌+◌, ◌<◌, ◌≤◌, [], ◌∷◌, ◌++◌, length, replicate, false, IfOk, IsTrue, option_copied};
ghost use Rattle.m3_base.specs.Ideal.Context.{Free, new_context, endpoint, with_endpoint, new_endpoint};
ghost use Rattle.m3_base.specs.Ideal.Issue.{window, is_busy, next_id, with_flying_command};
ghost use Rattle.m3_core.specs.FlyingView.{kind_of};
ghost use Rattle.m3_base.specs.Ideal.Acceptance.{is_form};
ghost use Rattle.m3_endpoint.specs.RecordView.{endpoint_of};
ghost use Rattle.m3_core.specs.MessageInvariant.{IsSoundRecord};
ghost use Rattle.m3_core.specs.EndpointStep.{fetched_message_at};
ghost use Rattle.m3_base.specs.Ideal.EndpointStep.{oldest_at};

use crate::flying::{Flying, Kind};
use crate::slot::Slot;
use m3_base::ids::{ActId, EpId, FlightId};
use m3_base::limits::WINDOW;
use m3_base::message::Message;
use m3_base::packet::Fresh;
use m3_endpoint::endpoint::Record;
use std::alloc::{AllocError, Global};
use std::marker::Model;

/// One activity's endpoints, its flying commands and its next number. Contracts see these four. No call but `new` takes
/// memory.
#[derive(Drop)]
pub struct Context {
    act: ActId,
    slots: Vec<Slot>,
    flying: Vec<Flying>,
    next: u32,
}

impl Model for Context {
    ghost use Rattle.m3_base.specs.Ideal.Context.{Context as Meaning};

    ghost Value = { Meaning };

    ghost use Rattle.m3_core.specs.ContextView.{context_of, IsKept};

    ghost view = { context_of };

    ghost invariant = { IsKept };
}

fn free_slots(alloc: Global) -> Result<Vec<Slot>, AllocError>
    ensures { IfOk result (λ v. v.items ≡ replicate 16 Free) }
{
    let mut slots = Vec::with_capacity(alloc, 16)?;
    for _ in 0..16u8 {
        slots.push(Slot::new(alloc)?)?;
    }
    Ok(slots)
}

impl Context {
    /// The context of an activity that has done nothing yet: all endpoints are free, and the next number is 1.
    pub fn new(alloc: Global, act: ActId) -> Result<Context, AllocError>
        ensures { IfOk result (λ c. c ≡ new_context act) }
    {
        let slots = free_slots(alloc)?;
        let flying = Vec::with_capacity(alloc, WINDOW)?;
        Ok(Context {
            act,
            slots,
            flying,
            next: 1,
        })
    }

    /// Its activity.
    pub fn act(&self) -> ActId
        ensures { result ≡ self.now.act }
    {
        self.act
    }

    /// The number of its next flight.
    #[inline(always)]
    pub fn next_number(&self) -> u32
        ensures { result ≡ self.now.next }
    {
        self.next
    }

    /// Its commands that fly, in the order of their numbers: at most one.
    #[inline(always)]
    pub fn flying(&self) -> &[Flying]
        ensures same { result.now ≡ self.now.flying }
        ensures few { length self.now.flying ≤ window }
    {
        self.flying.as_slice()
    }

    /// The record of an endpoint. A receive record there is used, and each of its messages is in the ranges of a header
    /// and has its header's length.
    #[inline(always)]
    pub fn endpoint(&self, ep: EpId) -> &Record
        ensures same { endpoint_of result.now ≡ endpoint self.now ep }
        ensures sound { IsSoundRecord result.now }
        ensures count { length self.now.endpoints ≡ 16 }
    {
        self.slots[ep.number() as usize].installed()
    }

    /// The oldest unread message of an endpoint. None exactly where it has no receive record, or none is unread there.
    #[inline(always)]
    pub fn front(&self, ep: EpId) -> Option<&Message>
        ensures { option_copied result ≡ oldest_at (endpoint self.now ep) }
    {
        self.slots[ep.number() as usize].front()
    }

    /// The fetched message of this token, marked or not. None exactly where the endpoint has no receive record, or no
    /// message of this token is fetched there.
    #[inline(always)]
    pub fn fetched(&self, ep: EpId, token: u32) -> Option<&Message>
        ensures { option_copied result ≡ fetched_message_at token (endpoint self.now ep) }
    {
        self.slots[ep.number() as usize].fetched(token)
    }

    /// Whether as many commands fly as may.
    #[inline(always)]
    pub fn busy(&self) -> bool
        ensures { result ≡ is_busy self.now }
    {
        self.flying.len() >= WINDOW
    }

    /// A record of this form stands at a free endpoint from now on.
    pub fn install(&mut self, ep: EpId, fresh: Fresh)
        requires free { endpoint self.old ep ≡ Free }
        requires form { IsTrue (is_form fresh) }
        ensures { self.new ≡ with_endpoint self.old ep (new_endpoint fresh) }
    {
        self.slots[ep.number() as usize].install(&fresh);
    }

    /// The name of its next flight.
    #[inline(always)]
    fn next_id(&self) -> FlightId
        ensures { result ≡ next_id self.now }
    {
        FlightId {
            issuer: self.act.number(),
            number: self.next,
        }
    }

    /// One more command flies.
    #[inline(always)]
    fn launch(&mut self, kind: Kind, ep: EpId, token: u32)
        requires room { is_busy self.old ≡ false }
        requires number { self.old.next < 4294967295 }
        ensures { self.new ≡ with_flying_command self.old (kind_of kind) ep token }
    {
        let number = self.next;
        self.next += 1;
        self.flying
            .push_reserved(Flying::new(number, kind, ep, token));
    }
}

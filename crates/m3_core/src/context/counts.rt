//! The credits of send grants, in one context.

ghost use Rattle.std.specs.Prelude.{◌≡◌, ℕ, ◌≤◌, ◌*◌, length, option_map};
ghost use Rattle.m3_base.specs.Lists.Counting.{total};
ghost use Rattle.m3_base.specs.Ideal.Credits.{held_at, queued_at};
ghost use Rattle.m3_base.specs.Ideal.Acceptance.{send_of};
ghost use Rattle.m3_endpoint.specs.Counters.{Adds};
ghost use Rattle.m3_core.specs.EndpointStep.{held_in};

use crate::context::Context;
use crate::context::arrive::send_place;
use crate::slot::Slot;
use m3_base::ids::GrantId;

impl Context {
    /// The credits held by the endpoint of this send grant. None exactly where no endpoint has it.
    pub fn held(&self, grant: GrantId) -> Option<u8>
        ensures { result ≡ option_map held_in (send_of grant self.now.endpoints) }
    {
        match send_place(&self.slots, grant.number() as u32) {
            None => None,
            Some(place) => self.slots[place].held(),
        }
    }

    /// How many messages that were sent through this grant, and aren't replies, are unread, or fetched and not being
    /// replied to.
    pub fn queued(&self, grant: GrantId) -> u32
        ensures { result ≡ total (queued_at grant) self.now.endpoints }
    {
        queued_in(&self.slots, grant)
    }

    /// Adds, to the counts of their send grants, the credits that its records hold, and its messages that aren't replies
    /// and are unread, or fetched and not being replied to.
    pub fn count(&self, held: &mut [u32], queued: &mut [u32])
        ensures held { Adds (λ g. total (held_at g) self.now.endpoints) held.old held.new }
        ensures queued { Adds (λ g. total (queued_at g) self.now.endpoints) queued.old queued.new }
    {
        count_slots(&self.slots, held, queued);
    }
}

fn count_slots(slots: &[Slot], held: &mut [u32], queued: &mut [u32])
    ensures held { Adds (λ g. total (held_at g) slots.now) held.old held.new }
    ensures queued { Adds (λ g. total (queued_at g) slots.now) queued.old queued.new }
{
    for slot in slots {
        slot.count(held, queued);
    }
}

fn queued_in(slots: &[Slot], grant: GrantId) -> u32
    requires { length slots.now ≤ 16 }
    ensures { result ≡ total (queued_at grant) slots.now }
{
    let mut count = 0;
    for slot in slots {
        count += slot.queued(grant);
    }
    count
}

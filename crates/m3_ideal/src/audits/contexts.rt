//! The credits that contexts have.

ghost use Rattle.std.specs.Prelude.{◌∷◌, [], OnOk};
ghost use Rattle.m3_base.specs.Lists.Counting.{one, how_many};
ghost use Rattle.m3_base.specs.Ideal.Credits.{is_sent_by, is_owed, held_at, queued_at};
ghost use Rattle.m3_ideal.specs.Check.AuditCounts.{Rises, CountsEndpoints, CountsContexts};
ghost use Rattle.m3_ideal.specs.Tables.{present};

use crate::audits::counts::Counts;
use crate::audits::credits::Credits;
use crate::context::Context;
use crate::fetched::Fetched;
use crate::letter::Letter;
use crate::slot::{Record, Slot};
use std::alloc::AllocError;
use std::collections::VecDeque;

// A message that isn't a reply.
fn count_letter(queued: &mut Counts, letter: &Letter) -> Result<(), AllocError>
    ensures { OnOk result (Rises (λ g. one (is_sent_by g letter.now)) queued.old queued.new) }
{
    if letter.is_message() {
        queued.add(letter.send(), 1)?;
    }
    Ok(())
}

// A message that is not being replied to.
fn count_owed(queued: &mut Counts, fetched: &Fetched) -> Result<(), AllocError>
    ensures { OnOk result (Rises (λ g. one (is_owed g fetched.now)) queued.old queued.new) }
{
    if !fetched.marked() {
        count_letter(queued, fetched.letter())?;
    }
    Ok(())
}

fn count_unread(queued: &mut Counts, unread: &VecDeque<Letter>) -> Result<(), AllocError>
    ensures { OnOk result (Rises (λ g. how_many (is_sent_by g) unread.now.items) queued.old queued.new) }
{
    for letter in unread.iter() {
        count_letter(queued, letter)?;
    }
    Ok(())
}

fn count_fetched(queued: &mut Counts, fetched: &[Fetched]) -> Result<(), AllocError>
    ensures { OnOk result (Rises (λ g. how_many (is_owed g) fetched.now) queued.old queued.new) }
{
    for message in fetched {
        count_owed(queued, message)?;
    }
    Ok(())
}

// The credits that a send record holds.
fn count_held(held: &mut Counts, slot: &Slot) -> Result<(), AllocError>
    ensures { OnOk result (Rises (λ g. held_at g slot.now) held.old held.new) }
{
    match slot.record() {
        Record::Send(r) => held.add(r.grant, r.held),
        _ => Ok(()),
    }
}

// The messages that wait in a receive record.
fn count_queued(queued: &mut Counts, slot: &Slot) -> Result<(), AllocError>
    ensures { OnOk result (Rises (λ g. queued_at g slot.now) queued.old queued.new) }
{
    match slot.record() {
        Record::Receive(r) => {
            count_unread(queued, r.unread())?;
            count_fetched(queued, r.fetched())
        }
        _ => Ok(()),
    }
}

impl Credits {
    fn slot(&mut self, slot: &Slot) -> Result<(), AllocError>
        ensures { OnOk result (CountsEndpoints (slot.now ∷ []) self.old self.new) }
    {
        count_held(&mut self.held, slot)?;
        count_queued(&mut self.queued, slot)
    }

    fn slots(&mut self, slots: &[Slot]) -> Result<(), AllocError>
        ensures { OnOk result (CountsEndpoints slots.now self.old self.new) }
    {
        for slot in slots {
            self.slot(slot)?;
        }
        Ok(())
    }

    fn place(&mut self, place: &Option<Context>) -> Result<(), AllocError>
        ensures { OnOk result (CountsContexts (present (place.now ∷ [])) self.old self.new) }
    {
        match place {
            Some(context) => self.slots(context.slots()),
            None => Ok(()),
        }
    }

    /// Counts what the contexts of a table have.
    pub fn contexts(&mut self, table: &[Option<Context>]) -> Result<(), AllocError>
        ensures { OnOk result (CountsContexts (present table.now) self.old self.new) }
    {
        for place in table {
            self.place(place)?;
        }
        Ok(())
    }
}

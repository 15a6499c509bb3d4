//! What lands at a context.

ghost use Rattle.std.specs.Prelude.{◌≡◌, OnOk, OnErr};
ghost use Rattle.std.specs.List.{position};
ghost use Rattle.m3_base.specs.Ideal.Landing.{land_refusal, sends_by, flying_at, freed_grant};
ghost use Rattle.m3_base.specs.Ideal.Context.{endpoint, with_endpoint};
ghost use Rattle.m3_ideal.specs.Landing.{credited_by, Lands, GivesTo, InstallsTo, Closes, Settles, Is_freed};
ghost use Rattle.m3_base.specs.Ideal.EndpointStep.{joined_if};
ghost use Rattle.m3_base.specs.Ideal.Positions.{IsSendPlaceOf};

use crate::context::Context;
use crate::flying::flying_place;
use crate::letter::Letter;
use crate::slot::Slot;
use m3_base::command::{Answer, Refusal};
use m3_base::ids::{EpId, GrantId};
use m3_base::packet::Fresh;
use std::alloc::{AllocError, Global};

impl Context {
    /// A message or reply for the receive grant `grant` lands at an endpoint. A reply that isn't refused gives its
    /// credit. Err, with the letter, and nothing has changed, where the credit finds 4,294,967,295 held.
    pub fn land(
        &mut self,
        ep: EpId,
        grant: GrantId,
        letter: Letter,
    ) -> Result<Option<Refusal>, Letter>
        ensures lands { Lands result ep grant letter self.old self.new }
        ensures act { self.new.act ≡ self.old.act }
        ensures next { self.new.next ≡ self.old.next }
    {
        if let Some(why) = self.refusal(ep, grant, &letter) {
            return Ok(Some(why));
        }
        if self.give_back(&letter).is_err() {
            return Err(letter);
        }
        Ok(self.join(ep, grant, letter))
    }

    // Why a message for this grant is refused at an endpoint.
    fn refusal(&self, ep: EpId, grant: GrantId, letter: &Letter) -> Option<Refusal>
        ensures { result ≡ land_refusal grant letter.now (endpoint self.now ep) }
    {
        self.slots[ep.number() as usize].refusal(grant, letter)
    }

    // A message joins the unread ones of an endpoint, unless it is refused.
    fn join(&mut self, ep: EpId, grant: GrantId, letter: Letter) -> Option<Refusal>
        ensures answer { result ≡ land_refusal grant letter (endpoint self.old ep) }
        ensures context { self.new ≡ with_endpoint self.old ep (joined_if result letter (endpoint self.old ep)) }
        ensures act { self.new.act ≡ self.old.act }
        ensures next { self.new.next ≡ self.old.next }
    {
        self.slots[ep.number() as usize].land(grant, letter)
    }

    // A reply gives its credit. Err, and nothing has changed, where it finds 4,294,967,295 held.
    fn give_back(&mut self, letter: &Letter) -> Result<(), AllocError>
        ensures ok { OnOk result (self.new ≡ credited_by letter.now self.old) }
        ensures kept { OnErr result (self.new ≡ self.old) }
        ensures act { self.new.act ≡ self.old.act }
        ensures next { self.new.next ≡ self.old.next }
    {
        if letter.is_message() {
            return Ok(());
        }
        let _ = self.give(letter.send())?;
        Ok(())
    }

    /// A credit goes to the endpoint of the send grant `send`. False where no endpoint has it. Err, and nothing has
    /// changed, where that holds 4,294,967,295.
    pub fn give(&mut self, send: GrantId) -> Result<bool, AllocError>
        ensures gives { GivesTo send result self.old self.new }
        ensures act { self.new.act ≡ self.old.act }
        ensures next { self.new.next ≡ self.old.next }
    {
        match send_place(&self.slots, send) {
            None => Ok(false),
            Some(place) => {
                self.slots[place].give()?;
                Ok(true)
            }
        }
    }

    /// A record of this form stands at an endpoint. After out of memory nothing has changed.
    pub fn install(&mut self, alloc: Global, ep: EpId, fresh: &Fresh) -> Result<(), AllocError>
        ensures installs { InstallsTo ep fresh.now result self.old self.new }
        ensures act { self.new.act ≡ self.old.act }
        ensures next { self.new.next ≡ self.old.next }
    {
        self.slots[ep.number() as usize].install(alloc, fresh)
    }

    /// The kernel closes the live record of a grant. None where the endpoint has none; else whether a command of the
    /// endpoint flies.
    pub fn close(&mut self, ep: EpId, grant: GrantId) -> Option<bool>
        ensures closes { Closes result ep grant self.old self.new }
        ensures act { self.new.act ≡ self.old.act }
        ensures next { self.new.next ≡ self.old.next }
    {
        let flies = self.flies_at(ep);
        let slot = &mut self.slots[ep.number() as usize];
        if !slot.has_live(grant) {
            return None;
        }
        slot.close();
        Some(flies)
    }

    /// The answer to the flying command of this number ends it. None where none has this number; else the grant whose
    /// endpoint becomes free with it. Err, and nothing has changed, where a credit finds 4,294,967,295 held.
    pub fn answer(
        &mut self,
        number: u32,
        answer: &Answer,
    ) -> Result<Option<Option<GrantId>>, AllocError>
        ensures settles { Settles result answer.now (flying_at number self.old.flying) self.old self.new }
        ensures act { self.new.act ≡ self.old.act }
        ensures next { self.new.next ≡ self.old.next }
    {
        let Some(place) = flying_place(&self.flying, number) else {
            return Ok(None);
        };
        let command = &self.flying[place];
        let ep = command.ep();
        let kind = command.kind();
        let token = command.token();
        self.slots[ep.number() as usize].settle(kind, token, answer)?;
        self.flying.remove(place);
        Ok(Some(self.freeing(ep)))
    }

    // The grant of a closing record whose endpoint has no flying command.
    fn freeing(&self, ep: EpId) -> Option<GrantId>
        ensures { result ≡ freed_grant ep self.now }
    {
        let slot = &self.slots[ep.number() as usize];
        if slot.is_closing() && !self.flies_at(ep) {
            slot.grant()
        } else {
            None
        }
    }

    /// Frees an endpoint that has a closing record of this grant, where no command of the endpoint flies. False, and
    /// nothing has changed, elsewhere.
    pub fn free(&mut self, ep: EpId, grant: GrantId) -> bool
        ensures freed { Is_freed result ep grant self.old self.new }
        ensures act { self.new.act ≡ self.old.act }
        ensures next { self.new.next ≡ self.old.next }
    {
        let flies = self.flies_at(ep);
        let slot = &mut self.slots[ep.number() as usize];
        if flies || !slot.has_closing(grant) {
            return false;
        }
        slot.free();
        true
    }
}

/// The place of the endpoint of this send grant.
#[tactic(auto, using(m3_base::proofs::Positions::is_send_place))]
fn send_place(slots: &[Slot], send: GrantId) -> Option<usize>
    ensures { IsSendPlaceOf slots.now send result }
{
    send_position(slots, send)
}

fn send_position(slots: &[Slot], send: GrantId) -> Option<usize>
    ensures { result ≡ position (sends_by send) slots.now }
{
    slots.iter().position(|s| s.sends_by(send))
}

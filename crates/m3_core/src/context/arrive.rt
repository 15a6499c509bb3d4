//! Packets where they land.

ghost use Rattle.std.specs.Prelude.{◌≡◌, ℕ, ◌==◌, true, false, None, Some, IfSome, IsTrue, slice_index_or};
ghost use Rattle.std.specs.List.{position};
ghost use Rattle.m3_base.specs.Ideal.Context.{Flying as FlyingValue, Free, Context as ContextValue, endpoint, with_endpoint};
ghost use Rattle.m3_base.specs.Ideal.Landing.{land, land_refusal, message_id, context_after_answer, has_send, sends_by, with_credit, flies_at, flying_at, freed_grant, has_live, closed_at};
ghost use Rattle.m3_base.specs.Ideal.Arrival.{arrive, message_arrives, answer_arrives, close_arrives, freed_context};
ghost use Rattle.m3_base.specs.Ideal.Acceptance.{fits, is_message, fits_message, fits_answer, takes_credit};
ghost use Rattle.m3_base.specs.Ideal.Step.{number_of};
ghost use Rattle.m3_core.specs.ArrivalView.{arrived_as, arrived_by};
ghost use Rattle.m3_base.specs.Ideal.EndpointStep.{joined_if};
ghost use Rattle.m3_base.specs.Ideal.Positions.{IsFlyingPlaceOf, IsSendPlaceOf};

use crate::arrived::Arrived;
use crate::context::Context;
use crate::flying::Flying;
use crate::slot::Slot;
use m3_base::command::{Answer, Refusal};
use m3_base::ids::{EpId, FlightId, GrantId};
use m3_base::message::Message;
use m3_base::packet::{Fresh, Packet};

impl Context {
    /// A packet that fits lands here. It answers what came of it: for a message or reply the refusal, if there is one,
    /// in the order revoked, too large, full.
    pub fn arrive(&mut self, packet: Packet) -> Arrived
        requires { fits self.old packet ≡ true }
        ensures { arrive self.old packet ≡ Some (arrived_by packet result self.new) }
    {
        match packet {
            Packet::Message {
                ep,
                grant,
                message,
                ..
            } => self.land(ep, grant, message),
            Packet::Credit { grant, .. } => Arrived::Credited(self.return_credit(
                grant.number() as u32,
            )),
            Packet::Read { .. } => unreachable!(),
            Packet::Write { .. } => unreachable!(),
            Packet::Answer { id, answer } => self.complete(id, answer),
            Packet::Install { ep, fresh, .. } => {
                let grant = grant_of(&fresh);
                self.install(ep, fresh);
                Arrived::Installed(grant)
            }
            Packet::Close { id, ep, grant, .. } => self.close(id, ep, grant),
        }
    }

    /// A message or reply for the receive grant `grant` lands at an endpoint.
    #[inline(always)]
    fn land(&mut self, ep: EpId, grant: GrantId, message: Message) -> Arrived
        requires { fits_message self.old ep grant message ≡ true }
        ensures { message_arrives (message_id message) (land ep grant message self.old) ≡
            Some (arrived_as (message_id message) 0 result self.new) }
    {
        let id = message.id();
        let is_reply = message.header.flags != 0;
        let send = message.header.send;
        if let Some(why) = self.enqueue(ep, grant, message) {
            return Arrived::Refused(
                why,
                Packet::Answer {
                    id,
                    answer: Answer::Refused(why),
                },
            );
        }
        if !is_reply {
            return Arrived::Landed(Packet::Answer {
                id,
                answer: Answer::Sent,
            });
        }
        let _ = self.return_credit(send);
        Arrived::Landed(Packet::Answer {
            id,
            answer: Answer::Replied,
        })
    }

    /// A message joins the unread ones of an endpoint, unless it is refused.
    #[inline(always)]
    fn enqueue(&mut self, ep: EpId, grant: GrantId, message: Message) -> Option<Refusal>
        requires { is_message message ≡ true }
        ensures answer { result ≡ land_refusal grant message (endpoint self.old ep) }
        ensures context { self.new ≡ with_endpoint self.old ep (joined_if result message (endpoint self.old ep)) }
    {
        self.slots[ep.number() as usize].land(grant, message)
    }

    /// A credit goes to the endpoint of the send grant `send`. False where no endpoint has it.
    #[inline(always)]
    fn return_credit(&mut self, send: u32) -> bool
        requires { takes_credit send self.old ≡ true }
        ensures there { result ≡ has_send send self.old }
        ensures context { self.new ≡ with_credit send self.old }
    {
        match send_place(&self.slots, send) {
            None => false,
            Some(place) => {
                self.slots[place].give_credit();
                true
            }
        }
    }

    /// The answer to a command ends it, and frees its endpoint where the record is closing and no other command of the
    /// endpoint flies.
    #[inline(always)]
    fn complete(&mut self, id: FlightId, answer: Answer) -> Arrived
        requires { fits_answer self.old answer (flying_at id.number self.old.flying) ≡ true }
        ensures { answer_arrives self.old id answer (flying_at id.number self.old.flying) ≡
            Some (arrived_as id 0 result self.new) }
    {
        let ep = self.apply_answer(id.number, &answer);
        let closed = self.free_if_closing(ep);
        Arrived::Answered(id, answer, closed)
    }

    /// The flying command of this number has this answer, and flies no more. It gives the command's endpoint.
    #[inline(always)]
    fn apply_answer(&mut self, number: u32, answer: &Answer) -> EpId
        requires { fits_answer self.old answer.now (flying_at number self.old.flying) ≡ true }
        ensures { IfSome (flying_at number self.old.flying)
            (λ f. (result ≡ f.ep) × (self.new ≡ context_after_answer f answer.now self.old)) }
    {
        let Some(place) = flying_place(&self.flying, number) else {
            unreachable!()
        };
        let command = self.flying.remove(place);
        let ep = command.ep();
        self.slots[ep.number() as usize].apply_answer(command.kind(), command.token(), answer);
        ep
    }

    /// Frees an endpoint whose record is closing, where none of its commands flies, and gives the record's grant.
    #[inline(always)]
    fn free_if_closing(&mut self, ep: EpId) -> Option<GrantId>
        ensures closed { result ≡ freed_grant ep self.old }
        ensures context { self.new ≡ freed_context self.old ep result }
    {
        if self.flies_at(ep) {
            return None;
        }
        let slot = &mut self.slots[ep.number() as usize];
        if !slot.is_closing() {
            return None;
        }
        let closed = slot.grant();
        slot.free();
        closed
    }

    /// Whether a command of this endpoint flies.
    fn flies_at(&self, ep: EpId) -> bool
        ensures { result ≡ flies_at ep self.now }
    {
        let number = ep.number();
        self.flying.iter().any(|f| f.ep().number() == number)
    }

    /// The kernel closes the record of a grant.
    fn close(&mut self, id: FlightId, ep: EpId, grant: GrantId) -> Arrived
        ensures { close_arrives self.old id ep grant
            (with_endpoint self.old ep (closed_at (endpoint self.old ep))) (flies_at ep self.old) ≡
            Some (arrived_as id 0 result self.new) }
    {
        let flies = self.flies_at(ep);
        let place = ep.number() as usize;
        self.slots[place].close();
        if flies {
            return Arrived::Closing(grant);
        }
        self.slots[place].free();
        Arrived::Closed(grant)
    }
}

/// The grant of a record form.
fn grant_of(fresh: &Fresh) -> GrantId
    ensures { result ≡ number_of fresh.now }
{
    match fresh {
        Fresh::Send { grant, .. } => *grant,
        Fresh::Receive { grant, .. } => *grant,
        Fresh::Memory { grant, .. } => *grant,
    }
}

/// The place of the flying command of this number.
#[tactic(auto, using(m3_base::proofs::Positions::flying_place))]
pub fn flying_place(flying: &[Flying], number: u32) -> Option<usize>
    ensures { IsFlyingPlaceOf flying.now number result }
{
    flying_position(flying, number)
}

fn flying_position(flying: &[Flying], number: u32) -> Option<usize>
    ensures { result ≡ position (λ f. f.number == number) flying.now }
{
    flying.iter().position(|f| f.number() == number)
}

/// The place of the endpoint of this send grant.
#[tactic(auto, using(m3_base::proofs::Positions::is_send_place))]
pub fn send_place(slots: &[Slot], send: u32) -> Option<usize>
    ensures { IsSendPlaceOf slots.now send result }
{
    send_position(slots, send)
}

fn send_position(slots: &[Slot], send: u32) -> Option<usize>
    ensures { result ≡ position (sends_by send) slots.now }
{
    slots.iter().position(|s| s.is_send_of(send))
}

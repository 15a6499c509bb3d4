//! Packets that are held, and are applied to who is away.

ghost use Rattle.std.specs.Prelude.{◌≡◌, ℕ, ◌<◌, ◌==◌, ◌&&◌, not, IfOk, OnErr, OnOk, Some, length, slice_get};
ghost use Rattle.m3_bit_set.specs.BitSet.{has_place};
ghost use Rattle.m3_model.specs.Kernel.State.{ActivityEntry};
ghost use Rattle.m3_model.specs.Kernel.Step.{kernel_tend};
ghost use Rattle.m3_kernel.specs.ReadyJoin.{joins_at_tend};
ghost use Rattle.m3_kernel.specs.KernelStateView.{kernel_in, IsKept};
ghost use Rattle.m3_kernel.specs.StepContracts.{Does, IsSeatOf, IsAwayAt, IsThere, BackIs, CanAnswer, IsTending, AnswersBy, SendsBack};
ghost use Rattle.m3_kernel.specs.ArrivalView.{AtMostOne};
ghost use Rattle.m3_model.specs.LocalStep.{closed_out};
ghost use Rattle.m3_kernel.specs.ParcelView.{out_of};

use crate::away::heard_of;
use crate::came::{Came, answers_to};
use crate::done::{Done, is_idle};
use crate::seat::Place;
use crate::state::State;
use m3_base::event::IdleWhy;
use m3_base::ids::{ActId, GrantId, TileId};
use m3_base::packet::Packet;
use m3_bit_set::bit_set::BitSet;
use m3_core::parcel::{Emit, Heard, Parcel};
use std::alloc::{AllocError, Global};

/// The seat that an answer goes to, where one is to arise.
#[derive(Clone, Copy, Debug, Drop)]
pub enum AnswerTarget {
    Nobody,
    To(usize),
}

/// That a grant's endpoint became free, to the kernel.
fn closed(freed: Option<GrantId>) -> Option<Emit>
    ensures { out_of result ≡ closed_out freed }
{
    match freed {
        None => None,
        Some(grant) => {
            let parcel = Parcel::Closed(grant);
            Some(Emit {
                to: TileId::new(0),
                parcel,
            })
        }
    }
}

/// The activity isn't in the set, where that is so.
fn remove_if(held: &mut BitSet, is_empty: bool, act: ActId)
    ensures { (i : ℕ) → has_place held.new i ≡ (not (is_empty && (i == act)) && has_place held.old i) }
{
    if is_empty {
        held.remove(usize::from(act.number()));
    }
}

impl State {
    /// Where the answer to this packet is to go. None where its activity has no seat.
    fn answer_target(&self, packet: &Packet) -> Option<AnswerTarget>
        requires { IsKept self.now }
        ensures { BackIs (kernel_in self.now) packet.now result }
    {
        match answers_to(packet) {
            None => Some(AnswerTarget::Nobody),
            Some(act) => Some(AnswerTarget::To(self.place(act)?)),
        }
    }

    /// Makes room for the answer.
    fn reserve_answer(&mut self, back: AnswerTarget) -> Result<(), AllocError>
        requires kept { IsKept self.old }
        requires there { IsThere (kernel_in self.old) back }
        ensures kept { IsKept self.new }
        ensures site { self.new.site ≡ self.old.site }
        ensures same { kernel_in self.new ≡ kernel_in self.old }
        ensures room { OnOk result (CanAnswer self.new back) }
    {
        match back {
            AnswerTarget::Nobody => Ok(()),
            AnswerTarget::To(at) => self.reserve(at),
        }
    }

    /// What arose goes out: the answer, or that an endpoint became free.
    fn route_answer(
        &mut self,
        back: AnswerTarget,
        answer: Option<Packet>,
        freed: Option<GrantId>,
    ) -> Option<Emit>
        requires kept { IsKept self.old }
        requires room { CanAnswer self.old back }
        requires by { AnswersBy (kernel_in self.old) back answer }
        requires one { AtMostOne answer freed }
        ensures kept { IsKept self.new }
        ensures site { self.new.site ≡ self.old.site }
        ensures sends { SendsBack self.old.site (kernel_in self.old) answer freed result (kernel_in self.new) }
    {
        match (back, answer) {
            (AnswerTarget::To(at), Some(packet)) => self.route(at, packet),
            _ => closed(freed),
        }
    }

    /// Whether the activity of this seat is ready after a packet was applied to it: it rests, and has a program that hasn't
    /// ended.
    fn is_ready_at(&self, at: usize, act: ActId) -> bool
        requires { at < length self.now.seats.items }
        ensures { (x : ActivityEntry) → slice_get (kernel_in self.now).seats at ≡ Some x →
            result ≡ joins_at_tend self.now.site act x.seating }
    {
        self.site.has_program(act.number()) && self.seats[at].is_idle_rest()
    }

    /// The front is applied to its activity's context, what arose goes out, and who comes may be restored. One that rests
    /// is ready then, where its program goes on.
    fn deliver_held(
        &mut self,
        act: ActId,
        at: usize,
        back: AnswerTarget,
        heard: Option<Heard>,
    ) -> Done
        requires kept { IsKept self.old }
        requires tending { IsTending (kernel_in self.old) act at back heard }
        requires room { CanAnswer self.old back }
        ensures kept { IsKept self.new }
        ensures site { self.new.site ≡ self.old.site }
        ensures does { Does result (kernel_in self.new) (kernel_tend self.old.site (kernel_in self.old) act) }
    {
        let tile = self.site.tile_of(act.number());
        let joins = self.is_ready_at(at, act);
        let seat = &mut self.seats[at];
        let Came {
            said,
            answer,
            freed,
        } = seat.deliver(heard);
        let is_empty = seat.holds_nothing();
        self.sched.ready_if(joins, tile, act);
        remove_if(&mut self.held, is_empty, act);
        let first = self.route_answer(back, answer, freed);
        self.then_restore(said, tile, first)
    }

    /// The front of this seat, which is away, is applied where it fits.
    fn tend_away(&mut self, alloc: Global, act: ActId, at: usize) -> Result<Done, AllocError>
        requires kept { IsKept self.old }
        requires place { IsSeatOf (kernel_in self.old) act at }
        requires away { IsAwayAt (kernel_in self.old) at }
        ensures kept { IsKept self.new }
        ensures site { self.new.site ≡ self.old.site }
        ensures ok { IfOk result (λ d. Does d (kernel_in self.new) (kernel_tend self.old.site (kernel_in self.old) act)) }
        ensures err { OnErr result (kernel_in self.new ≡ kernel_in self.old) }
    {
        let Some(packet) = self.seats[at].deliverable_front() else {
            return Ok(is_idle(IdleWhy::EmptyHold));
        };
        let Some(back) = self.answer_target(packet) else {
            return Ok(is_idle(IdleWhy::EmptyHold));
        };
        let heard = heard_of(alloc, packet)?;
        self.reserve_answer(back)?;
        Ok(self.deliver_held(act, at, back, heard))
    }

    /// The front of an activity's hold list is applied. Out of memory, it changes nothing.
    pub fn tend(&mut self, alloc: Global, act: ActId) -> Result<Done, AllocError>
        requires { IsKept self.old }
        ensures kept { IsKept self.new }
        ensures site { self.new.site ≡ self.old.site }
        ensures ok { IfOk result (λ d. Does d (kernel_in self.new) (kernel_tend self.old.site (kernel_in self.old) act)) }
        ensures err { OnErr result (kernel_in self.new ≡ kernel_in self.old) }
    {
        let Some(at) = self.place(act.number()) else {
            return Ok(is_idle(IdleWhy::NotResting));
        };
        match self.seats[at].place() {
            Place::Placed => Ok(is_idle(IdleWhy::NotResting)),
            Place::Leaving => Ok(is_idle(IdleWhy::NotResting)),
            _ => self.tend_away(alloc, act, at),
        }
    }
}

//! Parcels that the kernel takes.

ghost use Rattle.std.specs.Prelude.{◌≡◌, ◌&&◌, not, IfOk, IfErr, OnErr, length, Some};
ghost use Rattle.m3_base.specs.Ideal.State.{grant_in};
ghost use Rattle.m3_model.specs.Config.Site.{has_program};
ghost use Rattle.m3_kernel.specs.ParcelView.{parcel_of};
ghost use Rattle.m3_model.specs.Kernel.Step.{entry_of, kernel_take, take_data, take_saved, take_yield, take_closed};
ghost use Rattle.m3_kernel.specs.KernelStateView.{kernel_in, IsKept, CanRoute};
ghost use Rattle.m3_kernel.specs.StepContracts.{Does, GoesTo, IsFor, IsSeatOf, IsLeavingAt};

use crate::came::target_of;
use crate::done::{Done, dropped, says};
use crate::seat::Place;
use crate::state::State;
use m3_base::event::Said;
use m3_base::ids::{ActId, GrantId};
use m3_base::packet::Packet;
use m3_core::context::Context;
use m3_core::parcel::Parcel;
use std::alloc::AllocError;

impl State {
    /// The seat that a packet of a link goes to. None where it names an activity beyond the setup, or is for the memory,
    /// or for an activity without a seat.
    fn goes_to(&self, packet: &Packet) -> Option<usize>
        requires { IsKept self.now }
        ensures { GoesTo self.now.site (kernel_in self.now) packet.now result }
    {
        if !self.site.names(packet) {
            return None;
        }
        self.place(target_of(packet)?)
    }

    /// The packet is routed to this seat.
    fn take_routed(&mut self, at: usize, packet: Packet) -> Done
        requires kept { IsKept self.old }
        requires room { CanRoute self.old at }
        requires goes { IsFor self.old.site (kernel_in self.old) packet at }
        ensures kept { IsKept self.new }
        ensures site { self.new.site ≡ self.old.site }
        ensures does { Does result (kernel_in self.new) (take_data self.old.site (kernel_in self.old) packet) }
    {
        let id = packet.id();
        let act = self.seats[at].act();
        match self.route(at, packet) {
            None => says(Said::Held(id, act), None),
            Some(emit) => says(Said::Routed(id), Some(emit)),
        }
    }

    fn take_data(&mut self, packet: Packet) -> Result<Done, (Packet, AllocError)>
        requires { IsKept self.old }
        ensures kept { IsKept self.new }
        ensures site { self.new.site ≡ self.old.site }
        ensures ok { IfOk result (λ d. Does d (kernel_in self.new) (take_data self.old.site (kernel_in self.old) packet)) }
        ensures err { OnErr result (kernel_in self.new ≡ kernel_in self.old) }
        ensures given_back { IfErr result (λ e. e.0 ≡ packet) }
    {
        let Some(at) = self.goes_to(&packet) else {
            return Ok(dropped());
        };
        match self.reserve(at) {
            Err(error) => Err((packet, error)),
            Ok(()) => Ok(self.take_routed(at, packet)),
        }
    }

    fn take_saved(&mut self, context: Context, waiting: bool, ended: bool) -> Done
        requires { IsKept self.old }
        ensures kept { IsKept self.new }
        ensures site { self.new.site ≡ self.old.site }
        ensures does { Does result (kernel_in self.new)
            (take_saved self.old.site (kernel_in self.old) context waiting ended
            (entry_of context.act (kernel_in self.old))) }
    {
        let Some(at) = self.place(context.act().number()) else {
            return dropped();
        };
        match self.seats[at].place() {
            Place::Leaving => self.rest(at, context, waiting, ended),
            _ => dropped(),
        }
    }

    /// Whether one that rests is ready: it has a program, which neither waits nor has ended.
    fn is_ready(&self, act: ActId, waiting: bool, ended: bool) -> bool
        ensures { result ≡ (has_program self.now.site act && (not waiting && not ended)) }
    {
        self.site.has_program(act.number()) && !waiting && !ended
    }

    /// Who was Leaving rests, and is ready where its program has something to do; and who comes may be restored.
    fn rest(&mut self, at: usize, context: Context, waiting: bool, ended: bool) -> Done
        requires kept { IsKept self.old }
        requires place { IsSeatOf (kernel_in self.old) context.act at }
        requires leaves { IsLeavingAt (kernel_in self.old) at }
        ensures kept { IsKept self.new }
        ensures site { self.new.site ≡ self.old.site }
        ensures does { Does result (kernel_in self.new)
            (take_saved self.old.site (kernel_in self.old) context waiting ended
            (entry_of context.act (kernel_in self.old))) }
    {
        let act = context.act();
        let tile = self.site.tile_of(act.number());
        self.seats[at].rest(context, ended);
        self.berths[usize::from(tile.number())].leaving = None;
        let joins = self.is_ready(act, waiting, ended);
        self.sched.ready_if(joins, tile, act);
        self.then_restore(Said::Saved(act), tile, None)
    }

    fn take_yield(&mut self, act: ActId) -> Done
        requires { IsKept self.old }
        ensures kept { IsKept self.new }
        ensures site { self.new.site ≡ self.old.site }
        ensures does { Does result (kernel_in self.new)
            (take_yield self.old.site (kernel_in self.old) act (entry_of act (kernel_in
            self.old))) }
    {
        let Some(at) = self.place(act.number()) else {
            return dropped();
        };
        match self.seats[at].place() {
            Place::Resting => dropped(),
            Place::Coming => dropped(),
            _ => {
                let tile = self.site.tile_of(act.number());
                self.sched.yielded(tile);
                says(Said::Yielded(act), None)
            }
        }
    }

    fn take_closed(&mut self, grant: GrantId) -> Done
        requires { IsKept self.old }
        ensures kept { IsKept self.new }
        ensures site { self.new.site ≡ self.old.site }
        ensures does { Does result (kernel_in self.new)
            (take_closed (kernel_in self.old) grant (grant_in (kernel_in self.old).grants grant)) }
    {
        if !self.grants.awaits_closed(grant) {
            return dropped();
        }
        let revoked = self.grants.closed(grant);
        says(Said::Done { grant, revoked }, None)
    }

    /// The kernel takes a parcel, or drops it where it doesn't fit. Out of memory, it changes nothing and gives the parcel
    /// back.
    pub fn take(&mut self, parcel: Parcel) -> Result<Done, (Parcel, AllocError)>
        requires { IsKept self.old }
        ensures kept { IsKept self.new }
        ensures site { self.new.site ≡ self.old.site }
        ensures ok { IfOk result (λ d. Does d (kernel_in self.new)
            (kernel_take self.old.site (kernel_in self.old) (parcel_of parcel))) }
        ensures err { OnErr result (kernel_in self.new ≡ kernel_in self.old) }
        ensures given_back { IfErr result (λ e. e.0 ≡ parcel) }
    {
        match parcel {
            Parcel::Data(packet) => match self.take_data(packet) {
                Ok(done) => Ok(done),
                Err((packet, error)) => Err((Parcel::Data(packet), error)),
            },
            Parcel::Saved {
                act,
                context,
                waiting,
                ended,
            } => {
                if context.act() != act {
                    return Ok(dropped());
                }
                Ok(self.take_saved(context, waiting, ended))
            }
            Parcel::Yield(act) => Ok(self.take_yield(act)),
            Parcel::Closed(grant) => Ok(self.take_closed(grant)),
            Parcel::Save(_) => Ok(dropped()),
            Parcel::Restore { .. } => Ok(dropped()),
        }
    }
}

//! Parcels that a tile takes.

ghost use Rattle.std.specs.Prelude.{◌≡◌, ◌&&◌, ◌++◌, true, List, IfOk, IfErr, OnErr};
ghost use Rattle.m3_base.specs.Ideal.Acceptance.{fits};
ghost use Rattle.m3_base.specs.Placement.Routing.{target};
ghost use Rattle.m3_base.specs.Placement.Take.{is_here};
ghost use Rattle.m3_kernel.specs.ArrivalView.{AtMostOne};
ghost use Rattle.m3_model.specs.Tile.State.{Tile};
ghost use Rattle.m3_model.specs.LocalStep.{closed_out};
ghost use Rattle.m3_model.specs.Config.KnownActivities.{is_named};
ghost use Rattle.m3_model.specs.Parcel.{Saved};
ghost use Rattle.m3_model.specs.Tile.Step.{new_out, act_in, bounced, has_ended, is_waiting_resident, take_data, take_save, take_restore, tile_take};
ghost use Rattle.m3_engine.specs.TileStepView.{Lands, Does};
ghost use Rattle.m3_base.specs.ExtentFiles.ScriptEntries.{plain_outcome as plain};
ghost use Rattle.m3_kernel.specs.ParcelView.{heard_in, parcel_of, out_of};
ghost use Rattle.m3_engine.specs.StayView.{stay_in};
ghost use Rattle.m3_engine.specs.TileView.{accepts, runs, TileHears};

use crate::restore_check::may_return;
use crate::stays::Stays;
use crate::tile::{TileDid, TilePart, closed_notice_if, is_idle, outgoing_data, says, to_kernel};
use m3_base::event::{IdleWhy, Said};
use m3_base::ids::ActId;
use m3_base::packet::Packet;
use m3_core::context::Context;
use m3_core::parcel::{Heard, Parcel};
use m3_kernel::came::{Came, meet, target_of};
use m3_kernel::site::Site;
use std::alloc::{AllocError, Global};

/// What is told of a packet that came, and what goes out: its answer, or that an endpoint became free.
#[inline(always)]
fn delivery_result(site: &Site, came: Came) -> TileDid
    requires { AtMostOne came.answer came.freed }
    ensures outcome { result.outcome ≡ plain came.said }
    ensures out { out_of result.emit ≡ new_out site.now came.answer ++ closed_out came.freed }
{
    let Came {
        said,
        answer,
        freed,
    } = came;
    match answer {
        Some(answer) => says(said, outgoing_data(site, answer)),
        None => says(said, closed_notice_if(&freed)),
    }
}

/// A packet that fits this context, and names activities of the setup alone, arrives there.
#[inline(always)]
fn deliver(site: &Site, context: &mut Context, packet: Packet) -> TileDid
    requires named { is_named site.now packet ≡ true }
    requires fits { fits context.old packet ≡ true }
    ensures { Lands site.now result context.old context.new packet }
{
    delivery_result(site, meet(context, packet))
}

/// Data for another activity goes to the kernel. Data for none, a read or a write, is dropped.
#[inline(always)]
fn bounced(packet: Packet) -> TileDid
    ensures { (t : Tile) → Does result t (bounced t packet (target packet)) }
{
    if target_of(&packet).is_none() {
        return is_idle(IdleWhy::EmptyLink);
    }
    says(Said::Bounced(packet.id()), to_kernel(Parcel::Data(packet)))
}

/// The activity's context, on its way to the kernel.
fn saved(stays: &Stays, act: ActId, context: Context) -> Parcel
    ensures { parcel_of result ≡ Saved act context (is_waiting_resident context (stay_in act stays.now))
        (has_ended (stay_in act stays.now)) }
{
    let (waiting, ended) = match stays.find(act) {
        None => (false, false),
        Some(stay) => (stay.is_waiting(&context), stay.ended()),
    };
    Parcel::Saved {
        act,
        context,
        waiting,
        ended,
    }
}

impl TilePart {
    /// Whether the packet is for the current activity.
    #[inline(always)]
    fn is_for(&self, packet: &Packet) -> bool
        ensures { result ≡ is_here (target packet.now) (act_in self.now.tile.current) }
    {
        match (&self.current, target_of(packet)) {
            (Some(context), Some(target)) => context.act().number() == target,
            _ => false,
        }
    }

    /// Whether this activity is the current one.
    #[inline(always)]
    fn runs(&self, act: ActId) -> bool
        ensures { result ≡ runs act self.now.tile.current }
    {
        match &self.current {
            None => false,
            Some(context) => context.act() == act,
        }
    }

    /// Whether the packet fits the current context, and names activities of the setup alone.
    fn accepts(&self, packet: &Packet) -> bool
        ensures { result ≡ accepts self.now.site packet.now self.now.tile.current }
    {
        match &self.current {
            None => false,
            Some(context) => self.site.names(packet) && context.fits(packet),
        }
    }

    /// What the program of the current activity is to hear of the packet.
    fn heard(&self, alloc: Global, packet: &Packet) -> Result<Option<Heard>, AllocError>
        ensures { IfOk result (λ h. TileHears packet.now self.now.tile h) }
    {
        match &self.current {
            None => Ok(None),
            Some(context) => match self.stays.find(context.act()) {
                None => Ok(None),
                Some(stay) => stay.heard(alloc, packet),
            },
        }
    }

    /// The packet arrives at the current activity, whose program hears this.
    fn deliver(&mut self, packet: Packet, heard: Option<Heard>) -> TileDid
        requires here { is_here (target packet) (act_in self.old.tile.current) ≡ true }
        requires accepted { accepts self.old.site packet self.old.tile.current ≡ true }
        requires heard { TileHears packet self.old.tile heard }
        ensures site { self.new.site ≡ self.old.site }
        ensures does { Does result self.new.tile (take_data self.old.site self.old.tile packet) }
    {
        match &mut self.current {
            None => unreachable!(),
            Some(context) => {
                let did = deliver(&self.site, context, packet);
                self.stays.hear(context.act(), heard);
                did
            }
        }
    }

    /// The current activity leaves with its whole context, where it is this one.
    fn save(&mut self, act: ActId) -> TileDid
        ensures site { self.new.site ≡ self.old.site }
        ensures does { Does result self.new.tile (take_save self.old.tile act self.old.tile.current) }
    {
        if !self.runs(act) {
            return is_idle(IdleWhy::EmptyLink);
        }
        match self.current.take() {
            None => unreachable!(),
            Some(context) => {
                let saved = saved(&self.stays, act, context);
                says(Said::Saving(act), to_kernel(saved))
            }
        }
    }

    /// This activity runs here with its context, where nobody runs, it has its home here, the context is its own, and the
    /// context may come back. Its stay begins, and its program hears what came while it was away.
    fn restore(&mut self, act: ActId, context: Context, heard: Option<Heard>) -> TileDid
        ensures site { self.new.site ≡ self.old.site }
        ensures does { Does result self.new.tile
            (take_restore self.old.site self.old.tile act context (heard_in heard) self.old.tile.current) }
    {
        let owner = context.act();
        if self.current.is_some() || !may_return(&self.site, act, &context) {
            return is_idle(IdleWhy::EmptyLink);
        }
        if !self.stays.restart(owner, heard) {
            return is_idle(IdleWhy::EmptyLink);
        }
        self.current = Some(context);
        says(Said::Current(owner), None)
    }

    /// The tile takes a parcel. Data goes as `take_data` says. A Save of the current activity sends its context to the
    /// kernel, with whether its program waits and whether it has ended. A Restore comes where nobody runs, its context is
    /// of its activity, its activity has its home here, its context names activities of the setup alone, and its next
    /// number and next tokens are at most 2,097,153. Anything else is dropped, as if the link were empty. It takes memory
    /// for an answer that a program waits for alone; without it nothing changes and the parcel comes back.
    pub fn take(&mut self, alloc: Global, parcel: Parcel) -> Result<TileDid, (Parcel, AllocError)>
        ensures site { self.new.site ≡ self.old.site }
        ensures ok { IfOk result (λ d. Does d self.new.tile (tile_take self.old.site self.old.tile (parcel_of parcel))) }
        ensures err { OnErr result (self.new ≡ self.old) }
        ensures given_back { IfErr result (λ e. e.0 ≡ parcel) }
    {
        match parcel {
            Parcel::Data(packet) => match self.take_data(alloc, packet) {
                Ok(did) => Ok(did),
                Err((packet, error)) => Err((Parcel::Data(packet), error)),
            },
            Parcel::Save(act) => Ok(self.save(act)),
            Parcel::Restore {
                act,
                context,
                heard,
            } => Ok(self.restore(act, context, heard)),
            _ => Ok(is_idle(IdleWhy::EmptyLink)),
        }
    }

    /// The tile takes data. Data for its current activity arrives there where it fits and names activities of the setup
    /// alone, and is dropped else, as if the link were empty; an answer that the program waits for is what it sees next.
    /// Data for another activity bounces to the kernel. A read or a write is for none, and is dropped. It takes memory for
    /// an answer that a program waits for alone; without it nothing changes and the packet comes back.
    #[inline(always)]
    pub fn take_data(
        &mut self,
        alloc: Global,
        packet: Packet,
    ) -> Result<TileDid, (Packet, AllocError)>
        ensures site { self.new.site ≡ self.old.site }
        ensures ok { IfOk result (λ d. Does d self.new.tile (take_data self.old.site self.old.tile packet)) }
        ensures err { OnErr result (self.new ≡ self.old) }
        ensures given_back { IfErr result (λ e. e.0 ≡ packet) }
    {
        if !self.is_for(&packet) {
            return Ok(bounced(packet));
        }
        if !self.accepts(&packet) {
            return Ok(is_idle(IdleWhy::EmptyLink));
        }
        match self.heard(alloc, &packet) {
            Err(error) => Err((packet, error)),
            Ok(heard) => Ok(self.deliver(packet, heard)),
        }
    }
}

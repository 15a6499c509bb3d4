//! A tile's part: its current activity, whose commands it issues and whose packets it takes.

mod take;
mod turn;

ghost use Rattle.std.specs.Prelude.{◌≡◌, ◌∷◌, [], IfOk, OnOk, OnErr, Some, option_copied};
ghost use Rattle.m3_core.specs.Preconditions.{IsBufferFor};
ghost use Rattle.m3_model.specs.LocalStep.{closed_out};
ghost use Rattle.m3_model.specs.Tile.Step.{tile_do, new_out};
ghost use Rattle.m3_engine.specs.TileStepView.{said_issued, packet_issued, Does};
ghost use Rattle.m3_base.specs.ExtentFiles.ScriptEntries.{plain_outcome as plain};
ghost use Rattle.m3_kernel.specs.ParcelView.{parcel_of, out_of};
ghost use Rattle.m3_model.specs.Machine.{empty_tile};
ghost use Rattle.m3_engine.specs.TileView.{CanIssue, seated_with};

use crate::fetched_message::{Shown, fetched, front};
use crate::stays::Stays;
use m3_base::command::Command;
use m3_base::event::{IdleWhy, Outcome, Said};
use m3_base::ids::{ActId, GrantId, TileId};
use m3_base::packet::Packet;
use m3_base::payload::Payload;
use m3_core::context::Context;
use m3_core::issued::Issued;
use m3_core::parcel::{Emit, Parcel};
use m3_kernel::site::Site;
use std::alloc::{AllocError, Global};
use std::marker::Model;

/// What one event of a part came to.
#[derive(Drop)]
pub struct TileDid {
    pub outcome: Outcome,
    pub emit: Option<Emit>,
}

/// A tile with the stays of the activities that have their home there, and the context of the one that runs. Contracts
/// see it as a tile at its site.
#[derive(Drop)]
pub struct TilePart {
    site: Site,
    tile: TileId,
    stays: Stays,
    current: Option<Context>,
}

impl Model for TilePart {
    ghost use Rattle.m3_engine.specs.TileView.{TileAt, tile_value};

    ghost Value = { TileAt };

    ghost view = { tile_value };
}

/// What is told, and what goes out.
#[inline(always)]
pub fn says(said: Said, emit: Option<Emit>) -> TileDid
    ensures outcome { result.outcome ≡ plain said }
    ensures emit { result.emit ≡ emit }
{
    let outcome = Outcome {
        made: None,
        said,
        restore: None,
    };
    TileDid { outcome, emit }
}

/// The outcome of an event that changed nothing.
#[inline(always)]
pub fn idle(why: IdleWhy) -> Outcome
    ensures { result ≡ plain (Said.Idle why) }
{
    Outcome {
        made: None,
        said: Said::Idle(why),
        restore: None,
    }
}

/// An event that changed nothing.
#[inline(always)]
pub fn is_idle(why: IdleWhy) -> TileDid
    ensures outcome { result.outcome ≡ plain (Said.Idle why) }
    ensures out { out_of result.emit ≡ [] }
{
    says(Said::Idle(why), None)
}

/// The buffer of a read within the limit, all 0; no other command needs one.
fn buffer(alloc: Global, command: &Command) -> Result<Payload, AllocError>
    ensures { IfOk result (IsBufferFor command.now) }
{
    let mut bytes = Vec::new(alloc);
    if let Command::Read { len, .. } = command {
        if *len <= 4096 {
            bytes.resize(usize::from(*len), 0)?;
        }
    }
    Ok(Payload::new(bytes))
}

/// The packet, to its home: tile 1 for a read or a write, else the home of its activity.
#[inline(always)]
pub fn outgoing_data(site: &Site, packet: Packet) -> Option<Emit>
    ensures { out_of result ≡ new_out site.now (Some packet) }
{
    let to = site.tile_for(&packet);
    let parcel = Parcel::Data(packet);
    Some(Emit { to, parcel })
}

/// What is told of a command, where `front` is what a fetch takes.
#[inline(always)]
pub fn issue_result(site: &Site, issued: Issued, front: Option<Shown>) -> TileDid
    ensures outcome { result.outcome ≡ plain (said_issued front issued) }
    ensures out { out_of result.emit ≡ new_out site.now (packet_issued issued) }
{
    match issued {
        Issued::Fetched(token) => says(fetched(token, front), None),
        Issued::Acknowledged(None) => says(Said::Acknowledged(None), None),
        Issued::Acknowledged(Some(packet)) => {
            let id = packet.id();
            says(Said::Acknowledged(Some(id)), outgoing_data(site, packet))
        }
        Issued::Refused(why) => says(Said::Refused(why), None),
        Issued::Flies(id, packet) => says(Said::Flying(id), outgoing_data(site, packet)),
    }
}

/// The parcel, to the kernel.
#[inline(always)]
pub fn to_kernel(parcel: Parcel) -> Option<Emit>
    ensures { out_of result ≡ (0, parcel_of parcel) ∷ [] }
{
    let to = TileId::new(0);
    Some(Emit { to, parcel })
}

/// That a grant's endpoint became free, to the kernel.
#[inline(always)]
fn closed_notice(grant: GrantId) -> Option<Emit>
    ensures { out_of result ≡ closed_out (Some grant) }
{
    to_kernel(Parcel::Closed(grant))
}

#[inline(always)]
pub fn closed_notice_if(grant: &Option<GrantId>) -> Option<Emit>
    ensures { out_of result ≡ closed_out grant.now }
{
    match grant {
        None => None,
        Some(grant) => closed_notice(*grant),
    }
}

impl TilePart {
    /// A tile without activities.
    pub fn new(alloc: Global, site: Site, tile: TileId) -> Result<TilePart, AllocError>
        ensures site { IfOk result (λ t. t.site ≡ site) }
        ensures tile { IfOk result (λ t. t.tile ≡ empty_tile tile) }
    {
        let stays = Stays::new(alloc)?;
        Ok(TilePart {
            site,
            tile,
            stays,
            current: None,
        })
    }

    /// One more activity has its home here. It runs, with this context, where it is the first.
    pub fn seat(&mut self, act: ActId, context: Option<Context>) -> Result<(), AllocError>
        ensures site { self.new.site ≡ self.old.site }
        ensures ok { OnOk result (self.new.tile ≡ seated_with act context self.old.tile) }
        ensures err { OnErr result (self.new ≡ self.old) }
    {
        self.stays.add(act)?;
        if self.current.is_none() {
            self.current = context;
        }
        Ok(())
    }

    /// The context of the current activity.
    #[inline(always)]
    pub fn current(&self) -> Option<&Context>
        ensures { option_copied result ≡ self.now.tile.current }
    {
        self.current.as_ref()
    }

    /// The activity makes a command. It is idle where the activity isn't the current one, and then where the command
    /// has to wait for one that flies. Out of memory, it changes nothing.
    pub fn command(
        &mut self,
        alloc: Global,
        act: ActId,
        command: Command,
    ) -> Result<TileDid, AllocError>
        requires { CanIssue self.old.tile.current command }
        ensures site { self.new.site ≡ self.old.site }
        ensures ok { IfOk result (λ d. Does d self.new.tile (tile_do self.old.site self.old.tile act command)) }
        ensures err { OnErr result (self.new ≡ self.old) }
    {
        match &mut self.current {
            None => Ok(is_idle(IdleWhy::NotCurrent)),
            Some(context) => {
                if context.act() != act {
                    return Ok(is_idle(IdleWhy::NotCurrent));
                }
                if command.flies() && context.busy() {
                    return Ok(is_idle(IdleWhy::Busy));
                }
                let front = front(alloc, context, &command)?;
                let buffer = buffer(alloc, &command)?;
                Ok(issue_result(&self.site, context.issue(command, buffer), front))
            }
        }
    }
}

//! The parts of a machine, without their links: each event is one part's local step.

ghost use Rattle.std.specs.Prelude.{◌≡◌, ℕ, length, None, Some, true, IfOk, IfErr, OnOk, OnErr, option_copied};
ghost use Rattle.m3_base.specs.declared.event.Event.{Event};
ghost use Rattle.m3_kernel.specs.OrderAnswers.{HasNumber, HolderIsSeated};
ghost use Rattle.m3_kernel.specs.ParcelView.{parcel_of, out_of};
ghost use Rattle.m3_model.specs.Events.{IsOfSetup, IsServed, IsWithin};
ghost use Rattle.m3_model.specs.Machine.{part_step, tile_for_event};
ghost use Rattle.m3_model.specs.Config.KnownActivities.{is_home};
ghost use Rattle.m3_model.specs.Invariant.Housing.{IsSetup};
ghost use Rattle.m3_model.specs.Tile.Ask.{answers_ask};
ghost use Rattle.m3_engine.specs.PartsView.{parts_of, part_of, ask_in, stay_at_home, HasParts, IsAble, IsNoTake, DoesAt};
ghost use Rattle.m3_engine.specs.SparesView.{AreFull};
ghost use Rattle.m3_engine.specs.TurnView.{IsShort, ask_kind, shown_to};

use crate::ask::Ask;
use crate::memory::MemPart;
use crate::spares::Spares;
use crate::tile::{TileDid, TilePart};
use m3_base::command::Command;
use m3_base::event::{Event, Made};
use m3_base::ids::{ActId, TileId};
use m3_base::order::Order;
use m3_base::program::Seen;
use m3_core::parcel::Parcel;
use m3_kernel::done::{Done, done_by_close, done_by_order};
use m3_kernel::kernel::Kernel;
use std::alloc::{AllocError, Global};

/// The kernel, the memory and the tiles, by number; those of the kernel and of the memory have nobody. Each has the site
/// for its own.
#[derive(Drop)]
pub struct Parts {
    pub kernel: Kernel,
    pub memory: MemPart,
    pub tiles: Vec<TilePart>,
}

/// What a tile or the memory did, as the kernel tells what it did.
#[inline(always)]
fn done_by(did: TileDid) -> Done
    ensures { result ≡ record { outcome = did.outcome; first = did.emit; second = None } }
{
    let TileDid { outcome, emit } = did;
    Done {
        outcome,
        first: emit,
        second: None,
    }
}

impl Parts {
    /// The tile whose part makes the event.
    #[inline(always)]
    pub fn tile_for(&self, event: &Event) -> TileId
        ensures { result ≡ tile_for_event self.now.kernel.site event.now }
    {
        match event {
            Event::Do { act, .. } => self.kernel.site().tile_of(act.number()),
            Event::Turn(act) => self.kernel.site().tile_of(act.number()),
            Event::Take { to, .. } => *to,
            _ => TileId::new(0),
        }
    }

    /// The part at a tile takes a parcel. Where it has no memory for it, nothing changes and the parcel comes back.
    pub fn take(
        &mut self,
        alloc: Global,
        to: TileId,
        parcel: Parcel,
    ) -> Result<Done, (Parcel, AllocError)>
        requires { HasParts self.old }
        ensures parts { HasParts self.new }
        ensures ok { IfOk result (λ d. (from : ℕ) → DoesAt to (parts_of self.old)
            (parts_of self.new) d (part_step self.old.kernel.site (part_of to (parts_of self.old))
            (Event.Take to from) None (Some (parcel_of parcel)))) }
        ensures err { OnErr result (parts_of self.new ≡ parts_of self.old) }
        ensures given_back { IfErr result (λ e. e.0 ≡ parcel) }
    {
        let at = usize::from(to.number());
        if at == 0 {
            return self.kernel.take(parcel);
        }
        if at == 1 {
            return Ok(done_by(self.memory.take(parcel)));
        }
        match self.tiles[at].take(alloc, parcel) {
            Ok(did) => Ok(done_by(did)),
            Err(back) => Err(back),
        }
    }

    /// What the next turn of an activity asks for.
    pub fn ask(&self, act: ActId) -> Ask
        requires parts { HasParts self.now }
        requires setup { IsSetup self.now.kernel.site }
        requires declared { is_home self.now.kernel.site act ≡ true }
        ensures { result ≡ ask_kind (ask_in (parts_of self.now) act) }
    {
        let tile = self.kernel.site().tile_of(act.number());
        self.tiles[usize::from(tile.number())].ask(act)
    }

    /// What an activity's program sees at its next move. None where it waits for an answer.
    pub fn seen(&self, act: ActId) -> Option<&Seen>
        requires parts { HasParts self.now }
        requires setup { IsSetup self.now.kernel.site }
        requires declared { is_home self.now.kernel.site act ≡ true }
        ensures { option_copied result ≡ shown_to (stay_at_home (parts_of self.now) act) }
    {
        let tile = self.kernel.site().tile_of(act.number());
        self.tiles[usize::from(tile.number())].seen(act)
    }

    /// An activity's tile makes its turn, with the move that it asks for. The memory for it is in the spares.
    pub fn turn(
        &mut self,
        alloc: Global,
        spares: &mut Spares,
        act: ActId,
        made: Option<Made>,
    ) -> Done
        requires parts { HasParts self.old }
        requires setup { IsSetup self.old.kernel.site }
        requires able { IsAble (parts_of self.old) }
        requires declared { is_home self.old.kernel.site act ≡ true }
        requires answers { answers_ask (ask_in (parts_of self.old) act) made ≡ true }
        requires short { IsShort made }
        requires full { AreFull spares.old }
        ensures parts { HasParts self.new }
        ensures made { result.outcome.made ≡ made }
        ensures does { DoesAt (tile_for_event self.old.kernel.site (Event.Turn act)) (parts_of self.old)
            (parts_of self.new) result (part_step self.old.kernel.site
            (part_of (tile_for_event self.old.kernel.site (Event.Turn act)) (parts_of self.old))
            (Event.Turn act) made None) }
    {
        let tile = self.kernel.site().tile_of(act.number());
        let at = usize::from(tile.number());
        let did = self.tiles[at].turn(alloc, spares, act, made);
        done_by(did)
    }

    /// The activity's tile makes its command.
    fn command(&mut self, alloc: Global, act: ActId, command: Command) -> Result<Done, AllocError>
        requires parts { HasParts self.old }
        requires setup { IsSetup self.old.kernel.site }
        requires able { IsAble (parts_of self.old) }
        requires declared { is_home self.old.kernel.site act ≡ true }
        ensures parts { HasParts self.new }
        ensures ok { IfOk result (λ d. DoesAt
            (tile_for_event self.old.kernel.site (Event.Do act command)) (parts_of self.old)
            (parts_of self.new) d (part_step self.old.kernel.site
            (part_of (tile_for_event self.old.kernel.site (Event.Do act command))
            (parts_of self.old)) (Event.Do act command) None None)) }
        ensures err { OnErr result (parts_of self.new ≡ parts_of self.old) }
    {
        let tile = self.kernel.site().tile_of(act.number());
        let at = usize::from(tile.number());
        let did = self.tiles[at].command(alloc, act, command)?;
        Ok(done_by(did))
    }

    /// The kernel carries out an order.
    fn order(&mut self, order: Order) -> Result<Done, AllocError>
        requires parts { HasParts self.old }
        requires seated { HolderIsSeated self.old.kernel.kernel order }
        requires number { HasNumber self.old.kernel.kernel }
        ensures parts { HasParts self.new }
        ensures ok { IfOk result (λ d. DoesAt 0 (parts_of self.old) (parts_of self.new) d
            (part_step self.old.kernel.site (part_of 0 (parts_of self.old)) (Event.Order order) None
            None)) }
        ensures err { OnErr result (parts_of self.new ≡ parts_of self.old) }
    {
        let answer = self.kernel.order(order);
        done_by_order(answer)
    }

    /// The kernel sends the Close that is due.
    fn close(&mut self) -> Result<Done, AllocError>
        requires parts { HasParts self.old }
        requires number { HasNumber self.old.kernel.kernel }
        ensures parts { HasParts self.new }
        ensures ok { IfOk result (λ d. DoesAt 0 (parts_of self.old) (parts_of self.new) d
            (part_step self.old.kernel.site (part_of 0 (parts_of self.old)) Event.Close None
            None)) }
        ensures err { OnErr result (parts_of self.new ≡ parts_of self.old) }
    {
        let sent = self.kernel.close()?;
        Ok(done_by_close(sent))
    }

    /// The part that makes the event makes it, where it takes no parcel. Out of memory changes nothing.
    pub fn make(&mut self, alloc: Global, event: Event) -> Result<Done, AllocError>
        requires parts { HasParts self.old }
        requires setup { IsSetup self.old.kernel.site }
        requires able { IsAble (parts_of self.old) }
        requires declared { IsOfSetup self.old.kernel.site event }
        requires served { IsServed event }
        requires own { IsNoTake event }
        ensures parts { HasParts self.new }
        ensures ok { IfOk result (λ d. DoesAt (tile_for_event self.old.kernel.site event)
            (parts_of self.old) (parts_of self.new) d
            (part_step self.old.kernel.site (part_of (tile_for_event self.old.kernel.site event)
            (parts_of self.old)) event None None)) }
        ensures within { OnOk result (IsWithin event) }
        ensures err { OnErr result (parts_of self.new ≡ parts_of self.old) }
    {
        match event {
            Event::Do { act, command } => self.command(alloc, act, command),
            Event::Tend(act) => self.kernel.tend(alloc, act),
            Event::Order(order) => self.order(order),
            Event::Close => self.close(),
            Event::Turn(_) => unreachable!(),
            Event::File(_) => unreachable!(),
            Event::Take { .. } => unreachable!(),
        }
    }
}

//! The engine of a machine: its parts and its links. It makes one event after the other, and keeps no journal.

ghost use Rattle.std.specs.Prelude.{◌≡◌, ◌↔◌, ◌++◌, ℕ, List, [], true, length, OnErr, IfOk, OnOk};
ghost use Rattle.m3_base.specs.Setup.Rules.{IsValid};
ghost use Rattle.m3_base.specs.declared.event.Event.{Event};
ghost use Rattle.m3_kernel.specs.ParcelView.{parcels_of, out_of};
ghost use Rattle.m3_kernel.specs.ActivityView.{seats_of};
ghost use Rattle.m3_link.specs.LinkOps.{HasRoom};
ghost use Rattle.m3_model.specs.Events.{IsOfSetup, IsServed, IsWithin};
ghost use Rattle.m3_model.specs.NumberBounds.{CountersBounded};
ghost use Rattle.m3_trace.specs.DriverOfMachine.{next_event_left};
ghost use Rattle.m3_model.specs.SetupOpening.{opened_by_setup};
ghost use Rattle.m3_engine.specs.PartsView.{IsNoTake};
ghost use Rattle.m3_base.specs.declared.program.Move.{Move};
ghost use Rattle.m3_base.specs.declared.program.Seen.{Seen};
ghost use Rattle.m3_model.specs.Config.Site.{has_program};
ghost use Rattle.m3_engine.specs.ProgramTurn.{IsAsked, IsHeard, ask_of};
ghost use Rattle.m3_engine.specs.EngineView.{Makes, CanMake, out_links, opened_engine};
ghost use Rattle.m3_engine.specs.TileView.{tiles_of};

use crate::memory::MemPart;
use crate::next::next_event;
use crate::opening::{initial_contexts, tiles};
use crate::parts::Parts;
use crate::program::move_in_turn;
use crate::spares::Spares;
use crate::tile::{TilePart, idle};
use m3_base::event::{Event, IdleWhy, Outcome};
use m3_base::ids::{ActId, TileId};
use m3_base::order::Order;
use m3_base::program::Program;
use m3_base::setup::Setup;
use m3_core::parcel::Emit;
use m3_grants::grants::Grants;
use m3_kernel::done::Done;
use m3_kernel::kernel::Kernel;
use m3_kernel::seat::Seat;
use m3_link::wires::Wires;
use std::alloc::{AllocError, Global};
use std::marker::Model;

/// The parts of a machine and the links between them. Contracts see the site and the machine as plain data.
#[derive(Drop)]
pub struct Engine {
    parts: Parts,
    wires: Wires,
    /// What the move of a turn may take.
    spares: Spares,
}

impl Model for Engine {
    ghost use Rattle.m3_base.specs.declared.program.Move.{Move};
    ghost use Rattle.m3_base.specs.declared.program.Seen.{Seen};
    ghost use Rattle.m3_model.specs.Config.Site.{has_program};
    ghost use Rattle.m3_engine.specs.ProgramTurn.{IsAsked, IsHeard, ask_of};
    ghost use Rattle.m3_engine.specs.EngineView.{EngineAt};

    ghost Value = { EngineAt };

    ghost use Rattle.m3_base.specs.declared.program.Move.{Move};
    ghost use Rattle.m3_base.specs.declared.program.Seen.{Seen};
    ghost use Rattle.m3_model.specs.Config.Site.{has_program};
    ghost use Rattle.m3_engine.specs.ProgramTurn.{IsAsked, IsHeard, ask_of};
    ghost use Rattle.m3_engine.specs.EngineView.{engine_at, IsEngine};

    ghost view = { engine_at };

    ghost invariant = { IsEngine };
}

/// A parcel joins its link, which has room for it.
#[inline(always)]
fn push(wires: &mut Wires, from: TileId, emit: Option<Emit>)
    requires { HasRoom wires.old.spare 1 from }
    ensures lists { parcels_of wires.new.lists ≡ out_links from (out_of emit) (parcels_of wires.old.lists) }
    ensures room { HasRoom wires.old.spare 2 from → HasRoom wires.new.spare 1 from }
{
    if let Some(emit) = emit {
        wires.push(from, emit.to, emit.parcel);
    }
}

/// What a part sends joins its links, each of which has room for two parcels.
#[inline(always)]
fn send(wires: &mut Wires, from: TileId, done: Done) -> Outcome
    requires { HasRoom wires.old.spare 2 from }
    ensures outcome { result ≡ done.outcome }
    ensures lists { parcels_of wires.new.lists ≡
        out_links from (out_of done.first ++ out_of done.second) (parcels_of wires.old.lists) }
{
    let Done {
        outcome,
        first,
        second,
    } = done;
    push(wires, from, first);
    push(wires, from, second);
    outcome
}

impl Engine {
    /// The engine that a setup opens: each activity is at its home with its context, and those that are the first of
    /// their tile are there; no parcel is on any link.
    pub fn open(alloc: Global, setup: &Setup) -> Result<Engine, AllocError>
        ensures valid { IfOk result (λ e. IsValid setup.now) }
        ensures opened { IfOk result (λ e. e ≡ opened_engine setup.now) }
        ensures low { IfOk result (λ e. CountersBounded 0 (opened_by_setup setup.now)) }
    {
        let mut table = initial_contexts(alloc, setup)?;
        let kernel = Kernel::new(alloc, setup, &mut table)?;
        let tiles = tiles(alloc, setup, &kernel, &mut table)?;
        let site = kernel.site().share()?;
        let memory = MemPart::new(alloc, site, setup.memory())?;
        let wires = Wires::new(alloc)?;
        let parts = Parts {
            kernel,
            memory,
            tiles,
        };
        let spares = Spares::new(alloc);
        Ok(Engine {
            parts,
            wires,
            spares,
        })
    }

    /// The part at a tile takes the front of the link from another. Out of memory changes nothing.
    fn take(&mut self, alloc: Global, to: TileId, from: TileId) -> Result<Outcome, AllocError>
        ensures ok { IfOk result (λ o. Makes self.old (Event.Take to from) o self.new) }
        ensures err { OnErr result (self.new ≡ self.old) }
    {
        self.wires.reserve_from(to)?;
        match self.wires.take(from, to) {
            None => Ok(idle(IdleWhy::EmptyLink)),
            Some(parcel) => match self.parts.take(alloc, to, parcel) {
                Ok(done) => Ok(send(&mut self.wires, to, done)),
                Err((parcel, error)) => {
                    self.wires.put_back(from, to, parcel);
                    Err(error)
                }
            },
        }
    }

    /// A part makes an event that takes no parcel.
    fn make(&mut self, alloc: Global, event: Event) -> Result<Outcome, AllocError>
        requires declared { IsOfSetup self.old.site event }
        requires served { IsServed event }
        requires able { CanMake self.old }
        requires own { IsNoTake event }
        ensures ok { IfOk result (λ o. Makes self.old event o self.new) }
        ensures within { OnOk result (IsWithin event) }
        ensures err { OnErr result (self.new ≡ self.old) }
    {
        let from = self.parts.tile_for(&event);
        self.wires.reserve_from(from)?;
        let done = self.parts.make(alloc, event)?;
        Ok(send(&mut self.wires, from, done))
    }

    /// Makes one event that is no turn of a program and no file event, and says what it came to. Out of memory, the
    /// engine is as before.
    pub fn step(&mut self, alloc: Global, event: Event) -> Result<Outcome, AllocError>
        requires declared { IsOfSetup self.old.site event }
        requires served { IsServed event }
        requires able { CanMake self.old }
        ensures ok { IfOk result (λ o. Makes self.old event o self.new) }
        ensures within { OnOk result (IsWithin event) }
        ensures err { OnErr result (self.new ≡ self.old) }
    {
        match event {
            Event::Take { to, from } => self.take(alloc, to, from),
            event => self.make(alloc, event),
        }
    }

    /// The turn of an activity that has a program. It asks the program for its move where the turn needs one, and says what
    /// the turn came to. Out of memory the engine is as before, and so is the program's meaning.
    pub fn turn<P: Program>(
        &mut self,
        alloc: Global,
        act: ActId,
        program: &mut P,
    ) -> Result<Outcome, AllocError>
        requires program { has_program self.old.site act ≡ true }
        requires able { CanMake self.old }
        requires heard { IsHeard (ask_of self.old act) }
        ensures ok { IfOk result (λ o. Makes self.old (Event.Turn act) o self.new) }
        ensures asked { IfOk result (λ o. IsAsked (P.moves program.old) (P.meaning program.old)
            (P.meaning program.new) (ask_of self.old act) o.made) }
        ensures err { OnErr result (self.new ≡ self.old) }
        ensures kept { OnErr result (P.meaning program.new ≡ P.meaning program.old) }
        ensures same { (a : List ℕ) (s : Seen) (m : Move) (b : List ℕ) →
            P.moves program.new a s m b ↔ P.moves program.old a s m b }
    {
        let from = self.parts.kernel.site().tile_of(act.number());
        self.wires.reserve_from(from)?;
        self.spares.refill()?;
        let made = move_in_turn(alloc, &self.parts, act, program)?;
        let done = self.parts.turn(alloc, &mut self.spares, act, made);
        Ok(send(&mut self.wires, from, done))
    }

    /// The kernel's grants.
    pub fn grants(&self) -> &Grants
        ensures { result.now.grants ≡ self.now.machine.kernel.grants }
    {
        self.parts.kernel.grants()
    }

    /// The kernel's seats.
    pub fn seats(&self) -> &[Seat]
        ensures { seats_of result.now ≡ self.now.machine.kernel.seats }
    {
        self.parts.kernel.seats()
    }

    /// The tiles, by number.
    pub fn tiles(&self) -> &[TilePart]
        ensures tiles { tiles_of result.now ≡ self.now.machine.tiles }
        ensures count { length result.now ≡ 16 }
    {
        self.parts.tiles.as_slice()
    }

    /// The links.
    pub fn wires(&self) -> &Wires
        ensures { parcels_of result.now.lists ≡ self.now.machine.links }
    {
        &self.wires
    }

    /// The event that the driver makes next with these orders left, where there is one: the take with the least receiving
    /// tile, then the least sending tile, among links that aren't empty; then the tend of the least activity that is
    /// Resting or Coming and for which something is held; then a close, where a grant is due; then the first order; then
    /// the switch of the least tile that wants one; then the turn of the least tile's current activity, where that turn
    /// isn't idle.
    pub fn next(&self, left: &[Order]) -> Option<Event>
        ensures { result ≡ next_event_left self.now.site self.now.machine left.now }
    {
        next_event(&self.wires, &self.parts, left)
    }
}

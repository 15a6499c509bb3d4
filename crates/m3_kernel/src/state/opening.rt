//! The kernel's data as a setup opens it.

ghost use Rattle.std.specs.Prelude.{◌≡◌, ◌<◌, true, None, [], ◌∷◌, ◌++◌, length, replicate, slice_index_or, is_some, IfOk, OnOk, OnErr};
ghost use Rattle.m3_base.specs.Setup.Rules.{facts_of};
ghost use Rattle.m3_model.specs.Config.Site.{tile_of};
ghost use Rattle.m3_model.specs.Kernel.Step.{entry_of};
ghost use Rattle.m3_model.specs.SetupOpening.{opened_site};
ghost use Rattle.m3_kernel.specs.LookupTables.{empty_berth};
ghost use Rattle.m3_kernel.specs.KernelStateView.{kernel_in, at_site, IsKept};
ghost use Rattle.m3_kernel.specs.KernelOpening.{new_kernel, with_new_seat, HasPlaceFor, is_taken, resting_with, left_where, CanOpen, IsOpened};

use crate::berth::Berth;
use crate::seat::Seat;
use crate::site::{Home, Site};
use crate::state::State;
use m3_base::ids::{ActId, TileId};
use m3_base::setup::Setup;
use m3_bit_set::bit_set::BitSet;
use m3_core::context::Context;
use m3_grants::grants::Grants;
use m3_sched::sched::Sched;
use std::alloc::{AllocError, Global};

fn no_places(alloc: Global) -> Result<Vec<Option<usize>>, AllocError>
    ensures { IfOk result (λ v. v.items ≡ replicate 64 None) }
{
    let mut index = Vec::new(alloc);
    for _ in 0..64u8 {
        index.push(None)?;
    }
    Ok(index)
}

fn no_berths(alloc: Global) -> Result<Vec<Berth>, AllocError>
    ensures { IfOk result (λ v. v.items ≡ replicate 16 empty_berth) }
{
    let mut berths = Vec::new(alloc);
    for _ in 0..16u8 {
        berths.push(Berth {
            leaving: None,
            there: None,
        })?;
    }
    Ok(berths)
}

/// The context of an activity, where it rests. It is taken out of the table.
fn context_at_rest(contexts: &mut Vec<Option<Context>>, act: ActId, rests: bool) -> Option<Context>
    requires { length contexts.old.items ≡ 64 }
    ensures context { result ≡ resting_with rests (slice_index_or contexts.old.items act None) }
    ensures left { contexts.new.items ≡ left_where rests act contexts.old.items }
{
    if rests {
        contexts[usize::from(act.number())].take()
    } else {
        None
    }
}

impl State {
    /// The data of a setup's kernel, before its activities have seats.
    fn new(alloc: Global, setup: &Setup) -> Result<State, AllocError>
        ensures kept { IfOk result IsKept }
        ensures site { IfOk result (λ s. s.site ≡ opened_site setup.now) }
        ensures kernel { IfOk result (λ s. kernel_in s ≡ new_kernel (facts_of setup.now).grants) }
    {
        let site = Site::new(alloc, setup)?;
        let sched = Sched::new(alloc, site.quantum())?;
        let held = BitSet::new(alloc)?;
        let grants = Grants::new(alloc, setup)?;
        let index = no_places(alloc)?;
        let berths = no_berths(alloc)?;
        Ok(State {
            site,
            grants,
            next: 1,
            seats: Vec::new(alloc),
            index,
            berths,
            sched,
            held,
        })
    }

    /// Whether somebody is at the tile or comes to it.
    fn is_taken(&self, tile: TileId) -> bool
        requires { IsKept self.now }
        ensures taken { result ≡ is_taken (at_site self.now) tile }
        ensures low { tile < 16 }
    {
        self.berths[usize::from(tile.number())].there.is_some()
    }

    /// The next activity gets a seat: without a context it is Placed, and is the first of its tile; with one it rests, and
    /// is ready where it has a program.
    fn seat(
        &mut self,
        alloc: Global,
        act: ActId,
        context: Option<Context>,
    ) -> Result<(), AllocError>
        requires kept { IsKept self.old }
        requires fresh { entry_of act (kernel_in self.old) ≡ None }
        requires place { HasPlaceFor (at_site self.old) act context }
        ensures kept { IsKept self.new }
        ensures ok { OnOk result (at_site self.new ≡ with_new_seat act context (at_site self.old)) }
        ensures err { OnErr result (at_site self.new ≡ at_site self.old) }
    {
        self.seats.reserve(1)?;
        let at = self.seats.len();
        let rests = context.is_some();
        self.index[usize::from(act.number())] = Some(at);
        self.seats.push_reserved(Seat::new(alloc, act, context));
        let tile = self.site.tile_of(act.number());
        if rests {
            let joins = self.site.has_program(act.number());
            self.sched.ready_if(joins, tile, act);
            return Ok(());
        }
        self.berths[usize::from(tile.number())].there = Some(at);
        Ok(())
    }

    /// The next activity gets a seat: it is Placed where it is the first of its home, and else it rests with its context.
    fn seat_at(
        &mut self,
        alloc: Global,
        home: Home,
        contexts: &mut Vec<Option<Context>>,
    ) -> Result<(), AllocError>
        requires kept { IsKept self.old }
        requires fresh { entry_of home.act (kernel_in self.old) ≡ None }
        requires home { tile_of self.old.site home.act ≡ home.tile }
        requires count { length contexts.old.items ≡ 64 }
        requires context { is_some (slice_index_or contexts.old.items home.act None) ≡ true }
        ensures kept { IsKept self.new }
        ensures seat { OnOk result (at_site self.new ≡ with_new_seat home.act
            (resting_with (is_taken (at_site self.old) home.tile)
            (slice_index_or contexts.old.items home.act None)) (at_site self.old)) }
        ensures left { contexts.new.items ≡ left_where (is_taken (at_site self.old) home.tile) home.act contexts.old.items }
        ensures low { home.tile < 16 }
    {
        let rests = self.is_taken(home.tile());
        let context = context_at_rest(contexts, home.act(), rests);
        self.seat(alloc, home.act(), context)
    }

    /// The data of a setup's kernel, with a seat for each activity.
    pub fn open(
        alloc: Global,
        setup: &Setup,
        contexts: &mut Vec<Option<Context>>,
    ) -> Result<State, AllocError>
        requires { CanOpen setup.now contexts.old.items }
        ensures kept { IfOk result IsKept }
        ensures opened { IfOk result (λ s. IsOpened setup.now contexts.old.items contexts.new.items (at_site s)) }
    {
        let mut state = State::new(alloc, setup)?;
        for at in 0..state.site.homes().len() {
            let home = state.site.homes()[at];
            state.seat_at(alloc, home, contexts)?;
        }
        Ok(state)
    }
}

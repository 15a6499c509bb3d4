//! The stays of the activities at home on a tile, found by the activity's number.

ghost use Rattle.std.specs.Prelude.{◌≡◌, ◌<◌, ◌∷◌, ◌++◌, [], replicate, None, Some, is_some, length, IfOk, OnOk, OnErr, option_copied};
ghost use Rattle.m3_base.specs.declared.event.Made.{Made};
ghost use Rattle.m3_kernel.specs.ParcelView.{heard_in};
ghost use Rattle.m3_model.specs.Invariant.Housing.{IsPresent};
ghost use Rattle.m3_model.specs.Machine.{new_stay};
ghost use Rattle.m3_model.specs.Tile.State.{Resident, Tile};
ghost use Rattle.m3_model.specs.Tile.Step.{resident_at_restore};
ghost use Rattle.m3_engine.specs.SparesView.{AreFull};
ghost use Rattle.m3_engine.specs.StayView.{StayPlaceIs, replaced_if, stay_in, stays_after_answers};
ghost use Rattle.m3_engine.specs.StayTable.{with_place};
ghost use Rattle.m3_engine.specs.TileStepView.{Does};
ghost use Rattle.m3_engine.specs.TurnView.{CanMove, made_result};

use crate::issue::make_move;
use crate::spares::Spares;
use crate::stay::Stay;
use crate::tile::TileDid;
use m3_base::event::Made;
use m3_base::ids::ActId;
use m3_core::context::Context;
use m3_core::parcel::Heard;
use m3_kernel::site::Site;
use std::alloc::{AllocError, Global};
use std::marker::Model;

/// The stays of a tile in the order of their declaration. Contracts see them.
#[derive(Drop)]
pub struct Stays {
    items: Vec<Stay>,
    /// The place of each activity's stay, by the activity's number.
    places: Vec<Option<usize>>,
}

impl Model for Stays {
    ghost use Rattle.std.specs.Prelude.{List};
    ghost use Rattle.m3_model.specs.Tile.State.{Resident};
    ghost use Rattle.m3_engine.specs.StayTable.{ArePlaces};

    ghost Value = { List Resident };

    ghost view = { λ s. s.items.items };

    ghost invariant = { λ s. ArePlaces s.items.items s.places.items };
}

fn no_places(alloc: Global) -> Result<Vec<Option<usize>>, AllocError>
    ensures { IfOk result (λ v. v.items ≡ replicate 64 None) }
{
    let mut places = Vec::with_capacity(alloc, 64)?;
    for _ in 0..64u8 {
        places.push(None)?;
    }
    Ok(places)
}

/// The table gets the place of one more stay; the first of an activity stands.
fn add_place(places: &mut Vec<Option<usize>>, act: ActId, at: usize)
    requires { length places.old.items ≡ 64 }
    ensures places { places.new.items ≡ with_place act at places.old.items }
    ensures low { act < 64 }
{
    let number = usize::from(act.number());
    if places[number].is_none() {
        places[number] = Some(at);
    }
}

impl Stays {
    /// None.
    pub fn new(alloc: Global) -> Result<Stays, AllocError>
        ensures { IfOk result (λ s. s ≡ []) }
    {
        let places = no_places(alloc)?;
        Ok(Stays {
            items: Vec::new(alloc),
            places,
        })
    }

    /// One more activity is at home there.
    pub fn add(&mut self, act: ActId) -> Result<(), AllocError>
        ensures ok { OnOk result (self.new ≡ self.old ++ new_stay act ∷ []) }
        ensures err { OnErr result (self.new ≡ self.old) }
    {
        let at = self.items.len();
        self.items.push(Stay::new(act))?;
        add_place(&mut self.places, act, at);
        Ok(())
    }

    /// The place of an activity's stay.
    #[inline(always)]
    fn place(&self, act: ActId) -> Option<usize>
        ensures { StayPlaceIs self.now act result }
    {
        self.places[usize::from(act.number())]
    }

    /// The stay of an activity, where it is at home there.
    #[inline(always)]
    pub fn find(&self, act: ActId) -> Option<&Stay>
        ensures { option_copied result ≡ stay_in act self.now }
    {
        match self.place(act) {
            None => None,
            Some(at) => Some(&self.items[at]),
        }
    }

    /// The program of an activity hears this, where it is at home there and waits for it.
    pub fn hear(&mut self, act: ActId, heard: Option<Heard>)
        ensures { self.new ≡ stays_after_answers (heard_in heard) act self.old }
    {
        if let Some(at) = self.place(act) {
            self.items[at].hear(heard);
        }
    }

    /// The stay of an activity begins anew, and its program hears what came while it was away. It answers whether the
    /// activity is at home there; else nothing changes.
    pub fn restart(&mut self, act: ActId, heard: Option<Heard>) -> bool
        ensures there { result ≡ is_some (stay_in act self.old) }
        ensures stays { self.new ≡ replaced_if (resident_at_restore (heard_in heard)) (stay_in act self.old) self.old }
    {
        match self.place(act) {
            None => false,
            Some(at) => {
                self.items[at].restart(heard);
                true
            }
        }
    }

    /// The turn of an activity with this move, where it runs with this context and no command of it flies.
    pub fn make_move(
        &mut self,
        alloc: Global,
        site: &Site,
        spares: &mut Spares,
        context: &mut Context,
        act: ActId,
        made: Made,
    ) -> TileDid
        requires full { AreFull spares.old }
        requires idle { length context.old.flying ≡ 0 }
        requires there { IsPresent (stay_in act self.old) }
        requires can { (y : Resident) → stay_in act self.old ≡ Some y → CanMove context.old y made }
        ensures made { result.outcome.made ≡ Some made }
        ensures does { (t : Tile) (y : Resident) → t.current ≡ Some context.old → t.stays ≡ self.old →
            stay_in act self.old ≡ Some y → Does result (record t { current = Some context.new; stays = self.new })
            (made_result site.now t context.old y made) }
    {
        match self.place(act) {
            None => unreachable!(),
            Some(at) => make_move(alloc, site, spares, context, &mut self.items[at], made),
        }
    }
}

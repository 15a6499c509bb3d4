//! Turns of a tile's current activity.

ghost use Rattle.std.specs.Prelude.{◌≡◌, true, None, Some, option_copied};
ghost use Rattle.m3_model.specs.Invariant.Housing.{IsPresent};
ghost use Rattle.m3_model.specs.Tile.Step.{resident_of, tile_turn};
ghost use Rattle.m3_model.specs.Tile.Ask.{answers_ask, turn_ask};
ghost use Rattle.m3_engine.specs.SparesView.{AreFull};
ghost use Rattle.m3_engine.specs.TurnView.{CanTurn, TurnDoes, ask_kind, can_move_in, shown_to};
ghost use Rattle.m3_engine.specs.NextEvent.{turn_of};

use crate::ask::Ask;
use crate::spares::Spares;
use crate::tile::{TileDid, TilePart, is_idle};
use m3_base::event::{Event, IdleWhy, Made};
use m3_base::ids::ActId;
use m3_base::program::Seen;
use m3_core::context::Context;
use std::alloc::Global;

impl TilePart {
    /// What the next turn of this activity asks for.
    pub fn ask(&self, act: ActId) -> Ask
        ensures { result ≡ ask_kind (turn_ask self.now.site self.now.tile act) }
    {
        match &self.current {
            None => Ask::Idle(IdleWhy::NotCurrent),
            Some(context) => {
                if context.act() != act {
                    return Ask::Idle(IdleWhy::NotCurrent);
                }
                match self.stays.find(act) {
                    None => Ask::Idle(IdleWhy::NotCurrent),
                    Some(stay) => stay.ask(&self.site, self.tile, context),
                }
            }
        }
    }

    /// What the program of this activity sees at its next move. None where it has no home here, or waits for an answer.
    pub fn seen(&self, act: ActId) -> Option<&Seen>
        ensures { option_copied result ≡ shown_to (resident_of act self.now.tile) }
    {
        match self.stays.find(act) {
            None => None,
            Some(stay) => stay.seen(),
        }
    }

    /// Whether the turn of who runs with this context isn't idle.
    fn can_move(&self, context: &Context) -> bool
        ensures { result ≡ can_move_in context.now (resident_of context.now.act self.now.tile) }
    {
        match self.stays.find(context.act()) {
            None => false,
            Some(stay) => stay.can_move(context),
        }
    }

    /// The turn of the current activity, where it has a program and its turn isn't idle.
    pub fn next_turn(&self) -> Option<Event>
        ensures { result ≡ turn_of self.now.site self.now.tile }
    {
        match &self.current {
            None => None,
            Some(context) => {
                let act = context.act();
                if self.site.has_program(act.number()) && self.can_move(context) {
                    Some(Event::Turn(act))
                } else {
                    None
                }
            }
        }
    }

    /// A turn that makes nothing.
    fn idle_turn(&self, act: ActId) -> TileDid
        requires resident { IsPresent (resident_of act self.now.tile) }
        requires answers { answers_ask (turn_ask self.now.site self.now.tile act) None ≡ true }
        ensures made { result.outcome.made ≡ None }
        ensures does { TurnDoes result self.now.tile (tile_turn self.now.site self.now.tile act None) }
    {
        match self.ask(act) {
            Ask::Idle(why) => is_idle(why),
            _ => unreachable!(),
        }
    }

    /// A turn with this move.
    fn made_turn(&mut self, alloc: Global, spares: &mut Spares, act: ActId, made: Made) -> TileDid
        requires resident { IsPresent (resident_of act self.old.tile) }
        requires answers { answers_ask (turn_ask self.old.site self.old.tile act) (Some made) ≡ true }
        requires can { CanTurn self.old.tile act (Some made) }
        requires full { AreFull spares.old }
        ensures site { self.new.site ≡ self.old.site }
        ensures made { result.outcome.made ≡ Some made }
        ensures does { TurnDoes result self.new.tile (tile_turn self.old.site self.old.tile act (Some made)) }
    {
        match &mut self.current {
            None => unreachable!(),
            Some(context) => self
                .stays
                .make_move(alloc, &self.site, spares, context, act, made),
        }
    }

    /// The activity's turn, with the move that it asks for. The memory for it is in the spares.
    pub fn turn(
        &mut self,
        alloc: Global,
        spares: &mut Spares,
        act: ActId,
        made: Option<Made>,
    ) -> TileDid
        requires resident { IsPresent (resident_of act self.old.tile) }
        requires answers { answers_ask (turn_ask self.old.site self.old.tile act) made ≡ true }
        requires can { CanTurn self.old.tile act made }
        requires full { AreFull spares.old }
        ensures site { self.new.site ≡ self.old.site }
        ensures made { result.outcome.made ≡ made }
        ensures does { TurnDoes result self.new.tile (tile_turn self.old.site self.old.tile act made) }
    {
        match made {
            None => self.idle_turn(act),
            Some(made) => self.made_turn(alloc, spares, act, made),
        }
    }
}

//! Turns of a stay.

ghost use Rattle.std.specs.Prelude.{◌≡◌, ◌<◌, ◌==◌, not, true, ◌&&◌, Some, option_copied};
ghost use Rattle.m3_base.specs.declared.event.Made.{Made};
ghost use Rattle.m3_base.specs.declared.event.Said.{Said};
ghost use Rattle.m3_kernel.specs.ParcelView.{out_of};
ghost use Rattle.m3_model.specs.Config.Site.{is_shared};
ghost use Rattle.m3_model.specs.Tile.State.{Tile};
ghost use Rattle.m3_model.specs.Tile.Step.{turn_await, yield_out, yield_out_of, yield_result, with_resident};
ghost use Rattle.m3_model.specs.Tile.Ask.{ask_by};
ghost use Rattle.m3_engine.specs.StayView.{seen_value};
ghost use Rattle.m3_engine.specs.TileStepView.{Does};
ghost use Rattle.m3_engine.specs.TurnView.{after_command, ask_kind, can_move, outcome_made};
ghost use Rattle.m3_engine.specs.ShownSeen.{shown_seen};

use crate::ask::Ask;
use crate::stay::{Hearing, Stay, has_unread};
use crate::tile::{TileDid, to_kernel};
use m3_base::event::{IdleWhy, Made, Outcome, Said};
use m3_base::ids::{EpId, TileId};
use m3_base::program::Seen;
use m3_core::context::Context;
use m3_core::parcel::{Emit, Parcel};
use m3_kernel::site::Site;

/// What a turn with this move came to.
#[inline(always)]
fn makes(made: Made, said: Said, emit: Option<Emit>) -> TileDid
    ensures outcome { result.outcome ≡ outcome_made made said }
    ensures emit { result.emit ≡ emit }
{
    let outcome = Outcome {
        made: Some(made),
        said,
        restore: None,
    };
    TileDid { outcome, emit }
}

impl Stay {
    /// Whether it has sent no Yield, its tile has more than one activity, and it has made as many Do moves as the quantum.
    fn is_due(&self, site: &Site, tile: TileId) -> bool
        ensures { result ≡ (not self.now.yield_sent && (is_shared tile site.now.homes && (self.now.moves == site.now.quantum))) }
    {
        !self.yield_sent && site.is_shared(tile) && self.moves == u32::from(site.quantum())
    }

    /// What its next turn on this tile asks for, where it runs with this context.
    pub fn ask(&self, site: &Site, tile: TileId, context: &Context) -> Ask
        ensures { (t : Tile) → t.tile ≡ tile → result ≡ ask_kind (ask_by site.now t context.now (Some self.now)) }
    {
        if self.ended {
            return Ask::Idle(IdleWhy::Ended);
        }
        if !context.flying().is_empty() {
            return Ask::Idle(IdleWhy::Busy);
        }
        if self.yield_sent && self.is_waiting(context) {
            return Ask::Idle(IdleWhy::Waiting);
        }
        if self.is_due(site, tile) {
            return Ask::Quantum;
        }
        match self.pending {
            None => Ask::Program,
            Some(ep) => Ask::Pending(ep),
        }
    }

    /// Whether its turn isn't idle, where it runs with this context.
    pub fn can_move(&self, context: &Context) -> bool
        ensures { result ≡ can_move context.now self.now }
    {
        !self.ended
            && (context.flying().is_empty() && !(self.yield_sent && self.is_waiting(context)))
    }

    /// What its program sees at its next move. None while it waits for an answer.
    pub fn seen(&self) -> Option<&Seen>
        ensures { option_copied result ≡ shown_seen self.now.seen }
    {
        match &self.hearing {
            Hearing::Known(seen) => Some(seen),
            Hearing::Waits(_) => None,
        }
    }

    /// Its Yield goes out, unless it has sent one.
    fn yields(&mut self) -> Option<Emit>
        ensures stay { self.new ≡ yield_out_of self.old }
        ensures out { out_of result ≡ yield_out self.old }
    {
        if self.yield_sent {
            return None;
        }
        self.yield_sent = true;
        to_kernel(Parcel::Yield(self.act))
    }

    /// The turn of a quantum that is used up.
    pub fn turn_quantum(&mut self) -> TileDid
        ensures made { result.outcome.made ≡ Some Made.Quantum }
        ensures act { self.new.act ≡ self.old.act }
        ensures does { (t : Tile) → Does result (with_resident self.new t) (yield_result Made.Quantum Said.Yield t self.old) }
    {
        let emit = self.yields();
        makes(Made::Quantum, Said::Yield, emit)
    }

    /// The turn of an Await, whose endpoint has an unread message or has none.
    pub fn turn_await(&mut self, ep: EpId, unread: bool) -> TileDid
        ensures made { result.outcome.made ≡ Some (Made.Await ep) }
        ensures act { self.new.act ≡ self.old.act }
        ensures does { (t : Tile) → Does result (with_resident self.new t) (turn_await t self.old ep unread) }
    {
        let made = Made::Await(ep);
        if unread {
            self.pending = None;
            self.hearing = Hearing::Known(Seen::Awake);
            return makes(made, Said::Awake, None);
        }
        self.pending = Some(ep);
        let said = if self.yield_sent {
            Said::Asleep
        } else {
            Said::Yield
        };
        let emit = self.yields();
        makes(made, said, emit)
    }

    /// The turn in which its program ends.
    pub fn turn_end(&mut self) -> TileDid
        ensures made { result.outcome.made ≡ Some Made.End }
        ensures act { self.new.act ≡ self.old.act }
        ensures does { (t : Tile) → Does result (with_resident self.new t)
            (yield_result Made.End Said.Ended t (record self.old { ended = true })) }
    {
        self.ended = true;
        let emit = self.yields();
        makes(Made::End, Said::Ended, emit)
    }

    /// It has made one more Do move, of which its program is to hear this.
    pub fn after_command(&mut self, hearing: Hearing)
        requires { self.old.moves < 4294967295 }
        ensures { self.new ≡ after_command (seen_value hearing) self.old }
    {
        self.moves += 1;
        self.hearing = hearing;
    }
}

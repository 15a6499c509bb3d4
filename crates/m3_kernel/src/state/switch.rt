//! Switches.

ghost use Rattle.std.specs.Prelude.{◌≡◌, ◌≢◌, Ok, Err};
ghost use Rattle.m3_model.specs.Kernel.Step.{entry_of, switch};
ghost use Rattle.m3_kernel.specs.KernelStateView.{kernel_in, IsKept};
ghost use Rattle.m3_kernel.specs.OrderAnswers.{Orders};
ghost use Rattle.m3_kernel.specs.StepContracts.{Judges, IsSwitch, LeaverAt};
ghost use Rattle.m3_kernel.specs.declared.order.OrderRefusal.{OrderRefusal};

use crate::order::{OrderRefusal, Ordered};
use crate::seat::Place;
use crate::state::State;
use m3_base::ids::{ActId, TileId};
use m3_core::parcel::{Emit, Parcel};

/// The seats of who leaves a tile and of who comes.
#[derive(Clone, Copy, Debug, Drop)]
pub struct Switch {
    leaves: usize,
    comes: usize,
}

impl State {
    /// Who leaves the tile and who comes by a switch, or why it is refused.
    fn check_switch(&self, tile: TileId, act: ActId) -> Result<Switch, OrderRefusal>
        requires { IsKept self.now }
        ensures judges { Judges self.now tile act result }
        ensures memory { result ≢ Err OrderRefusal.NoMemory }
    {
        let Some(comes) = self.place(act.number()) else {
            return Err(OrderRefusal::NotHome);
        };
        if self.site.tile_of(act.number()) != tile {
            return Err(OrderRefusal::NotHome);
        }
        match self.seats[comes].place() {
            Place::Placed => Err(OrderRefusal::Already),
            Place::Coming => Err(OrderRefusal::Already),
            Place::Leaving => Err(OrderRefusal::Leaving),
            Place::Resting => match self.leaver(tile) {
                None => Err(OrderRefusal::Leaving),
                Some(leaves) => Ok(Switch { leaves, comes }),
            },
        }
    }

    /// The seat of who leaves the tile. None where nobody is there, or a switch of the tile is under way.
    fn leaver(&self, tile: TileId) -> Option<usize>
        requires { IsKept self.now }
        ensures { LeaverAt self.now tile result }
    {
        let berth = self.berth(tile);
        if berth.leaving.is_some() {
            return None;
        }
        let leaves = berth.there?;
        match self.seats[leaves].place() {
            Place::Placed => Some(leaves),
            _ => None,
        }
    }

    /// The switch is carried out: who comes isn't ready any more, and Save goes to who leaves.
    fn perform_switch(&mut self, tile: TileId, act: ActId, pair: Switch) -> Ordered
        requires kept { IsKept self.old }
        requires allowed { IsSwitch self.old tile act pair }
        ensures kept { IsKept self.new }
        ensures site { self.new.site ≡ self.old.site }
        ensures orders { Orders (Ok result) (kernel_in self.old) (kernel_in self.new)
            (switch self.old.site (kernel_in self.old) tile (entry_of act (kernel_in self.old))) }
    {
        let Switch { leaves, comes } = pair;
        let leaver = self.seats[leaves].act();
        self.seats[leaves].start_save();
        self.seats[comes].start_restore();
        let berth = &mut self.berths[usize::from(tile.number())];
        berth.leaving = Some(leaves);
        berth.there = Some(comes);
        self.sched.take_out(tile, act);
        let parcel = Parcel::Save(leaver);
        Ordered::Save {
            leaving: leaver,
            emit: Emit { to: tile, parcel },
        }
    }

    /// The activity is to come to the tile, for who is there.
    pub fn switch(&mut self, tile: TileId, act: ActId) -> Result<Ordered, OrderRefusal>
        requires { IsKept self.old }
        ensures kept { IsKept self.new }
        ensures site { self.new.site ≡ self.old.site }
        ensures orders { Orders result (kernel_in self.old) (kernel_in self.new)
            (switch self.old.site (kernel_in self.old) tile (entry_of act (kernel_in self.old))) }
        ensures memory { result ≢ Err OrderRefusal.NoMemory }
    {
        let pair = self.check_switch(tile, act)?;
        Ok(self.perform_switch(tile, act, pair))
    }
}

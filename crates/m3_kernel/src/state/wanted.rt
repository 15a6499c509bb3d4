//! The switch that a tile wants.

ghost use Rattle.std.specs.Prelude.{◌≡◌, option_map};
ghost use Rattle.std.specs.List.{list_any};
ghost use Rattle.m3_base.specs.declared.event.Event.{Event};
ghost use Rattle.m3_model.specs.Kernel.Step.{is_moving_at};
ghost use Rattle.m3_model.specs.Kernel.Driver.{wanted_at, next_switch};
ghost use Rattle.m3_kernel.specs.KernelStateView.{kernel_in, IsKept};

use crate::seat::Place;
use crate::state::State;
use m3_base::ids::TileId;
use m3_base::order::Order;

impl State {
    /// Whether a switch of the tile is under way.
    fn is_moving(&self, tile: TileId) -> bool
        requires { IsKept self.now }
        ensures { result ≡ list_any (is_moving_at self.now.site tile) (kernel_in self.now).seats }
    {
        let berth = self.berth(tile);
        if berth.leaving.is_some() {
            return true;
        }
        match berth.there {
            None => false,
            Some(at) => match self.seats[at].place() {
                Place::Coming => true,
                _ => false,
            },
        }
    }

    /// The switch that the tile wants.
    fn wanted_at(&self, tile: TileId) -> Option<Order>
        requires { IsKept self.now }
        ensures { option_map Event.Order result ≡ wanted_at self.now.site (kernel_in self.now) tile }
    {
        if !self.sched.wants(tile) || self.is_moving(tile) {
            return None;
        }
        match self.sched.pick(tile) {
            None => None,
            Some(act) => Some(Order::Switch { tile, act }),
        }
    }

    /// The switch of the least tile that wants one.
    pub fn wanted(&self) -> Option<Order>
        requires { IsKept self.now }
        ensures { option_map Event.Order result ≡ next_switch self.now.site (kernel_in self.now) }
    {
        for tile in 0..16u8 {
            let order = self.wanted_at(TileId::new(tile));
            if order.is_some() {
                return order;
            }
        }
        None
    }
}

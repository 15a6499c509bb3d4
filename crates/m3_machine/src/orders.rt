//! The orders that a run begins with, of which some are left.

ghost use Rattle.std.specs.Prelude.{◌≡◌};
ghost use Rattle.m3_base.specs.declared.order.Order.{Order};
ghost use Rattle.m3_machine.specs.OrdersLeft.{is_order, without_first};

use m3_base::event::Event;
use m3_base::order::Order;
use std::marker::Model;

/// A list of orders whose first ones were carried out. Contracts see those that are left.
#[derive(Debug, Drop)]
pub struct Orders {
    list: Vec<Order>,
    taken: usize,
}

impl Model for Orders {
    ghost use Rattle.std.specs.Prelude.{List};
    ghost use Rattle.m3_base.specs.declared.order.Order.{Order};

    ghost Value = { List Order };

    ghost use Rattle.m3_machine.specs.OrdersView.{orders_left, IsWithinOrders};

    ghost view = { orders_left };

    ghost invariant = { IsWithinOrders };
}

/// Whether the event is an order.
#[inline(always)]
pub fn is_order(event: &Event) -> bool
    ensures { result ≡ is_order event.now }
{
    matches!(event, Event::Order(_))
}

impl Orders {
    /// All of them are left.
    pub fn new(list: Vec<Order>) -> Orders
        ensures { result ≡ list.items }
    {
        Orders { list, taken: 0 }
    }

    /// Those that are left.
    #[inline(always)]
    pub fn left(&self) -> &[Order]
        ensures { result.now ≡ self.now }
    {
        &self.list[self.taken..]
    }

    /// An order takes the first that is left, where there is one.
    #[inline(always)]
    pub fn spend(&mut self, is_order: bool)
        ensures { self.new ≡ without_first is_order self.old }
    {
        if is_order && self.taken < self.list.len() {
            self.taken += 1;
        }
    }
}

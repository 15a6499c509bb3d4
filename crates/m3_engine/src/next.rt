//! What the driver does next.

ghost use Rattle.std.specs.Prelude.{◌≡◌, length};
ghost use Rattle.m3_trace.specs.DriverOfMachine.{next_take_on};
ghost use Rattle.m3_model.specs.Kernel.Driver.{next_switch};
ghost use Rattle.m3_model.specs.Config.Site.{Site};
ghost use Rattle.m3_engine.specs.NextEvent.{first_turn, next_of_kernel, next_of_parts};
ghost use Rattle.m3_engine.specs.PartsView.{HasParts};
ghost use Rattle.m3_engine.specs.TileView.{AreAtSite, tiles_of};

use crate::parts::Parts;
use crate::tile::TilePart;
use m3_base::event::Event;
use m3_base::ids::TileId;
use m3_base::order::Order;
use m3_kernel::kernel::Kernel;
use m3_link::wires::Wires;

/// The take at the least receiving tile, then from the least sending tile, among links that aren't empty.
fn next_take(wires: &Wires) -> Option<Event>
    ensures { result ≡ next_take_on wires.now.lists }
{
    match wires.first() {
        Some((to, from)) => Some(Event::Take { to, from }),
        None => None,
    }
}

/// The turn of the least tile's current activity that isn't idle.
fn next_turn(tiles: &[TilePart]) -> Option<Event>
    requires { length tiles.now ≡ 16 }
    ensures { (h : Site) → AreAtSite h tiles.now → result ≡ first_turn h (tiles_of tiles.now) }
{
    for tile in 0..16u8 {
        if let Some(event) = tiles[usize::from(tile)].next_turn() {
            return Some(event);
        }
    }
    None
}

/// The switch of the least tile that wants one.
fn next_switch(kernel: &Kernel) -> Option<Event>
    ensures { result ≡ next_switch kernel.now.site kernel.now.kernel }
{
    match kernel.wanted() {
        Some(order) => Some(Event::Order(order)),
        None => None,
    }
}

/// What the kernel makes next: the tend of the least activity that can be tended, then a close, where a grant is due,
/// then the first of these orders, then the switch of the least tile that wants one.
fn next_of_kernel(kernel: &Kernel, left: &[Order]) -> Option<Event>
    ensures { result ≡ next_of_kernel kernel.now.site kernel.now.kernel left.now }
{
    if let Some(act) = kernel.least_tend() {
        return Some(Event::Tend(act));
    }
    if kernel.grants().next_close().is_some() {
        return Some(Event::Close);
    }
    match left.first() {
        Some(order) => Some(Event::Order(*order)),
        None => next_switch(kernel),
    }
}

/// A take, where a link isn't empty; then what the kernel makes next; then a turn.
pub fn next_event(wires: &Wires, parts: &Parts, left: &[Order]) -> Option<Event>
    requires { HasParts parts.now }
    ensures { result ≡ next_of_parts (next_take_on wires.now.lists) parts.now left.now }
{
    match next_take(wires) {
        Some(take) => Some(take),
        None => match next_of_kernel(&parts.kernel, left) {
            Some(event) => Some(event),
            None => next_turn(parts.tiles.as_slice()),
        },
    }
}

//! The walk over a machine's contexts and packets: those on tiles, then those in the kernel, then those on links.

ghost use Rattle.std.specs.Prelude.{◌≡◌, ◌∷◌, ◌++◌, [], List, map};
ghost use Rattle.m3_base.specs.declared.packet.Packet.{Packet as PacketValue};
ghost use Rattle.m3_base.specs.Ideal.Context.{Context as ContextValue};
ghost use Rattle.m3_kernel.specs.ParcelView.{parcel_of, parcels_of};
ghost use Rattle.m3_kernel.specs.ActivityView.{seat_value, seats_of};
ghost use Rattle.m3_link.specs.LinksView.{lists_in};
ghost use Rattle.m3_model.specs.Abstraction.{flat_map, flat_links, tile_contexts, entry_contexts, held_by, contexts_in, packets_in};
ghost use Rattle.m3_engine.specs.TileView.{tiles_of};
ghost use Rattle.m3_machine.specs.Traversal.{Composes, contexts_of, packets_of};

use m3_base::packet::Packet;
use m3_core::context::Context;
use m3_core::parcel::Parcel;
use m3_engine::tile::TilePart;
use m3_kernel::seat::Seat;
use m3_link::wires::Wires;
use std::collections::VecDeque;

/// What is done with each context and each packet. `visits` says what came of visiting some of them.
pub trait Visitor<'a> {
    ghost visits: { List ContextValue → List PacketValue → Self → Self → Type 0 };

    /// The context is visited.
    fn context(&mut self, context: &'a Context)
        ensures { visits (context.now ∷ []) [] self.old self.new };

    /// The packet is visited.
    fn packet(&mut self, packet: &Packet)
        ensures { visits [] (packet.now ∷ []) self.old self.new };
}

/// The context of a tile's current activity.
fn visit_tile<'a, V: Visitor<'a>>(tile: &'a TilePart, visitor: &mut V)
    requires { Composes V.visits }
    ensures { V.visits (tile_contexts tile.now.tile) [] visitor.old visitor.new }
{
    if let Some(context) = tile.current() {
        visitor.context(context);
    }
}

fn visit_tiles<'a, V: Visitor<'a>>(tiles: &'a [TilePart], visitor: &mut V)
    requires { Composes V.visits }
    ensures { V.visits (flat_map tile_contexts (tiles_of tiles.now)) [] visitor.old visitor.new }
{
    for tile in tiles {
        visit_tile(tile, visitor);
    }
}

/// The context that the kernel has of an activity.
fn visit_context<'a, V: Visitor<'a>>(seat: &'a Seat, visitor: &mut V)
    requires { Composes V.visits }
    ensures { V.visits (entry_contexts (seat_value seat.now)) [] visitor.old visitor.new }
{
    if let Some(context) = seat.context() {
        visitor.context(context);
    }
}

fn visit_hold<'a, V: Visitor<'a>>(hold: &VecDeque<Packet>, visitor: &mut V)
    requires { Composes V.visits }
    ensures { V.visits [] hold.now.items visitor.old visitor.new }
{
    for packet in hold.iter() {
        visitor.packet(packet);
    }
}

/// What the kernel has of an activity.
fn visit_seat<'a, V: Visitor<'a>>(seat: &'a Seat, visitor: &mut V)
    requires { Composes V.visits }
    ensures { V.visits (entry_contexts (seat_value seat.now)) (held_by (seat_value seat.now)) visitor.old visitor.new }
{
    visit_context(seat, visitor);
    visit_hold(seat.hold(), visitor);
}

fn visit_seats<'a, V: Visitor<'a>>(seats: &'a [Seat], visitor: &mut V)
    requires { Composes V.visits }
    ensures { V.visits (flat_map entry_contexts (seats_of seats.now))
        (flat_map held_by (seats_of seats.now)) visitor.old visitor.new }
{
    for seat in seats {
        visit_seat(seat, visitor);
    }
}

fn visit_parcel<'a, V: Visitor<'a>>(parcel: &'a Parcel, visitor: &mut V)
    requires { Composes V.visits }
    ensures { V.visits (contexts_in (parcel_of parcel.now)) (packets_in (parcel_of parcel.now)) visitor.old visitor.new }
{
    match parcel {
        Parcel::Data(packet) => visitor.packet(packet),
        Parcel::Saved { context, .. } => visitor.context(context),
        Parcel::Restore { context, .. } => visitor.context(context),
        _ => {}
    }
}

fn visit_link<'a, V: Visitor<'a>>(link: &'a VecDeque<Parcel>, visitor: &mut V)
    requires { Composes V.visits }
    ensures { V.visits (flat_map contexts_in (map parcel_of link.now.items))
        (flat_map packets_in (map parcel_of link.now.items)) visitor.old visitor.new }
{
    for parcel in link.iter() {
        visit_parcel(parcel, visitor);
    }
}

fn visit_links<'a, V: Visitor<'a>>(links: &'a [VecDeque<Parcel>], visitor: &mut V)
    requires { Composes V.visits }
    ensures { V.visits (flat_links contexts_in (parcels_of (lists_in links.now)))
        (flat_links packets_in (parcels_of (lists_in links.now))) visitor.old visitor.new }
{
    for link in links {
        visit_link(link, visitor);
    }
}

/// Visits all contexts and all packets.
pub fn visit_all<'a, V: Visitor<'a>>(
    tiles: &'a [TilePart],
    seats: &'a [Seat],
    links: &'a Wires,
    visitor: &mut V,
)
    requires { Composes V.visits }
    ensures { V.visits (contexts_of (tiles_of tiles.now) (seats_of seats.now) (parcels_of links.now.lists))
        (packets_of (seats_of seats.now) (parcels_of links.now.lists)) visitor.old visitor.new }
{
    visit_tiles(tiles, visitor);
    visit_seats(seats, visitor);
    visit_links(links.all(), visitor);
}

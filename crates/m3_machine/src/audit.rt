//! The lines that close a journal, on credits, on tiles and on flights.

ghost use Rattle.std.specs.Prelude.{◌≡◌, ◌≤◌, ◌+◌, ◌++◌, length, min, IfOk, OnOk, option_to_list};
ghost use Rattle.m3_base.specs.Ideal.State.{grant_in};
ghost use Rattle.m3_kernel.specs.ParcelView.{parcels_of};
ghost use Rattle.m3_kernel.specs.ActivityView.{seat_value, seats_of};
ghost use Rattle.m3_link.specs.LinkOps.{data_on};
ghost use Rattle.m3_model.specs.Abstraction.{flat_map, held_by};
ghost use Rattle.m3_machine.specs.AuditView.{IsSized, AreCreditsOf, live_line, live_lines};
ghost use Rattle.m3_engine.specs.TileView.{tiles_of};
ghost use Rattle.m3_machine.specs.Traversal.{contexts_of, packets_of};
ghost use Rattle.m3_trace.specs.DriverOfMachine.{tile_lines};

use crate::context_table::ContextTable;
use crate::credit_counts::{CreditCounter, CreditCounts};
use crate::traversal::visit_all;
use m3_base::ids::{GrantId, TileId};
use m3_base::journal::AuditLine;
use m3_base::packet::Fresh;
use m3_engine::tile::TilePart;
use m3_grants::grants::Grants;
use m3_kernel::seat::Seat;
use m3_link::wires::Wires;
use std::alloc::{AllocError, Global};

/// The credits of all contexts and packets, counted.
fn counted(
    alloc: Global,
    tiles: &[TilePart],
    seats: &[Seat],
    links: &Wires,
) -> Result<CreditCounts, AllocError>
    ensures { IfOk result (AreCreditsOf
        (contexts_of (tiles_of tiles.now) (seats_of seats.now) (parcels_of links.now.lists))
        (packets_of (seats_of seats.now) (parcels_of links.now.lists))) }
{
    let mut contexts = ContextTable::new(alloc)?;
    visit_all(tiles, seats, links, &mut contexts);
    let counts = CreditCounts::new(alloc)?;
    let mut counter = CreditCounter { contexts, counts };
    visit_all(tiles, seats, links, &mut counter);
    let CreditCounter { counts, .. } = counter;
    Ok(counts)
}

/// The line of the grant of this number, where it is a live send grant.
fn grant_line(grants: &Grants, counts: &CreditCounts, grant: GrantId) -> Option<AuditLine>
    requires { IsSized counts.now }
    ensures { option_to_list result ≡ live_line counts.now grant (grant_in grants.now.grants grant) }
{
    if !grants.live(grant) {
        return None;
    }
    let Fresh::Send { limit, .. } = grants.fresh(grant)? else {
        return None;
    };
    let at = usize::from(grant.number());
    Some(AuditLine::Credit {
        grant,
        held: counts.held[at],
        flying: counts.flying[at],
        queued: counts.queued[at],
        limit: u32::from(limit),
    })
}

/// Adds the lines of the send grants.
pub fn credit_lines(
    alloc: Global,
    grants: &Grants,
    tiles: &[TilePart],
    seats: &[Seat],
    links: &Wires,
    lines: &mut Vec<AuditLine>,
) -> Result<(), AllocError>
    ensures { OnOk result (lines.new.items ≡ lines.old.items ++ live_lines
        (contexts_of (tiles_of tiles.now) (seats_of seats.now) (parcels_of links.now.lists))
        (packets_of (seats_of seats.now) (parcels_of links.now.lists)) grants.now.grants) }
{
    let counts = counted(alloc, tiles, seats, links)?;
    let count = grants.count();
    for number in 1..count + 1 {
        if let Some(line) = grant_line(grants, &counts, GrantId::new(number)) {
            lines.push(line)?;
        }
    }
    Ok(())
}

/// How many packets are held for the seat's activity.
fn held(seat: &Seat) -> usize
    ensures { result ≡ length (held_by (seat_value seat.now)) }
{
    seat.hold().len()
}

/// How many packets are in hold lists and on links, up to the largest number.
pub fn flights(seats: &[Seat], links: &Wires) -> u32
    ensures { result ≡ min 4294967295 (length (flat_map held_by (seats_of seats.now)) + data_on links.now.lists) }
{
    let mut count = links.flights() as usize;
    for seat in seats {
        count = count.saturating_add(held(seat));
    }
    if count < u32::MAX as usize {
        count as u32
    } else {
        u32::MAX
    }
}

/// Adds the lines of the tiles from 2 on.
pub fn tile_lines(
    count: u8,
    tiles: &[TilePart],
    lines: &mut Vec<AuditLine>,
) -> Result<(), AllocError>
    requires count { count ≤ 16 }
    requires tiles { length tiles.now ≡ 16 }
    ensures { OnOk result (lines.new.items ≡ lines.old.items ++ tile_lines count (tiles_of tiles.now)) }
{
    for number in 2..count {
        let act = match tiles[usize::from(number)].current() {
            None => None,
            Some(context) => Some(context.act()),
        };
        lines.push(AuditLine::Tile {
            tile: TileId::new(number),
            act,
        })?;
    }
    Ok(())
}

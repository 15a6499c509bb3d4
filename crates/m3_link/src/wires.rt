//! The links: for each ordered pair of tiles the parcels on their way, first in, first out.

ghost use Rattle.std.specs.Prelude.{◌≡◌, ℕ, ◌+◌, ◌*◌, ◌<◌, ◌≤◌, ◌==◌, ◌&&◌, ◌||◌, not, min, length, replicate, [], OnOk, IfOk, IsSome, option_copied, map, false, nat_le};
ghost use Rattle.m3_link.specs.LinkOps.{place, list_at, with_pushed, with_popped, first, put_back, parcel_at, is_nil, spare_at, with_one_less, with_freed, HasRoom, IsRoomier, IsLeastLink, data_in, data_on};
ghost use Rattle.m3_bit_set.specs.BitSet.{has_place};
ghost use Rattle.m3_link.specs.LinksView.{lists_in, spare_in, marks_noted};

use m3_base::ids::TileId;
use m3_bit_set::bit_set::BitSet;
use m3_core::parcel::Parcel;
use std::alloc::{AllocError, Global};
use std::collections::VecDeque;
use std::marker::Model;

/// A link for each ordered pair of tiles, a tile with itself included. Contracts see the parcels of each link, and how
/// many more each has a place for.
#[derive(Drop)]
pub struct Wires {
    /// The link from one tile to another at 16 * from + to.
    links: Vec<VecDeque<Parcel>>,
    /// For each tile whether it is known that each link from it has two spare places.
    roomy: Vec<bool>,
    /// The links that aren't empty, the one from a tile to another at 16 * to + from: the least place is the least
    /// receiving tile, then the least sending tile.
    occupancy: BitSet,
}

impl Model for Wires {
    ghost use Rattle.m3_link.specs.LinksView.{Wires as WiresValue, wires_of};

    ghost Value = { WiresValue };

    ghost view = { λ w. wires_of w.links.items };

    ghost use Rattle.m3_link.specs.LinksView.{IsWhole};

    ghost invariant = { λ w. IsWhole w.links.items w.roomy.items w.occupancy };
}

/// The place of a link among all.
#[inline(always)]
fn place(from: TileId, to: TileId) -> usize
    ensures value { result ≡ place from to }
    ensures range { result < 256 }
    ensures low { to < 16 }
{
    usize::from(from.number()) * 16 + usize::from(to.number())
}

fn no_parcels(alloc: Global) -> Result<Vec<VecDeque<Parcel>>, AllocError>
    ensures links { IfOk result (λ v. lists_in v.items ≡ replicate 256 []) }
    ensures full { IfOk result (λ v. length v.items ≡ 256) }
{
    let mut links = Vec::with_capacity(alloc, 256)?;
    for _ in 0..256u16 {
        links.push(VecDeque::new(alloc))?;
    }
    Ok(links)
}

fn no_room(alloc: Global) -> Result<Vec<bool>, AllocError>
    ensures { IfOk result (λ v. v.items ≡ replicate 16 false) }
{
    let mut roomy = Vec::with_capacity(alloc, 16)?;
    for _ in 0..16u8 {
        roomy.push(false)?;
    }
    Ok(roomy)
}

/// Whether the link has two spare places.
fn is_roomy(link: &VecDeque<Parcel>) -> bool
    ensures { result ≡ nat_le 2 (spare_in link.now) }
{
    2 <= link.capacity().saturating_sub(link.len())
}

/// The mark of a tile goes where one link from it may have fewer than two spare places.
fn note_room(roomy: &mut Vec<bool>, from: TileId, still: bool)
    requires { length roomy.old.items ≡ 16 }
    ensures { roomy.new.items ≡ marks_noted still from roomy.old.items }
{
    if !still {
        roomy[usize::from(from.number())] = false;
    }
}

/// The link is in the set.
fn insert_link(occupancy: &mut BitSet, from: TileId, to: TileId)
    ensures { (i : ℕ) → has_place occupancy.new i ≡ (i == place to from || has_place occupancy.old i) }
{
    occupancy.insert(place(to, from));
}

/// The link isn't in the set, where it is empty.
fn remove_link_if(occupancy: &mut BitSet, is_empty: bool, from: TileId, to: TileId)
    ensures { (i : ℕ) → has_place occupancy.new i ≡ (not (is_empty && (i == place to from)) && has_place occupancy.old i) }
{
    if is_empty {
        occupancy.remove(place(to, from));
    }
}

/// The tiles of a link by its place in the set: the receiving one, then the sending one.
fn ends(at: usize) -> (TileId, TileId)
    requires { at < 256 }
    ensures { at ≡ place result.0 result.1 }
{
    (TileId::new((at / 16) as u8), TileId::new((at % 16) as u8))
}

/// Makes room for two more parcels on each link from this tile.
fn reserve_row(links: &mut Vec<VecDeque<Parcel>>, from: TileId) -> Result<(), AllocError>
    requires { length links.old.items ≡ 256 }
    ensures count { length links.new.items ≡ 256 }
    ensures lists { lists_in links.new.items ≡ lists_in links.old.items }
    ensures room { OnOk result (HasRoom (map spare_in links.new.items) 2 from) }
    ensures more { IsRoomier (map spare_in links.old.items) (map spare_in links.new.items) }
{
    for to in 0..16u8 {
        links[place(from, TileId::new(to))].reserve(2)?;
    }
    Ok(())
}

/// The count with the data packets of one more link.
fn counted(link: &VecDeque<Parcel>, before: u32) -> u32
    ensures { result ≡ min 4294967295 (before + data_in link.now.items) }
{
    let mut count = before;
    for parcel in link.iter() {
        if let Parcel::Data(_) = parcel {
            count = count.saturating_add(1);
        }
    }
    count
}

/// How many data packets are on these links.
fn total(links: &[VecDeque<Parcel>]) -> u32
    ensures { result ≡ min 4294967295 (data_on (lists_in links.now)) }
{
    let mut count = 0u32;
    for link in links {
        count = counted(link, count);
    }
    count
}

impl Wires {
    /// Links without parcels.
    pub fn new(alloc: Global) -> Result<Wires, AllocError>
        ensures { IfOk result (λ w. w.lists ≡ replicate 256 []) }
    {
        let links = no_parcels(alloc)?;
        let roomy = no_room(alloc)?;
        let occupancy = BitSet::new(alloc)?;
        Ok(Wires {
            links,
            roomy,
            occupancy,
        })
    }

    /// Makes room for two more parcels on each link from this tile, as many as one event sends.
    #[inline(always)]
    pub fn reserve_from(&mut self, from: TileId) -> Result<(), AllocError>
        ensures lists { self.new.lists ≡ self.old.lists }
        ensures room { OnOk result (HasRoom self.new.spare 2 from) }
        ensures more { IsRoomier self.old.spare self.new.spare }
    {
        let at = usize::from(from.number());
        if !self.roomy[at] {
            reserve_row(&mut self.links, from)?;
            self.roomy[at] = true;
        }
        Ok(())
    }

    /// The parcel joins the back of this link, which has a spare place. It takes no memory.
    #[inline(always)]
    pub fn push(&mut self, from: TileId, to: TileId, parcel: Parcel)
        requires room { 0 < spare_at self.old.spare (place from to) }
        ensures lists { self.new.lists ≡ with_pushed self.old.lists (place from to) parcel }
        ensures spare { self.new.spare ≡ with_one_less self.old.spare (place from to) }
        ensures room { (n t : ℕ) → HasRoom self.old.spare (n + 1) t → HasRoom self.new.spare n t }
    {
        let at = place(from, to);
        let link = &mut self.links[at];
        link.push_back_reserved(parcel);
        let still = is_roomy(link);
        note_room(&mut self.roomy, from, still);
        insert_link(&mut self.occupancy, from, to);
    }

    /// The front of this link leaves it, and its place is spare. None exactly where the link is empty.
    #[inline(always)]
    pub fn take(&mut self, from: TileId, to: TileId) -> Option<Parcel>
        ensures answer { result ≡ first (list_at self.old.lists (place from to)) }
        ensures lists { self.new.lists ≡ with_popped self.old.lists (place from to) }
        ensures spare { self.new.spare ≡ with_freed self.old.spare (place from to) result }
        ensures more { IsRoomier self.old.spare self.new.spare }
        ensures left { IsSome result → 0 < spare_at self.new.spare (place from to) }
    {
        let link = &mut self.links[place(from, to)];
        let parcel = link.pop_front();
        let is_empty = link.is_empty();
        remove_link_if(&mut self.occupancy, is_empty, from, to);
        parcel
    }

    /// The parcel is the front of this link again, which has a spare place. It takes no memory.
    #[inline(always)]
    pub fn put_back(&mut self, from: TileId, to: TileId, parcel: Parcel)
        requires room { 0 < spare_at self.old.spare (place from to) }
        ensures lists { self.new.lists ≡ put_back self.old.lists (place from to) parcel }
        ensures spare { self.new.spare ≡ with_one_less self.old.spare (place from to) }
    {
        let at = place(from, to);
        self.links[at].push_front_reserved(parcel);
        note_room(&mut self.roomy, from, false);
        insert_link(&mut self.occupancy, from, to);
    }

    /// How many parcels are on this link.
    #[inline(always)]
    pub fn len(&self, from: TileId, to: TileId) -> usize
        ensures { result ≡ length (list_at self.now.lists (place from to)) }
    {
        let at = place(from, to);
        self.links[at].len()
    }

    /// The parcel with so many others before it on this link. None exactly where the link has no more than these.
    #[inline(always)]
    pub fn get(&self, from: TileId, to: TileId, at: usize) -> Option<&Parcel>
        ensures { option_copied result ≡ parcel_at (list_at self.now.lists (place from to)) at }
    {
        let link = place(from, to);
        self.links[link].get(at)
    }

    /// Whether this link has no parcel.
    #[inline(always)]
    pub fn is_empty(&self, from: TileId, to: TileId) -> bool
        ensures { result ≡ is_nil (list_at self.now.lists (place from to)) }
    {
        let at = place(from, to);
        self.links[at].is_empty()
    }

    /// The link that isn't empty with the least receiving tile, then the least sending tile: the receiving tile and the
    /// sending one. None exactly where all links are empty.
    #[inline(always)]
    pub fn first(&self) -> Option<(TileId, TileId)>
        ensures { IsLeastLink self.now.lists result }
    {
        match self.occupancy.first() {
            Some(at) => Some(ends(at)),
            None => None,
        }
    }

    /// All links, the one from a tile to another at 16 * from + to.
    pub fn all(&self) -> &[VecDeque<Parcel>]
        ensures { lists_in result.now ≡ self.now.lists }
    {
        self.links.as_slice()
    }

    /// How many data packets are on all links, up to the largest number.
    pub fn flights(&self) -> u32
        ensures { result ≡ min 4294967295 (data_on self.now.lists) }
    {
        total(self.links.as_slice())
    }
}

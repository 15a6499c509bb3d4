//! The kernel's data: the seats with the tables that find them, the grants, the ready lists, and the number of the next
//! packet.

mod opening;
mod orders;
mod switch;
mod take;
mod tend;
mod wanted;

ghost use Rattle.std.specs.Prelude.{◌≡◌, ◌<◌, None, length, slice_index_or, OnOk};
ghost use Rattle.m3_model.specs.Kernel.Step.{then_restore};
ghost use Rattle.m3_kernel.specs.ParcelView.{out_of};
ghost use Rattle.m3_kernel.specs.LookupTables.{berth_at};
ghost use Rattle.m3_kernel.specs.KernelStateView.{kernel_in, IsKept, CanRoute};
ghost use Rattle.m3_kernel.specs.StepContracts.{Does, DueAt, PlaceIs, Routes};

use crate::berth::Berth;
use crate::done::{Done, restores, says};
use crate::seat::{Place, Seat};
use crate::site::Site;
use m3_base::event::Said;
use m3_base::ids::TileId;
use m3_base::packet::Packet;
use m3_bit_set::bit_set::BitSet;
use m3_core::parcel::{Emit, Parcel};
use m3_grants::grants::Grants;
use m3_sched::sched::Sched;
use std::alloc::AllocError;

/// All that the kernel has. `Kernel` is this with its invariant.
#[derive(Drop)]
pub struct State {
    pub site: Site,
    pub grants: Grants,
    /// The number of the kernel's next packet.
    pub next: u32,
    /// In the order in which the activities were declared.
    pub seats: Vec<Seat>,
    /// The place of each activity's seat, by the activity's number.
    pub index: Vec<Option<usize>>,
    /// By tile.
    pub berths: Vec<Berth>,
    pub sched: Sched,
    /// Who has packets held: nothing is held for an activity that isn't in this set.
    pub held: BitSet,
}

impl State {
    /// What the table of places says of the activity of this number.
    #[inline(always)]
    fn entry(&self, act: u8) -> Option<usize>
        ensures { result ≡ slice_index_or self.now.index.items act None }
    {
        match self.index.get(usize::from(act)) {
            Some(Some(at)) => Some(*at),
            _ => None,
        }
    }

    /// The same, of any number.
    #[inline(always)]
    fn entry_at(&self, number: usize) -> Option<usize>
        ensures { result ≡ slice_index_or self.now.index.items number None }
    {
        match self.index.get(number) {
            Some(Some(at)) => Some(*at),
            _ => None,
        }
    }

    /// The place of the seat of the activity of this number.
    #[tactic(auto, using(crate::proofs::FindEntry::place_by))]
    #[inline(always)]
    pub fn place(&self, act: u8) -> Option<usize>
        requires { IsKept self.now }
        ensures { PlaceIs (kernel_in self.now) act result }
    {
        self.entry(act)
    }

    /// The same, of any number.
    #[tactic(auto, using(crate::proofs::FindEntry::place_by))]
    pub fn place_at(&self, number: usize) -> Option<usize>
        requires { IsKept self.now }
        ensures { PlaceIs (kernel_in self.now) number result }
    {
        self.entry_at(number)
    }

    /// What is kept of a tile.
    #[inline(always)]
    fn berth(&self, tile: TileId) -> Berth
        requires { IsKept self.now }
        ensures { result ≡ berth_at self.now.berths.items tile }
    {
        self.berths[usize::from(tile.number())]
    }

    /// The seat of who comes to the tile, where nobody leaves the tile and nothing is held for who comes.
    fn due(&self, tile: TileId) -> Option<usize>
        requires { IsKept self.now }
        ensures { DueAt self.now.site tile (kernel_in self.now) result }
    {
        let berth = self.berth(tile);
        if berth.leaving.is_some() {
            return None;
        }
        let at = berth.there?;
        if self.seats[at].is_due() {
            Some(at)
        } else {
            None
        }
    }

    /// Restore goes out where the tile has nobody leaving, and the one that comes has nothing held.
    fn then_restore(&mut self, said: Said, tile: TileId, first: Option<Emit>) -> Done
        requires { IsKept self.old }
        ensures kept { IsKept self.new }
        ensures site { self.new.site ≡ self.old.site }
        ensures does { Does result (kernel_in self.new)
            (then_restore self.old.site said tile (kernel_in self.old) (out_of first)) }
    {
        match self.due(tile) {
            None => says(said, first),
            Some(at) => {
                let act = self.seats[at].act();
                let parcel = self.seats[at].restore();
                self.sched.came(tile);
                restores(said, first, act, Emit { to: tile, parcel })
            }
        }
    }

    /// Makes room for a packet at this seat, where it would be held.
    fn reserve(&mut self, at: usize) -> Result<(), AllocError>
        requires kept { IsKept self.old }
        requires there { at < length self.old.seats.items }
        ensures kept { IsKept self.new }
        ensures site { self.new.site ≡ self.old.site }
        ensures same { kernel_in self.new ≡ kernel_in self.old }
        ensures room { OnOk result (CanRoute self.new at) }
    {
        let seat = &mut self.seats[at];
        match seat.place() {
            Place::Placed => Ok(()),
            _ => seat.reserve(),
        }
    }

    /// The packet goes to this seat's activity: to its tile where it is Placed, else to the back of its hold list.
    #[inline(always)]
    fn route(&mut self, at: usize, packet: Packet) -> Option<Emit>
        requires kept { IsKept self.old }
        requires room { CanRoute self.old at }
        requires there { at < length self.old.seats.items }
        ensures kept { IsKept self.new }
        ensures site { self.new.site ≡ self.old.site }
        ensures routes { Routes self.old.site (kernel_in self.old) at packet result (kernel_in self.new) }
    {
        let seat = &mut self.seats[at];
        match seat.place() {
            Place::Placed => {
                let to = self.site.tile_of(seat.act().number());
                let parcel = Parcel::Data(packet);
                Some(Emit { to, parcel })
            }
            _ => {
                let act = seat.act();
                seat.hold_packet(packet);
                self.held.insert(usize::from(act.number()));
                None
            }
        }
    }
}

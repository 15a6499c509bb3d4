//! All that flies.

ghost use Rattle.std.specs.Prelude.{◌≡◌, ◌+◌, ◌<◌, ◌∷◌, [], None, replicate, length, slice_index_or, slice_set, IfOk, OnOk, OnErr, option_copied};
ghost use Rattle.m3_ideal.specs.Lanes.{flights_in, lanes_of};
ghost use Rattle.m3_base.specs.Ideal.Flights.{flight, new_flight, change_flight, end_flight, name_of};

use crate::flight::Flight;
use crate::lane::Lane;
use m3_base::ids::FlightId;
use std::alloc::{AllocError, Global};
use std::marker::Model;

/// The issuer that stands for the kernel.
pub const KERNEL: u8 = 64;

/// The flights of 64 activities and the kernel. Contracts see them in the order of their names, the next number of each
/// issuer, and for how many more flights it has room.
#[derive(Debug, Drop)]
pub struct Flights {
    lanes: Vec<Lane>,
}

impl Model for Flights {
    ghost use Rattle.m3_ideal.specs.Lanes.{FlightTable, table_of, HasLanes};

    ghost Value = { FlightTable };

    ghost view = { λ s. table_of s.lanes.items };

    ghost invariant = { λ s. HasLanes s.lanes.items };
}

impl Flights {
    /// No flight.
    #[tactic(auto, using(crate::proofs::FlightTables::new_lanes, crate::proofs::FlightTables::new_list, crate::proofs::FlightTables::new_nexts))]
    pub fn new(alloc: Global) -> Result<Flights, AllocError>
        ensures list { IfOk result (λ f. f.list ≡ []) }
        ensures nexts { IfOk result (λ f. f.nexts ≡ replicate 65 1) }
    {
        let lanes = empty_lanes(alloc)?;
        Ok(Flights { lanes })
    }

    /// The lane of each issuer.
    pub fn lanes(&self) -> &[Lane]
        ensures { flights_in (lanes_of result.now) ≡ self.now.list }
    {
        self.lanes.as_slice()
    }

    /// The flight of this name.
    pub fn get(&self, id: FlightId) -> Option<&Flight>
        ensures { option_copied result ≡ flight id self.now.list }
    {
        let at = usize::from(id.issuer);
        if at >= self.lanes.len() {
            return None;
        }
        self.lanes[at].get(id.number)
    }

    /// Makes room for one more flight of this issuer. Err, and nothing has changed, where memory runs out.
    pub fn reserve(&mut self, issuer: u8) -> Result<(), AllocError>
        requires { issuer < 65 }
        ensures list { self.new.list ≡ self.old.list }
        ensures nexts { self.new.nexts ≡ self.old.nexts }
        ensures room { OnOk result (0 < slice_index_or self.new.rooms issuer 0) }
    {
        let at = usize::from(issuer);
        self.lanes[at].reserve()
    }

    /// A new flight, whose number is the next of its issuer.
    pub fn push(&mut self, flight: Flight)
        requires range { (name_of flight).issuer < 65 }
        requires room { 0 < slice_index_or self.old.rooms (name_of flight).issuer 0 }
        requires next { (name_of flight).number ≡ slice_index_or self.old.nexts (name_of flight).issuer 0 }
        ensures list { self.new.list ≡ new_flight flight self.old.list }
        ensures nexts { self.new.nexts ≡ slice_set self.old.nexts (name_of flight).issuer ((name_of flight).number + 1) }
    {
        let id = flight.id();
        let at = usize::from(id.issuer);
        self.lanes[at].push(flight);
    }

    /// This flight takes the place of the one of its name, which it gives; where there is none, nothing changes.
    pub fn swap(&mut self, by: Flight) -> Option<Flight>
        ensures old { result ≡ flight (name_of by) self.old.list }
        ensures list { self.new.list ≡ change_flight by self.old.list }
        ensures nexts { self.new.nexts ≡ self.old.nexts }
    {
        let id = by.id();
        let at = usize::from(id.issuer);
        if at >= self.lanes.len() {
            return None;
        }
        self.lanes[at].swap(id.number, by)
    }

    /// The flight of this name ends; it gives it.
    pub fn end(&mut self, id: FlightId) -> Option<Flight>
        ensures old { result ≡ flight id self.old.list }
        ensures list { self.new.list ≡ end_flight id self.old.list }
        ensures nexts { self.new.nexts ≡ self.old.nexts }
    {
        let at = usize::from(id.issuer);
        if at >= self.lanes.len() {
            return None;
        }
        self.lanes[at].end(id.number)
    }
}

// A lane for each issuer, with no flight.
fn empty_lanes(alloc: Global) -> Result<Vec<Lane>, AllocError>
    ensures { IfOk result (λ v. lanes_of v.items ≡ replicate 65 (None ∷ [])) }
{
    let mut lanes = Vec::with_capacity(alloc, 65)?;
    for _ in 0..65u8 {
        lanes.push(Lane::new(alloc)?)?;
    }
    Ok(lanes)
}

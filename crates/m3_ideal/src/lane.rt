//! The flights of one issuer, by their numbers.

ghost use Rattle.std.specs.Prelude.{◌≡◌, ◌<◌, ◌++◌, ◌∷◌, [], None, Some, length, slice_index_or, slice_set, vec_len, vec_capacity, IfOk, OnOk, option_copied};
ghost use Rattle.m3_ideal.specs.Lanes.{lane_of, swapped};

use crate::flight::Flight;
use std::alloc::{AllocError, Global};
use std::mem;

/// The flights of one issuer. At the index of its number stands a flight that has not ended; 0 is no number.
#[derive(Debug, Drop)]
pub struct Lane {
    flights: Vec<Option<Flight>>,
}

impl Lane {
    /// No flight.
    pub fn new(alloc: Global) -> Result<Lane, AllocError>
        ensures { IfOk result (λ l. lane_of l ≡ None ∷ []) }
    {
        let mut flights = Vec::new(alloc);
        flights.push(None)?;
        Ok(Lane { flights })
    }

    /// The places of its numbers.
    pub fn flights(&self) -> &[Option<Flight>]
        ensures { result.now ≡ lane_of self.now }
    {
        self.flights.as_slice()
    }

    /// The flight of this number.
    pub fn get(&self, number: u32) -> Option<&Flight>
        ensures { option_copied result ≡ slice_index_or (lane_of self.now) number None }
    {
        match self.flights.get(number as usize) {
            Some(Some(flight)) => Some(flight),
            _ => None,
        }
    }

    /// The flight takes the place of the one of this number, which it gives; where there is none, nothing changes.
    pub fn swap(&mut self, number: u32, flight: Flight) -> Option<Flight>
        ensures old { result ≡ slice_index_or (lane_of self.old) number None }
        ensures new { lane_of self.new ≡ swapped result number flight (lane_of self.old) }
        ensures len { vec_len self.new.flights ≡ vec_len self.old.flights }
    {
        let at = number as usize;
        if at < self.flights.len() && self.flights[at].is_some() {
            mem::replace(&mut self.flights[at], Some(flight))
        } else {
            None
        }
    }

    /// Takes the flight of this number out.
    pub fn end(&mut self, number: u32) -> Option<Flight>
        ensures old { result ≡ slice_index_or (lane_of self.old) number None }
        ensures new { lane_of self.new ≡ slice_set (lane_of self.old) number None }
    {
        let at = number as usize;
        if at < self.flights.len() {
            mem::replace(&mut self.flights[at], None)
        } else {
            None
        }
    }

    /// Makes room for one more.
    pub fn reserve(&mut self) -> Result<(), AllocError>
        ensures same { lane_of self.new ≡ lane_of self.old }
        ensures room { OnOk result (vec_len self.new.flights < vec_capacity self.new.flights) }
    {
        self.flights.reserve(1)
    }

    /// The flight of the next number.
    pub fn push(&mut self, flight: Flight)
        requires { vec_len self.old.flights < vec_capacity self.old.flights }
        ensures { lane_of self.new ≡ lane_of self.old ++ Some flight ∷ [] }
    {
        self.flights.push_reserved(Some(flight));
    }
}

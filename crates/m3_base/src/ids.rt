//! The numbers that name activities, tiles, endpoints, grants and flights.

ghost use Rattle.std.specs.Prelude.{◌≡◌, ℕ, ◌+◌, ◌*◌, ◌<◌, ◌≤◌};

use crate::limits::{ENDPOINTS, KERNEL, MOST_TILES};
use std::fmt;
use std::marker::Model;

/// An activity, 0 to 63. Contracts see its number.
#[derive(Clone, Copy, Debug, PartialEq, Eq, PartialOrd, Ord, Drop)]
pub struct ActId {
    number: u8,
}

impl Model for ActId {
    ghost use Rattle.std.specs.Prelude.{ℕ, ◌<◌};

    ghost Value = { ℕ };

    ghost view = { λ a. a.number };

    ghost invariant = { λ a. a.number < 64 };

    ghost inverse = { λ n. record { number = n } };
}

impl ActId {
    /// The activity of this number, which is at most 63.
    pub fn new(number: u8) -> ActId
        requires { number < 64 }
        ensures { result ≡ number }
    {
        ActId { number }
    }

    /// Its number.
    pub fn number(self) -> u8
        ensures same { result ≡ self }
        ensures range { result < 64 }
    {
        self.number
    }
}

impl fmt::Display for ActId {
    ghost use Rattle.std.specs.Prelude.{Some, decimal};

    ghost output = { λ n. Some (decimal n) };

    fn fmt<W: fmt::Write>(&self, f: &mut fmt::Formatter<W>) -> fmt::Result {
        write!(f, "{}", self.number)
    }
}

/// A tile, 0 to 15: 0 is the kernel's, 1 the memory's, and the others run activities. Contracts see its number.
#[derive(Clone, Copy, Debug, PartialEq, Eq, PartialOrd, Ord, Drop)]
pub struct TileId {
    number: u8,
}

impl Model for TileId {
    ghost use Rattle.std.specs.Prelude.{ℕ, ◌<◌};

    ghost Value = { ℕ };

    ghost view = { λ a. a.number };

    ghost invariant = { λ a. a.number < 16 };

    ghost inverse = { λ n. record { number = n } };
}

impl TileId {
    /// The tile of this number, which is at most 15.
    pub fn new(number: u8) -> TileId
        requires { number < 16 }
        ensures { result ≡ number }
    {
        TileId { number }
    }

    /// Its number.
    pub fn number(self) -> u8
        ensures same { result ≡ self }
        ensures range { result < 16 }
    {
        self.number
    }
}

impl fmt::Display for TileId {
    ghost use Rattle.std.specs.Prelude.{Some, decimal};

    ghost output = { λ n. Some (decimal n) };

    fn fmt<W: fmt::Write>(&self, f: &mut fmt::Formatter<W>) -> fmt::Result {
        write!(f, "{}", self.number)
    }
}

/// An endpoint of an activity, 0 to 15. Contracts see its number.
#[derive(Clone, Copy, Debug, PartialEq, Eq, PartialOrd, Ord, Drop)]
pub struct EpId {
    number: u8,
}

impl Model for EpId {
    ghost use Rattle.std.specs.Prelude.{ℕ, ◌<◌};

    ghost Value = { ℕ };

    ghost view = { λ a. a.number };

    ghost invariant = { λ a. a.number < 16 };

    ghost inverse = { λ n. record { number = n } };
}

impl EpId {
    /// The endpoint of this number, which is at most 15.
    pub fn new(number: u8) -> EpId
        requires { number < 16 }
        ensures { result ≡ number }
    {
        EpId { number }
    }

    /// Its number.
    pub fn number(self) -> u8
        ensures same { result ≡ self }
        ensures range { result < 16 }
    {
        self.number
    }
}

impl fmt::Display for EpId {
    ghost use Rattle.std.specs.Prelude.{Some, decimal};

    ghost output = { λ n. Some (decimal n) };

    fn fmt<W: fmt::Write>(&self, f: &mut fmt::Formatter<W>) -> fmt::Result {
        write!(f, "{}", self.number)
    }
}

/// A grant, 1 to 4,096, in the order in which grants are made. Contracts see its number.
#[derive(Clone, Copy, Debug, PartialEq, Eq, PartialOrd, Ord, Drop)]
pub struct GrantId {
    number: u16,
}

impl Model for GrantId {
    ghost use Rattle.std.specs.Prelude.{ℕ, ◌<◌, ◌≤◌};

    ghost Value = { ℕ };

    ghost view = { λ a. a.number };

    ghost invariant = { λ a. (0 < a.number) × (a.number ≤ 4096) };

    ghost inverse = { λ n. record { number = n } };
}

impl GrantId {
    /// The grant of this number, which is 1 to 4,096.
    pub fn new(number: u16) -> GrantId
        requires some { 0 < number }
        requires limit { number ≤ 4096 }
        ensures { result ≡ number }
    {
        GrantId { number }
    }

    /// Its number.
    pub fn number(self) -> u16
        ensures same { result ≡ self }
        ensures some { 0 < result }
        ensures limit { result ≤ 4096 }
    {
        self.number
    }
}

impl fmt::Display for GrantId {
    ghost use Rattle.std.specs.Prelude.{Some, decimal};

    ghost output = { λ n. Some (decimal n) };

    fn fmt<W: fmt::Write>(&self, f: &mut fmt::Formatter<W>) -> fmt::Result {
        write!(f, "{}", self.number)
    }
}

/// The name of a flight: its issuer, an activity's number or 64 for the kernel, and its number there, from 1.
#[derive(Clone, Copy, Debug, PartialEq, Eq, PartialOrd, Ord, Drop)]
pub struct FlightId {
    pub issuer: u8,
    pub number: u32,
}

impl fmt::Display for FlightId {
    ghost use Rattle.std.specs.Prelude.{Some};
    ghost use Rattle.m3_base.specs.Display.{flight_text};

    ghost output = { λ id. Some (flight_text id) };

    fn fmt<W: fmt::Write>(&self, f: &mut fmt::Formatter<W>) -> fmt::Result {
        if self.issuer == KERNEL {
            write!(f, "k.{}", self.number)
        } else {
            write!(f, "{}.{}", self.issuer, self.number)
        }
    }
}

/// Where an activity's endpoint stands in a table of all endpoints.
pub fn endpoint_index(act: ActId, ep: EpId) -> usize
    ensures at { result ≡ 16 * act + ep }
    ensures range { result < 1024 }
    ensures act { act < 64 }
    ensures ep { ep < 16 }
{
    ENDPOINTS * act.number() as usize + ep.number() as usize
}

/// Where the link from one tile to another stands in a table of all links.
pub fn link_index(from: TileId, to: TileId) -> usize
    ensures at { result ≡ 16 * from + to }
    ensures range { result < 256 }
    ensures from { from < 16 }
    ensures to { to < 16 }
{
    MOST_TILES as usize * from.number() as usize + to.number() as usize
}

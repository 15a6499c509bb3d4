//! Why bytes are refused.

ghost use Rattle.std.specs.Prelude.{◌≡◌};
ghost use Rattle.m3_wire.specs.declared.refusal.ReadError.TheVariants as ReadError;
ghost use Rattle.m3_wire.specs.Headers.{header_part};
ghost use Rattle.m3_wire.specs.Refusals.{bad_at};

use std::alloc::AllocError;
use thiserror::Error;

/// Why bytes aren't decoded. `at` counts from the first byte. `Short` comes exactly where the whole input is a proper
/// prefix of a spelling; `at` is then its length. Else `at` is the first byte at which no spelling goes on, and the
/// variant says where it lies.
#[derive(Clone, Copy, Debug, PartialEq, Eq, Drop, Error)]
pub enum WireRefusal {
    /// The input ends too early.
    #[error("short at {at}")]
    Short { at: usize },
    /// The byte is that of a packet's kind.
    #[error("bad kind at {at}")]
    BadKind { at: usize },
    /// The byte is that of a header's flags.
    #[error("bad flags at {at}")]
    BadFlags { at: usize },
    /// The byte is one of the two that a header reserves.
    #[error("bad reserved byte at {at}")]
    BadReserved { at: usize },
    /// The byte is any other.
    #[error("bad field at {at}")]
    BadField { at: usize },
    /// Memory ran out; nothing is said of the bytes.
    #[error("no memory")]
    NoMemory,
}

/// The parts of a format that refusals tell apart.
#[derive(Clone, Copy, Debug, PartialEq, Eq, Drop)]
pub enum Part {
    Kind,
    Flags,
    Reserved,
    Field,
}

/// Why a field isn't read: the input ends too early, or a byte is bad, which with those behind it makes so many.
#[derive(Clone, Copy, Debug, PartialEq, Eq, Drop)]
pub enum Fault {
    Short,
    Bad(usize),
}

/// Why a field that takes memory isn't read.
#[derive(Debug, Drop)]
pub enum ReadError {
    Bad(Fault),
    NoMemory,
}

impl From<Fault> for ReadError {
    ghost from_gives = { λ fault e. e ≡ ReadError.Bad fault };

    fn from(fault: Fault) -> ReadError {
        ReadError::Bad(fault)
    }
}

impl From<AllocError> for ReadError {
    ghost from_gives = { λ _ e. e ≡ ReadError.NoMemory };

    fn from(_error: AllocError) -> ReadError {
        ReadError::NoMemory
    }
}

/// The part of a header in which its byte `at` lies.
pub fn header_part(at: usize) -> Part
    ensures { result ≡ header_part at }
{
    match at {
        0 => Part::Flags,
        6 | 7 => Part::Reserved,
        _ => Part::Field,
    }
}

/// A bad byte of this part.
pub fn bad_at(part: Part, at: usize) -> WireRefusal
    ensures { result ≡ bad_at part at }
{
    match part {
        Part::Kind => WireRefusal::BadKind { at },
        Part::Flags => WireRefusal::BadFlags { at },
        Part::Reserved => WireRefusal::BadReserved { at },
        Part::Field => WireRefusal::BadField { at },
    }
}

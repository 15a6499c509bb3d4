//! Why a line is refused.

ghost use Rattle.std.specs.Prelude.{◌≡◌};
ghost use Rattle.m3_text.specs.declared.refusal.LineRefusal.TheVariants.{NoMemory};

use std::alloc::{AllocError, AllocFailed};
use thiserror::Error;

/// The causes for which a line is refused. Of several, the first in this order is told.
#[derive(Clone, Copy, Debug, PartialEq, Eq, Drop, Error)]
pub enum Why {
    /// The words fit no form of a line, or a byte is neither a space nor a visible ASCII character.
    #[error("form")]
    Form,
    /// A number isn't decimal, or is outside its range.
    #[error("number")]
    Number,
    /// Bytes aren't pairs of hexadecimal digits or `-`, or are too many.
    #[error("hex")]
    Hex,
    /// The line isn't allowed here.
    #[error("place")]
    Place,
    /// A rule on what the lines before it say refuses it.
    #[error("rule")]
    Rule,
}

/// The failure of a function that reads a line or a part of one.
#[derive(Debug, Drop, Error)]
pub enum LineRefusal {
    /// The line is refused for this cause.
    #[error("bad line: {0}")]
    Bad(Why),
    /// Memory ran out; nothing is said of the line.
    #[error("no memory")]
    NoMemory,
}

impl From<AllocError> for LineRefusal {
    ghost from_gives = { λ _ e. e ≡ NoMemory };

    fn from(_error: AllocError) -> LineRefusal {
        LineRefusal::NoMemory
    }
}

impl<T: Drop> From<AllocFailed<T>> for LineRefusal {
    ghost from_gives = { λ _ e. e ≡ NoMemory };

    fn from(_error: AllocFailed<T>) -> LineRefusal {
        LineRefusal::NoMemory
    }
}

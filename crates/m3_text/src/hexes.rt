//! Words as bytes.

ghost use Rattle.std.specs.Prelude.{◌≡◌};
ghost use Rattle.m3_text.specs.Refusable.{Gives};
ghost use Rattle.m3_text.specs.Hex.{hex, hex_of, has_capital};

use crate::refusal::{LineRefusal, Why};
use hex::FromHexError;
use std::alloc::Global;

/// The letters that hexadecimal digits may have.
#[derive(Clone, Copy, Debug, PartialEq, Eq, Drop)]
pub enum HexCase {
    /// Small or capital ones, as in scripts.
    Either,
    /// Small ones alone, as in journals.
    Lower,
}

/// At most `max` bytes as pairs of hexadecimal digits in this case, or `-` for no bytes.
#[tactic(auto, unfolding(crate::specs::Hex::hex_of))]
#[inline(always)]
pub fn hex_of(alloc: Global, case: HexCase, word: &[u8], max: usize) -> Result<Vec<u8>, LineRefusal>
    ensures { Gives (λ v. v.items) result (hex_of case max word.now) }
{
    match case {
        HexCase::Lower if has_capital(word) => Err(LineRefusal::Bad(Why::Hex)),
        _ => hex(alloc, word, max),
    }
}

fn has_capital(word: &[u8]) -> bool
    ensures { result ≡ has_capital word.now }
{
    word.iter().any(|b| b'A' <= *b && *b <= b'F')
}

/// At most `max` bytes as pairs of hexadecimal digits of either case, or `-` for no bytes.
#[tactic(auto, unfolding(crate::specs::Hex::hex))]
pub fn hex(alloc: Global, word: &[u8], max: usize) -> Result<Vec<u8>, LineRefusal>
    ensures { Gives (λ v. v.items) result (hex max word.now) }
{
    if word == b"-".as_slice() {
        return Ok(Vec::new(alloc));
    }
    match hex::decode(alloc, word) {
        Ok(bytes) if bytes.len() <= max => Ok(bytes),
        Err(FromHexError::OutOfMemory) => Err(LineRefusal::NoMemory),
        _ => Err(LineRefusal::Bad(Why::Hex)),
    }
}

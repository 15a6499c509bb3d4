//! Words as the values of the machine.

ghost use Rattle.std.specs.Prelude.{◌≡◌};
ghost use Rattle.m3_text.specs.Refusable.{Gives};
ghost use Rattle.m3_text.specs.Number.{number};
ghost use Rattle.m3_text.specs.Hex.{hex_of};

use crate::hexes::{HexCase, hex_of};
use crate::numbers::number;
use crate::refusal::LineRefusal;
use m3_base::ids::{ActId, EpId, GrantId, TileId};
use m3_base::limits::{ENDPOINTS, MOST_ACTIVITIES, MOST_GRANTS, MOST_TILES};
use m3_base::payload::Payload;
use std::alloc::Global;

/// An activity, 0 to 63.
#[inline(always)]
pub fn read_act(word: &[u8]) -> Result<ActId, LineRefusal>
    ensures { Gives (λ a. a) result (number 0 63 word.now) }
{
    Ok(ActId::new(number(word, 0, MOST_ACTIVITIES as u64 - 1)? as u8))
}

/// A tile, 0 to 15.
#[inline(always)]
pub fn read_tile(word: &[u8]) -> Result<TileId, LineRefusal>
    ensures { Gives (λ t. t) result (number 0 15 word.now) }
{
    Ok(TileId::new(number(word, 0, MOST_TILES as u64 - 1)? as u8))
}

/// An endpoint, 0 to 15.
#[inline(always)]
pub fn read_ep(word: &[u8]) -> Result<EpId, LineRefusal>
    ensures { Gives (λ e. e) result (number 0 15 word.now) }
{
    Ok(EpId::new(number(word, 0, ENDPOINTS as u64 - 1)? as u8))
}

/// A grant, 1 to 4,096.
#[inline(always)]
pub fn read_grant(word: &[u8]) -> Result<GrantId, LineRefusal>
    ensures { Gives (λ g. g) result (number 1 4096 word.now) }
{
    Ok(GrantId::new(number(word, 1, MOST_GRANTS as u64)? as u16))
}

/// Bytes, at most `max` of them.
#[inline(always)]
pub fn read_payload(
    alloc: Global,
    case: HexCase,
    word: &[u8],
    max: usize,
) -> Result<Payload, LineRefusal>
    ensures { Gives (λ p. p) result (hex_of case max word.now) }
{
    Ok(Payload::new(hex_of(alloc, case, word, max)?))
}

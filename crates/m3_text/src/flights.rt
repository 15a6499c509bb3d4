//! Words as flights' names.

ghost use Rattle.std.specs.Prelude.{◌≡◌, ◌==◌, ◌<◌, length, position, IfSome};
ghost use Rattle.m3_text.specs.Refusable.{Gives};
ghost use Rattle.m3_text.specs.Flights.{issuer_of, name_at, flight_of};

use crate::numbers::number;
use crate::refusal::{LineRefusal, Why};
use m3_base::ids::FlightId;

/// A flight's name, as `3.17` or `k.2`: its issuer, 0 to 63 or `k` for the kernel, a point, and its number, 1 to
/// 2^32 - 1. A word without a point is `Form`, and else a bad issuer or number is `Number`.
#[tactic(auto, unfolding(crate::specs::Flights::name_at))]
pub fn read_flight(word: &[u8]) -> Result<FlightId, LineRefusal>
    ensures { Gives (λ f. f) result (flight_of word.now) }
{
    match point(word) {
        None => Err(LineRefusal::Bad(Why::Form)),
        Some(at) => {
            let issuer = read_issuer(&word[..at])?;
            let number = number(&word[at + 1..], 1, u32::MAX as u64)? as u32;
            Ok(FlightId { issuer, number })
        }
    }
}

fn point(word: &[u8]) -> Option<usize>
    ensures value { result ≡ position (λ b. b == 46) word.now }
    ensures inside { IfSome result (λ at. at < length word.now) }
{
    word.iter().position(|b| *b == b'.')
}

#[tactic(auto, unfolding(crate::specs::Flights::issuer_of))]
fn read_issuer(word: &[u8]) -> Result<u8, LineRefusal>
    ensures { Gives (λ n. n) result (issuer_of word.now) }
{
    if word == b"k".as_slice() {
        return Ok(64);
    }
    Ok(number(word, 0, 63)? as u8)
}

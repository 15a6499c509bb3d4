//! Words as numbers.

ghost use Rattle.std.specs.Prelude.{◌≡◌, ◌<◌, ◌≤◌, ◌^◌, IsTrue, IfOk};
ghost use Rattle.std.specs.Option.{SomeIff};
ghost use Rattle.std.specs.Str.{all_ascii_digits};
ghost use Rattle.m3_text.specs.Refusable.{Gives};
ghost use Rattle.m3_text.specs.Number.{number, is_decimal, read_on};

use crate::refusal::{LineRefusal, Why};

/// A decimal number from `low` to `high`, with no needless zero in front.
#[tactic(auto, unfolding(crate::specs::Number::number))]
#[inline(always)]
pub fn number(word: &[u8], low: u64, high: u64) -> Result<u64, LineRefusal>
    ensures value { Gives (λ n. n) result (number low high word.now) }
    ensures range { IfOk result (λ n. (low ≤ n) × (n ≤ high)) }
{
    match value(word) {
        Some(n) if low <= n && n <= high => Ok(n),
        _ => Err(LineRefusal::Bad(Why::Number)),
    }
}

/// What a decimal number stands for, where it fits.
#[inline(always)]
fn value(word: &[u8]) -> Option<u64>
    ensures { SomeIff result (IsTrue (is_decimal word.now) × (read_on 0 word.now < 2 ^ 64)) (read_on 0 word.now) }
{
    match word {
        [] | [b'0', _, ..] => None,
        _ => digits_value(word),
    }
}

#[inline(always)]
fn digits_value(word: &[u8]) -> Option<u64>
    ensures { SomeIff result (IsTrue (all_ascii_digits word.now) × (read_on 0 word.now < 2 ^ 64)) (read_on 0 word.now) }
{
    let mut value: u64 = 0;
    for digit in word {
        if !digit.is_ascii_digit() {
            return None;
        }
        value = value.checked_mul(10)?.checked_add((*digit - b'0') as u64)?;
    }
    Some(value)
}

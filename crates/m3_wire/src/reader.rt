//! Bytes that are read from the front.

ghost use Rattle.std.specs.Prelude.{◌≡◌, ◌<◌, ◌≤◌, ◌^◌, ◌+◌, ◌*◌, drop, length, IfOk};
ghost use Rattle.m3_wire.specs.ByteReader.{Gives, Reads, is_digit_within, number, coded, byte, some_bytes};
ghost use Rattle.m3_wire.specs.Headers.{is_reply_ep};
ghost use Rattle.m3_wire.specs.Decoders.{small};

use crate::codes::TagCode;
use crate::refusal::{Fault, ReadError};
use byteorder::{ByteOrder, LittleEndian};
use m3_base::limits::NO_REPLY;
use m3_base::payload::Payload;
use std::alloc::Global;

/// The bytes that aren't read yet.
#[derive(Drop)]
pub struct Reader<'a> {
    pub rest: &'a [u8],
}

impl<'a> Reader<'a> {
    /// What the first byte stands for.
    #[tactic(auto, unfolding(crate::specs::ByteReader::coded))]
    #[inline(always)]
    pub fn tagged<X: TagCode>(&mut self) -> Result<X, Fault>
        ensures { Gives result self.new.rest.now (coded X.of_byte self.old.rest.now) }
    {
        match self.rest {
            [] => Err(Fault::Short),
            [byte, rest @ ..] => match X::from_code(*byte) {
                Some(x) => {
                    self.rest = rest;
                    Ok(x)
                }
                None => Err(Fault::Bad(self.rest.len())),
            },
        }
    }

    /// A number of one byte.
    #[tactic(auto, unfolding(crate::specs::ByteReader::coded))]
    #[inline(always)]
    pub fn byte_in_range(&mut self, low: u8, high: u8) -> Result<u8, Fault>
        ensures value { Gives result self.new.rest.now (small low high self.old.rest.now) }
        ensures range { IfOk result (λ n. (low ≤ n) × (n ≤ high)) }
    {
        match self.rest {
            [] => Err(Fault::Short),
            [n, rest @ ..] => {
                if low <= *n && *n <= high {
                    self.rest = rest;
                    Ok(*n)
                } else {
                    Err(Fault::Bad(self.rest.len()))
                }
            }
        }
    }

    /// 255 for none, or, where the flags aren't those of a reply, an endpoint.
    #[tactic(auto, unfolding(crate::specs::ByteReader::coded))]
    #[inline(always)]
    pub fn reply_ep(&mut self, flags: u8) -> Result<u8, Fault>
        ensures { Gives result self.new.rest.now (byte (is_reply_ep flags) self.old.rest.now) }
    {
        match self.rest {
            [] => Err(Fault::Short),
            [ep, rest @ ..] => {
                if *ep == NO_REPLY || (flags != 1 && *ep <= 15) {
                    self.rest = rest;
                    Ok(*ep)
                } else {
                    Err(Fault::Bad(self.rest.len()))
                }
            }
        }
    }

    /// A number of `width` bytes, the lowest first, from `low` to `high`. A number that isn't within its range is bad
    /// at the first byte with which no number of the range goes on.
    #[inline(always)]
    pub fn number(&mut self, width: usize, low: u64, high: u64) -> Result<u64, Fault>
        requires width { width ≤ 8 }
        requires some { 1 ≤ width }
        requires low { low ≤ 1 }
        requires order { low ≤ high }
        requires high { high < 256 ^ width }
        ensures value { Gives result self.new.rest.now (number width low high self.old.rest.now) }
        ensures range { IfOk result (λ n. (low ≤ n) × (n ≤ high)) }
    {
        let n = number(self.rest, width, low, high)?;
        self.rest = &self.rest[width..];
        Ok(n)
    }

    /// So many bytes as they stand.
    #[tactic(auto, unfolding(crate::specs::ByteReader::some_bytes))]
    #[inline(always)]
    pub fn payload(&mut self, alloc: Global, len: usize) -> Result<Payload, ReadError>
        ensures { Reads result self.new.rest.now (some_bytes len self.old.rest.now) }
    {
        if self.rest.len() < len {
            return Err(ReadError::Bad(Fault::Short));
        }
        let bytes = Vec::from_slice(alloc, &self.rest[..len])?;
        self.rest = &self.rest[len..];
        Ok(Payload::new(bytes))
    }
}

#[inline(always)]
fn number(bytes: &[u8], width: usize, low: u64, high: u64) -> Result<u64, Fault>
    requires width { width ≤ 8 }
    requires some { 1 ≤ width }
    requires low { low ≤ 1 }
    requires order { low ≤ high }
    requires high { high < 256 ^ width }
    ensures value { Gives result (drop width bytes.now) (number width low high bytes.now) }
    ensures range { IfOk result (λ n. (low ≤ n) × (n ≤ high) × (width ≤ length bytes.now)) }
{
    if width <= bytes.len() {
        let whole = LittleEndian::read_uint(bytes, width);
        if low <= whole && whole <= high {
            return Ok(whole);
        }
    }
    number_bytewise(bytes, width, low, high)
}

/// The same number, byte by byte.
#[cold]
fn number_bytewise(bytes: &[u8], width: usize, low: u64, high: u64) -> Result<u64, Fault>
    requires width { width ≤ 8 }
    requires some { 1 ≤ width }
    requires low { low ≤ 1 }
    requires order { low ≤ high }
    requires high { high < 256 ^ width }
    ensures value { Gives result (drop width bytes.now) (number width low high bytes.now) }
    ensures range { IfOk result (λ n. (low ≤ n) × (n ≤ high) × (width ≤ length bytes.now)) }
{
    let mut value: u128 = 0;
    let mut scale: u128 = 1;
    for i in 0..width {
        if i >= bytes.len() {
            return Err(Fault::Short);
        }
        value = with_byte(value, scale, bytes[i]);
        scale = 256 * scale;
        if !next_byte_ok(low, high, value, scale) {
            return Err(Fault::Bad(bytes.len() - i));
        }
    }
    Ok(value as u64)
}

fn with_byte(value: u128, scale: u128, byte: u8) -> u128
    requires below { value < scale }
    requires small { scale ≤ 256 ^ 7 }
    ensures value { result ≡ value + scale * byte }
    ensures below { result < 256 * scale }
{
    value + scale * byte as u128
}

/// Whether a number of the range begins with bytes that make this value, where the next byte counts `scale`.
fn next_byte_ok(low: u64, high: u64, value: u128, scale: u128) -> bool
    requires { value + scale < 2 ^ 80 }
    ensures { result ≡ is_digit_within low high value scale }
{
    value <= high as u128 && (low as u128 <= value || value + scale <= high as u128)
}

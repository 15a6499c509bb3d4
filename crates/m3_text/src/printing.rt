//! Values as words.

ghost use Rattle.std.specs.Prelude.{◌≡◌, ◌+◌, ◌<◌, ◌≤◌, ◌++◌, ◌∷◌, [], OnOk, decimal, string_bytes, slice_index};
ghost use Rattle.hex.specs.Hex.{encode_lower, lower_digits};
ghost use Rattle.m3_text.specs.Hex.{hex_text};
ghost use Rattle.m3_text.specs.Printing.{flight_word};
ghost use Rattle.m3_base.specs.Display.{issuer_text};

use m3_base::ids::FlightId;
use std::alloc::AllocError;
use std::str::from_utf8_unchecked;

// A digit of a number in decimal.
#[inline(always)]
fn put_figure(out: &mut String, figure: u64) -> Result<(), AllocError>
    requires { figure < 10 }
    ensures { OnOk result (string_bytes out.new ≡ string_bytes out.old ++ (48 + figure) ∷ []) }
{
    out.push((b'0' + figure as u8) as char)
}

// A number of two digits or more.
fn put_long_number(out: &mut String, n: u64) -> Result<(), AllocError>
    requires { 10 ≤ n }
    ensures { OnOk result (string_bytes out.new ≡ string_bytes out.old ++ decimal n) }
{
    if n < 100 {
        put_figure(out, n / 10)?;
        return put_figure(out, n % 10);
    }
    put_long_number(out, n / 10)?;
    put_figure(out, n % 10)
}

/// A number in decimal.
#[inline(always)]
pub fn put_number(out: &mut String, n: u64) -> Result<(), AllocError>
    ensures { OnOk result (string_bytes out.new ≡ string_bytes out.old ++ decimal n) }
{
    if n < 10 {
        put_figure(out, n)
    } else {
        put_long_number(out, n)
    }
}

/// A text, and a number right behind it.
#[inline(always)]
pub fn put_field(out: &mut String, text: &str, n: u64) -> Result<(), AllocError>
    ensures { OnOk result (string_bytes out.new ≡ string_bytes out.old ++ (text.now ++ decimal n)) }
{
    out.push_str(text)?;
    put_number(out, n)
}

/// A word behind a space.
#[inline(always)]
pub fn put_word(out: &mut String, word: &str) -> Result<(), AllocError>
    ensures { OnOk result (string_bytes out.new ≡ string_bytes out.old ++ 32 ∷ word.now) }
{
    out.push(' ')?;
    out.push_str(word)
}

// A digit of bytes in hexadecimal.
#[inline(always)]
pub(crate) fn hex_digit(digit: u8) -> u8
    requires { digit < 16 }
    ensures { result ≡ slice_index lower_digits digit }
{
    if digit < 10 {
        b'0' + digit
    } else {
        b'a' - 10 + digit
    }
}

// The digits of a block. Its turns are a fixed number and each one's work is the same, so that it is compiled to
// instructions on 16 bytes at a time.
#[inline(always)]
pub(crate) fn block_digits(block: &[u8; 16]) -> [u8; 32]
    ensures { result ≡ encode_lower block.now }
{
    let mut digits = [0; 32];
    'bytes: for i in 0..16 {
        digits[2 * i] = hex_digit(block[i] / 16);
        digits[2 * i + 1] = hex_digit(block[i] % 16);
    }
    digits
}

fn put_block(out: &mut String, block: &[u8; 16]) -> Result<(), AllocError>
    ensures { OnOk result (string_bytes out.new ≡ string_bytes out.old ++ encode_lower block.now) }
{
    let digits = block_digits(block);
    // digits are ASCII, which the check proves
    out.push_str(unsafe { from_utf8_unchecked(&digits) })
}

#[inline(always)]
fn put_hex_digit(out: &mut String, digit: u8) -> Result<(), AllocError>
    requires { digit < 16 }
    ensures { OnOk result (string_bytes out.new ≡ string_bytes out.old ++ slice_index lower_digits digit ∷ []) }
{
    out.push(hex_digit(digit) as char)
}

fn put_byte(out: &mut String, byte: u8) -> Result<(), AllocError>
    ensures { OnOk result (string_bytes out.new ≡ string_bytes out.old ++ encode_lower (byte ∷ [])) }
{
    put_hex_digit(out, byte / 16)?;
    put_hex_digit(out, byte % 16)
}

fn put_bytes(out: &mut String, bytes: &[u8]) -> Result<(), AllocError>
    ensures { OnOk result (string_bytes out.new ≡ string_bytes out.old ++ encode_lower bytes.now) }
{
    for byte in bytes {
        put_byte(out, *byte)?;
    }
    Ok(())
}

fn put_digits(out: &mut String, bytes: &[u8]) -> Result<(), AllocError>
    ensures { OnOk result (string_bytes out.new ≡ string_bytes out.old ++ encode_lower bytes.now) }
{
    let mut rest = bytes;
    'chunks: while let Some((block, after)) = rest.split_first_chunk::<16>() {
        put_block(out, block)?;
        rest = after;
    }
    put_bytes(out, rest)
}

/// Bytes as pairs of hexadecimal digits in lower case, or `-` for no bytes.
pub fn put_hex(out: &mut String, bytes: &[u8]) -> Result<(), AllocError>
    ensures { OnOk result (string_bytes out.new ≡ string_bytes out.old ++ hex_text bytes.now) }
{
    match bytes {
        [] => out.push_str("-"),
        [_, ..] => put_digits(out, bytes),
    }
}

fn put_issuer(out: &mut String, issuer: u8) -> Result<(), AllocError>
    ensures { OnOk result (string_bytes out.new ≡ string_bytes out.old ++ issuer_text issuer) }
{
    if issuer == 64 {
        out.push_str("k")
    } else {
        put_number(out, issuer as u64)
    }
}

/// A flight's name: its issuer, `k` for the kernel, a point and its number.
pub fn put_flight(out: &mut String, id: FlightId) -> Result<(), AllocError>
    ensures { OnOk result (string_bytes out.new ≡ string_bytes out.old ++ flight_word id) }
{
    put_issuer(out, id.issuer)?;
    put_field(out, ".", id.number as u64)
}

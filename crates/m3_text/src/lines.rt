//! Lines, and the words of a line.

ghost use Rattle.std.specs.Prelude.{◌≡◌, ◌+◌, ◌-◌, ◌<◌, ◌≤◌, ◌∷◌, ◌++◌, ◌==◌, length, take, OnOk, map, if◌then◌else◌};
ghost use Rattle.std.specs.Str.Lines.{lines, strip_carriage_return};
ghost use Rattle.std.specs.List.{list_all};
ghost use Rattle.m3_text.specs.Lines.{words, is_plain, texts};

use memchr::memchr;
use std::alloc::AllocError;

/// The first line of a text that is not empty, and what follows it. A line ends with a newline, and a carriage return
/// before that is dropped; the last line may lack its newline.
#[inline(always)]
pub fn cut_line(text: &[u8]) -> (&[u8], &[u8])
    requires { 0 < length text.now }
    ensures line { lines text.now ≡ result.0.now ∷ lines result.1.now }
    ensures shorter { length result.1.now < length text.now }
{
    match memchr(b'\n', text) {
        Some(at) => (without_return(&text[..at]), &text[at + 1..]),
        None => (text, &[]),
    }
}

#[inline(always)]
fn without_return(line: &[u8]) -> &[u8]
    ensures { result.now ≡ strip_carriage_return line.now }
{
    match line {
        [front @ .., b'\r'] => front,
        _ => line,
    }
}

/// Whether each byte is a space or a visible ASCII character.
#[inline(always)]
pub fn is_plain(line: &[u8]) -> bool
    ensures { result ≡ list_all is_plain line.now }
{
    line.iter().all(|b| 32 <= *b && *b <= 126)
}

/// The bytes up to the first space, and those after it.
#[inline(always)]
fn cut_word(line: &[u8]) -> (&[u8], &[u8])
    ensures word { words line.now ≡ (if length result.0.now == 0 then words result.1.now else
        (result.0.now ∷ words result.1.now)) }
    ensures shorter { 0 < length line.now → length result.1.now < length line.now }
{
    match memchr(b' ', line) {
        Some(at) => (&line[..at], &line[at + 1..]),
        None => (line, &[]),
    }
}

/// Puts the words of a line, at most the first `most`, in place of those that were there.
#[inline(always)]
pub fn cut_words<'a>(
    line: &'a [u8],
    most: usize,
    found: &mut Vec<&'a [u8]>,
) -> Result<(), AllocError>
    ensures { OnOk result (texts found.new.items ≡ take most (words line.now)) }
{
    found.clear();
    let mut rest = line;
    while !rest.is_empty() && found.len() < most {
        let (word, after) = cut_word(rest);
        if !word.is_empty() {
            found.push(word)?;
        }
        rest = after;
    }
    Ok(())
}

//! Words as the values of lines, beside those that every crate reads.

ghost use Rattle.std.specs.Prelude.{◌≡◌};
ghost use Rattle.std.specs.List.{list_all};
ghost use Rattle.m3_base.specs.FileName.{is_visible};
ghost use Rattle.m3_text.specs.Lines.{is_word};
ghost use Rattle.m3_text.specs.Refusable.{Gives};
ghost use Rattle.m3_text.specs.Number.{number};
ghost use Rattle.m3_script.specs.Grants.{perm_of};
ghost use Rattle.m3_script.specs.Events.{name_of};

use m3_base::packet::Perm;
use m3_base::payload::Name;
use m3_text::numbers::number;
use m3_text::refusal::{LineRefusal, Why};
use std::alloc::Global;

/// A token, an offset or a place, 0 to 2^32 - 1.
#[inline(always)]
pub fn read_u32(word: &[u8]) -> Result<u32, LineRefusal>
    ensures { Gives (λ n. n) result (number 0 4294967295 word.now) }
{
    Ok(number(word, 0, 4294967295)? as u32)
}

/// How often a program may be asked for a move, 1 to 16,384.
pub fn read_fuel(word: &[u8]) -> Result<u16, LineRefusal>
    ensures { Gives (λ n. n) result (number 1 16384 word.now) }
{
    Ok(number(word, 1, 16384)? as u16)
}

/// A permission: `r`, `w` or `rw`.
#[tactic(auto, unfolding(crate::specs::Grants::perm_of))]
pub fn read_perm(word: &[u8]) -> Result<Perm, LineRefusal>
    ensures { Gives (λ p. p) result (perm_of word.now) }
{
    if word == b"r".as_slice() {
        Ok(Perm::R)
    } else if word == b"w".as_slice() {
        Ok(Perm::W)
    } else if word == b"rw".as_slice() {
        Ok(Perm::Rw)
    } else {
        Err(LineRefusal::Bad(Why::Form))
    }
}

/// A file's name: visible characters. Other bytes fit no form.
#[tactic(auto, unfolding(crate::specs::Events::name_of))]
pub fn read_name(alloc: Global, word: &[u8]) -> Result<Name, LineRefusal>
    ensures { Gives (λ n. n) result (name_of word.now) }
{
    if is_word(word) {
        Ok(Name::new(Vec::from_slice(alloc, word)?))
    } else {
        Err(LineRefusal::Bad(Why::Form))
    }
}

fn is_word(word: &[u8]) -> bool
    ensures { result ≡ is_word word.now }
{
    !word.is_empty() && is_visible(word)
}

fn is_visible(word: &[u8]) -> bool
    ensures { result ≡ list_all is_visible word.now }
{
    word.iter().all(|b| 33 <= *b && *b <= 126)
}

//! A name and a number at the end of a line.

ghost use Rattle.std.specs.Prelude.{◌≡◌, ◌+◌, ◌≤◌, length};
ghost use Rattle.m3_text.specs.Lines.{texts};
ghost use Rattle.m3_journal.specs.Reading.Outcomes.{has_tail, last_word, front};

use m3_text::shapes::word;

/// Whether the last word but one is this.
pub fn has_tail(words: &[&[u8]], name: &[u8]) -> bool
    requires { 2 ≤ length words.now }
    ensures { result ≡ has_tail name.now (texts words.now) }
{
    word(words, words.len() - 2) == name
}

/// The last word.
pub fn last_word<'a>(words: &[&'a [u8]]) -> &'a [u8]
    requires { 1 ≤ length words.now }
    ensures { result.now ≡ last_word (texts words.now) }
{
    word(words, words.len() - 1)
}

/// The words before the last two.
#[tactic(auto, using(crate::proofs::Tails::texts_front))]
pub fn front<'a, 'b>(words: &'a [&'b [u8]]) -> &'a [&'b [u8]]
    requires { 2 ≤ length words.now }
    ensures words { texts result.now ≡ front (texts words.now) }
    ensures count { length result.now + 2 ≡ length words.now }
{
    &words[..words.len() - 2]
}

//! The shapes of lines: which words stand where.

ghost use Rattle.std.specs.Prelude.{◌≡◌, ◌<◌, ◌≤◌, length, drop, IsTrue, IfOk};
ghost use Rattle.m3_text.specs.Lines.{texts};
ghost use Rattle.m3_text.specs.Refusable.{Gives};
ghost use Rattle.m3_text.specs.LineForm.{word, stands_for, matches, starts_with, count_test, form_test};

use crate::refusal::{LineRefusal, Why};

/// The word at this place.
#[inline(always)]
pub fn word<'a>(words: &[&'a [u8]], index: usize) -> &'a [u8]
    requires { index < length words.now }
    ensures { result.now ≡ word index (texts words.now) }
{
    words[index]
}

/// The words but for the first `count`.
#[inline(always)]
pub fn after<'a, 'b>(words: &'a [&'b [u8]], count: usize) -> &'a [&'b [u8]]
    requires { count ≤ length words.now }
    ensures { texts result.now ≡ drop count (texts words.now) }
{
    &words[count..]
}

/// The first word, which is empty where there is none, and the words after it.
#[inline(always)]
pub fn cut_first<'a, 'b>(words: &'a [&'b [u8]]) -> (&'b [u8], &'a [&'b [u8]])
    ensures first { result.0.now ≡ word 0 (texts words.now) }
    ensures rest { texts result.1.now ≡ drop 1 (texts words.now) }
{
    match words {
        [] => (&[], &[]),
        [first, rest @ ..] => (*first, rest),
    }
}

/// `Form` exactly where there aren't as many words.
#[tactic(auto, unfolding(crate::specs::LineForm::count_test))]
#[inline(always)]
pub fn count_test(words: &[&[u8]], count: usize) -> Result<(), LineRefusal>
    ensures test { Gives (λ u. u) result (count_test count (texts words.now)) }
    ensures count { IfOk result (λ u. length words.now ≡ count) }
{
    if words.len() == count {
        Ok(())
    } else {
        Err(LineRefusal::Bad(Why::Form))
    }
}

/// `Form` exactly where the words aren't those of a form, in which an empty word stands for any one.
#[tactic(auto, unfolding(crate::specs::LineForm::form_test))]
#[inline(always)]
pub fn form_test(form: &[&[u8]], words: &[&[u8]]) -> Result<(), LineRefusal>
    ensures test { Gives (λ u. u) result (form_test (texts form.now) (texts words.now)) }
    ensures count { IfOk result (λ u. length words.now ≡ length form.now) }
{
    if fits(form, words) {
        Ok(())
    } else {
        Err(LineRefusal::Bad(Why::Form))
    }
}

#[inline(always)]
fn stands_for(form: &[u8], word: &[u8]) -> bool
    ensures { result ≡ stands_for form.now word.now }
{
    form.is_empty() || form == word
}

/// Whether the words are those of a form, in which an empty word stands for any one.
#[tactic(auto, using(crate::proofs::LineForm::fits_begins, crate::proofs::LineForm::fits_other))]
#[inline(always)]
pub fn fits(form: &[&[u8]], words: &[&[u8]]) -> bool
    ensures fits { result ≡ matches (texts form.now) (texts words.now) }
    ensures len { IsTrue result → length words.now ≡ length form.now }
{
    form.len() == words.len() && begins(form, words)
}

/// Whether the first words are those of a form.
#[inline(always)]
pub fn begins(form: &[&[u8]], words: &[&[u8]]) -> bool
    ensures begins { result ≡ starts_with (texts form.now) (texts words.now) }
    ensures len { IsTrue result → length form.now ≤ length words.now }
{
    if words.len() < form.len() {
        return false;
    }
    for i in 0..form.len() {
        if !stands_for(word(form, i), word(words, i)) {
            return false;
        }
    }
    true
}

//! Outcomes, by how many words they have.

ghost use Rattle.std.specs.Prelude.{◌≡◌, ◌≤◌, ◌&&◌, IsTrue, codes, length};
ghost use Rattle.m3_text.specs.Lines.{texts};
ghost use Rattle.m3_text.specs.Refusable.{Gives};
ghost use Rattle.m3_journal.specs.Reading.Outcomes.{plain_of, file_word_of, flight_said_of, act_said_of, cause_said_of, said_of, is_restoring, is_of_grant, restored_of, outcome_of, more_of, front, has_tail};

use crate::reading::answers::read_answered;
use crate::reading::causes::{read_idle, read_no};
use crate::reading::long_outcomes::{read_long, read_triple};
use crate::reading::tails::{front, has_tail, last_word};
use m3_base::event::Said;
use m3_base::ids::ActId;
use m3_text::fields::{read_act, read_grant};
use m3_text::flights::read_flight;
use m3_text::refusal::{LineRefusal, Why};
use m3_text::shapes::{cut_first, word};
use m3_text::sides::both;
use std::alloc::Global;

/// What an event came to, and the activity that it restored, where `restore` names one at the end.
#[tactic(auto, unfolding(crate::specs::Reading::Outcomes::outcome_of))]
pub fn read_outcome(alloc: Global, words: &[&[u8]]) -> Result<(Said, Option<ActId>), LineRefusal>
    ensures { Gives (λ x. (x.0, x.1)) result (outcome_of (texts words.now)) }
{
    if is_restored(words) {
        let (said, act) = read_restored(alloc, words)?;
        Ok((said, Some(act)))
    } else {
        let said = read_said(alloc, words)?;
        Ok((said, None))
    }
}

#[tactic(auto, using(crate::proofs::Tails::short_front))]
fn is_restored(words: &[&[u8]]) -> bool
    ensures test { result ≡ (is_restoring (front (texts words.now)) && has_tail (codes "restore") (texts words.now)) }
    ensures count { IsTrue result → 2 ≤ length words.now }
{
    2 <= words.len() && is_restoring(front(words)) && has_tail(words, b"restore")
}

// Whether the words are of a landing or of a saved activity.
#[tactic(auto, unfolding(crate::specs::Reading::Outcomes::is_restoring))]
fn is_restoring(words: &[&[u8]]) -> bool
    ensures { result ≡ is_restoring (texts words.now) }
{
    let (name, _) = cut_first(words);
    if words.len() == 2 {
        name == b"landed".as_slice() || name == b"saved".as_slice()
    } else if name == b"answered".as_slice() {
        3 <= words.len()
    } else if name == b"refused".as_slice() {
        words.len() == 4
    } else if words.len() == 3 {
        is_of_grant(name)
    } else {
        false
    }
}

fn is_of_grant(name: &[u8]) -> bool
    ensures { result ≡ is_of_grant name.now }
{
    name == b"credited".as_slice()
        || name == b"discarded".as_slice()
        || name == b"installed".as_slice()
        || name == b"closing".as_slice()
        || name == b"closed".as_slice()
}

#[tactic(auto, using(m3_text::proofs::JoinedCauses::gives_both), unfolding(crate::specs::Reading::Outcomes::restored_of))]
fn read_restored(alloc: Global, words: &[&[u8]]) -> Result<(Said, ActId), LineRefusal>
    requires { 2 ≤ length words.now }
    ensures { Gives (λ x. (x.0, x.1)) result (restored_of (texts words.now)) }
{
    both(read_said(alloc, front(words)), read_act(last_word(words)))
}

#[tactic(auto, unfolding(crate::specs::Reading::Outcomes::said_of))]
fn read_said(alloc: Global, words: &[&[u8]]) -> Result<Said, LineRefusal>
    ensures { Gives (λ s. s) result (said_of (texts words.now)) }
{
    if words.len() == 1 {
        read_plain(word(words, 0))
    } else if words.len() == 2 {
        read_flight_said(word(words, 0), word(words, 1))
    } else {
        read_more(alloc, words)
    }
}

#[tactic(auto, unfolding(crate::specs::Reading::Outcomes::more_of))]
fn read_more(alloc: Global, words: &[&[u8]]) -> Result<Said, LineRefusal>
    ensures { Gives (λ s. s) result (more_of (texts words.now)) }
{
    if words.len() < 3 {
        Err(LineRefusal::Bad(Why::Form))
    } else if word(words, 0) == b"answered".as_slice() {
        read_answered(alloc, words)
    } else if words.len() == 3 {
        read_triple(word(words, 0), word(words, 1), word(words, 2))
    } else {
        read_long(alloc, words)
    }
}

// An outcome of one word.
#[tactic(auto, unfolding(crate::specs::Reading::Outcomes::plain_of))]
fn read_plain(word: &[u8]) -> Result<Said, LineRefusal>
    ensures { Gives (λ s. s) result (plain_of word.now) }
{
    if word == b"none".as_slice() {
        Ok(Said::Nothing)
    } else if word == b"acknowledged".as_slice() {
        Ok(Said::Acknowledged(None))
    } else if word == b"awake".as_slice() {
        Ok(Said::Awake)
    } else if word == b"yield".as_slice() {
        Ok(Said::Yield)
    } else if word == b"asleep".as_slice() {
        Ok(Said::Asleep)
    } else if word == b"ended".as_slice() {
        Ok(Said::Ended)
    } else {
        read_file_word(word)
    }
}

#[tactic(auto, unfolding(crate::specs::Reading::Outcomes::file_word_of))]
fn read_file_word(word: &[u8]) -> Result<Said, LineRefusal>
    ensures { Gives (λ s. s) result (file_word_of word.now) }
{
    if word == b"created".as_slice() {
        Ok(Said::Created)
    } else if word == b"extended".as_slice() {
        Ok(Said::Extended)
    } else if word == b"removed".as_slice() {
        Ok(Said::Removed)
    } else if word == b"revoke".as_slice() {
        Ok(Said::Revoke)
    } else {
        Err(LineRefusal::Bad(Why::Form))
    }
}

// An outcome of two words: a name, and what it is said of.
#[tactic(auto, unfolding(crate::specs::Reading::Outcomes::flight_said_of))]
fn read_flight_said(name: &[u8], word: &[u8]) -> Result<Said, LineRefusal>
    ensures { Gives (λ s. s) result (flight_said_of name.now word.now) }
{
    if name == b"flying".as_slice() {
        Ok(Said::Flying(read_flight(word)?))
    } else if name == b"landed".as_slice() {
        Ok(Said::Landed(read_flight(word)?))
    } else if name == b"routed".as_slice() {
        Ok(Said::Routed(read_flight(word)?))
    } else if name == b"bounced".as_slice() {
        Ok(Said::Bounced(read_flight(word)?))
    } else {
        read_act_said(name, word)
    }
}

#[tactic(auto, unfolding(crate::specs::Reading::Outcomes::act_said_of))]
fn read_act_said(name: &[u8], word: &[u8]) -> Result<Said, LineRefusal>
    ensures { Gives (λ s. s) result (act_said_of name.now word.now) }
{
    if name == b"save".as_slice() {
        Ok(Said::Save(read_act(word)?))
    } else if name == b"saving".as_slice() {
        Ok(Said::Saving(read_act(word)?))
    } else if name == b"saved".as_slice() {
        Ok(Said::Saved(read_act(word)?))
    } else if name == b"current".as_slice() {
        Ok(Said::Current(read_act(word)?))
    } else if name == b"yielded".as_slice() {
        Ok(Said::Yielded(read_act(word)?))
    } else {
        read_cause_said(name, word)
    }
}

#[tactic(auto, unfolding(crate::specs::Reading::Outcomes::cause_said_of))]
fn read_cause_said(name: &[u8], word: &[u8]) -> Result<Said, LineRefusal>
    ensures { Gives (λ s. s) result (cause_said_of name.now word.now) }
{
    if name == b"idle".as_slice() {
        Ok(Said::Idle(read_idle(word)?))
    } else if name == b"refused".as_slice() {
        Ok(Said::No(read_no(word)?))
    } else if name == b"done".as_slice() {
        Ok(Said::Done {
            grant: read_grant(word)?,
            revoked: None,
        })
    } else if name == b"revoking".as_slice() {
        Ok(Said::Revoking(read_grant(word)?))
    } else {
        Err(LineRefusal::Bad(Why::Form))
    }
}

//! Answers, and the outcome that has one.

ghost use Rattle.std.specs.Prelude.{◌≡◌, ◌≤◌, length};
ghost use Rattle.m3_text.specs.Lines.{texts};
ghost use Rattle.m3_text.specs.Refusable.{Gives};
ghost use Rattle.m3_journal.specs.Reading.Outcomes.{bytes_answer_of, refused_answer_of, answer_of, named_answer_of, closing_answer_of, answered_of};

use crate::reading::causes::read_refusal;
use crate::reading::tails::{front, has_tail, last_word};
use m3_base::command::Answer;
use m3_base::event::Said;
use m3_base::ids::{FlightId, GrantId};
use m3_text::fields::{read_grant, read_payload};
use m3_text::flights::read_flight;
use m3_text::hexes::HexCase;
use m3_text::refusal::{LineRefusal, Why};
use m3_text::shapes::{after, fits, word};
use m3_text::sides::both;
use std::alloc::Global;

/// `answered ID ANSWER`, with ` closed G` behind it or without.
#[tactic(auto, unfolding(crate::specs::Reading::Outcomes::answered_of))]
pub fn read_answered(alloc: Global, words: &[&[u8]]) -> Result<Said, LineRefusal>
    requires { 3 ≤ length words.now }
    ensures { Gives (λ s. s) result (answered_of (texts words.now)) }
{
    if 5 <= words.len() && has_tail(words, b"closed") {
        let ((id, answer), closed) = read_closing_answer(alloc, words)?;
        Ok(Said::Answered {
            id,
            answer,
            closed: Some(closed),
        })
    } else {
        let (id, answer) = read_named_answer(alloc, words)?;
        Ok(Said::Answered {
            id,
            answer,
            closed: None,
        })
    }
}

#[tactic(auto, using(m3_text::proofs::JoinedCauses::gives_both), unfolding(crate::specs::Reading::Outcomes::closing_answer_of))]
fn read_closing_answer(
    alloc: Global,
    words: &[&[u8]],
) -> Result<((FlightId, Answer), GrantId), LineRefusal>
    requires { 5 ≤ length words.now }
    ensures { Gives (λ x. ((x.0.0, x.0.1), x.1)) result (closing_answer_of (texts words.now)) }
{
    both(
        read_named_answer(alloc, front(words)),
        read_grant(last_word(words)),
    )
}

#[tactic(auto, using(m3_text::proofs::JoinedCauses::gives_both), unfolding(crate::specs::Reading::Outcomes::named_answer_of))]
fn read_named_answer(alloc: Global, words: &[&[u8]]) -> Result<(FlightId, Answer), LineRefusal>
    requires { 3 ≤ length words.now }
    ensures { Gives (λ x. (x.0, x.1)) result (named_answer_of (texts words.now)) }
{
    both(
        read_flight(word(words, 1)),
        read_answer(alloc, after(words, 2)),
    )
}

#[tactic(auto, unfolding(crate::specs::Reading::Outcomes::answer_of))]
fn read_answer(alloc: Global, words: &[&[u8]]) -> Result<Answer, LineRefusal>
    ensures { Gives (λ a. a) result (answer_of (texts words.now)) }
{
    if fits(&[b"sent"], words) {
        Ok(Answer::Sent)
    } else if fits(&[b"replied"], words) {
        Ok(Answer::Replied)
    } else if fits(&[b"written"], words) {
        Ok(Answer::Written)
    } else if fits(&[b"bytes", b""], words) {
        read_bytes_answer(alloc, word(words, 1))
    } else if fits(&[b"refused", b"", b""], words) {
        read_refused_answer(word(words, 1), word(words, 2))
    } else {
        Err(LineRefusal::Bad(Why::Form))
    }
}

#[tactic(auto, unfolding(crate::specs::Reading::Outcomes::bytes_answer_of))]
fn read_bytes_answer(alloc: Global, word: &[u8]) -> Result<Answer, LineRefusal>
    ensures { Gives (λ a. a) result (bytes_answer_of word.now) }
{
    let bytes = read_payload(alloc, HexCase::Lower, word, 8192)?;
    Ok(Answer::Bytes(bytes))
}

#[tactic(auto, unfolding(crate::specs::Reading::Outcomes::refused_answer_of))]
fn read_refused_answer(code: &[u8], name: &[u8]) -> Result<Answer, LineRefusal>
    ensures { Gives (λ a. a) result (refused_answer_of code.now name.now) }
{
    let why = read_refusal(code, name)?;
    Ok(Answer::Refused(why))
}

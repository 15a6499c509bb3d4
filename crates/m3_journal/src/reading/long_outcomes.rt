//! Outcomes of three words and more.

ghost use Rattle.std.specs.Prelude.{◌≡◌, length};
ghost use Rattle.m3_text.specs.Lines.{texts};
ghost use Rattle.m3_text.specs.Refusable.{Gives};
ghost use Rattle.m3_journal.specs.Reading.Outcomes.{flight_and_grant, held_of, credit_of, refused_of, grant_said_of, triple_of, way_of, order_sent_of, done_of, land_refused_of, message_of, reply_message_of, extent_of, long_of};

use crate::reading::causes::read_refusal;
use m3_base::event::Said;
use m3_base::ids::{FlightId, GrantId};
use m3_text::fields::{read_act, read_grant, read_payload};
use m3_text::flights::read_flight;
use m3_text::hexes::HexCase;
use m3_text::numbers::number;
use m3_text::refusal::{LineRefusal, Why};
use m3_text::shapes::{fits, word};
use std::alloc::Global;

/// An outcome of three words that is no answer.
#[tactic(auto, unfolding(crate::specs::Reading::Outcomes::triple_of))]
pub fn read_triple(name: &[u8], first: &[u8], second: &[u8]) -> Result<Said, LineRefusal>
    ensures { Gives (λ s. s) result (triple_of name.now first.now second.now) }
{
    if name == b"acknowledged".as_slice() {
        read_credit(first, second)
    } else if name == b"refused".as_slice() {
        read_refused(first, second)
    } else if name == b"held".as_slice() {
        read_held(first, second)
    } else {
        read_grant_said(name, first, second)
    }
}

#[tactic(auto, unfolding(crate::specs::Reading::Outcomes::credit_of))]
fn read_credit(first: &[u8], second: &[u8]) -> Result<Said, LineRefusal>
    ensures { Gives (λ s. s) result (credit_of first.now second.now) }
{
    if first == b"credit".as_slice() {
        Ok(Said::Acknowledged(Some(read_flight(second)?)))
    } else {
        Err(LineRefusal::Bad(Why::Form))
    }
}

#[tactic(auto, unfolding(crate::specs::Reading::Outcomes::refused_of))]
fn read_refused(first: &[u8], second: &[u8]) -> Result<Said, LineRefusal>
    ensures { Gives (λ s. s) result (refused_of first.now second.now) }
{
    let why = read_refusal(first, second)?;
    Ok(Said::Refused(why))
}

#[tactic(auto, unfolding(crate::specs::Reading::Outcomes::held_of))]
fn read_held(first: &[u8], second: &[u8]) -> Result<Said, LineRefusal>
    ensures { Gives (λ s. s) result (held_of first.now second.now) }
{
    let id = read_flight(first)?;
    let act = read_act(second)?;
    Ok(Said::Held(id, act))
}

#[tactic(auto, unfolding(crate::specs::Reading::Outcomes::flight_and_grant))]
fn read_flight_and_grant(first: &[u8], second: &[u8]) -> Result<(FlightId, GrantId), LineRefusal>
    ensures { Gives (λ x. (x.0, x.1)) result (flight_and_grant first.now second.now) }
{
    let id = read_flight(first)?;
    let grant = read_grant(second)?;
    Ok((id, grant))
}

#[tactic(auto, unfolding(crate::specs::Reading::Outcomes::grant_said_of))]
fn read_grant_said(name: &[u8], first: &[u8], second: &[u8]) -> Result<Said, LineRefusal>
    ensures { Gives (λ s. s) result (grant_said_of name.now first.now second.now) }
{
    if name == b"credited".as_slice() {
        let (id, grant) = read_flight_and_grant(first, second)?;
        Ok(Said::Credited(id, grant))
    } else if name == b"discarded".as_slice() {
        let (id, grant) = read_flight_and_grant(first, second)?;
        Ok(Said::Discarded(id, grant))
    } else if name == b"installed".as_slice() {
        let (id, grant) = read_flight_and_grant(first, second)?;
        Ok(Said::Installed(id, grant))
    } else if name == b"closing".as_slice() {
        let (id, grant) = read_flight_and_grant(first, second)?;
        Ok(Said::Closing(id, grant))
    } else if name == b"closed".as_slice() {
        let (id, grant) = read_flight_and_grant(first, second)?;
        Ok(Said::Closed(id, grant))
    } else {
        Err(LineRefusal::Bad(Why::Form))
    }
}

/// An outcome of four words or more that is no answer.
#[tactic(auto, unfolding(crate::specs::Reading::Outcomes::long_of))]
pub fn read_long(alloc: Global, words: &[&[u8]]) -> Result<Said, LineRefusal>
    ensures { Gives (λ s. s) result (long_of (texts words.now)) }
{
    if fits(&[b"message", b"", b"from", b"", b"label", b"", b""], words) {
        read_message(alloc, words)
    } else if fits(&[b"reply", b"", b"from", b"", b"label", b"", b""], words) {
        read_reply_message(alloc, words)
    } else if fits(&[b"refused", b"", b"", b""], words) {
        read_land_refused(words)
    } else if fits(&[b"granted", b"", b"", b""], words) {
        let (grant, id, held) = read_order_sent(words)?;
        Ok(Said::Granted { grant, id, held })
    } else if fits(&[b"close", b"", b"", b""], words) {
        let (grant, id, held) = read_order_sent(words)?;
        Ok(Said::CloseSent { grant, id, held })
    } else if fits(&[b"done", b"", b"revoked", b""], words) {
        read_done(words)
    } else if fits(&[b"part", b"of", b"", b"at", b"", b"len", b""], words) {
        read_extent(words)
    } else {
        Err(LineRefusal::Bad(Why::Form))
    }
}

#[tactic(auto, unfolding(crate::specs::Reading::Outcomes::message_of))]
fn read_message(alloc: Global, words: &[&[u8]]) -> Result<Said, LineRefusal>
    requires { length words.now ≡ 7 }
    ensures { Gives (λ s. s) result (message_of (texts words.now)) }
{
    let token = number(word(words, 1), 0, 4294967295)? as u32;
    let from = read_act(word(words, 3))?;
    let label = number(word(words, 5), 0, u64::MAX)?;
    let payload = read_payload(alloc, HexCase::Lower, word(words, 6), 8192)?;
    Ok(Said::Message {
        token,
        from,
        label,
        payload,
    })
}

#[tactic(auto, unfolding(crate::specs::Reading::Outcomes::reply_message_of))]
fn read_reply_message(alloc: Global, words: &[&[u8]]) -> Result<Said, LineRefusal>
    requires { length words.now ≡ 7 }
    ensures { Gives (λ s. s) result (reply_message_of (texts words.now)) }
{
    let token = number(word(words, 1), 0, 4294967295)? as u32;
    let from = read_act(word(words, 3))?;
    let label = number(word(words, 5), 0, u64::MAX)?;
    let payload = read_payload(alloc, HexCase::Lower, word(words, 6), 8192)?;
    Ok(Said::ReplyMessage {
        token,
        from,
        label,
        payload,
    })
}

#[tactic(auto, unfolding(crate::specs::Reading::Outcomes::land_refused_of))]
fn read_land_refused(words: &[&[u8]]) -> Result<Said, LineRefusal>
    requires { length words.now ≡ 4 }
    ensures { Gives (λ s. s) result (land_refused_of (texts words.now)) }
{
    let why = read_refusal(word(words, 2), word(words, 3))?;
    let id = read_flight(word(words, 1))?;
    Ok(Said::LandRefused(id, why))
}

#[tactic(auto, unfolding(crate::specs::Reading::Outcomes::way_of))]
fn read_way(word: &[u8]) -> Result<bool, LineRefusal>
    ensures { Gives (λ b. b) result (way_of word.now) }
{
    if word == b"routed".as_slice() {
        Ok(false)
    } else if word == b"held".as_slice() {
        Ok(true)
    } else {
        Err(LineRefusal::Bad(Why::Form))
    }
}

// A grant, the flight of the packet that went out for it, and whether it was held.
#[tactic(auto, unfolding(crate::specs::Reading::Outcomes::order_sent_of))]
fn read_order_sent(words: &[&[u8]]) -> Result<(GrantId, FlightId, bool), LineRefusal>
    requires { length words.now ≡ 4 }
    ensures { Gives (λ x. (x.0, x.1, x.2)) result (order_sent_of (texts words.now)) }
{
    let held = read_way(word(words, 3))?;
    let id = read_flight(word(words, 2))?;
    let grant = read_grant(word(words, 1))?;
    Ok((grant, id, held))
}

#[tactic(auto, unfolding(crate::specs::Reading::Outcomes::done_of))]
fn read_done(words: &[&[u8]]) -> Result<Said, LineRefusal>
    requires { length words.now ≡ 4 }
    ensures { Gives (λ s. s) result (done_of (texts words.now)) }
{
    let grant = read_grant(word(words, 1))?;
    let revoked = read_grant(word(words, 3))?;
    Ok(Said::Done {
        grant,
        revoked: Some(revoked),
    })
}

#[tactic(auto, unfolding(crate::specs::Reading::Outcomes::extent_of))]
fn read_extent(words: &[&[u8]]) -> Result<Said, LineRefusal>
    requires { length words.now ≡ 7 }
    ensures { Gives (λ s. s) result (extent_of (texts words.now)) }
{
    let of = read_grant(word(words, 2))?;
    let at = number(word(words, 4), 0, 4294967295)? as u32;
    let len = number(word(words, 6), 1, 4294967295)? as u32;
    Ok(Said::Part { of, at, len })
}

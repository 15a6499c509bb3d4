//! The words of outcomes, each behind a space.

ghost use Rattle.std.specs.Prelude.{◌≡◌, ◌∷◌, ◌++◌, [], decimal, OnOk, string_bytes};
ghost use Rattle.m3_text.specs.Printing.{words_text, line_text, flight_word};
ghost use Rattle.m3_journal.specs.Outcomes.{refusal_words, answer_words, answered_words, idle_word, no_word, way_word, acknowledged_words, message_words, said_words, outcome_words};

use crate::commands::{act_number, grant_number, put_optional};
use m3_base::command::{Answer, Refusal};
use m3_base::event::{IdleWhy, No, Outcome, Said};
use m3_base::ids::{ActId, FlightId, GrantId};
use m3_text::printing::{put_field, put_flight, put_hex, put_word};
use std::alloc::AllocError;

fn refusal_text(why: Refusal) -> &'static str
    ensures { result.now ≡ words_text (refusal_words why) }
{
    match why {
        Refusal::NoEndpoint => " 1 no-endpoint",
        Refusal::NoCredits => " 2 no-credits",
        Refusal::TooLarge => " 3 too-large",
        Refusal::Revoked => " 4 revoked",
        Refusal::Full => " 5 full",
        Refusal::OutOfRange => " 6 out-of-range",
        Refusal::NoPermission => " 7 no-permission",
        Refusal::NoReplyWanted => " 8 no-reply-wanted",
        Refusal::NoSuchToken => " 9 no-such-token",
        Refusal::BadReplyEndpoint => " 10 bad-reply-endpoint",
    }
}

fn idle_word(why: IdleWhy) -> &'static str
    ensures { result.now ≡ idle_word why }
{
    match why {
        IdleWhy::NotCurrent => "not-current",
        IdleWhy::Ended => "ended",
        IdleWhy::Busy => "busy",
        IdleWhy::Waiting => "waiting",
        IdleWhy::EmptyLink => "empty-link",
        IdleWhy::NotResting => "not-resting",
        IdleWhy::EmptyHold => "empty-hold",
        IdleWhy::NothingToClose => "nothing-to-close",
    }
}

fn no_word(why: No) -> &'static str
    ensures { result.now ≡ no_word why }
{
    match why {
        No::NotHome => "not-home",
        No::Already => "already",
        No::Leaving => "leaving",
        No::NoGrant => "no-grant",
        No::Closing => "closing",
        No::SlotTaken => "slot-taken",
        No::OutsideParent => "outside-parent",
        No::MorePermission => "more-permission",
        No::TooMany => "too-many",
        No::BadName => "bad-name",
        No::NoFile => "no-file",
        No::Exists => "exists",
        No::InUse => "in-use",
        No::NoSpace => "no-space",
    }
}

fn way_word(held: bool) -> &'static str
    ensures { result.now ≡ way_word held }
{
    if held { "held" } else { "routed" }
}

pub fn put_answer(out: &mut String, answer: &Answer) -> Result<(), AllocError>
    ensures { OnOk result (string_bytes out.new ≡ string_bytes out.old ++ words_text (answer_words answer.now)) }
{
    match answer {
        Answer::Sent => out.push_str(" sent"),
        Answer::Replied => out.push_str(" replied"),
        Answer::Written => out.push_str(" written"),
        Answer::Bytes(bytes) => {
            out.push_str(" bytes ")?;
            put_hex(out, bytes.bytes())
        }
        Answer::Refused(why) => {
            out.push_str(" refused")?;
            out.push_str(refusal_text(*why))
        }
    }
}

fn put_acknowledged(out: &mut String, credit: Option<FlightId>) -> Result<(), AllocError>
    ensures { OnOk result (string_bytes out.new ≡ string_bytes out.old ++ words_text (acknowledged_words credit)) }
{
    match credit {
        None => out.push_str(" acknowledged"),
        Some(id) => put_named(out, " acknowledged credit ", id),
    }
}

// A text, and a flight's name right behind it.
#[inline(always)]
fn put_named(out: &mut String, text: &str, id: FlightId) -> Result<(), AllocError>
    ensures { OnOk result (string_bytes out.new ≡ string_bytes out.old ++ (text.now ++ line_text (flight_word id ∷ []))) }
{
    out.push_str(text)?;
    put_flight(out, id)
}

// A text, and right behind it a flight's name and a grant.
#[inline(always)]
fn put_of_grant(
    out: &mut String,
    text: &str,
    id: FlightId,
    grant: GrantId,
) -> Result<(), AllocError>
    ensures { OnOk result (string_bytes out.new ≡ string_bytes out.old ++ (text.now ++ line_text
        (flight_word id ∷ decimal grant ∷ []))) }
{
    put_named(out, text, id)?;
    put_field(out, " ", grant.number() as u64)
}

// A text, and right behind it an activity.
#[inline(always)]
fn put_of_act(out: &mut String, text: &str, act: ActId) -> Result<(), AllocError>
    ensures { OnOk result (string_bytes out.new ≡ string_bytes out.old ++ (text.now ++ line_text (decimal act ∷ []))) }
{
    put_field(out, text, act.number() as u64)
}

// A text, and right behind it a grant, and the flight of the packet that went out for it.
fn put_order_sent(
    out: &mut String,
    text: &str,
    grant: GrantId,
    id: FlightId,
    held: bool,
) -> Result<(), AllocError>
    ensures { OnOk result (string_bytes out.new ≡ string_bytes out.old ++ (text.now ++ line_text
        (decimal grant ∷ flight_word id ∷ way_word held ∷ []))) }
{
    put_field(out, text, grant.number() as u64)?;
    put_named(out, " ", id)?;
    put_word(out, way_word(held))
}

#[inline(always)]
fn put_message(
    out: &mut String,
    kind: &str,
    token: u32,
    from: ActId,
    label: u64,
    payload: &[u8],
) -> Result<(), AllocError>
    ensures { OnOk result (string_bytes out.new ≡ string_bytes out.old ++ words_text
        (message_words kind.now token from label payload.now)) }
{
    put_word(out, kind)?;
    put_field(out, " ", token as u64)?;
    put_field(out, " from ", from.number() as u64)?;
    put_field(out, " label ", label)?;
    out.push_str(" ")?;
    put_hex(out, payload)
}

fn put_answered(
    out: &mut String,
    id: FlightId,
    answer: &Answer,
    closed: Option<GrantId>,
) -> Result<(), AllocError>
    ensures { OnOk result (string_bytes out.new ≡ string_bytes out.old ++ words_text (answered_words id answer.now closed)) }
{
    put_named(out, " answered ", id)?;
    put_answer(out, answer)?;
    put_optional(out, "closed", grant_number(closed))
}

fn put_said(out: &mut String, said: &Said) -> Result<(), AllocError>
    ensures { OnOk result (string_bytes out.new ≡ string_bytes out.old ++ words_text (said_words said.now)) }
{
    match said {
        Said::Flying(id) => put_named(out, " flying ", *id),
        Said::Message {
            token,
            from,
            label,
            payload,
        } => put_message(out, "message", *token, *from, *label, payload.bytes()),
        Said::ReplyMessage {
            token,
            from,
            label,
            payload,
        } => put_message(out, "reply", *token, *from, *label, payload.bytes()),
        Said::Nothing => out.push_str(" none"),
        Said::Acknowledged(credit) => put_acknowledged(out, *credit),
        Said::Refused(why) => {
            out.push_str(" refused")?;
            out.push_str(refusal_text(*why))
        }
        Said::Awake => out.push_str(" awake"),
        Said::Yield => out.push_str(" yield"),
        Said::Asleep => out.push_str(" asleep"),
        Said::Ended => out.push_str(" ended"),
        Said::Idle(why) => {
            out.push_str(" idle ")?;
            out.push_str(idle_word(*why))
        }
        Said::Landed(id) => put_named(out, " landed ", *id),
        Said::LandRefused(id, why) => {
            put_named(out, " refused ", *id)?;
            out.push_str(refusal_text(*why))
        }
        Said::Answered { id, answer, closed } => put_answered(out, *id, answer, *closed),
        Said::Credited(id, grant) => put_of_grant(out, " credited ", *id, *grant),
        Said::Discarded(id, grant) => put_of_grant(out, " discarded ", *id, *grant),
        Said::Installed(id, grant) => put_of_grant(out, " installed ", *id, *grant),
        Said::Closing(id, grant) => put_of_grant(out, " closing ", *id, *grant),
        Said::Closed(id, grant) => put_of_grant(out, " closed ", *id, *grant),
        Said::Bounced(id) => put_named(out, " bounced ", *id),
        Said::Routed(id) => put_named(out, " routed ", *id),
        Said::Held(id, act) => {
            let act = act.number();
            put_named(out, " held ", *id)?;
            put_field(out, " ", act as u64)
        }
        Said::Saving(act) => put_of_act(out, " saving ", *act),
        Said::Saved(act) => put_of_act(out, " saved ", *act),
        Said::Current(act) => put_of_act(out, " current ", *act),
        Said::Yielded(act) => put_of_act(out, " yielded ", *act),
        Said::Done { grant, revoked } => {
            let grant = grant.number();
            put_field(out, " done ", grant as u64)?;
            put_optional(out, "revoked", grant_number(*revoked))
        }
        Said::Save(act) => put_of_act(out, " save ", *act),
        Said::No(why) => {
            out.push_str(" refused ")?;
            out.push_str(no_word(*why))
        }
        Said::Granted { grant, id, held } => put_order_sent(out, " granted ", *grant, *id, *held),
        Said::Revoking(grant) => {
            let grant = grant.number();
            put_field(out, " revoking ", grant as u64)
        }
        Said::CloseSent { grant, id, held } => put_order_sent(out, " close ", *grant, *id, *held),
        Said::Created => out.push_str(" created"),
        Said::Extended => out.push_str(" extended"),
        Said::Removed => out.push_str(" removed"),
        Said::Part { of, at, len } => {
            let of = of.number();
            put_field(out, " part of ", of as u64)?;
            put_field(out, " at ", *at as u64)?;
            put_field(out, " len ", *len as u64)
        }
        Said::Revoke => out.push_str(" revoke"),
    }
}

pub fn put_outcome(out: &mut String, outcome: &Outcome) -> Result<(), AllocError>
    ensures { OnOk result (string_bytes out.new ≡ string_bytes out.old ++ words_text (outcome_words outcome.now)) }
{
    put_said(out, &outcome.said)?;
    put_optional(out, "restore", act_number(outcome.restore))
}

//! Words that name a cause: why a command is refused, why an event is idle, and why an order is refused.

ghost use Rattle.std.specs.Prelude.{◌≡◌};
ghost use Rattle.m3_text.specs.Refusable.{Gives};
ghost use Rattle.m3_journal.specs.Reading.Causes.{refusal_named, later_refusal_named, refusal_with_code, refusal_of, idle_of, no_of, later_no_of, file_no_of};
ghost use Rattle.m3_journal.specs.Outcomes.{refusal_digits};

use m3_base::command::Refusal;
use m3_base::event::{IdleWhy, No};
use m3_text::refusal::{LineRefusal, Why};

/// A refusal's code and name, which go together.
pub fn read_refusal(code: &[u8], name: &[u8]) -> Result<Refusal, LineRefusal>
    ensures { Gives (λ x. x) result (refusal_of code.now name.now) }
{
    let refusal = read_refusal_name(name)?;
    with_code(code, refusal)
}

#[tactic(auto, unfolding(crate::specs::Reading::Causes::refusal_with_code))]
fn with_code(code: &[u8], refusal: Refusal) -> Result<Refusal, LineRefusal>
    ensures { Gives (λ x. x) result (refusal_with_code code.now refusal) }
{
    if code == refusal_code(refusal).as_bytes() {
        Ok(refusal)
    } else {
        Err(LineRefusal::Bad(Why::Form))
    }
}

fn refusal_code(refusal: Refusal) -> &'static str
    ensures { result.now ≡ refusal_digits refusal }
{
    match refusal {
        Refusal::NoEndpoint => "1",
        Refusal::NoCredits => "2",
        Refusal::TooLarge => "3",
        Refusal::Revoked => "4",
        Refusal::Full => "5",
        Refusal::OutOfRange => "6",
        Refusal::NoPermission => "7",
        Refusal::NoReplyWanted => "8",
        Refusal::NoSuchToken => "9",
        Refusal::BadReplyEndpoint => "10",
    }
}

#[tactic(auto, unfolding(crate::specs::Reading::Causes::refusal_named))]
fn read_refusal_name(word: &[u8]) -> Result<Refusal, LineRefusal>
    ensures { Gives (λ x. x) result (refusal_named word.now) }
{
    if word == b"no-endpoint".as_slice() {
        Ok(Refusal::NoEndpoint)
    } else if word == b"no-credits".as_slice() {
        Ok(Refusal::NoCredits)
    } else if word == b"too-large".as_slice() {
        Ok(Refusal::TooLarge)
    } else if word == b"revoked".as_slice() {
        Ok(Refusal::Revoked)
    } else if word == b"full".as_slice() {
        Ok(Refusal::Full)
    } else {
        read_later_refusal_name(word)
    }
}

#[tactic(auto, unfolding(crate::specs::Reading::Causes::later_refusal_named))]
fn read_later_refusal_name(word: &[u8]) -> Result<Refusal, LineRefusal>
    ensures { Gives (λ x. x) result (later_refusal_named word.now) }
{
    if word == b"out-of-range".as_slice() {
        Ok(Refusal::OutOfRange)
    } else if word == b"no-permission".as_slice() {
        Ok(Refusal::NoPermission)
    } else if word == b"no-reply-wanted".as_slice() {
        Ok(Refusal::NoReplyWanted)
    } else if word == b"no-such-token".as_slice() {
        Ok(Refusal::NoSuchToken)
    } else if word == b"bad-reply-endpoint".as_slice() {
        Ok(Refusal::BadReplyEndpoint)
    } else {
        Err(LineRefusal::Bad(Why::Form))
    }
}

/// Why an event is idle.
#[tactic(auto, unfolding(crate::specs::Reading::Causes::idle_of))]
pub fn read_idle(word: &[u8]) -> Result<IdleWhy, LineRefusal>
    ensures { Gives (λ x. x) result (idle_of word.now) }
{
    if word == b"not-current".as_slice() {
        Ok(IdleWhy::NotCurrent)
    } else if word == b"ended".as_slice() {
        Ok(IdleWhy::Ended)
    } else if word == b"busy".as_slice() {
        Ok(IdleWhy::Busy)
    } else if word == b"waiting".as_slice() {
        Ok(IdleWhy::Waiting)
    } else if word == b"empty-link".as_slice() {
        Ok(IdleWhy::EmptyLink)
    } else if word == b"not-resting".as_slice() {
        Ok(IdleWhy::NotResting)
    } else if word == b"empty-hold".as_slice() {
        Ok(IdleWhy::EmptyHold)
    } else if word == b"nothing-to-close".as_slice() {
        Ok(IdleWhy::NothingToClose)
    } else {
        Err(LineRefusal::Bad(Why::Form))
    }
}

/// Why an order, or a line on files, is refused.
#[tactic(auto, unfolding(crate::specs::Reading::Causes::no_of))]
pub fn read_no(word: &[u8]) -> Result<No, LineRefusal>
    ensures { Gives (λ x. x) result (no_of word.now) }
{
    if word == b"not-home".as_slice() {
        Ok(No::NotHome)
    } else if word == b"already".as_slice() {
        Ok(No::Already)
    } else if word == b"leaving".as_slice() {
        Ok(No::Leaving)
    } else if word == b"no-grant".as_slice() {
        Ok(No::NoGrant)
    } else {
        read_later_no(word)
    }
}

#[tactic(auto, unfolding(crate::specs::Reading::Causes::later_no_of))]
fn read_later_no(word: &[u8]) -> Result<No, LineRefusal>
    ensures { Gives (λ x. x) result (later_no_of word.now) }
{
    if word == b"closing".as_slice() {
        Ok(No::Closing)
    } else if word == b"slot-taken".as_slice() {
        Ok(No::SlotTaken)
    } else if word == b"outside-parent".as_slice() {
        Ok(No::OutsideParent)
    } else if word == b"more-permission".as_slice() {
        Ok(No::MorePermission)
    } else if word == b"too-many".as_slice() {
        Ok(No::TooMany)
    } else {
        read_file_no(word)
    }
}

#[tactic(auto, unfolding(crate::specs::Reading::Causes::file_no_of))]
fn read_file_no(word: &[u8]) -> Result<No, LineRefusal>
    ensures { Gives (λ x. x) result (file_no_of word.now) }
{
    if word == b"bad-name".as_slice() {
        Ok(No::BadName)
    } else if word == b"no-file".as_slice() {
        Ok(No::NoFile)
    } else if word == b"exists".as_slice() {
        Ok(No::Exists)
    } else if word == b"in-use".as_slice() {
        Ok(No::InUse)
    } else if word == b"no-space".as_slice() {
        Ok(No::NoSpace)
    } else {
        Err(LineRefusal::Bad(Why::Form))
    }
}

//! Entries, by their words.

ghost use Rattle.std.specs.Prelude.{◌≡◌, ◌<◌, length, IsTrue, OnOk};
ghost use Rattle.m3_text.specs.Lines.{texts};
ghost use Rattle.m3_text.specs.Refusable.{Gives};
ghost use Rattle.m3_text.specs.LineForm.{word};
ghost use Rattle.m3_journal.specs.Reading.Entries.{is_event_end, event_side, is_paired, sides_of, paired_of, entry_at, entry_of};
ghost use Rattle.m3_journal.specs.Reading.Refusals.{fits_no_form};

use crate::reading::outcomes::read_outcome;
use m3_base::event::{Entry, Event, Made, Outcome, Said};
use m3_base::ids::ActId;
use m3_script::read_entry_event;
use m3_text::hexes::HexCase;
use m3_text::refusal::{LineRefusal, Why};
use m3_text::shapes::{after, cut_first, word};
use m3_text::sides::both;
use std::alloc::{AllocError, Global};

/// The entry of these words. `event` is room for the words of its event.
pub fn read_entry<'a>(
    alloc: Global,
    words: &[&'a [u8]],
    event: &mut Vec<&'a [u8]>,
) -> Result<Entry, LineRefusal>
    ensures { Gives (λ e. e) result (entry_of (texts words.now)) }
{
    let mut count = words.len();
    while 0 < count {
        count -= 1;
        let entry = read_entry_at(alloc, words, count, event);
        if !is_form(&entry) {
            return entry;
        }
    }
    Err(LineRefusal::Bad(Why::Form))
}

/// Whether what was read fits no form.
pub fn is_form(entry: &Result<Entry, LineRefusal>) -> bool
    ensures { result ≡ fits_no_form entry.now }
{
    match entry {
        Err(LineRefusal::Bad(Why::Form)) => true,
        _ => false,
    }
}

fn is_event_end(word: &[u8]) -> bool
    ensures { result ≡ is_event_end word.now }
{
    1 < word.len() && word[word.len() - 1] == b':'
}

// The entry whose event ends at this word.
#[tactic(auto, unfolding(crate::specs::Reading::Entries::entry_at))]
fn read_entry_at<'a>(
    alloc: Global,
    words: &[&'a [u8]],
    at: usize,
    event: &mut Vec<&'a [u8]>,
) -> Result<Entry, LineRefusal>
    requires { at < length words.now }
    ensures { Gives (λ e. e) result (entry_at at (texts words.now)) }
{
    if !is_event_end(word(words, at)) {
        return Err(LineRefusal::Bad(Why::Form));
    }
    cut_event(words, at, event)?;
    read_paired(alloc, event.as_slice(), after(words, at + 1))
}

// Puts the words up to this one, without its colon.
fn cut_event<'a>(words: &[&'a [u8]], at: usize, event: &mut Vec<&'a [u8]>) -> Result<(), AllocError>
    requires place { at < length words.now }
    requires colon { IsTrue (is_event_end (word at (texts words.now))) }
    ensures { OnOk result (texts event.new.items ≡ event_side at (texts words.now)) }
{
    let last = word(words, at);
    event.clear();
    event.extend_from_slice(&words[..at])?;
    event.push(&last[..last.len() - 1])?;
    Ok(())
}

#[tactic(auto, unfolding(crate::specs::Reading::Entries::paired_of))]
fn read_paired(alloc: Global, event: &[&[u8]], outcome: &[&[u8]]) -> Result<Entry, LineRefusal>
    ensures { Gives (λ e. e) result (paired_of (texts event.now) (texts outcome.now)) }
{
    if !is_paired(event, outcome) {
        return Err(LineRefusal::Bad(Why::Form));
    }
    let ((event, made), (said, restore)) = read_sides(alloc, event, outcome)?;
    Ok(Entry {
        event,
        outcome: Outcome {
            made,
            said,
            restore,
        },
    })
}

// Whether a turn has its move in its words exactly where it isn't idle.
fn is_paired(event: &[&[u8]], outcome: &[&[u8]]) -> bool
    ensures { result ≡ is_paired (texts event.now) (texts outcome.now) }
{
    let (name, _) = cut_first(event);
    let (said, _) = cut_first(outcome);
    if name == b"turn".as_slice() {
        let idle = said == b"idle".as_slice();
        if event.len() == 2 { idle } else { !idle }
    } else {
        true
    }
}

#[tactic(auto, using(m3_text::proofs::JoinedCauses::gives_both), unfolding(crate::specs::Reading::Entries::sides_of))]
fn read_sides(
    alloc: Global,
    event: &[&[u8]],
    outcome: &[&[u8]],
) -> Result<((Event, Option<Made>), (Said, Option<ActId>)), LineRefusal>
    ensures { Gives (λ x. ((x.0.0, x.0.1), (x.1.0, x.1.1))) result (sides_of (texts event.now) (texts outcome.now)) }
{
    both(
        read_entry_event(alloc, HexCase::Lower, event),
        read_outcome(alloc, outcome),
    )
}

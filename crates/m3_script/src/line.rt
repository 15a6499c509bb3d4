//! Lines of scripts, by their words.

ghost use Rattle.std.specs.Prelude.{◌≡◌};
ghost use Rattle.m3_text.specs.Lines.{texts};
ghost use Rattle.m3_text.specs.Refusable.{Gives};
ghost use Rattle.m3_script.specs.LineForms.{begins_event, begins_setup_line, line_of, opening_of};

use crate::events::read_event;
use crate::setups::{read_machine, read_setup_line};
use m3_base::event::Event;
use m3_base::setup_line::SetupLine;
use m3_text::hexes::HexCase;
use m3_text::refusal::{LineRefusal, Why};
use m3_text::shapes::{count_test, cut_first};
use std::alloc::Global;

/// What a line says.
#[derive(Debug, Drop)]
pub enum Line {
    Machine { tiles: u8, memory: u32 },
    Setup(SetupLine),
    Begin,
    Event(Event),
}

/// The line of these words. The forms that are built begin with a word of `begins_event` or `begins_setup_line`, or
/// have a branch in `read_opening`; the words of any other fit no form.
#[tactic(auto, unfolding(crate::specs::LineForms::line_of))]
#[inline(always)]
pub fn read_form(alloc: Global, words: &[&[u8]]) -> Result<Line, LineRefusal>
    ensures { Gives (λ l. l) result (line_of (texts words.now)) }
{
    let (first, _) = cut_first(words);
    if begins_event(first) {
        Ok(Line::Event(read_event(alloc, HexCase::Either, words)?))
    } else if begins_setup_line(first) {
        Ok(Line::Setup(read_setup_line(alloc, HexCase::Either, words)?))
    } else {
        read_opening(words)
    }
}

/// Whether the word begins an event that is built.
fn begins_event(word: &[u8]) -> bool
    ensures { result ≡ begins_event word.now }
{
    word == b"take".as_slice()
        || word == b"do".as_slice()
        || word == b"turn".as_slice()
        || word == b"tend".as_slice()
        || word == b"close".as_slice()
        || word == b"revoke".as_slice()
        || word == b"grant".as_slice()
        || word == b"switch".as_slice()
}

/// Whether the word begins a line of the setup that is built, after that of the machine.
fn begins_setup_line(word: &[u8]) -> bool
    ensures { result ≡ begins_setup_line word.now }
{
    word == b"act".as_slice()
        || word == b"prog".as_slice()
        || word == b"recv".as_slice()
        || word == b"send".as_slice()
        || word == b"range".as_slice()
        || word == b"part".as_slice()
        || word == b"quantum".as_slice()
}

/// The first and the last line of a setup.
#[tactic(auto, unfolding(crate::specs::LineForms::opening_of))]
fn read_opening(words: &[&[u8]]) -> Result<Line, LineRefusal>
    ensures { Gives (λ l. l) result (opening_of (texts words.now)) }
{
    let (first, rest) = cut_first(words);
    if first == b"machine".as_slice() {
        let (tiles, memory) = read_machine(rest)?;
        Ok(Line::Machine { tiles, memory })
    } else if first == b"begin".as_slice() {
        count_test(rest, 0)?;
        Ok(Line::Begin)
    } else {
        Err(LineRefusal::Bad(Why::Form))
    }
}

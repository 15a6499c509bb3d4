//! Events, by their words.

ghost use Rattle.std.specs.Prelude.{◌≡◌};
ghost use Rattle.m3_text.specs.Lines.{texts};
ghost use Rattle.m3_text.specs.Refusable.{Gives};
ghost use Rattle.m3_script.specs.Events.{take_of, do_of, tend_of, turn_of, close_of, event_of};

use crate::files::read_file;
use crate::orders::read_order;
use crate::setups::read_act_command;
use m3_base::event::Event;
use m3_text::fields::{read_act, read_tile};
use m3_text::hexes::HexCase;
use m3_text::refusal::LineRefusal;
use m3_text::shapes::{count_test, cut_first, word};
use std::alloc::Global;

/// The event of a line of a script, by its words.
#[tactic(auto, unfolding(crate::specs::Events::event_of))]
#[inline(always)]
pub fn read_event(alloc: Global, case: HexCase, words: &[&[u8]]) -> Result<Event, LineRefusal>
    ensures { Gives (λ e. e) result (event_of case (texts words.now)) }
{
    let (first, rest) = cut_first(words);
    if first == b"take".as_slice() {
        read_take(rest)
    } else if first == b"do".as_slice() {
        read_do(alloc, case, rest)
    } else if first == b"turn".as_slice() {
        read_turn(rest)
    } else if first == b"tend".as_slice() {
        read_tend(rest)
    } else if first == b"close".as_slice() {
        read_close(rest)
    } else if first == b"file".as_slice() {
        Ok(Event::File(read_file(alloc, rest)?))
    } else {
        Ok(Event::Order(read_order(words)?))
    }
}

/// `take D T`, by the words after the first.
#[tactic(auto, unfolding(crate::specs::Events::take_of))]
#[inline(always)]
fn read_take(words: &[&[u8]]) -> Result<Event, LineRefusal>
    ensures { Gives (λ e. e) result (take_of (texts words.now)) }
{
    count_test(words, 2)?;
    let to = read_tile(word(words, 0))?;
    let from = read_tile(word(words, 1))?;
    Ok(Event::Take { to, from })
}

/// `do A COMMAND`, by the words after the first.
#[tactic(auto, unfolding(crate::specs::Events::do_of))]
#[inline(always)]
fn read_do(alloc: Global, case: HexCase, words: &[&[u8]]) -> Result<Event, LineRefusal>
    ensures { Gives (λ e. e) result (do_of case (texts words.now)) }
{
    let (act, command) = read_act_command(alloc, case, words)?;
    Ok(Event::Do { act, command })
}

/// `tend A`, by the words after the first.
#[tactic(auto, unfolding(crate::specs::Events::tend_of))]
#[inline(always)]
fn read_tend(words: &[&[u8]]) -> Result<Event, LineRefusal>
    ensures { Gives (λ e. e) result (tend_of (texts words.now)) }
{
    count_test(words, 1)?;
    let act = read_act(word(words, 0))?;
    Ok(Event::Tend(act))
}

/// `turn A`
#[tactic(auto, unfolding(crate::specs::Events::turn_of))]
fn read_turn(words: &[&[u8]]) -> Result<Event, LineRefusal>
    ensures { Gives (λ e. e) result (turn_of (texts words.now)) }
{
    count_test(words, 1)?;
    let act = read_act(word(words, 0))?;
    Ok(Event::Turn(act))
}

/// `close`
#[tactic(auto, unfolding(crate::specs::Events::close_of))]
fn read_close(words: &[&[u8]]) -> Result<Event, LineRefusal>
    ensures { Gives (λ e. e) result (close_of (texts words.now)) }
{
    count_test(words, 0)?;
    Ok(Event::Close)
}

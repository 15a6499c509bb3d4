//! The events of a journal's entries, by their words: those of scripts, and turns with their moves.

ghost use Rattle.std.specs.Prelude.{◌≡◌};
ghost use Rattle.m3_text.specs.Lines.{texts};
ghost use Rattle.m3_text.specs.Refusable.{Gives};
ghost use Rattle.m3_script.specs.Events.{await_of, quantum_of, end_of, move_of, act_move_of, entry_event_of};

use crate::commands::read_command;
use crate::events::read_event;
use m3_base::event::{Event, Made};
use m3_base::ids::ActId;
use m3_text::fields::{read_act, read_ep};
use m3_text::hexes::HexCase;
use m3_text::refusal::{LineRefusal, Why};
use m3_text::shapes::{count_test, cut_first, word};
use m3_text::sides::both;
use std::alloc::Global;

/// The event of an entry, by its words, and the move where it is a turn that isn't idle.
#[tactic(auto, unfolding(crate::specs::Events::entry_event_of))]
pub fn read_entry_event(
    alloc: Global,
    case: HexCase,
    words: &[&[u8]],
) -> Result<(Event, Option<Made>), LineRefusal>
    ensures { Gives (λ x. (x.0, x.1)) result (entry_event_of case (texts words.now)) }
{
    let (first, rest) = cut_first(words);
    if first == b"turn".as_slice() {
        let (act, made) = read_act_move(alloc, case, rest)?;
        Ok((Event::Turn(act), made))
    } else {
        Ok((read_event(alloc, case, words)?, None))
    }
}

/// `A COMMAND`, `A await E`, `A quantum`, `A end`, or `A` alone, where the turn is idle.
#[tactic(auto, using(m3_text::proofs::JoinedCauses::gives_both), unfolding(crate::specs::Events::act_move_of))]
fn read_act_move(
    alloc: Global,
    case: HexCase,
    words: &[&[u8]],
) -> Result<(ActId, Option<Made>), LineRefusal>
    ensures { Gives (λ x. (x.0, x.1)) result (act_move_of case (texts words.now)) }
{
    if words.is_empty() {
        return Err(LineRefusal::Bad(Why::Form));
    }
    let (act, made) = cut_first(words);
    both(read_act(act), read_move(alloc, case, made))
}

#[tactic(auto, unfolding(crate::specs::Events::move_of))]
fn read_move(alloc: Global, case: HexCase, words: &[&[u8]]) -> Result<Option<Made>, LineRefusal>
    ensures { Gives (λ m. m) result (move_of case (texts words.now)) }
{
    if words.is_empty() {
        return Ok(None);
    }
    let (first, rest) = cut_first(words);
    if first == b"await".as_slice() {
        read_await(rest)
    } else if first == b"quantum".as_slice() {
        read_quantum(rest)
    } else if first == b"end".as_slice() {
        read_end(rest)
    } else {
        Ok(Some(Made::Command(read_command(alloc, case, words)?)))
    }
}

/// `await E`
#[tactic(auto, unfolding(crate::specs::Events::await_of))]
fn read_await(words: &[&[u8]]) -> Result<Option<Made>, LineRefusal>
    ensures { Gives (λ m. m) result (await_of (texts words.now)) }
{
    count_test(words, 1)?;
    let ep = read_ep(word(words, 0))?;
    Ok(Some(Made::Await(ep)))
}

/// `quantum`
#[tactic(auto, unfolding(crate::specs::Events::quantum_of))]
fn read_quantum(words: &[&[u8]]) -> Result<Option<Made>, LineRefusal>
    ensures { Gives (λ m. m) result (quantum_of (texts words.now)) }
{
    count_test(words, 0)?;
    Ok(Some(Made::Quantum))
}

/// `end`
#[tactic(auto, unfolding(crate::specs::Events::end_of))]
fn read_end(words: &[&[u8]]) -> Result<Option<Made>, LineRefusal>
    ensures { Gives (λ m. m) result (end_of (texts words.now)) }
{
    count_test(words, 0)?;
    Ok(Some(Made::End))
}

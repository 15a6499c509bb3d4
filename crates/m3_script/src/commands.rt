//! Commands, by their words.

ghost use Rattle.std.specs.Prelude.{◌≡◌};
ghost use Rattle.m3_text.specs.Lines.{texts};
ghost use Rattle.m3_text.specs.Refusable.{Gives};
ghost use Rattle.m3_script.specs.CommandForms.{command_of, any_send_of, send_of, call_of, reply_of, fetch_of, acknowledge_of, read_of, write_of};

use crate::fields::read_u32;
use m3_base::command::Command;
use m3_text::fields::{read_ep, read_payload};
use m3_text::hexes::HexCase;
use m3_text::numbers::number;
use m3_text::refusal::{LineRefusal, Why};
use m3_text::shapes::{count_test, cut_first, form_test, word};
use std::alloc::Global;

// The most bytes of a command.
const MOST_BYTES: usize = 8192;

/// The command of these words.
#[tactic(auto, unfolding(crate::specs::CommandForms::command_of))]
#[inline(always)]
pub fn read_command(alloc: Global, case: HexCase, words: &[&[u8]]) -> Result<Command, LineRefusal>
    ensures { Gives (λ c. c) result (command_of case (texts words.now)) }
{
    let (first, rest) = cut_first(words);
    if first == b"send".as_slice() {
        read_any_send(alloc, case, rest)
    } else if first == b"fetch".as_slice() {
        read_fetch(rest)
    } else if first == b"ack".as_slice() {
        read_acknowledge(rest)
    } else if first == b"reply".as_slice() {
        read_reply(alloc, case, rest)
    } else if first == b"read".as_slice() {
        read_read(rest)
    } else if first == b"write".as_slice() {
        read_write(alloc, case, rest)
    } else {
        Err(LineRefusal::Bad(Why::Form))
    }
}

#[tactic(auto, unfolding(crate::specs::CommandForms::any_send_of))]
#[inline(always)]
fn read_any_send(alloc: Global, case: HexCase, words: &[&[u8]]) -> Result<Command, LineRefusal>
    ensures { Gives (λ c. c) result (any_send_of case (texts words.now)) }
{
    if words.len() == 4 {
        read_call(alloc, case, words)
    } else {
        read_send(alloc, case, words)
    }
}

/// `send E HEX`
#[tactic(auto, unfolding(crate::specs::CommandForms::send_of))]
#[inline(always)]
fn read_send(alloc: Global, case: HexCase, words: &[&[u8]]) -> Result<Command, LineRefusal>
    ensures { Gives (λ c. c) result (send_of case (texts words.now)) }
{
    count_test(words, 2)?;
    let ep = read_ep(word(words, 0))?;
    let payload = read_payload(alloc, case, word(words, 1), MOST_BYTES)?;
    Ok(Command::Send {
        ep,
        payload,
        reply: None,
    })
}

/// `send E HEX reply R`
#[tactic(auto, unfolding(crate::specs::CommandForms::call_of))]
#[inline(always)]
fn read_call(alloc: Global, case: HexCase, words: &[&[u8]]) -> Result<Command, LineRefusal>
    ensures { Gives (λ c. c) result (call_of case (texts words.now)) }
{
    form_test(&[b"", b"", b"reply", b""], words)?;
    let ep = read_ep(word(words, 0))?;
    let reply = read_ep(word(words, 3))?;
    let payload = read_payload(alloc, case, word(words, 1), MOST_BYTES)?;
    Ok(Command::Send {
        ep,
        payload,
        reply: Some(reply),
    })
}

/// `reply E K HEX`
#[tactic(auto, unfolding(crate::specs::CommandForms::reply_of))]
#[inline(always)]
fn read_reply(alloc: Global, case: HexCase, words: &[&[u8]]) -> Result<Command, LineRefusal>
    ensures { Gives (λ c. c) result (reply_of case (texts words.now)) }
{
    count_test(words, 3)?;
    let ep = read_ep(word(words, 0))?;
    let token = read_u32(word(words, 1))?;
    let payload = read_payload(alloc, case, word(words, 2), MOST_BYTES)?;
    Ok(Command::Reply { ep, token, payload })
}

/// `fetch E`
#[tactic(auto, unfolding(crate::specs::CommandForms::fetch_of))]
#[inline(always)]
fn read_fetch(words: &[&[u8]]) -> Result<Command, LineRefusal>
    ensures { Gives (λ c. c) result (fetch_of (texts words.now)) }
{
    count_test(words, 1)?;
    let ep = read_ep(word(words, 0))?;
    Ok(Command::Fetch { ep })
}

/// `ack E K`
#[tactic(auto, unfolding(crate::specs::CommandForms::acknowledge_of))]
#[inline(always)]
fn read_acknowledge(words: &[&[u8]]) -> Result<Command, LineRefusal>
    ensures { Gives (λ c. c) result (acknowledge_of (texts words.now)) }
{
    count_test(words, 2)?;
    let ep = read_ep(word(words, 0))?;
    let token = read_u32(word(words, 1))?;
    Ok(Command::Acknowledge { ep, token })
}

/// `read E OFF LEN`
#[tactic(auto, unfolding(crate::specs::CommandForms::read_of))]
#[inline(always)]
fn read_read(words: &[&[u8]]) -> Result<Command, LineRefusal>
    ensures { Gives (λ c. c) result (read_of (texts words.now)) }
{
    count_test(words, 3)?;
    let ep = read_ep(word(words, 0))?;
    let off = read_u32(word(words, 1))?;
    let len = number(word(words, 2), 0, 65535)? as u16;
    Ok(Command::Read { ep, off, len })
}

/// `write E OFF HEX`
#[tactic(auto, unfolding(crate::specs::CommandForms::write_of))]
#[inline(always)]
fn read_write(alloc: Global, case: HexCase, words: &[&[u8]]) -> Result<Command, LineRefusal>
    ensures { Gives (λ c. c) result (write_of case (texts words.now)) }
{
    count_test(words, 3)?;
    let ep = read_ep(word(words, 0))?;
    let off = read_u32(word(words, 1))?;
    let payload = read_payload(alloc, case, word(words, 2), MOST_BYTES)?;
    Ok(Command::Write { ep, off, payload })
}

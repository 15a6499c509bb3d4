//! The event lines that come often, read straight from the text. A line that isn't read here is read by its words.

ghost use Rattle.std.specs.Prelude.{◌≡◌, ◌+◌, ◌<◌, ◌≤◌, ◌∷◌, ◌++◌, IfSome, codes, decimal, length};
ghost use Rattle.m3_base.specs.declared.command.Command.TheVariants as commands;
ghost use Rattle.m3_script.specs.QuickForms.{IsPayloadAtFront, IsCommandAtFront, IsEventAtFront};

use m3_base::command::Command;
use m3_base::event::Event;
use m3_base::ids::{ActId, EpId, TileId};
use m3_base::order::Order;
use m3_base::payload::Payload;
use m3_text::fields::read_payload;
use m3_text::hexes::HexCase;
use memchr::memchr;
use std::alloc::Global;

// ---- parts of a line

/// What is behind this front.
#[inline(always)]
fn behind<'a>(text: &'a [u8], front: &[u8]) -> Option<&'a [u8]>
    ensures { IfSome result (λ rest. text.now ≡ front.now ++ rest.now) }
{
    text.strip_prefix(front)
}

#[inline(always)]
fn cut_figure(text: &[u8]) -> Option<(u8, &[u8])>
    ensures text { IfSome result (λ x. text.now ≡ (48 + x.0) ∷ x.1.now) }
    ensures figure { IfSome result (λ x. x.0 < 10) }
{
    match text {
        [figure, rest @ ..] if b'0' <= *figure && *figure <= b'9' => Some((*figure - b'0', rest)),
        _ => None,
    }
}

/// A number of at most nine digits as it is printed.
#[inline(always)]
fn cut_number(text: &[u8]) -> Option<(u32, &[u8])>
    ensures { IfSome result (λ x. text.now ≡ decimal x.0 ++ x.1.now) }
{
    let (first, after) = cut_figure(text)?;
    let mut number = first as u32;
    let mut rest = after;
    while let Some((figure, after)) = cut_figure(rest) {
        if number == 0 || 99_999_999 < number {
            return None;
        }
        number = 10 * number + figure as u32;
        rest = after;
    }
    Some((number, rest))
}

/// A number behind a space, at most `most`.
#[inline(always)]
fn cut_field(text: &[u8], most: u32) -> Option<(u32, &[u8])>
    ensures text { IfSome result (λ x. text.now ≡ 32 ∷ (decimal x.0 ++ x.1.now)) }
    ensures most { IfSome result (λ x. x.0 ≤ most) }
{
    let (number, rest) = cut_number(behind(text, b" ")?)?;
    if number <= most {
        Some((number, rest))
    } else {
        None
    }
}

#[inline(always)]
fn cut_end(text: &[u8]) -> Option<&[u8]>
    ensures { IfSome result (λ rest. text.now ≡ 10 ∷ rest.now) }
{
    behind(text, b"\n")
}

// How long the word at the front is, in a text that has a newline.
#[inline(always)]
fn word_length(text: &[u8]) -> usize
    ensures { result ≤ length text.now }
{
    match memchr(b'\n', text) {
        None => 0,
        Some(end) => match memchr(b' ', &text[..end]) {
            None => end,
            Some(at) => at,
        },
    }
}

/// Bytes as hexadecimal digits.
#[inline(always)]
fn cut_payload(alloc: Global, text: &[u8]) -> Option<(Payload, &[u8])>
    ensures { IfSome result (λ x. IsPayloadAtFront text.now x.0 x.1.now) }
{
    let (word, rest) = text.split_at(word_length(text));
    if word.is_empty() {
        return None;
    }
    match read_payload(alloc, HexCase::Either, word, 8192) {
        Ok(payload) => Some((payload, rest)),
        Err(_) => None,
    }
}

// ---- commands, by what is behind their first word

#[inline(always)]
fn cut_send(alloc: Global, text: &[u8]) -> Option<(Command, &[u8])>
    ensures { IfSome result (λ x. IsCommandAtFront (codes " send" ++ text.now) x.0 x.1.now) }
{
    let (ep, rest) = cut_field(text, 15)?;
    let (payload, rest) = cut_payload(alloc, behind(rest, b" ")?)?;
    let ep = EpId::new(ep as u8);
    match cut_end(rest) {
        Some(rest) => Some((
            Command::Send {
                ep,
                payload,
                reply: None,
            },
            rest,
        )),
        None => {
            let (reply, rest) = cut_field(behind(rest, b" reply")?, 15)?;
            let reply = Some(EpId::new(reply as u8));
            Some((Command::Send { ep, payload, reply }, cut_end(rest)?))
        }
    }
}

#[inline(always)]
fn cut_fetch(text: &[u8]) -> Option<(Command, &[u8])>
    ensures { IfSome result (λ x. IsCommandAtFront (codes " fetch" ++ text.now) x.0 x.1.now) }
{
    let (ep, rest) = cut_field(text, 15)?;
    let rest = cut_end(rest)?;
    Some((
        Command::Fetch {
            ep: EpId::new(ep as u8),
        },
        rest,
    ))
}

#[inline(always)]
fn cut_acknowledge(text: &[u8]) -> Option<(Command, &[u8])>
    ensures { IfSome result (λ x. IsCommandAtFront (codes " ack" ++ text.now) x.0 x.1.now) }
{
    let (ep, rest) = cut_field(text, 15)?;
    let (token, rest) = cut_field(rest, 999999999)?;
    let rest = cut_end(rest)?;
    Some((
        Command::Acknowledge {
            ep: EpId::new(ep as u8),
            token,
        },
        rest,
    ))
}

#[inline(always)]
fn cut_reply(alloc: Global, text: &[u8]) -> Option<(Command, &[u8])>
    ensures { IfSome result (λ x. IsCommandAtFront (codes " reply" ++ text.now) x.0 x.1.now) }
{
    let (ep, rest) = cut_field(text, 15)?;
    let (token, rest) = cut_field(rest, 999999999)?;
    let (payload, rest) = cut_payload(alloc, behind(rest, b" ")?)?;
    let rest = cut_end(rest)?;
    Some((
        Command::Reply {
            ep: EpId::new(ep as u8),
            token,
            payload,
        },
        rest,
    ))
}

#[inline(always)]
fn cut_read(text: &[u8]) -> Option<(Command, &[u8])>
    ensures { IfSome result (λ x. IsCommandAtFront (codes " read" ++ text.now) x.0 x.1.now) }
{
    let (ep, rest) = cut_field(text, 15)?;
    let (off, rest) = cut_field(rest, 999999999)?;
    let (len, rest) = cut_field(rest, 65535)?;
    let rest = cut_end(rest)?;
    Some((
        Command::Read {
            ep: EpId::new(ep as u8),
            off,
            len: len as u16,
        },
        rest,
    ))
}

#[inline(always)]
fn cut_write(alloc: Global, text: &[u8]) -> Option<(Command, &[u8])>
    ensures { IfSome result (λ x. IsCommandAtFront (codes " write" ++ text.now) x.0 x.1.now) }
{
    let (ep, rest) = cut_field(text, 15)?;
    let (off, rest) = cut_field(rest, 999999999)?;
    let (payload, rest) = cut_payload(alloc, behind(rest, b" ")?)?;
    let rest = cut_end(rest)?;
    Some((
        Command::Write {
            ep: EpId::new(ep as u8),
            off,
            payload,
        },
        rest,
    ))
}

/// A command that ends its line.
#[inline(always)]
fn cut_command(alloc: Global, text: &[u8]) -> Option<(Command, &[u8])>
    ensures { IfSome result (λ x. IsCommandAtFront text.now x.0 x.1.now) }
{
    if let Some(rest) = behind(text, b" send") {
        cut_send(alloc, rest)
    } else if let Some(rest) = behind(text, b" fetch") {
        cut_fetch(rest)
    } else if let Some(rest) = behind(text, b" ack") {
        cut_acknowledge(rest)
    } else if let Some(rest) = behind(text, b" read") {
        cut_read(rest)
    } else if let Some(rest) = behind(text, b" write") {
        cut_write(alloc, rest)
    } else if let Some(rest) = behind(text, b" reply") {
        cut_reply(alloc, rest)
    } else {
        None
    }
}

// ---- events, by what is behind their first word

#[inline(always)]
fn cut_do(alloc: Global, text: &[u8]) -> Option<(Event, &[u8])>
    ensures { IfSome result (λ x. IsEventAtFront (codes "do" ++ text.now) x.0 x.1.now) }
{
    let (act, rest) = cut_field(text, 63)?;
    let (command, rest) = cut_command(alloc, rest)?;
    Some((
        Event::Do {
            act: ActId::new(act as u8),
            command,
        },
        rest,
    ))
}

#[inline(always)]
fn cut_take(text: &[u8]) -> Option<(Event, &[u8])>
    ensures { IfSome result (λ x. IsEventAtFront (codes "take" ++ text.now) x.0 x.1.now) }
{
    let (to, rest) = cut_field(text, 15)?;
    let (from, rest) = cut_field(rest, 15)?;
    let rest = cut_end(rest)?;
    Some((
        Event::Take {
            to: TileId::new(to as u8),
            from: TileId::new(from as u8),
        },
        rest,
    ))
}

#[inline(always)]
fn cut_tend(text: &[u8]) -> Option<(Event, &[u8])>
    ensures { IfSome result (λ x. IsEventAtFront (codes "tend" ++ text.now) x.0 x.1.now) }
{
    let (act, rest) = cut_field(text, 63)?;
    let rest = cut_end(rest)?;
    Some((Event::Tend(ActId::new(act as u8)), rest))
}

#[inline(always)]
fn cut_switch(text: &[u8]) -> Option<(Event, &[u8])>
    ensures { IfSome result (λ x. IsEventAtFront (codes "switch" ++ text.now) x.0 x.1.now) }
{
    let (tile, rest) = cut_field(text, 15)?;
    let (act, rest) = cut_field(rest, 63)?;
    let rest = cut_end(rest)?;
    let order = Order::Switch {
        tile: TileId::new(tile as u8),
        act: ActId::new(act as u8),
    };
    Some((Event::Order(order), rest))
}

/// The event that the first line of a text is, and what follows the line.
#[inline(always)]
pub fn cut_event(alloc: Global, text: &[u8]) -> Option<(Event, &[u8])>
    ensures { IfSome result (λ x. IsEventAtFront text.now x.0 x.1.now) }
{
    if let Some(rest) = behind(text, b"do") {
        cut_do(alloc, rest)
    } else if let Some(rest) = behind(text, b"take") {
        cut_take(rest)
    } else if let Some(rest) = behind(text, b"tend") {
        cut_tend(rest)
    } else if let Some(rest) = behind(text, b"switch") {
        cut_switch(rest)
    } else {
        None
    }
}

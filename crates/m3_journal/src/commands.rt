//! The words of commands, each behind a space.

ghost use Rattle.std.specs.Prelude.{◌≡◌, ◌++◌, OnOk, string_bytes};
ghost use Rattle.m3_text.specs.Printing.{words_text};
ghost use Rattle.m3_journal.specs.Commands.{optional, command_words};

use m3_base::command::Command;
use m3_base::ids::{ActId, EpId, GrantId};
use m3_text::printing::{put_field, put_hex, put_word};
use std::alloc::AllocError;

/// A number behind its word, where there is one.
#[inline(always)]
pub fn put_optional(out: &mut String, name: &str, number: Option<u16>) -> Result<(), AllocError>
    ensures { OnOk result (string_bytes out.new ≡ string_bytes out.old ++ words_text (optional name.now number)) }
{
    match number {
        None => Ok(()),
        Some(number) => {
            put_word(out, name)?;
            put_field(out, " ", number as u64)
        }
    }
}

pub fn act_number(act: Option<ActId>) -> Option<u16>
    ensures { result ≡ act }
{
    match act {
        None => None,
        Some(act) => Some(act.number() as u16),
    }
}

pub fn grant_number(grant: Option<GrantId>) -> Option<u16>
    ensures { result ≡ grant }
{
    match grant {
        None => None,
        Some(grant) => Some(grant.number()),
    }
}

fn ep_number(ep: Option<EpId>) -> Option<u16>
    ensures { result ≡ ep }
{
    match ep {
        None => None,
        Some(ep) => Some(ep.number() as u16),
    }
}

pub fn put_command(out: &mut String, command: &Command) -> Result<(), AllocError>
    ensures { OnOk result (string_bytes out.new ≡ string_bytes out.old ++ words_text (command_words command.now)) }
{
    match command {
        Command::Send { ep, payload, reply } => {
            let ep = ep.number();
            put_field(out, " send ", ep as u64)?;
            out.push_str(" ")?;
            put_hex(out, payload.bytes())?;
            put_optional(out, "reply", ep_number(*reply))
        }
        Command::Reply { ep, token, payload } => {
            let ep = ep.number();
            put_field(out, " reply ", ep as u64)?;
            put_field(out, " ", *token as u64)?;
            out.push_str(" ")?;
            put_hex(out, payload.bytes())
        }
        Command::Fetch { ep } => {
            let ep = ep.number();
            put_field(out, " fetch ", ep as u64)
        }
        Command::Acknowledge { ep, token } => {
            let ep = ep.number();
            put_field(out, " ack ", ep as u64)?;
            put_field(out, " ", *token as u64)
        }
        Command::Read { ep, off, len } => {
            let ep = ep.number();
            put_field(out, " read ", ep as u64)?;
            put_field(out, " ", *off as u64)?;
            put_field(out, " ", *len as u64)
        }
        Command::Write { ep, off, payload } => {
            let ep = ep.number();
            put_field(out, " write ", ep as u64)?;
            put_field(out, " ", *off as u64)?;
            out.push_str(" ")?;
            put_hex(out, payload.bytes())
        }
    }
}

//! The words of events.

ghost use Rattle.std.specs.Prelude.{◌≡◌, ◌++◌, OnOk, string_bytes};
ghost use Rattle.m3_text.specs.Printing.{words_text, line_text};
ghost use Rattle.m3_journal.specs.Events.{move_words, event_words};

use crate::commands::put_command;
use crate::orders::{put_file, put_order};
use m3_base::event::{Event, Made};
use m3_text::printing::put_field;
use std::alloc::AllocError;

fn put_move(out: &mut String, made: &Option<Made>) -> Result<(), AllocError>
    ensures { OnOk result (string_bytes out.new ≡ string_bytes out.old ++ words_text (move_words made.now)) }
{
    match made {
        None => Ok(()),
        Some(Made::Command(command)) => put_command(out, command),
        Some(Made::Await(ep)) => {
            let ep = ep.number();
            put_field(out, " await ", ep as u64)
        }
        Some(Made::Quantum) => out.push_str(" quantum"),
        Some(Made::End) => out.push_str(" end"),
    }
}

pub fn put_event(out: &mut String, event: &Event, made: &Option<Made>) -> Result<(), AllocError>
    ensures { OnOk result (string_bytes out.new ≡ string_bytes out.old ++ line_text (event_words event.now made.now)) }
{
    match event {
        Event::Do { act, command } => {
            let act = act.number();
            put_field(out, "do ", act as u64)?;
            put_command(out, command)
        }
        Event::Turn(act) => {
            let act = act.number();
            put_field(out, "turn ", act as u64)?;
            put_move(out, made)
        }
        Event::Take { to, from } => {
            let to = to.number();
            let from = from.number();
            put_field(out, "take ", to as u64)?;
            put_field(out, " ", from as u64)
        }
        Event::Tend(act) => {
            let act = act.number();
            put_field(out, "tend ", act as u64)
        }
        Event::Close => out.push_str("close"),
        Event::Order(order) => put_order(out, order),
        Event::File(line) => put_file(out, line),
    }
}

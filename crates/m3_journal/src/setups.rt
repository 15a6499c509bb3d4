//! Setups as text.

ghost use Rattle.std.specs.Prelude.{◌≡◌, ◌∷◌, ◌++◌, [], OnOk, map, string_bytes};
ghost use Rattle.m3_text.specs.Printing.{words_text, line_text, text_of_lines};
ghost use Rattle.m3_text.specs.Hex.{hex_text};
ghost use Rattle.m3_journal.specs.SetupLines.{machine_words, writer_ends, reader_ends, writer_words, reader_words, pipe_words, fuel_words, setup_words};
ghost use Rattle.m3_journal.specs.JournalText.{setup_line, setup_lines};

use crate::commands::put_command;
use crate::orders::put_grant;
use m3_base::ids::{ActId, EpId};
use m3_base::setup::Setup;
use m3_base::setup_line::SetupLine;
use m3_text::printing::{put_field, put_hex};
use std::alloc::AllocError;

/// The lines of a setup.
pub fn put_setup(out: &mut String, setup: &Setup) -> Result<(), AllocError>
    ensures { OnOk result (string_bytes out.new ≡ string_bytes out.old ++ text_of_lines (setup_lines setup.now)) }
{
    put_machine(out, setup.tiles(), setup.memory())?;
    out.push_str("\n")?;
    put_later_lines(out, setup.lines())
}

fn put_later_lines(out: &mut String, lines: &[SetupLine]) -> Result<(), AllocError>
    ensures { OnOk result (string_bytes out.new ≡ string_bytes out.old ++ text_of_lines (map setup_line lines.now)) }
{
    for line in lines {
        put_setup_line(out, line)?;
        out.push_str("\n")?;
    }
    Ok(())
}

pub fn put_machine(out: &mut String, tiles: u8, memory: u32) -> Result<(), AllocError>
    ensures { OnOk result (string_bytes out.new ≡ string_bytes out.old ++ line_text (machine_words tiles memory)) }
{
    put_field(out, "machine tiles ", tiles as u64)?;
    put_field(out, " memory ", memory as u64)
}

pub fn put_setup_line(out: &mut String, line: &SetupLine) -> Result<(), AllocError>
    ensures { OnOk result (string_bytes out.new ≡ string_bytes out.old ++ setup_line line.now) }
{
    match line {
        SetupLine::Act { act, tile } => {
            let act = act.number();
            let tile = tile.number();
            put_field(out, "act ", act as u64)?;
            put_field(out, " tile ", tile as u64)
        }
        SetupLine::Quantum(quantum) => put_field(out, "quantum ", *quantum as u64),
        SetupLine::Grant(line) => put_grant(out, line),
        SetupLine::Files(grant) => {
            let grant = grant.number();
            put_field(out, "files ", grant as u64)
        }
        SetupLine::Item(act, command) => {
            let act = act.number();
            put_field(out, "prog ", act as u64)?;
            put_command(out, command)
        }
        SetupLine::AwaitItem(act, ep) => {
            let act = act.number();
            let ep = ep.number();
            put_field(out, "prog ", act as u64)?;
            put_field(out, " await ", ep as u64)
        }
        SetupLine::Writer {
            act,
            mem,
            send,
            reply,
            chunk,
            ring,
            bytes,
        } => { put_writer(out, *act, *mem, *send, *reply, *chunk, *ring, bytes.bytes()) }
        SetupLine::Reader {
            act,
            mem,
            recv,
            chunk,
            ring,
            fuel,
        } => { put_reader(out, *act, *mem, *recv, *chunk, *ring, *fuel) }
        SetupLine::Boxed { act, logic, fuel } => {
            let act = act.number();
            put_field(out, "box ", act as u64)?;
            put_field(out, " ", *logic as u64)?;
            put_fuel(out, *fuel)
        }
    }
}

fn put_writer(
    out: &mut String,
    act: ActId,
    mem: EpId,
    send: EpId,
    reply: EpId,
    chunk: u16,
    ring: u8,
    bytes: &[u8],
) -> Result<(), AllocError>
    ensures { OnOk result (string_bytes out.new ≡ string_bytes out.old ++ line_text
        (writer_words act mem send reply chunk ring bytes.now)) }
{
    put_writer_ends(out, act, mem, send, reply)?;
    put_pipe(out, chunk, ring)?;
    put_bytes(out, bytes)
}

fn put_reader(
    out: &mut String,
    act: ActId,
    mem: EpId,
    recv: EpId,
    chunk: u16,
    ring: u8,
    fuel: u16,
) -> Result<(), AllocError>
    ensures { OnOk result (string_bytes out.new ≡ string_bytes out.old ++ line_text
        (reader_words act mem recv chunk ring fuel)) }
{
    put_reader_ends(out, act, mem, recv)?;
    put_pipe(out, chunk, ring)?;
    put_fuel(out, fuel)
}

fn put_writer_ends(
    out: &mut String,
    act: ActId,
    mem: EpId,
    send: EpId,
    reply: EpId,
) -> Result<(), AllocError>
    ensures { OnOk result (string_bytes out.new ≡ string_bytes out.old ++ line_text (writer_ends act mem send reply)) }
{
    let act = act.number();
    let mem = mem.number();
    let send = send.number();
    let reply = reply.number();
    put_field(out, "writer ", act as u64)?;
    put_field(out, " mem ", mem as u64)?;
    put_field(out, " send ", send as u64)?;
    put_field(out, " reply ", reply as u64)
}

fn put_reader_ends(out: &mut String, act: ActId, mem: EpId, recv: EpId) -> Result<(), AllocError>
    ensures { OnOk result (string_bytes out.new ≡ string_bytes out.old ++ line_text (reader_ends act mem recv)) }
{
    let act = act.number();
    let mem = mem.number();
    let recv = recv.number();
    put_field(out, "reader ", act as u64)?;
    put_field(out, " mem ", mem as u64)?;
    put_field(out, " recv ", recv as u64)
}

fn put_pipe(out: &mut String, chunk: u16, ring: u8) -> Result<(), AllocError>
    ensures { OnOk result (string_bytes out.new ≡ string_bytes out.old ++ words_text (pipe_words chunk ring)) }
{
    put_field(out, " chunk ", chunk as u64)?;
    put_field(out, " ring ", ring as u64)
}

fn put_bytes(out: &mut String, bytes: &[u8]) -> Result<(), AllocError>
    ensures { OnOk result (string_bytes out.new ≡ string_bytes out.old ++ words_text (hex_text bytes.now ∷ [])) }
{
    out.push_str(" ")?;
    put_hex(out, bytes)
}

fn put_fuel(out: &mut String, fuel: u16) -> Result<(), AllocError>
    ensures { OnOk result (string_bytes out.new ≡ string_bytes out.old ++ words_text (fuel_words fuel)) }
{
    put_field(out, " fuel ", fuel as u64)
}

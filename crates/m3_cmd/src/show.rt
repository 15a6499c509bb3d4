//! Packets are shown as lines.

ghost use Rattle.std.specs.Prelude.{◌≡◌, ◌+◌, ◌≤◌, ◌∷◌, ◌++◌, [], length, IfOk, IfErr, OnOk, string_bytes};
ghost use Rattle.m3_cmd.specs.declared.show.ShowRefusal.TheVariants as ShowRefusal;
ghost use Rattle.m3_cmd.specs.declared.words.InputForm.{InputForm as InputFormValue};
ghost use Rattle.m3_cmd.specs.CommandLine.{limit_of};
ghost use Rattle.m3_cmd.specs.ShowContract.{IsNamed, IsNext, IsNone, IsRefusalLine, IsShowAnswer, IsShown, IsWhy, bad_byte_line, kind_word, packet_line, place_of, refused_after};

use crate::output::Output;
use m3_base::packet::Packet;
use m3_journal::put_packet;
use m3_wire::{WireRefusal, decode_packet};
use std::alloc::{AllocError, Global};
use std::fmt::Write;

/// Why bytes aren't shown.
#[derive(Debug, Drop)]
pub enum ShowRefusal {
    /// So many bytes are packets, and those behind them are refused.
    Bad { before: usize, refusal: WireRefusal },
    /// Memory ran out; nothing is said of the bytes.
    NoMemory,
}

fn put_line(out: &mut String, packet: &Packet) -> Result<(), AllocError>
    ensures { OnOk result (string_bytes out.new ≡ string_bytes out.old ++ (packet_line packet.now ++ 10 ∷ [])) }
{
    put_packet(out, packet)?;
    out.push_str("\n")
}

fn refused_after(before: usize, refusal: WireRefusal) -> ShowRefusal
    ensures { result ≡ refused_after before refusal }
{
    match refusal {
        WireRefusal::NoMemory => ShowRefusal::NoMemory,
        _ => ShowRefusal::Bad { before, refusal },
    }
}

/// Puts the line of the packet in the first bytes, and tells how many they are.
fn put_next(alloc: Global, out: &mut String, rest: &[u8]) -> Result<usize, WireRefusal>
    ensures next { IfOk result (λ n. IsNext (string_bytes out.old) (string_bytes out.new) rest.now n) }
    ensures refused { IfErr result (λ e. IsNone rest.now e) }
{
    let (packet, len) = decode_packet(alloc, rest)?;
    match put_line(out, &packet) {
        Ok(()) => Ok(len),
        Err(_) => Err(WireRefusal::NoMemory),
    }
}

/// A line for each of the packets whose spellings, one after the other, are these bytes.
fn lines_of(alloc: Global, bytes: &[u8]) -> Result<String, ShowRefusal>
    ensures shown { IfOk result (λ s. IsShown bytes.now (string_bytes s)) }
    ensures bad { IfErr result (λ e. IsWhy bytes.now e) }
{
    let mut out = String::new(alloc);
    let mut rest = bytes;
    while !rest.is_empty() {
        match put_next(alloc, &mut out, rest) {
            Ok(len) => rest = &rest[len..],
            Err(refusal) => return Err(refused_after(bytes.len() - rest.len(), refusal)),
        }
    }
    Ok(out)
}

fn place(refusal: WireRefusal) -> usize
    ensures { result ≡ place_of refusal }
{
    match refusal {
        WireRefusal::Short { at } => at,
        WireRefusal::BadKind { at } => at,
        WireRefusal::BadFlags { at } => at,
        WireRefusal::BadReserved { at } => at,
        WireRefusal::BadField { at } => at,
        WireRefusal::NoMemory => 0,
    }
}

fn kind_word(refusal: WireRefusal) -> &'static str
    ensures { result.now ≡ kind_word refusal }
{
    match refusal {
        WireRefusal::Short { .. } => "short",
        WireRefusal::BadKind { .. } => "kind",
        WireRefusal::BadFlags { .. } => "flags",
        WireRefusal::BadReserved { .. } => "reserved",
        WireRefusal::BadField { .. } => "field",
        WireRefusal::NoMemory => "memory",
    }
}

/// The line that names the refused byte, where so many bytes stand before those that are refused.
fn bad_byte_line(alloc: Global, before: usize, refusal: WireRefusal) -> Result<String, AllocError>
    requires { before + place_of refusal ≤ limit_of InputFormValue.Show }
    ensures { IfOk result (λ s. string_bytes s ≡ bad_byte_line before refusal) }
{
    let at = before + place(refusal);
    let kind = kind_word(refusal);
    let mut out = String::new(alloc);
    write!(out, "bad byte {at}: {kind}\n")?;
    Ok(out)
}

/// The line of bytes that aren't shown.
fn refused(alloc: Global, why: ShowRefusal) -> Result<Output, AllocError>
    requires { IsNamed why }
    ensures { IfOk result (λ o. IsRefusalLine why o.status o.text.items) }
{
    match why {
        ShowRefusal::NoMemory => Err(AllocError),
        ShowRefusal::Bad { before, refusal } => {
            let line = bad_byte_line(alloc, before, refusal)?;
            Ok(Output {
                status: 2,
                text: line.into_bytes(),
            })
        }
    }
}

/// The lines of the packets that these bytes are, or that of the first byte that is bad.
pub fn show_packets(alloc: Global, bytes: &[u8]) -> Result<Output, AllocError>
    requires { length bytes.now ≤ limit_of InputFormValue.Show }
    ensures { IfOk result (λ o. IsShowAnswer bytes.now o.status o.text.items) }
{
    match lines_of(alloc, bytes) {
        Err(why) => refused(alloc, why),
        Ok(text) => Ok(Output {
            status: 0,
            text: text.into_bytes(),
        }),
    }
}

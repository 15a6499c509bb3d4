//! Lines of setups, by their words.

ghost use Rattle.std.specs.Prelude.{◌≡◌, length, IfOk};
ghost use Rattle.m3_text.specs.Lines.{texts};
ghost use Rattle.m3_text.specs.Refusable.{Gives};
ghost use Rattle.m3_text.specs.LineForm.{form_test};
ghost use Rattle.m3_script.specs.Setups.{machine_form, act_form, await_item_form, writer_form, reader_form, box_form, machine_of, act_of, quantum_of, files_of, await_item_of, act_command_of, item_of, writer_of, reader_of, box_of, setup_line_of};

use crate::commands::read_command;
use crate::fields::{read_fuel, read_u32};
use crate::grants::read_grant_line;
use m3_base::command::Command;
use m3_base::ids::ActId;
use m3_base::setup_line::SetupLine;
use m3_text::fields::{read_act, read_ep, read_grant, read_payload, read_tile};
use m3_text::hexes::HexCase;
use m3_text::numbers::number;
use m3_text::refusal::LineRefusal;
use m3_text::shapes::{count_test, cut_first, form_test, word};
use m3_text::sides::both;
use std::alloc::Global;

/// A line of a setup after that of the machine, by its words.
#[tactic(auto, unfolding(crate::specs::Setups::setup_line_of))]
pub fn read_setup_line(
    alloc: Global,
    case: HexCase,
    words: &[&[u8]],
) -> Result<SetupLine, LineRefusal>
    ensures { Gives (λ l. l) result (setup_line_of case (texts words.now)) }
{
    let (first, rest) = cut_first(words);
    if first == b"act".as_slice() {
        read_act_line(rest)
    } else if first == b"prog".as_slice() {
        read_item(alloc, case, rest)
    } else if first == b"writer".as_slice() {
        read_writer(alloc, case, rest)
    } else if first == b"reader".as_slice() {
        read_reader(rest)
    } else if first == b"box".as_slice() {
        read_box(rest)
    } else if first == b"quantum".as_slice() {
        read_quantum(rest)
    } else if first == b"files".as_slice() {
        read_files(rest)
    } else {
        Ok(SetupLine::Grant(read_grant_line(words)?))
    }
}

/// The tiles and the bytes of memory of `machine tiles N memory B`, by the words after the first.
#[tactic(auto, unfolding(crate::specs::Setups::machine_of))]
pub fn read_machine(words: &[&[u8]]) -> Result<(u8, u32), LineRefusal>
    ensures { Gives (λ m. (m.0, m.1)) result (machine_of (texts words.now)) }
{
    machine_test(words)?;
    let tiles = number(word(words, 1), 3, 16)? as u8;
    let memory = number(word(words, 3), 1, 1048576)? as u32;
    Ok((tiles, memory))
}

#[tactic(auto, unfolding(crate::specs::Setups::machine_form))]
fn machine_test(words: &[&[u8]]) -> Result<(), LineRefusal>
    ensures test { Gives (λ u. u) result (form_test machine_form (texts words.now)) }
    ensures count { IfOk result (λ u. length words.now ≡ 4) }
{
    form_test(&[b"tiles", b"", b"memory", b""], words)
}

/// `act A tile T`, by the words after the first.
#[tactic(auto, unfolding(crate::specs::Setups::act_of))]
fn read_act_line(words: &[&[u8]]) -> Result<SetupLine, LineRefusal>
    ensures { Gives (λ l. l) result (act_of (texts words.now)) }
{
    act_test(words)?;
    let act = read_act(word(words, 0))?;
    let tile = read_tile(word(words, 2))?;
    Ok(SetupLine::Act { act, tile })
}

#[tactic(auto, unfolding(crate::specs::Setups::act_form))]
fn act_test(words: &[&[u8]]) -> Result<(), LineRefusal>
    ensures test { Gives (λ u. u) result (form_test act_form (texts words.now)) }
    ensures count { IfOk result (λ u. length words.now ≡ 3) }
{
    form_test(&[b"", b"tile", b""], words)
}

/// `quantum Q`
#[tactic(auto, unfolding(crate::specs::Setups::quantum_of))]
fn read_quantum(words: &[&[u8]]) -> Result<SetupLine, LineRefusal>
    ensures { Gives (λ l. l) result (quantum_of (texts words.now)) }
{
    count_test(words, 1)?;
    let quantum = number(word(words, 0), 1, 64)? as u8;
    Ok(SetupLine::Quantum(quantum))
}

/// `files G`
#[tactic(auto, unfolding(crate::specs::Setups::files_of))]
fn read_files(words: &[&[u8]]) -> Result<SetupLine, LineRefusal>
    ensures { Gives (λ l. l) result (files_of (texts words.now)) }
{
    count_test(words, 1)?;
    let grant = read_grant(word(words, 0))?;
    Ok(SetupLine::Files(grant))
}

/// `prog A COMMAND`, `prog A await E`
#[tactic(auto, unfolding(crate::specs::Setups::item_of))]
fn read_item(alloc: Global, case: HexCase, words: &[&[u8]]) -> Result<SetupLine, LineRefusal>
    ensures { Gives (λ l. l) result (item_of case (texts words.now)) }
{
    if 2 <= words.len() && word(words, 1) == b"await".as_slice() {
        read_await_item(words)
    } else {
        let (act, command) = read_act_command(alloc, case, words)?;
        Ok(SetupLine::Item(act, command))
    }
}

/// `prog A await E`
#[tactic(auto, unfolding(crate::specs::Setups::await_item_of))]
fn read_await_item(words: &[&[u8]]) -> Result<SetupLine, LineRefusal>
    ensures { Gives (λ l. l) result (await_item_of (texts words.now)) }
{
    await_item_test(words)?;
    let act = read_act(word(words, 0))?;
    let ep = read_ep(word(words, 2))?;
    Ok(SetupLine::AwaitItem(act, ep))
}

#[tactic(auto, unfolding(crate::specs::Setups::await_item_form))]
fn await_item_test(words: &[&[u8]]) -> Result<(), LineRefusal>
    ensures test { Gives (λ u. u) result (form_test await_item_form (texts words.now)) }
    ensures count { IfOk result (λ u. length words.now ≡ 3) }
{
    form_test(&[b"", b"await", b""], words)
}

/// `A COMMAND`: an activity and its command.
#[tactic(auto, using(m3_text::proofs::JoinedCauses::gives_both), unfolding(crate::specs::Setups::act_command_of))]
#[inline(always)]
pub fn read_act_command(
    alloc: Global,
    case: HexCase,
    words: &[&[u8]],
) -> Result<(ActId, Command), LineRefusal>
    ensures { Gives (λ x. (x.0, x.1)) result (act_command_of case (texts words.now)) }
{
    let (act, command) = cut_first(words);
    both(read_act(act), read_command(alloc, case, command))
}

/// `writer A mem M send S reply R chunk C ring N HEX`
#[tactic(auto, unfolding(crate::specs::Setups::writer_of))]
fn read_writer(alloc: Global, case: HexCase, words: &[&[u8]]) -> Result<SetupLine, LineRefusal>
    ensures { Gives (λ l. l) result (writer_of case (texts words.now)) }
{
    writer_test(words)?;
    let act = read_act(word(words, 0))?;
    let mem = read_ep(word(words, 2))?;
    let send = read_ep(word(words, 4))?;
    let reply = read_ep(word(words, 6))?;
    let chunk = number(word(words, 8), 1, 4096)? as u16;
    let ring = number(word(words, 10), 1, 32)? as u8;
    let bytes = read_payload(alloc, case, word(words, 11), 65536)?;
    Ok(SetupLine::Writer {
        act,
        mem,
        send,
        reply,
        chunk,
        ring,
        bytes,
    })
}

#[tactic(auto, unfolding(crate::specs::Setups::writer_form))]
fn writer_test(words: &[&[u8]]) -> Result<(), LineRefusal>
    ensures test { Gives (λ u. u) result (form_test writer_form (texts words.now)) }
    ensures count { IfOk result (λ u. length words.now ≡ 12) }
{
    form_test(
        &[
            b"", b"mem", b"", b"send", b"", b"reply", b"", b"chunk", b"", b"ring", b"", b"",
        ],
        words,
    )
}

/// `reader A mem M recv E chunk C ring N fuel F`
#[tactic(auto, unfolding(crate::specs::Setups::reader_of))]
fn read_reader(words: &[&[u8]]) -> Result<SetupLine, LineRefusal>
    ensures { Gives (λ l. l) result (reader_of (texts words.now)) }
{
    reader_test(words)?;
    let act = read_act(word(words, 0))?;
    let mem = read_ep(word(words, 2))?;
    let recv = read_ep(word(words, 4))?;
    let chunk = number(word(words, 6), 1, 4096)? as u16;
    let ring = number(word(words, 8), 1, 32)? as u8;
    let fuel = read_fuel(word(words, 10))?;
    Ok(SetupLine::Reader {
        act,
        mem,
        recv,
        chunk,
        ring,
        fuel,
    })
}

#[tactic(auto, unfolding(crate::specs::Setups::reader_form))]
fn reader_test(words: &[&[u8]]) -> Result<(), LineRefusal>
    ensures test { Gives (λ u. u) result (form_test reader_form (texts words.now)) }
    ensures count { IfOk result (λ u. length words.now ≡ 11) }
{
    form_test(
        &[
            b"", b"mem", b"", b"recv", b"", b"chunk", b"", b"ring", b"", b"fuel", b"",
        ],
        words,
    )
}

/// `box A K fuel F`
#[tactic(auto, unfolding(crate::specs::Setups::box_of))]
fn read_box(words: &[&[u8]]) -> Result<SetupLine, LineRefusal>
    ensures { Gives (λ l. l) result (box_of (texts words.now)) }
{
    box_test(words)?;
    let act = read_act(word(words, 0))?;
    let logic = read_u32(word(words, 1))?;
    let fuel = read_fuel(word(words, 3))?;
    Ok(SetupLine::Boxed { act, logic, fuel })
}

#[tactic(auto, unfolding(crate::specs::Setups::box_form))]
fn box_test(words: &[&[u8]]) -> Result<(), LineRefusal>
    ensures test { Gives (λ u. u) result (form_test box_form (texts words.now)) }
    ensures count { IfOk result (λ u. length words.now ≡ 4) }
{
    form_test(&[b"", b"", b"fuel", b""], words)
}

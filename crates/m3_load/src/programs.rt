//! The programs of a load: rounds of clients and servers.

ghost use Rattle.std.specs.Prelude.{◌≡◌, ◌<◌, ◌≤◌, ◌++◌, IfOk, OnOk};
ghost use Rattle.std.specs.List.{flat_map};
ghost use Rattle.m3_base.specs.Load.Payloads.{load_bytes};
ghost use Rattle.m3_base.specs.Load.Setup.{client_round, server_round, rounds};

use m3_base::command::Command;
use m3_base::ids::{ActId, EpId};
use m3_base::payload::Payload;
use m3_base::setup_line::SetupLine;
use std::alloc::{AllocError, Global};

/// What an activity sends in a round.
fn load_payload(alloc: Global, act: ActId, round: u16) -> Result<Payload, AllocError>
    ensures { IfOk result (λ p. p ≡ load_bytes act round) }
{
    let place = round as u64 + 1000 * act.number() as u64;
    let n = (1_103_515_245 * place + 12_345) % 4_294_967_296;
    let bytes = [
        (n % 256) as u8,
        (n / 256 % 256) as u8,
        (n / 65_536 % 256) as u8,
        (n / 16_777_216 % 256) as u8,
    ];
    Ok(Payload::new(Vec::from_slice(alloc, &bytes)?))
}

/// A client's round: a send, and its reply awaited, fetched and acknowledged.
fn push_client_round(
    alloc: Global,
    lines: &mut Vec<SetupLine>,
    act: ActId,
    round: u16,
) -> Result<(), AllocError>
    ensures { OnOk result (lines.new.items ≡ lines.old.items ++ client_round act round) }
{
    let ep = EpId::new(1);
    let send = Command::Send {
        ep: EpId::new(0),
        payload: load_payload(alloc, act, round)?,
        reply: Some(ep),
    };
    lines.push(SetupLine::Item(act, send))?;
    lines.push(SetupLine::AwaitItem(act, ep))?;
    lines.push(SetupLine::Item(act, Command::Fetch { ep }))?;
    let token = round as u32;
    lines.push(SetupLine::Item(act, Command::Acknowledge { ep, token }))?;
    Ok(())
}

/// A server's round: a message awaited, fetched and replied to.
fn push_server_round(
    alloc: Global,
    lines: &mut Vec<SetupLine>,
    act: ActId,
    round: u16,
) -> Result<(), AllocError>
    ensures { OnOk result (lines.new.items ≡ lines.old.items ++ server_round act round) }
{
    let ep = EpId::new(0);
    lines.push(SetupLine::AwaitItem(act, ep))?;
    lines.push(SetupLine::Item(act, Command::Fetch { ep }))?;
    let reply = Command::Reply {
        ep,
        token: round as u32,
        payload: load_payload(alloc, act, round)?,
    };
    lines.push(SetupLine::Item(act, reply))?;
    Ok(())
}

fn push_client(
    alloc: Global,
    lines: &mut Vec<SetupLine>,
    act: ActId,
    count: u16,
) -> Result<(), AllocError>
    ensures { OnOk result (lines.new.items ≡ lines.old.items ++ rounds client_round count act) }
{
    for round in 0..count {
        push_client_round(alloc, lines, act, round)?;
    }
    Ok(())
}

fn push_server(
    alloc: Global,
    lines: &mut Vec<SetupLine>,
    act: ActId,
    count: u16,
) -> Result<(), AllocError>
    ensures { OnOk result (lines.new.items ≡ lines.old.items ++ rounds server_round count act) }
{
    for round in 0..count {
        push_server_round(alloc, lines, act, round)?;
    }
    Ok(())
}

/// The programs of these clients, of so many rounds each.
pub fn push_clients(
    alloc: Global,
    lines: &mut Vec<SetupLine>,
    acts: &[ActId],
    count: u16,
) -> Result<(), AllocError>
    ensures { OnOk result (lines.new.items ≡ lines.old.items ++ flat_map (rounds client_round count) acts.now) }
{
    for act in acts {
        push_client(alloc, lines, *act, count)?;
    }
    Ok(())
}

/// The programs of these servers, of so many rounds each.
pub fn push_servers(
    alloc: Global,
    lines: &mut Vec<SetupLine>,
    acts: &[ActId],
    count: u16,
) -> Result<(), AllocError>
    ensures { OnOk result (lines.new.items ≡ lines.old.items ++ flat_map (rounds server_round count) acts.now) }
{
    for act in acts {
        push_server(alloc, lines, *act, count)?;
    }
    Ok(())
}

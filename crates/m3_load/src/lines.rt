//! The lines of a load.

ghost use Rattle.std.specs.Prelude.{◌≡◌, ◌++◌, IfOk, OnOk, map};
ghost use Rattle.m3_base.specs.Load.Setup.{home_line, inbox_line, send_line, clients, servers, load_lines};
ghost use Rattle.m3_load.specs.MachineLines.{machine_lines};

use crate::programs::{push_clients, push_servers};
use m3_base::ids::{ActId, EpId, GrantId, TileId};
use m3_base::order::GrantLine;
use m3_base::setup_line::SetupLine;
use std::alloc::{AllocError, Global};

/// The activities that send.
fn clients() -> [ActId; 4]
    ensures { result ≡ clients }
{
    [ActId::new(0), ActId::new(1), ActId::new(2), ActId::new(3)]
}

/// The activities that reply.
fn servers() -> [ActId; 4]
    ensures { result ≡ servers }
{
    [ActId::new(4), ActId::new(5), ActId::new(6), ActId::new(7)]
}

/// The activities, two on each tile.
fn push_homes(lines: &mut Vec<SetupLine>, acts: &[ActId]) -> Result<(), AllocError>
    ensures { OnOk result (lines.new.items ≡ lines.old.items ++ map home_line acts.now) }
{
    for act in acts {
        let tile = TileId::new(2 + act.number() % 4);
        lines.push(SetupLine::Act { act: *act, tile })?;
    }
    Ok(())
}

/// A receive endpoint of each, with 4 slots of 8 bytes.
fn push_inboxes(lines: &mut Vec<SetupLine>, ep: EpId, acts: &[ActId]) -> Result<(), AllocError>
    ensures { OnOk result (lines.new.items ≡ lines.old.items ++ map (inbox_line ep) acts.now) }
{
    for act in acts {
        lines.push(SetupLine::Grant(GrantLine::Recv {
            act: *act,
            ep,
            slots: 4,
            size: 8,
        }))?;
    }
    Ok(())
}

/// A send endpoint of each, to the server of the next client.
fn push_sends(lines: &mut Vec<SetupLine>, acts: &[ActId]) -> Result<(), AllocError>
    ensures { OnOk result (lines.new.items ≡ lines.old.items ++ map send_line acts.now) }
{
    for act in acts {
        let number = act.number();
        lines.push(SetupLine::Grant(GrantLine::Send {
            act: *act,
            ep: EpId::new(0),
            of: GrantId::new(1 + (number as u16 + 1) % 4),
            label: 100 + number as u64,
            credits: 2,
        }))?;
    }
    Ok(())
}

/// The activities and their grants, before their programs.
fn push_machine(
    lines: &mut Vec<SetupLine>,
    clients: &[ActId],
    servers: &[ActId],
) -> Result<(), AllocError>
    ensures { OnOk result (lines.new.items ≡ lines.old.items ++ machine_lines clients.now servers.now) }
{
    push_homes(lines, clients)?;
    push_homes(lines, servers)?;
    lines.push(SetupLine::Quantum(4))?;
    push_inboxes(lines, EpId::new(0), servers)?;
    push_inboxes(lines, EpId::new(1), clients)?;
    push_sends(lines, clients)
}

/// All lines of the load of so many rounds.
pub fn load_lines(alloc: Global, rounds: u16) -> Result<Vec<SetupLine>, AllocError>
    ensures { IfOk result (λ v. v.items ≡ load_lines rounds) }
{
    let clients = clients();
    let servers = servers();
    let mut lines = Vec::new(alloc);
    push_machine(&mut lines, &clients, &servers)?;
    push_clients(alloc, &mut lines, &clients, rounds)?;
    push_servers(alloc, &mut lines, &servers, rounds)?;
    Ok(lines)
}

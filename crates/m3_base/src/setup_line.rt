//! The lines of a setup.

use crate::command::Command;
use crate::ids::{ActId, EpId, GrantId, TileId};
use crate::order::GrantLine;
use crate::payload::Payload;

/// A line of a setup, after its first.
#[derive(Debug, Drop)]
pub enum SetupLine {
    /// An activity and its home tile.
    Act {
        act: ActId,
        tile: TileId,
    },
    /// How many Do moves a stay has on a tile of several activities, 1 to 64.
    Quantum(u8),
    /// A grant that is installed at opening.
    Grant(GrantLine),
    /// The range grant that the files lie in.
    Files(GrantId),
    /// A command of the activity's list program.
    Item(ActId, Command),
    /// An await of the activity's list program.
    AwaitItem(ActId, EpId),
    /// The program that writes these bytes into a pipe, in chunks of 1 to 4,096 bytes over a ring of 1 to 32.
    Writer {
        act: ActId,
        mem: EpId,
        send: EpId,
        reply: EpId,
        chunk: u16,
        ring: u8,
        bytes: Payload,
    },
    /// The program that reads a pipe. Its fuel, 1 to 16,384, is how often it may be asked for a move.
    Reader {
        act: ActId,
        mem: EpId,
        recv: EpId,
        chunk: u16,
        ring: u8,
        fuel: u16,
    },
    /// A handed-in logic as the program, counted from 0 among those handed in.
    Boxed {
        act: ActId,
        logic: u32,
        fuel: u16,
    },
}

/// The kind of an activity's program. Only items make a program of several lines.
#[derive(Clone, Copy, Debug, PartialEq, Eq, Drop)]
pub enum ProgramKind {
    /// It has none.
    Absent,
    /// A list of items.
    Listed,
    /// A pipe's writer or reader, or a handed-in logic.
    Single,
}

//! Journals of runs, and the closing lines that audit them.

use crate::event::Entry;
use crate::ids::{ActId, GrantId, TileId};
use crate::setup::Setup;
use std::marker::Model;

/// A setup and the entries of a run from its opening. Contracts see the entries as a list.
#[derive(Debug, Drop)]
pub struct Journal {
    pub setup: Setup,
    pub entries: Vec<Entry>,
}

/// A closing line.
#[derive(Clone, Copy, Debug, PartialEq, Eq, Drop)]
pub enum AuditLine {
    /// The credits of a live send grant: those that its endpoint holds, those that fly, those of messages that wait in
    /// the receiver, and their limit.
    Credit {
        grant: GrantId,
        held: u32,
        flying: u32,
        queued: u32,
        limit: u32,
    },
    /// The current activity of a tile, where it has one.
    Tile {
        tile: TileId,
        act: Option<ActId>,
    },
    /// How many data packets are on links and in hold lists.
    Flights(u32),
    /// Whether the driver has nothing more to do.
    Quiet(bool),
}

/// The closing lines of a journal, in their order. Contracts see their list.
#[derive(Debug, Drop)]
pub struct Audit {
    pub lines: Vec<AuditLine>,
}

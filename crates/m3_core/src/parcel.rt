//! What goes between tiles.

use crate::context::Context;
use m3_base::command::Answer;
use m3_base::ids::{ActId, GrantId, TileId};
use m3_base::packet::Packet;

/// An answer that the kernel applied to an activity that was away: its command's number, and the answer.
#[derive(Debug, Drop)]
pub struct Heard {
    pub number: u32,
    pub answer: Answer,
}

/// What a link carries.
#[derive(Drop)]
pub enum Parcel {
    Data(Packet),
    /// The tile is to save this activity, which is its current one.
    Save(ActId),
    /// A saved context: whether a pending Await of it has no unread message, and whether its program has ended.
    Saved {
        act: ActId,
        context: Context,
        waiting: bool,
        ended: bool,
    },
    /// The activity is the tile's current one again. Its program sees what came of its last command while it was away.
    Restore {
        act: ActId,
        context: Context,
        heard: Option<Heard>,
    },
    /// The activity's stay leaves its tile to others.
    Yield(ActId),
    /// The endpoint of this grant became free.
    Closed(GrantId),
}

/// A parcel and the tile that it goes to.
#[derive(Drop)]
pub struct Emit {
    pub to: TileId,
    pub parcel: Parcel,
}

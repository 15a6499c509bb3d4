//! Steps of the ideal machine, in which every activity has a tile of its own.

use crate::command::Command;
use crate::ids::{ActId, EpId, FlightId, GrantId};
use crate::order::GrantLine;

/// A step of the ideal machine.
#[derive(Debug, Drop)]
pub enum Step {
    /// The activity issues a command.
    Issue(ActId, Command),
    /// Its program asks whether the endpoint has an unread message.
    Await(ActId, EpId),
    /// A flight that isn't an answer lands.
    Land(FlightId),
    /// An answer ends its command.
    Answered(FlightId),
    /// A grant is made, or refused.
    Make(GrantLine),
    /// A grant is revoked, or the revoke is refused.
    Revoke(GrantId),
    /// The Close of a grant is sent.
    Close(GrantId),
    /// The endpoint of a closing grant becomes free.
    Closed(GrantId),
    /// A closed grant is done.
    Done(GrantId),
}

//! What a turn asks for.

use m3_base::event::IdleWhy;
use m3_base::ids::EpId;

/// What the next turn of an activity asks for, before it is made.
#[derive(Clone, Copy, Debug, PartialEq, Eq, Drop)]
pub enum Ask {
    /// Nothing: the turn is idle.
    Idle(IdleWhy),
    /// Nothing: this stay has made as many Do moves as the quantum, and its Yield is due.
    Quantum,
    /// Nothing: this Await pends.
    Pending(EpId),
    /// The program's next move.
    Program,
}

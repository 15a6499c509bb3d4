//! What orders come to, why they are refused, and what a Close comes to.

ghost use Rattle.std.specs.Prelude.{◌≡◌};
ghost use Rattle.m3_kernel.specs.OrderAnswers.{refused_for};
ghost use Rattle.m3_kernel.specs.declared.order.OrderRefusal.{OrderRefusal};

use m3_base::ids::{ActId, FlightId, GrantId};
use m3_core::parcel::Emit;
use m3_grants::refusal::GrantRefusal;
use std::alloc::AllocError;
use thiserror::Error;

/// What an order came to.
#[derive(Drop)]
pub enum Ordered {
    /// A switch: the activity that is at the tile leaves, and its Save goes out.
    Save {
        leaving: ActId,
        emit: Emit,
    },
    /// A grant with its Install, which goes to the holder's tile; without an emit it is held for the holder.
    Granted {
        grant: GrantId,
        id: FlightId,
        emit: Option<Emit>,
    },
    /// A revoke: the grant and all under it are closing.
    Revoking(GrantId),
}

/// Why an order wasn't carried out.
#[derive(Clone, Copy, Debug, PartialEq, Eq, Drop, Error)]
pub enum OrderRefusal {
    /// The activity's home isn't the tile of the switch.
    #[error("the activity's home is another tile")]
    NotHome,
    /// It is Placed or Coming already.
    #[error("the activity is there already")]
    Already,
    /// A switch of the tile is under way.
    #[error("a switch of the tile is under way")]
    Leaving,
    /// The grant isn't made, or not revoked.
    #[error("{0}")]
    Grant(GrantRefusal),
    #[error("no memory is left")]
    NoMemory,
}

impl From<AllocError> for OrderRefusal {
    ghost from_gives = { λ _ e. e ≡ OrderRefusal.NoMemory };

    fn from(_error: AllocError) -> OrderRefusal {
        OrderRefusal::NoMemory
    }
}

impl From<GrantRefusal> for OrderRefusal {
    ghost from_gives = { λ why e. e ≡ refused_for why };

    fn from(why: GrantRefusal) -> OrderRefusal {
        match why {
            GrantRefusal::NoMemory => OrderRefusal::NoMemory,
            why => OrderRefusal::Grant(why),
        }
    }
}

/// A Close, which goes to the holder's tile; without an emit it is held for the holder.
#[derive(Drop)]
pub struct CloseSent {
    pub grant: GrantId,
    pub id: FlightId,
    pub emit: Option<Emit>,
}

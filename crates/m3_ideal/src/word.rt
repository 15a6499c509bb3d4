//! What a step says.

use m3_base::command::{Answer, Refusal};
use m3_base::event::No;
use m3_base::ids::{FlightId, GrantId};
use m3_base::message::Message;

/// What a step of the ideal machine says.
#[derive(Debug, Drop)]
pub enum Word {
    /// The command is refused.
    Refused(Refusal),
    /// No message was unread.
    Nothing,
    /// The message was fetched under this token.
    Fetched {
        token: u32,
        message: Message,
    },
    /// The slot is free, and this credit went out, if one is owed.
    Acknowledged(Option<FlightId>),
    /// The command flies.
    Flies(FlightId),
    /// Whether the endpoint has an unread message.
    Present(bool),
    /// The flight landed.
    Landed(FlightId),
    /// The message was refused where it landed.
    LandRefused(FlightId, Refusal),
    /// The credit went to the endpoint of this grant.
    Credited(FlightId, GrantId),
    /// No endpoint has this grant.
    Discarded(FlightId, GrantId),
    /// The record of this grant stands at its endpoint.
    Installed(FlightId, GrantId),
    /// The record of this grant is closing, and a command of its endpoint still flies.
    StartsClosing(FlightId, GrantId),
    /// The record of this grant is closing, and no command of its endpoint flies.
    Closed(FlightId, GrantId),
    /// The command ended with this answer. The grant is the one whose endpoint becomes free with it.
    Answered {
        id: FlightId,
        answer: Answer,
        closed: Option<GrantId>,
    },
    /// No grant was made or revoked.
    No(No),
    /// The grant was made, and its Install went out.
    Made(GrantId, FlightId),
    /// The grant is being revoked.
    Revoking(GrantId),
    /// The Close of the grant went out.
    CloseSent(GrantId, FlightId),
    /// The endpoint of the grant is free.
    Freed(GrantId),
    /// The grant is done; whether it was the root of a revoke.
    Done {
        grant: GrantId,
        is_root: bool,
    },
}

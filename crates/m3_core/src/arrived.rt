//! What a packet comes to at the context of its activity.

use m3_base::command::{Answer, Refusal};
use m3_base::ids::{FlightId, GrantId};
use m3_base::packet::Packet;

/// What a packet came to.
#[derive(Debug, Drop)]
pub enum Arrived {
    /// The message or reply joined the unread ones. The packet is the answer.
    Landed(Packet),
    /// The message or reply was refused. The packet is the answer.
    Refused(Refusal, Packet),
    /// The command has ended. The grant is the one whose endpoint became free with it.
    Answered(FlightId, Answer, Option<GrantId>),
    /// The credit went to the endpoint of its grant; false where no endpoint has it.
    Credited(bool),
    /// The record of this grant stands at its endpoint.
    Installed(GrantId),
    /// The record of this grant is closing, and a command of its endpoint still flies.
    Closing(GrantId),
    /// The endpoint of this grant is free.
    Closed(GrantId),
}

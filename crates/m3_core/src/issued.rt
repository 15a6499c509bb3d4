//! What a command comes to where it is issued.

use m3_base::command::Refusal;
use m3_base::ids::FlightId;
use m3_base::packet::Packet;

/// What an issued command came to.
#[derive(Debug, Drop)]
pub enum Issued {
    /// The token of the message that was fetched, which is then among the fetched ones; None where none was unread.
    Fetched(Option<u32>),
    /// The slot is free. The packet is the credit that goes to the sender of a message that isn't a reply.
    Acknowledged(Option<Packet>),
    /// Nothing has changed.
    Refused(Refusal),
    /// The command flies under this name, as this packet.
    Flies(FlightId, Packet),
}

//! What a command comes to where it is issued.

use crate::flight::Flight;
use m3_base::command::Refusal;
use m3_base::ids::FlightId;
use m3_base::message::Message;

/// What an issued command came to.
#[derive(Debug, Drop)]
pub enum Issued {
    /// It is refused, and nothing has changed.
    Refused(Refusal),
    /// No message was unread.
    Nothing,
    /// The message was fetched under this token.
    Fetched { token: u32, message: Message },
    /// The slot is free. The flight is the credit of a message that isn't a reply.
    Acknowledged(Option<(FlightId, Flight)>),
    /// It flies under this name.
    Flies(FlightId, Flight),
}

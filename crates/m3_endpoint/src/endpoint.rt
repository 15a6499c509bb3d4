//! What an endpoint has.

use crate::memory::MemEp;
use crate::receive::ReceiveEp;
use crate::send::SendEp;

/// The record of an endpoint, or none.
#[derive(Drop)]
pub enum Record {
    Free,
    Send(SendEp),
    Receive(ReceiveEp),
    Memory(MemEp),
}

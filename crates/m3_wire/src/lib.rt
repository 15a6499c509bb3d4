//! Headers and packets as bytes.
#![tactic(auto)]

mod codes;
mod encode;
mod fields;
mod header;
mod packet;
mod reader;
mod record;
mod refusal;

pub use encode::encode_packet;
pub use header::{decode_header, encode_header};
pub use packet::decode_packet;
pub use refusal::WireRefusal;

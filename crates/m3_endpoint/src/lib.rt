//! The records of an activity's endpoints. Once they are made, no call on them takes memory.
#![tactic(auto)]

pub mod counters;
pub mod endpoint;
mod fetched;
pub mod memory;
pub mod receive;
pub mod send;

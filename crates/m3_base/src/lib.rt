//! The values of the machine, and what its ideal form does.
#![tactic(auto)]

pub mod command;
pub mod event;
pub mod grants;
pub mod ids;
pub mod journal;
pub mod limits;
pub mod memory_streams;
pub mod message;
pub mod order;
pub mod packet;
pub mod payload;
pub mod program;
pub mod setup;
pub mod setup_line;
pub mod standard_streams;
pub mod step;
pub mod stream;

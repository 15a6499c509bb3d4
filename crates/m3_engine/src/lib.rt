//! The engine of a machine: parts that share nothing, the links between them, and the events that they make.
#![tactic(auto)]

pub mod ask;
pub mod engine;
mod fetched_message;
mod issue;
pub mod memory;
mod next;
pub mod opening;
pub mod parts;
mod program;
mod restore_check;
pub mod spares;
pub mod stay;
pub mod stays;
pub mod tile;

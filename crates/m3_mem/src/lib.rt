//! The memory: its bytes, and what reads and writes do to them.
#![tactic(auto)]

pub mod memory;

//! The links between tiles: what is on its way, first in, first out.
#![tactic(auto)]

pub mod wires;

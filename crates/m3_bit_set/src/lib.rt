//! Sets of places, of which the least is found at once.
#![tactic(auto)]

pub mod bit_set;

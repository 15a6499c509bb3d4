//! Bytes as lines, a line as words, words as numbers and bytes, and these as text again.
#![tactic(auto)]

pub mod fields;
pub mod flights;
pub mod hexes;
pub mod lines;
pub mod numbers;
pub mod printing;
pub mod read_back;
pub mod refusal;
pub mod shapes;
pub mod sides;

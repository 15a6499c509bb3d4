//! The kernel's part: which activity is at its tile, what waits for those that are away, and where packets go.
#![tactic(auto)]

pub mod away;
pub mod berth;
pub mod came;
pub mod done;
mod driver;
pub mod kernel;
pub mod order;
pub mod seat;
pub mod site;
mod state;

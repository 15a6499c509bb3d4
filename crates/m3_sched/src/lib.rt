//! The scheduler: which activities are ready at each tile, and whose stay has yielded.
#![tactic(auto)]

mod ready_list;
pub mod sched;

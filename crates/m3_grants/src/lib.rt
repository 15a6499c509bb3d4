//! The kernel's grants: who holds which, what was made under which, and which are to be closed next.
#![tactic(auto)]

mod changes;
pub mod grants;
mod nodes;
pub mod refusal;
mod siblings;
mod walk;

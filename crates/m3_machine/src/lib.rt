//! The machine: an engine, the programs of its activities, the orders that are left, a recorder of what it did, and the
//! audit that closes its journal.
#![tactic(auto)]

mod audit;
mod context_table;
mod credit_counts;
pub mod machine;
mod orders;
mod programs;
pub mod recorder;
pub mod refusal;
mod traversal;

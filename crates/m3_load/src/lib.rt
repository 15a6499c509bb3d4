//! The load: a generator of large valid setups for the driver, and the summary of the journal that it makes of one.
#![tactic(auto)]

mod lines;
mod programs;
mod setup;
mod summary;

pub use setup::load_setup;
pub use summary::{Summary, put_summary, summary_of};

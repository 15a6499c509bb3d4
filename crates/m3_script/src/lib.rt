//! Scripts: a setup and the events of a run, read line by line; and the forms of all lines, for scripts and journals.
#![tactic(auto)]

mod commands;
mod events;
mod fields;
mod files;
mod grants;
pub mod laws;
mod line;
mod moves;
mod orders;
mod parsing;
mod quick;
mod reading;
mod rules;
mod script;
mod setups;

pub use commands::read_command;
pub use events::read_event;
pub use fields::{read_name, read_perm, read_u32};
pub use m3_text::refusal::Why;
pub use moves::read_entry_event;
pub use parsing::parse;
pub use script::{Mode, Script, ScriptRefusal};
pub use setups::{read_machine, read_setup_line};

//! The top call: from the words of a command line and a source of bytes to what is written, and a status.
#![tactic(auto)]

mod auto;
mod budget;
mod check;
mod events;
mod load;
mod machines;
mod output;
mod run;
mod show;
mod top;
mod words;

pub use top::run_words;

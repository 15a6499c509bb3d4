//! Journals as JSON: an object with the lines of the audit, of the entries and of the setup.
#![tactic(auto)]

pub mod laws;
mod parts;
mod reading;
mod writing;

pub use reading::from_json;
pub use writing::to_json;

#[cfg(test)]
mod tests;

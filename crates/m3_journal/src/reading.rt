//! Journals read from their text.

pub mod answers;
pub mod audit_lines;
pub mod causes;
pub mod draft;
pub mod draft_lines;
pub mod entries;
pub mod line;
pub mod long_outcomes;
pub mod outcomes;
pub mod parsing;
pub mod tails;

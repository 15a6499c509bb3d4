//! A grant as the table keeps it.

use crate::order::GrantLine;
use crate::packet::Fresh;

/// How far a grant is on its way. A grant that its tile has closed is still closing here, until its Closed comes.
#[derive(Clone, Copy, Debug, PartialEq, Eq, Drop)]
pub enum Stage {
    Live,
    Closing,
    Done,
}

/// A grant of the table: its line, the record that it began with, and how far it is on its way.
#[derive(Clone, Copy, Debug, Drop)]
pub struct Node {
    pub line: GrantLine,
    pub fresh: Fresh,
    pub stage: Stage,
    /// Whether its Close was sent.
    pub close_sent: bool,
    /// Whether a revoke began with it.
    pub is_root: bool,
    /// How many grants were made under it that aren't done.
    pub children: u32,
}

//! A journal while it is read.

ghost use Rattle.std.specs.Prelude.{◌≤◌, length};

use m3_base::event::Entry;
use m3_base::journal::AuditLine;
use m3_base::setup::Setup;

/// Which lines may come next.
#[derive(Clone, Copy, Debug, PartialEq, Eq, Drop)]
pub enum Stage {
    /// The first line, which says that this is a journal.
    Empty,
    /// The line of the machine.
    Headed,
    /// Lines of the setup, or `begin`.
    InSetup,
    /// Entries, or `end`.
    Running,
    /// Audit lines.
    Ended,
}

/// What the lines of a journal say so far.
#[derive(Debug, Drop)]
pub struct Draft {
    pub stage: Stage,
    pub setup: Option<Setup>,
    pub entries: Vec<Entry>,
    pub audit: Vec<AuditLine>,
    ghost few: { length entries.items ≤ 2097152 },
}

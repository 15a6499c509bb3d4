//! Laws: what is printed is read back.

ghost use Rattle.m3_journal.specs.Laws.{SetupLinesAgain, EntriesAgain, AuditLinesAgain, JournalsAgain, StringsAgain};

/// A line that is printed is read as what it says, where its numbers are in their ranges.
pub fn lines_read_back()
    ensures setup { SetupLinesAgain }
    ensures entries { EntriesAgain }
    ensures audit { AuditLinesAgain }
{}

/// A journal in its grammar that is printed is read back, as a text and by the strings of its JSON.
pub fn journals_read_back()
    ensures text { JournalsAgain }
    ensures strings { StringsAgain }
{}

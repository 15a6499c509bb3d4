//! Laws: what is written is read back.

ghost use Rattle.m3_journal_json.specs.Laws.{JsonAgain};

/// A journal in its grammar that is written as JSON is read back.
pub fn json_reads_back()
    ensures { JsonAgain }
{}

//! The lines of entries.

ghost use Rattle.std.specs.Prelude.{◌≡◌, ◌++◌, ◌∷◌, [], OnOk, map, string_bytes};
ghost use Rattle.m3_text.specs.Printing.{text_of_lines};
ghost use Rattle.m3_journal.specs.JournalText.{entry_line};

use crate::events::put_event;
use crate::outcomes::put_outcome;
use m3_base::event::Entry;
use std::alloc::AllocError;

/// An entry's line, without its newline.
pub fn put_entry_line(out: &mut String, entry: &Entry) -> Result<(), AllocError>
    ensures { OnOk result (string_bytes out.new ≡ string_bytes out.old ++ entry_line entry.now) }
{
    put_event(out, &entry.event, &entry.outcome.made)?;
    out.push_str(":")?;
    put_outcome(out, &entry.outcome)
}

fn put_entry(out: &mut String, entry: &Entry) -> Result<(), AllocError>
    ensures { OnOk result (string_bytes out.new ≡ string_bytes out.old ++ entry_line entry.now ++ 10 ∷ []) }
{
    put_entry_line(out, entry)?;
    out.push_str("\n")
}

/// A line for each entry.
pub fn put_entries(out: &mut String, entries: &[Entry]) -> Result<(), AllocError>
    ensures { OnOk result (string_bytes out.new ≡ string_bytes out.old ++ text_of_lines (map entry_line entries.now)) }
{
    for entry in entries {
        put_entry(out, entry)?;
    }
    Ok(())
}

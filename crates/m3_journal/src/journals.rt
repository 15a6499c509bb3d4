//! Whole journals as text.

ghost use Rattle.std.specs.Prelude.{◌≡◌, ◌++◌, IfOk, OnOk, string_bytes};
ghost use Rattle.m3_text.specs.Printing.{text_of_lines};
ghost use Rattle.m3_journal.specs.JournalText.{journal_text};

use crate::audits::put_audit;
use crate::entries::put_entries;
use crate::setups::put_setup;
use m3_base::journal::{Audit, Journal};
use std::alloc::{AllocError, Global};

/// The text of a journal with its audit: its setup, a line for each entry, and the lines of the audit.
pub fn print(alloc: Global, journal: &Journal, audit: &Audit) -> Result<Vec<u8>, AllocError>
    ensures { IfOk result (λ v. v.items ≡ journal_text journal.now.setup journal.now.entries.items audit.now.lines.items) }
{
    let mut out = String::new(alloc);
    out.push_str("m3x journal 1\n")?;
    put_setup(&mut out, &journal.setup)?;
    out.push_str("begin\n")?;
    put_entries(&mut out, &journal.entries)?;
    out.push_str("end\n")?;
    put_audit(&mut out, &audit.lines)?;
    Ok(out.into_bytes())
}

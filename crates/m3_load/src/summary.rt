//! The summary of a load's journal.

ghost use Rattle.std.specs.Prelude.{◌≡◌, ◌≤◌, ◌++◌, OnOk, length, map, string_bytes};
ghost use Rattle.m3_base.specs.Load.Summary.{summary_lines};
ghost use Rattle.m3_text.specs.Printing.{text_of_lines};
ghost use Rattle.m3_load.specs.SummaryLines.{CanCount, lines_of, summary_line, with_entry};

use m3_base::event::{Entry, Said};
use std::alloc::AllocError;
use std::fmt::Write;

/// What a load's journal comes to.
#[derive(Clone, Copy, Debug, PartialEq, Eq, Drop)]
pub struct Summary {
    /// The number of rounds.
    pub load: u16,
    /// How many entries the journal has.
    pub entries: u32,
    /// The fetches that gave a message or a reply.
    pub fetched: u32,
    /// The flights that bounced.
    pub bounced: u32,
    /// The switches that weren't refused.
    pub switches: u32,
}

/// Counts an entry more.
fn add_entry(summary: &mut Summary, entry: &Entry)
    requires { CanCount summary.old }
    ensures { summary.new ≡ with_entry entry.now summary.old }
{
    summary.entries += 1;
    match entry.outcome.said {
        Said::Message { .. } => summary.fetched += 1,
        Said::ReplyMessage { .. } => summary.fetched += 1,
        Said::Bounced(_) => summary.bounced += 1,
        Said::Save(_) => summary.switches += 1,
        _ => {}
    }
}

/// The summary of these entries, of which there are at most 2,097,152, as the load of so many rounds.
pub fn summary_of(load: u16, entries: &[Entry]) -> Summary
    requires { length entries.now ≤ 2097152 }
    ensures { lines_of result ≡ summary_lines load entries.now }
{
    let mut summary = Summary {
        load,
        entries: 0,
        fetched: 0,
        bounced: 0,
        switches: 0,
    };
    for entry in entries {
        add_entry(&mut summary, entry);
    }
    summary
}

/// A line for each count.
pub fn put_summary(out: &mut String, summary: &Summary) -> Result<(), AllocError>
    ensures { OnOk result (string_bytes out.new ≡ string_bytes out.old ++
        text_of_lines (map summary_line (lines_of summary.now))) }
{
    let Summary {
        load,
        entries,
        fetched,
        bounced,
        switches,
    } = *summary;
    write!(out, "load {load}\nentries {entries}\nfetched {fetched}\n")?;
    write!(out, "bounced {bounced}\nswitches {switches}\n")
}

//! Journals read from JSON.

ghost use Rattle.std.specs.Prelude.{◌≡◌};
ghost use Rattle.serde_json.specs.View.{items_view};
ghost use Rattle.m3_journal.specs.Reading.Journals.{journal_from, then_next, after_mark, after_strings};
ghost use Rattle.m3_journal.specs.Reading.Refusals.{Parses, AreFew, draft_value};
ghost use Rattle.m3_journal_json.specs.Objects.{json_of, journal_of_json, journal_of_lists};
ghost use Rattle.m3_journal_json.specs.Reads.{value_texts, journal_after_setup, journal_after_entries, Finds, Takes};

use crate::parts::{are_texts, parts_of, text_of};
use m3_base::journal::{Audit, Journal};
use m3_journal::{Draft, Line, Words, finish, refusal};
use m3_script::{ScriptRefusal, Why};
use serde_json::Value;
use std::alloc::Global;

/// The journal that the JSON is, and the lines of its audit, or why it is none. Line 1 with `Form` stands for any bytes
/// that aren't JSON of a journal's form. A string that is refused is named by its place in the setup, the entries and
/// the audit, counted from 1 through all three, with the causes of a text's lines. A journal that was read has at most
/// 2,097,152 entries.
pub fn from_json(alloc: Global, bytes: &[u8]) -> Result<(Journal, Audit), ScriptRefusal>
    ensures exact { Parses result (journal_of_json bytes.now) }
    ensures few { AreFew result }
{
    let value = read_value(alloc, bytes)?;
    match parts_of(&value) {
        None => Err(no_form()),
        Some(parts) => read_lists(alloc, parts.setup, parts.entries, parts.audit),
    }
}

fn no_form() -> ScriptRefusal
    ensures { result ≡ ScriptRefusal.Bad 1 Why.Form }
{
    ScriptRefusal::Bad {
        line: 1,
        why: Why::Form,
    }
}

#[tactic(auto, using(crate::proofs::Values::value_found, crate::proofs::Values::none_found))]
fn read_value(alloc: Global, bytes: &[u8]) -> Result<Value, ScriptRefusal>
    ensures { Finds result (json_of bytes.now) }
{
    match Value::from_slice(alloc, bytes) {
        Ok(value) => Ok(value),
        Err(error) => {
            if error.is_memory() {
                Err(ScriptRefusal::NoMemory)
            } else {
                Err(no_form())
            }
        }
    }
}

fn read_lists(
    alloc: Global,
    setup: &[Value],
    entries: &[Value],
    audit: &[Value],
) -> Result<(Journal, Audit), ScriptRefusal>
    ensures exact { Parses result (journal_of_lists (items_view setup.now, items_view entries.now, items_view audit.now)) }
    ensures few { AreFew result }
{
    if are_texts(setup) && are_texts(entries) && are_texts(audit) {
        read_strings(alloc, setup, entries, audit)
    } else {
        Err(no_form())
    }
}

fn read_strings(
    alloc: Global,
    setup: &[Value],
    entries: &[Value],
    audit: &[Value],
) -> Result<(Journal, Audit), ScriptRefusal>
    ensures exact { Parses result (journal_from (value_texts setup.now) (value_texts entries.now) (value_texts audit.now)) }
    ensures few { AreFew result }
{
    let mut draft = Draft::new(alloc);
    match take_list(alloc, &mut draft, &Line::Head, setup, 1) {
        Ok(line) => read_entries(alloc, draft, entries, audit, line),
        Err(error) => Err(error),
    }
}

// The entries and the audit, where the setup was read.
fn read_entries(
    alloc: Global,
    draft: Draft,
    entries: &[Value],
    audit: &[Value],
    line: u32,
) -> Result<(Journal, Audit), ScriptRefusal>
    ensures exact { Parses result (journal_after_setup (value_texts entries.now) (value_texts audit.now) (draft_value draft, line)) }
    ensures few { AreFew result }
{
    let mut draft = draft;
    match take_list(alloc, &mut draft, &Line::Begin, entries, line) {
        Ok(line) => read_audit(alloc, draft, audit, line),
        Err(error) => Err(error),
    }
}

// The audit, where the entries were read.
fn read_audit(
    alloc: Global,
    draft: Draft,
    audit: &[Value],
    line: u32,
) -> Result<(Journal, Audit), ScriptRefusal>
    ensures exact { Parses result (journal_after_entries (value_texts audit.now) (draft_value draft, line)) }
    ensures few { AreFew result }
{
    let mut draft = draft;
    match take_list(alloc, &mut draft, &Line::End, audit, line) {
        Ok(line) => finish(draft, line),
        Err(error) => Err(error),
    }
}

// Begins a stage, and takes its strings, of which the first has this number. The number after the last.
fn take_list(
    alloc: Global,
    draft: &mut Draft,
    mark: &Line,
    values: &[Value],
    line: u32,
) -> Result<u32, ScriptRefusal>
    ensures { Takes result (draft_value draft.new)
        (then_next (after_mark mark.now (draft_value draft.old, line))
        (after_strings (value_texts values.now))) }
{
    match draft.advance(mark) {
        Ok(()) => take_strings(alloc, draft, values, line),
        Err(error) => Err(refusal(line, error)),
    }
}

fn take_strings(
    alloc: Global,
    draft: &mut Draft,
    values: &[Value],
    line: u32,
) -> Result<u32, ScriptRefusal>
    ensures { Takes result (draft_value draft.new) (after_strings (value_texts values.now) (draft_value draft.old, line)) }
{
    let mut words = Words::new(alloc);
    let mut line = line;
    for value in values {
        match draft.take_string(alloc, text_of(value).as_bytes(), &mut words) {
            Ok(()) => {}
            Err(error) => return Err(refusal(line, error)),
        }
        // That many strings fit no memory.
        if line == u32::MAX {
            return Err(ScriptRefusal::NoMemory);
        }
        line += 1;
    }
    Ok(line)
}

//! Journals as JSON.

ghost use Rattle.std.specs.Prelude.{◌≡◌, [], ◌∷◌, map, IfOk, IsUtf8, string_bytes, codes, Some, Ok};
ghost use Rattle.serde_json.specs.Read.{read};
ghost use Rattle.serde_json.specs.View.{view, items_view};
ghost use Rattle.serde_json.specs.Written.{compact_text};
ghost use Rattle.serde_json.specs.Data.{number, unsigned, array, object, member, no_members};
ghost use Rattle.serde_json.specs.declared.value.Value.TheVariants as Value;
ghost use Rattle.m3_journal.specs.JournalText.{strings};
ghost use Rattle.m3_journal_json.specs.Objects.{string_array, object_of, journal_object, json_text, json_of, ReadsBack};

use m3_base::journal::{Audit, Journal};
use m3_journal::{audit_texts, entry_texts, setup_texts};
use serde_json::{Value, json};
use std::alloc::{AllocError, Global};

/// The JSON of a journal with its audit, in one line with no space.
pub fn to_json(alloc: Global, journal: &Journal, audit: &Audit) -> Result<Vec<u8>, AllocError>
    ensures text { IfOk result (λ v. v.items ≡ json_text journal.now.setup journal.now.entries.items audit.now.lines.items) }
    ensures reads { IfOk result (λ v. json_of v.items ≡ Some
        (journal_object journal.now.setup journal.now.entries.items audit.now.lines.items)) }
    ensures again { IfOk result (λ v. ReadsBack journal.now.setup journal.now.entries.items audit.now.lines.items v.items) }
{
    let setup = setup_texts(alloc, &journal.setup)?;
    let entries = entry_texts(alloc, &journal.entries)?;
    let audit = audit_texts(alloc, &audit.lines)?;
    let text = write(alloc, setup, entries, audit)?;
    Ok(bytes_of(text))
}

// The bytes of a text.
fn bytes_of(text: String) -> Vec<u8>
    ensures bytes { result.items ≡ string_bytes text }
    ensures utf8 { IsUtf8 (string_bytes text) }
{
    let _text = text.as_str();
    text.into_bytes()
}

fn values_of(alloc: Global, lines: Vec<String>) -> Result<Vec<Value>, AllocError>
    ensures { IfOk result (λ v. v.items ≡ map (λ s. Value.String s) lines.items) }
{
    lines.into_iter().map(Value::String).collect(alloc)
}

fn array_of(alloc: Global, lines: Vec<String>) -> Result<Vec<Value>, AllocError>
    ensures { IfOk result (λ v. array (items_view v.items) ≡ string_array (strings lines.items)) }
{
    values_of(alloc, lines)
}

fn object_of(
    alloc: Global,
    setup: Vec<Value>,
    entries: Vec<Value>,
    audit: Vec<Value>,
) -> Result<Value, AllocError>
    ensures { IfOk result (λ v. view v ≡ object (member (codes "audit") (array (items_view audit.items))
        (member (codes "entries") (array (items_view entries.items))
        (member (codes "m3x") (number (unsigned 1))
        (member (codes "setup") (array (items_view setup.items)) no_members))))) }
{
    json!(in alloc; {"audit": (Value::Array(audit)), "entries": (Value::Array(entries)), "m3x": 1u64, "setup": (Value::Array(setup))})
}

// The JSON of a journal whose parts are these lines.
fn write(
    alloc: Global,
    setup: Vec<String>,
    entries: Vec<String>,
    audit: Vec<String>,
) -> Result<String, AllocError>
    ensures text { IfOk result (λ s. string_bytes s ≡ compact_text
        (object_of (strings setup.items) (strings entries.items) (strings audit.items))) }
    ensures again { IfOk result (λ s. read (string_bytes s) ≡ Some
        (object_of (strings setup.items) (strings entries.items) (strings audit.items))) }
{
    let audit = array_of(alloc, audit)?;
    let entries = array_of(alloc, entries)?;
    let setup = array_of(alloc, setup)?;
    let value = object_of(alloc, setup, entries, audit)?;
    value.to_string(alloc)
}

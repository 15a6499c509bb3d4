//! The parts of a journal's JSON.

ghost use Rattle.std.specs.Prelude.{◌≡◌, codes, option_map, length, unwrap_or, ℕ};
ghost use Rattle.std.specs.List.{list_all};
ghost use Rattle.serde_json.specs.View.{view, items_view};
ghost use Rattle.m3_journal_json.specs.Objects.{list_at, number_at, key_count, is_journal, lists_of, parts_of, is_text, are_texts, text_of};

use serde_json::Value;

fn list_at<'a>(value: &'a Value, key: &str) -> Option<&'a Vec<Value>>
    ensures { option_map (λ v. items_view v.now.items) result ≡ list_at key.now (view value.now) }
{
    value.get(key).and_then(Value::as_array)
}

fn number_at(value: &Value, key: &str) -> u64
    ensures { result ≡ unwrap_or (number_at key.now (view value.now)) 0 }
{
    value.get(key).and_then(Value::as_u64).unwrap_or(0)
}

fn key_count(value: &Value) -> usize
    ensures { result ≡ key_count (view value.now) }
{
    match value.as_object() {
        Some(object) => object.len(),
        None => 0,
    }
}

/// The lists of a journal's JSON.
#[derive(Drop)]
pub struct Parts<'a> {
    pub setup: &'a Vec<Value>,
    pub entries: &'a Vec<Value>,
    pub audit: &'a Vec<Value>,
}

fn is_journal(value: &Value) -> bool
    ensures { result ≡ is_journal (view value.now) }
{
    key_count(value) == 4 && number_at(value, "m3x") == 1
}

fn lists_of(value: &Value) -> Option<Parts<'_>>
    ensures { option_map (λ p. (items_view p.setup.now.items, items_view p.entries.now.items, items_view p.audit.now.items))
        result ≡ lists_of (view value.now) }
{
    let setup = list_at(value, "setup")?;
    let entries = list_at(value, "entries")?;
    let audit = list_at(value, "audit")?;
    Some(Parts {
        setup,
        entries,
        audit,
    })
}

/// The setup, the entries and the audit, where the value is an object with just the four keys of a journal.
pub fn parts_of(value: &Value) -> Option<Parts<'_>>
    ensures { option_map (λ p. (items_view p.setup.now.items, items_view p.entries.now.items, items_view p.audit.now.items))
        result ≡ parts_of (view value.now) }
{
    if is_journal(value) {
        lists_of(value)
    } else {
        None
    }
}

fn is_text(value: &Value) -> bool
    ensures { result ≡ is_text (view value.now) }
{
    match value {
        Value::String(_) => true,
        _ => false,
    }
}

/// Whether each value is a string.
#[tactic(auto, using(crate::proofs::Values::texts_all))]
pub fn are_texts(values: &[Value]) -> bool
    ensures { result ≡ are_texts (items_view values.now) }
{
    all_texts(values)
}

fn all_texts(values: &[Value]) -> bool
    ensures { result ≡ list_all (λ v. is_text (view v)) values.now }
{
    values.iter().all(|value| is_text(value))
}

/// The text of a string.
pub fn text_of(value: &Value) -> &str
    ensures { result.now ≡ text_of (view value.now) }
{
    value.as_str().unwrap_or("")
}

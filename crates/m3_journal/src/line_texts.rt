//! The lines of a journal, each a text of its own.

ghost use Rattle.std.specs.Prelude.{◌≡◌, IfOk, OnOk, map, string_bytes, ◌++◌, ◌∷◌, []};
ghost use Rattle.m3_text.specs.Printing.{line_text};
ghost use Rattle.m3_journal.specs.SetupLines.{machine_words};
ghost use Rattle.m3_journal.specs.JournalText.{strings, setup_line, setup_lines, entry_line, audit_line};

use crate::audits::put_audit_line;
use crate::entries::put_entry_line;
use crate::setups::{put_machine, put_setup_line};
use m3_base::event::Entry;
use m3_base::journal::AuditLine;
use m3_base::setup::Setup;
use m3_base::setup_line::SetupLine;
use std::alloc::{AllocError, Global};

/// The lines of a setup.
pub fn setup_texts(alloc: Global, setup: &Setup) -> Result<Vec<String>, AllocError>
    ensures { IfOk result (λ v. strings v.items ≡ setup_lines setup.now) }
{
    let mut texts = Vec::new(alloc);
    let mut first = String::new(alloc);
    put_machine(&mut first, setup.tiles(), setup.memory())?;
    texts.push(first)?;
    add_setup_texts(alloc, &mut texts, setup.lines())?;
    Ok(texts)
}

fn add_setup_texts(
    alloc: Global,
    texts: &mut Vec<String>,
    lines: &[SetupLine],
) -> Result<(), AllocError>
    ensures { OnOk result (strings texts.new.items ≡ strings texts.old.items ++ map setup_line lines.now) }
{
    for line in lines {
        let mut text = String::new(alloc);
        put_setup_line(&mut text, line)?;
        texts.push(text)?;
    }
    Ok(())
}

/// The lines of entries.
pub fn entry_texts(alloc: Global, entries: &[Entry]) -> Result<Vec<String>, AllocError>
    ensures { IfOk result (λ v. strings v.items ≡ map entry_line entries.now) }
{
    let mut texts = Vec::new(alloc);
    for entry in entries {
        let mut text = String::new(alloc);
        put_entry_line(&mut text, entry)?;
        texts.push(text)?;
    }
    Ok(texts)
}

/// The lines of an audit.
pub fn audit_texts(alloc: Global, lines: &[AuditLine]) -> Result<Vec<String>, AllocError>
    ensures { IfOk result (λ v. strings v.items ≡ map audit_line lines.now) }
{
    let mut texts = Vec::new(alloc);
    for line in lines {
        let mut text = String::new(alloc);
        put_audit_line(&mut text, line)?;
        texts.push(text)?;
    }
    Ok(texts)
}

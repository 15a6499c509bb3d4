//! Lines of journals, by their words.

ghost use Rattle.std.specs.Prelude.{◌≡◌};
ghost use Rattle.m3_text.specs.Lines.{texts};
ghost use Rattle.m3_text.specs.Refusable.{Gives};
ghost use Rattle.m3_journal.specs.Reading.Journals.{setup_or_audit_of, other_line_of, line_of, line_of_words, line_of_bytes};

use crate::reading::audit_lines::read_audit_line;
use crate::reading::entries::{is_form, read_entry};
use m3_base::event::Entry;
use m3_base::journal::AuditLine;
use m3_base::setup_line::SetupLine;
use m3_script::{read_machine, read_setup_line};
use m3_text::hexes::HexCase;
use m3_text::lines::{cut_words, is_plain};
use m3_text::refusal::{LineRefusal, Why};
use m3_text::shapes::{cut_first, fits};
use std::alloc::Global;

/// What a line says.
#[derive(Debug, Drop)]
pub enum Line {
    /// `m3x journal 1`
    Head,
    Machine { tiles: u8, memory: u32 },
    Setup(SetupLine),
    Begin,
    Entry(Entry),
    End,
    Audit(AuditLine),
}

/// Words of a line, in vectors that serve one line after the other.
#[derive(Debug, Drop)]
pub struct Words<'a> {
    /// Those of the whole line.
    pub line: Vec<&'a [u8]>,
    /// Those of its event, without the colon.
    pub event: Vec<&'a [u8]>,
}

impl<'a> Words<'a> {
    pub fn new(alloc: Global) -> Words<'a> {
        Words {
            line: Vec::new(alloc),
            event: Vec::new(alloc),
        }
    }
}

// The most words that a form has.
const MOST_WORDS: usize = 21;

/// What a line says.
#[tactic(auto, using(crate::proofs::Few::read_by_few), unfolding(crate::specs::Reading::Journals::line_of_bytes))]
pub fn read_line<'a>(
    alloc: Global,
    line: &'a [u8],
    words: &mut Words<'a>,
) -> Result<Line, LineRefusal>
    ensures { Gives (λ l. l) result (line_of_bytes line.now) }
{
    if !is_plain(line) {
        return Err(LineRefusal::Bad(Why::Form));
    }
    cut_words(line, MOST_WORDS + 1, &mut words.line)?;
    read_words(alloc, words.line.as_slice(), &mut words.event)
}

#[tactic(auto, unfolding(crate::specs::Reading::Journals::line_of_words))]
fn read_words<'a>(
    alloc: Global,
    words: &[&'a [u8]],
    event: &mut Vec<&'a [u8]>,
) -> Result<Line, LineRefusal>
    ensures { Gives (λ l. l) result (line_of_words (texts words.now)) }
{
    if MOST_WORDS < words.len() {
        return Err(LineRefusal::Bad(Why::Form));
    }
    read_form(alloc, words, event)
}

#[tactic(auto, unfolding(crate::specs::Reading::Journals::line_of))]
fn read_form<'a>(
    alloc: Global,
    words: &[&'a [u8]],
    event: &mut Vec<&'a [u8]>,
) -> Result<Line, LineRefusal>
    ensures { Gives (λ l. l) result (line_of (texts words.now)) }
{
    let entry = read_entry(alloc, words, event);
    if is_form(&entry) {
        return read_other(alloc, words);
    }
    Ok(Line::Entry(entry?))
}

// A line that is no entry.
#[tactic(auto, unfolding(crate::specs::Reading::Journals::other_line_of))]
fn read_other(alloc: Global, words: &[&[u8]]) -> Result<Line, LineRefusal>
    ensures { Gives (λ l. l) result (other_line_of (texts words.now)) }
{
    if fits(&[b"m3x", b"journal", b"1"], words) {
        Ok(Line::Head)
    } else if fits(&[b"begin"], words) {
        Ok(Line::Begin)
    } else if fits(&[b"end"], words) {
        Ok(Line::End)
    } else {
        read_setup_or_audit(alloc, words)
    }
}

#[tactic(auto, unfolding(crate::specs::Reading::Journals::setup_or_audit_of))]
fn read_setup_or_audit(alloc: Global, words: &[&[u8]]) -> Result<Line, LineRefusal>
    ensures { Gives (λ l. l) result (setup_or_audit_of (texts words.now)) }
{
    let (first, rest) = cut_first(words);
    if first == b"audit".as_slice() {
        Ok(Line::Audit(read_audit_line(words)?))
    } else if first == b"machine".as_slice() {
        let (tiles, memory) = read_machine(rest)?;
        Ok(Line::Machine { tiles, memory })
    } else {
        Ok(Line::Setup(read_setup_line(alloc, HexCase::Lower, words)?))
    }
}

//! Bytes as a journal.

ghost use Rattle.std.specs.Prelude.{◌≡◌, ◌≤◌, length};
ghost use Rattle.m3_script.specs.ParserView.{refusal, Leads};
ghost use Rattle.m3_journal.specs.Reading.Journals.{journal_of, draft_after_line, journal_of_draft};
ghost use Rattle.m3_journal.specs.Reading.Refusals.{Parses, AreFew, draft_value};

use crate::reading::draft::{Draft, Stage};
use crate::reading::line::{Words, read_line};
use m3_base::journal::{Audit, Journal};
use m3_script::ScriptRefusal;
use m3_text::lines::cut_line;
use m3_text::refusal::{LineRefusal, Why};
use std::alloc::Global;

/// The journal that the bytes spell, and the lines of its audit, or the first line that is refused: with `Form` one
/// whose words fit no form, also an empty line or a comment; with `Number` one with a number outside its range; with
/// `Hex` one whose bytes aren't pairs of digits in lower case, or are too many; with `Place` one that may not stand
/// there, the entry after the 2,097,152nd too, or the end of a text without its line `end`; with `Rule` a line of the
/// setup that a rule refuses. So a journal that was read has no more entries than that.
pub fn parse_journal(alloc: Global, bytes: &[u8]) -> Result<(Journal, Audit), ScriptRefusal>
    requires limit { length bytes.now ≤ 67108864 }
    ensures exact { Parses result (journal_of bytes.now) }
    ensures few { AreFew result }
{
    let mut draft = Draft::new(alloc);
    let mut words = Words::new(alloc);
    let mut rest = bytes;
    let mut line: u32 = 1;
    while !rest.is_empty() {
        let (text, after) = cut_line(rest);
        match take_line(alloc, &mut draft, text, &mut words) {
            Ok(()) => {}
            Err(error) => return Err(refusal(line, error)),
        }
        rest = after;
        line += 1;
    }
    finish(draft, line)
}

// Adds a line of a text.
fn take_line<'a>(
    alloc: Global,
    draft: &mut Draft,
    text: &'a [u8],
    words: &mut Words<'a>,
) -> Result<(), LineRefusal>
    ensures { Leads result (draft_value draft.new) (draft_after_line (draft_value draft.old) text.now) }
{
    let line = read_line(alloc, text, words)?;
    draft.take(alloc, line)
}

/// The refusal of this line.
pub fn refusal(line: u32, error: LineRefusal) -> ScriptRefusal
    ensures { result ≡ refusal line error }
{
    match error {
        LineRefusal::Bad(why) => ScriptRefusal::Bad { line, why },
        LineRefusal::NoMemory => ScriptRefusal::NoMemory,
    }
}

/// The journal of a draft whose next line would have this number.
pub fn finish(draft: Draft, line: u32) -> Result<(Journal, Audit), ScriptRefusal>
    ensures exact { Parses result (journal_of_draft (draft_value draft, line)) }
    ensures few { AreFew result }
{
    match (draft.stage, draft.setup) {
        (Stage::Ended, Some(setup)) => {
            let journal = Journal {
                setup,
                entries: draft.entries,
            };
            Ok((journal, Audit { lines: draft.audit }))
        }
        _ => Err(ScriptRefusal::Bad {
            line,
            why: Why::Place,
        }),
    }
}

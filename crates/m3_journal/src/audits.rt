//! Audits as text.

ghost use Rattle.std.specs.Prelude.{◌≡◌, ◌∷◌, ◌++◌, [], OnOk, map, string_bytes};
ghost use Rattle.m3_text.specs.Printing.{words_text, line_text, text_of_lines};
ghost use Rattle.m3_journal.specs.AuditLines.{current_words, count_words, audit_words, yes_word};
ghost use Rattle.m3_journal.specs.JournalText.{audit_line};

use m3_base::ids::ActId;
use m3_base::journal::AuditLine;
use m3_text::printing::put_field;
use std::alloc::AllocError;

fn put_current(out: &mut String, act: Option<ActId>) -> Result<(), AllocError>
    ensures { OnOk result (string_bytes out.new ≡ string_bytes out.old ++ words_text (current_words act)) }
{
    match act {
        None => out.push_str(" none"),
        Some(act) => {
            let act = act.number();
            put_field(out, " act ", act as u64)
        }
    }
}

fn yes_word(quiet: bool) -> &'static str
    ensures { result.now ≡ yes_word quiet }
{
    if quiet { "yes" } else { "no" }
}

fn put_counts(
    out: &mut String,
    held: u32,
    flying: u32,
    queued: u32,
    limit: u32,
) -> Result<(), AllocError>
    ensures { OnOk result (string_bytes out.new ≡ string_bytes out.old ++ words_text (count_words held flying queued limit)) }
{
    put_field(out, " held ", held as u64)?;
    put_field(out, " flying ", flying as u64)?;
    put_field(out, " queued ", queued as u64)?;
    put_field(out, " limit ", limit as u64)
}

pub fn put_audit_line(out: &mut String, line: &AuditLine) -> Result<(), AllocError>
    ensures { OnOk result (string_bytes out.new ≡ string_bytes out.old ++ audit_line line.now) }
{
    match line {
        AuditLine::Credit {
            grant,
            held,
            flying,
            queued,
            limit,
        } => {
            let grant = grant.number();
            put_field(out, "audit credit ", grant as u64)?;
            put_counts(out, *held, *flying, *queued, *limit)
        }
        AuditLine::Tile { tile, act } => {
            let tile = tile.number();
            put_field(out, "audit tile ", tile as u64)?;
            put_current(out, *act)
        }
        AuditLine::Flights(count) => put_field(out, "audit flights ", *count as u64),
        AuditLine::Quiet(quiet) => {
            out.push_str("audit quiet ")?;
            out.push_str(yes_word(*quiet))
        }
    }
}

/// A line for each line of an audit.
pub fn put_audit(out: &mut String, lines: &[AuditLine]) -> Result<(), AllocError>
    ensures { OnOk result (string_bytes out.new ≡ string_bytes out.old ++ text_of_lines (map audit_line lines.now)) }
{
    for line in lines {
        put_audit_line(out, line)?;
        out.push_str("\n")?;
    }
    Ok(())
}

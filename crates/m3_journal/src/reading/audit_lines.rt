//! Audit lines, by their words.

ghost use Rattle.std.specs.Prelude.{◌≡◌, length};
ghost use Rattle.m3_text.specs.Lines.{texts};
ghost use Rattle.m3_text.specs.Number.{number};
ghost use Rattle.m3_text.specs.Refusable.{Gives};
ghost use Rattle.m3_journal.specs.Reading.Audits.{credit_line_of, tile_line_of, empty_tile_line_of, flights_line_of, audit_line_of};

use m3_base::journal::AuditLine;
use m3_text::fields::{read_act, read_grant, read_tile};
use m3_text::numbers::number;
use m3_text::refusal::{LineRefusal, Why};
use m3_text::shapes::{fits, word};

/// The audit line of these words.
#[tactic(auto, unfolding(crate::specs::Reading::Audits::audit_line_of))]
pub fn read_audit_line(words: &[&[u8]]) -> Result<AuditLine, LineRefusal>
    ensures { Gives (λ l. l) result (audit_line_of (texts words.now)) }
{
    if fits(
        &[
            b"audit", b"credit", b"", b"held", b"", b"flying", b"", b"queued", b"", b"limit", b"",
        ],
        words,
    ) {
        read_credit_line(words)
    } else if fits(&[b"audit", b"tile", b"", b"act", b""], words) {
        read_tile_line(words)
    } else if fits(&[b"audit", b"tile", b"", b"none"], words) {
        read_empty_tile_line(words)
    } else if fits(&[b"audit", b"flights", b""], words) {
        read_flights_line(words)
    } else if fits(&[b"audit", b"quiet", b"yes"], words) {
        Ok(AuditLine::Quiet(true))
    } else if fits(&[b"audit", b"quiet", b"no"], words) {
        Ok(AuditLine::Quiet(false))
    } else {
        Err(LineRefusal::Bad(Why::Form))
    }
}

// A count, 0 to 2^32 - 1.
fn read_count(word: &[u8]) -> Result<u32, LineRefusal>
    ensures { Gives (λ n. n) result (number 0 4294967295 word.now) }
{
    Ok(number(word, 0, 4294967295)? as u32)
}

#[tactic(auto, unfolding(crate::specs::Reading::Audits::credit_line_of))]
fn read_credit_line(words: &[&[u8]]) -> Result<AuditLine, LineRefusal>
    requires { length words.now ≡ 11 }
    ensures { Gives (λ l. l) result (credit_line_of (texts words.now)) }
{
    let grant = read_grant(word(words, 2))?;
    let held = read_count(word(words, 4))?;
    let flying = read_count(word(words, 6))?;
    let queued = read_count(word(words, 8))?;
    let limit = read_count(word(words, 10))?;
    Ok(AuditLine::Credit {
        grant,
        held,
        flying,
        queued,
        limit,
    })
}

#[tactic(auto, unfolding(crate::specs::Reading::Audits::tile_line_of))]
fn read_tile_line(words: &[&[u8]]) -> Result<AuditLine, LineRefusal>
    requires { length words.now ≡ 5 }
    ensures { Gives (λ l. l) result (tile_line_of (texts words.now)) }
{
    let tile = read_tile(word(words, 2))?;
    let act = read_act(word(words, 4))?;
    Ok(AuditLine::Tile {
        tile,
        act: Some(act),
    })
}

#[tactic(auto, unfolding(crate::specs::Reading::Audits::empty_tile_line_of))]
fn read_empty_tile_line(words: &[&[u8]]) -> Result<AuditLine, LineRefusal>
    requires { length words.now ≡ 4 }
    ensures { Gives (λ l. l) result (empty_tile_line_of (texts words.now)) }
{
    let tile = read_tile(word(words, 2))?;
    Ok(AuditLine::Tile { tile, act: None })
}

#[tactic(auto, unfolding(crate::specs::Reading::Audits::flights_line_of))]
fn read_flights_line(words: &[&[u8]]) -> Result<AuditLine, LineRefusal>
    requires { length words.now ≡ 3 }
    ensures { Gives (λ l. l) result (flights_line_of (texts words.now)) }
{
    let count = read_count(word(words, 2))?;
    Ok(AuditLine::Flights(count))
}

//! Audit lines compared with counts.

ghost use Rattle.std.specs.Prelude.{◌≡◌, ◌<◌, ◌↔◌, ◌∷◌, [], ℕ, IsTrue, length, option_copied};
ghost use Rattle.m3_base.specs.Journal.Legal.{only_credits, only_flights};
ghost use Rattle.m3_ideal.specs.Check.AuditLines.{counted_line, counted_lines, grant_line, IsFirstCredit, BeginsWith};

use crate::audits::credits::Credits;
use crate::grants::Grant;
use m3_base::journal::AuditLine;
use m3_base::packet::Fresh;

// The place of the first line on credits.
fn first_credit(lines: &[AuditLine]) -> Option<usize>
    ensures { IsFirstCredit lines.now result }
{
    for (i, line) in lines.iter().enumerate() {
        if let AuditLine::Credit { .. } = line {
            return Some(i);
        }
    }
    None
}

// Whether the line is that of the send grant of this number.
fn is_line(credits: &Credits, number: usize, fresh: &Fresh, line: &AuditLine) -> bool
    ensures { IsTrue result ↔ counted_line credits.now number fresh.now ≡ line.now ∷ [] }
{
    match (fresh, line) {
        (
            Fresh::Send { limit: own, .. },
            AuditLine::Credit {
                grant,
                held,
                flying,
                queued,
                limit,
            },
        ) => {
            usize::from(grant.number()) == number
                && credits.held.get(*grant) == u64::from(*held)
                && credits.flying.get(*grant) == u64::from(*flying)
                && credits.queued.get(*grant) == u64::from(*queued)
                && u32::from(*own) == *limit
        }
        _ => false,
    }
}

// What follows the line of this grant, or all lines where it is no live send grant. None where it has a line that isn't
// the first on credits.
fn after_grant<'a>(
    credits: &Credits,
    number: usize,
    grant: &Grant,
    lines: &'a [AuditLine],
) -> Option<&'a [AuditLine]>
    ensures { BeginsWith (grant_line credits.now number grant.now) lines.now (option_copied result) }
{
    let fresh = grant.fresh();
    if !grant.is_live() || !matches!(fresh, Fresh::Send { .. }) {
        return Some(lines);
    }
    let place = first_credit(lines)?;
    if is_line(credits, number, &fresh, &lines[place]) {
        Some(&lines[place + 1..])
    } else {
        None
    }
}

/// Whether the lines on credits are those of these grants, whose numbers begin at 1.
pub fn are_credit_lines(credits: &Credits, grants: &[Grant], lines: &[AuditLine]) -> bool
    requires few { length grants.now < 4097 }
    ensures { IsTrue result ↔ only_credits lines.now ≡ counted_lines credits.now 1 grants.now }
{
    let mut rest = lines;
    for (i, grant) in grants.iter().enumerate() {
        let Some(more) = after_grant(credits, i + 1, grant, rest) else {
            return false;
        };
        rest = more;
    }
    first_credit(rest).is_none()
}

/// Whether there is one line on flights, with this number.
pub fn is_flights_line(flights: u64, lines: &[AuditLine]) -> bool
    ensures { IsTrue result ↔ only_flights lines.now ≡ AuditLine.Flights flights ∷ [] }
{
    let mut found = false;
    for line in lines {
        if let AuditLine::Flights(number) = line {
            if found || u64::from(*number) != flights {
                return false;
            }
            found = true;
        }
    }
    found
}

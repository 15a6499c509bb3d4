//! Whether the audit of a journal agrees with the ideal machine.

mod contexts;
mod counts;
mod credits;
mod flights;
mod lines;

ghost use Rattle.std.specs.Prelude.{◌↔◌, IsTrue, IfOk};
ghost use Rattle.m3_base.specs.Journal.Legal.{Audits};

use crate::audits::credits::Credits;
use crate::audits::lines::{are_credit_lines, is_flights_line};
use crate::ideal::Ideal;
use m3_base::journal::AuditLine;
use std::alloc::{AllocError, Global};

/// Whether the lines on credits and on flights are those of the machine; lines on tiles and on quiet aren't judged.
/// Each context, each flight, each grant and each line is looked at once. Err where memory runs out, or where a count
/// would pass 2^64 - 1.
pub fn audits(alloc: Global, ideal: &Ideal, lines: &[AuditLine]) -> Result<bool, AllocError>
    ensures { IfOk result (λ yes. IsTrue yes ↔ Audits ideal.now lines.now) }
{
    let credits = Credits::of(alloc, ideal)?;
    if !are_credit_lines(&credits, ideal.grants().all(), lines) {
        return Ok(false);
    }
    Ok(is_flights_line(credits.flights, lines))
}

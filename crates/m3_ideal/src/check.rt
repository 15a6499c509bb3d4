//! The check of a journal by the ideal machine.

ghost use Rattle.std.specs.Prelude.{◌≤◌, length, IfOk};
ghost use Rattle.m3_ideal.specs.Check.Verdicts.{IsVerdict, IsOnlyVerdict};

use crate::audits::audits;
use crate::ideal::Ideal;
use crate::judge::judge_all;
use crate::verdict::{Verdict, Why};
use m3_base::journal::{Audit, Journal};
use std::alloc::{AllocError, Global};

// The verdict, which is the only one.
fn verdict(alloc: Global, journal: &Journal, audit: &Audit) -> Result<Verdict, AllocError>
    requires few { length journal.now.entries.items ≤ 2097152 }
    ensures { IfOk result (IsVerdict journal.now.setup journal.now.entries.items audit.now.lines.items) }
{
    let mut ideal = Ideal::open(alloc, &journal.setup)?;
    if let Some((entry, why)) = judge_all(alloc, &mut ideal, &journal.entries)? {
        return Ok(Verdict::Illegal { entry, why });
    }
    let entries = journal.entries.len() as u32;
    if audits(alloc, &ideal, &audit.lines)? {
        Ok(Verdict::Legal(entries))
    } else {
        Ok(Verdict::Illegal {
            entry: entries + 1,
            why: Why::Audit,
        })
    }
}

/// The verdict on a journal and its audit: whether the entries, one after the other, are steps of the ideal machine from
/// the opening of the setup, each with the outcome that they say, and the audit's lines on credits and flights are those
/// of the state that they reach. What only places decide isn't judged: idle outcomes, lines on files, tiles and quiet. A
/// journal whose steps give away the last number or token, 4,294,967,295, is out of memory.
pub fn check(alloc: Global, journal: &Journal, audit: &Audit) -> Result<Verdict, AllocError>
    requires few { length journal.now.entries.items ≤ 2097152 }
    ensures verdict { IfOk result (λ v. IsVerdict journal.now.setup journal.now.entries.items audit.now.lines.items v) }
    ensures only { IfOk result (λ v. IsOnlyVerdict journal.now.setup journal.now.entries.items audit.now.lines.items v) }
{
    verdict(alloc, journal, audit)
}

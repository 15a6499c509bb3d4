//! The judge of entries: what their steps say, compared with what is printed.

ghost use Rattle.std.specs.Prelude.{◌≤◌, ◌∷◌, [], length, IfOk};
ghost use Rattle.m3_base.specs.declared.step.Step.{Step as StepValue};
ghost use Rattle.m3_ideal.specs.Check.Entries.{JudgesSteps, JudgesEntry, JudgesEntries};

use crate::belongs::belongs;
use crate::ideal::Ideal;
use crate::shows::{shows, shows_freed};
use crate::steps::{EntrySteps, steps_of};
use crate::verdict::Why;
use m3_base::event::{Entry, Said};
use m3_base::ids::GrantId;
use m3_base::step::Step;
use std::alloc::{AllocError, Global};

// Makes a step, and judges what it says.
fn judge_step(
    alloc: Global,
    ideal: &mut Ideal,
    step: Step,
    said: &Said,
) -> Result<Option<Why>, AllocError>
    ensures { IfOk result (λ why. JudgesSteps why (step ∷ []) ideal.old ideal.new said.now) }
{
    match ideal.step(alloc, step)? {
        None => Ok(Some(Why::Step)),
        Some(word) => {
            if shows(&word, said) {
                Ok(None)
            } else {
                Ok(Some(Why::Reply))
            }
        }
    }
}

// Makes a step and the Closed of a grant, and judges what they say.
fn judge_closed(
    alloc: Global,
    ideal: &mut Ideal,
    step: Step,
    grant: GrantId,
    said: &Said,
) -> Result<Option<Why>, AllocError>
    ensures { IfOk result (λ why. JudgesSteps why (step ∷ StepValue.Closed grant ∷ []) ideal.old ideal.new said.now) }
{
    let Some(word) = ideal.step(alloc, step)? else {
        return Ok(Some(Why::Step));
    };
    let Some(_freed) = ideal.step(alloc, Step::Closed(grant))? else {
        return Ok(Some(Why::Step));
    };
    if shows_freed(&word, said) {
        Ok(None)
    } else {
        Ok(Some(Why::Reply))
    }
}

/// Judges an entry, and makes its steps. Where it fails, the state is no longer of use.
pub fn judge(alloc: Global, ideal: &mut Ideal, entry: &Entry) -> Result<Option<Why>, AllocError>
    ensures { IfOk result (λ why. JudgesEntry why entry.now ideal.old ideal.new) }
{
    let outcome = &entry.outcome;
    if !belongs(&entry.event, outcome) {
        return Ok(Some(Why::Step));
    }
    match steps_of(alloc, &entry.event, outcome)? {
        EntrySteps::None => Ok(None),
        EntrySteps::One(step) => judge_step(alloc, ideal, step, &outcome.said),
        EntrySteps::Two(step, grant) => judge_closed(alloc, ideal, step, grant, &outcome.said),
    }
}

/// Judges entries one after the other, and answers the number, from 1, of the first that fails, and why.
pub fn judge_all(
    alloc: Global,
    ideal: &mut Ideal,
    entries: &[Entry],
) -> Result<Option<(u32, Why)>, AllocError>
    requires few { length entries.now ≤ 2097152 }
    ensures { IfOk result (λ first. JudgesEntries first entries.now ideal.old ideal.new) }
{
    for (i, entry) in entries.iter().enumerate() {
        if let Some(why) = judge(alloc, ideal, entry)? {
            return Ok(Some((i as u32 + 1, why)));
        }
    }
    Ok(None)
}

//! Making a grant.

ghost use Rattle.std.specs.Prelude.{◌≡◌, ℕ, ◌+◌, ◌≤◌, ◌∷◌, ◌++◌, [], length, is_none, nat_le, ◌||◌, Option, IfOk, OnOk, OnErr, option_copied};
ghost use Rattle.m3_base.specs.Ideal.State.{Grant as GrantValue, undone, parent_in, parent_of};
ghost use Rattle.m3_base.specs.Ideal.GrantRules.{make_refusal, form, fresh_of, is_outside, is_more, is_above_closing, is_crowded, new_grant};
ghost use Rattle.m3_ideal.specs.Making.{Forms};

use super::tally::{place, raise};
use super::{GRANTS, Grant, Grants};
use m3_base::event::No;
use m3_base::ids::GrantId;
use m3_base::order::GrantLine;
use m3_base::packet::Fresh;
use std::alloc::AllocError;

// The record of the grant above.
fn fresh_of(above: &Option<&Grant>) -> Option<Fresh>
    ensures { result ≡ fresh_of (option_copied above.now) }
{
    match above {
        Some(grant) => Some(grant.fresh()),
        None => None,
    }
}

// Whether the parent isn't there, or isn't of the needed kind.
fn lacks_parent(line: &GrantLine, above: &Option<&Grant>) -> bool
    ensures { (n : ℕ) → result ≡ is_none (form n line.now (option_copied above.now)) }
{
    match (line, above) {
        (GrantLine::Send { .. }, Some(above)) => !matches!(above.fresh(), Fresh::Receive { .. }),
        (GrantLine::Part { .. }, Some(above)) => !matches!(above.fresh(), Fresh::Memory { .. }),
        (GrantLine::Send { .. }, None) => true,
        (GrantLine::Part { .. }, None) => true,
        _ => false,
    }
}

// Whether the parent is there and isn't live.
fn is_above_closing(above: &Option<&Grant>) -> bool
    ensures { result ≡ is_above_closing (option_copied above.now) }
{
    match above {
        Some(above) => !above.is_live(),
        None => false,
    }
}

// Whether the range ends past its parent, or past memory.
fn is_outside(memory: usize, line: &GrantLine, above: &Option<Fresh>) -> bool
    ensures { result ≡ is_outside memory line.now above.now }
{
    match line {
        GrantLine::Range { at, len, .. } => (memory as u64) < *at as u64 + *len as u64,
        GrantLine::Part { at, len, .. } => match above {
            Some(Fresh::Memory { length, .. }) => (*length as u64) < *at as u64 + *len as u64,
            _ => false,
        },
        _ => false,
    }
}

// Whether a part permits what its parent doesn't.
fn is_more(line: &GrantLine, above: &Option<Fresh>) -> bool
    ensures { result ≡ is_more line.now above.now }
{
    match (line, above) {
        (GrantLine::Part { perm, .. }, Some(Fresh::Memory { perm: its, .. })) => {
            !perm.is_within(*its)
        }
        _ => false,
    }
}

// The record that a grant of this line and number begins with, where its parent is of the needed kind. Err where its
// start is above 4,294,967,295.
fn form(
    grant: GrantId,
    line: &GrantLine,
    above: &Option<&Grant>,
) -> Result<Option<Fresh>, AllocError>
    ensures { IfOk result (λ f. f ≡ form grant line.now (option_copied above.now)) }
{
    match (line, above) {
        (GrantLine::Recv { slots, size, .. }, _) => Ok(Some(Fresh::Receive {
            grant,
            slots: *slots,
            size: *size,
        })),
        (
            GrantLine::Send {
                of,
                label,
                credits,
                ..
            },
            Some(above),
        ) => match above.fresh() {
            Fresh::Receive { size, .. } => Ok(Some(Fresh::Send {
                grant,
                to: above.line().act(),
                to_ep: above.line().ep(),
                to_grant: *of,
                label: *label,
                size,
                limit: *credits,
            })),
            _ => Ok(None),
        },
        (GrantLine::Range { at, len, perm, .. }, _) => Ok(Some(Fresh::Memory {
            grant,
            start: *at,
            length: *len,
            perm: *perm,
        })),
        (GrantLine::Part { at, len, perm, .. }, Some(above)) => match above.fresh() {
            Fresh::Memory { start, .. } => match start.checked_add(*at) {
                None => Err(AllocError),
                Some(start) => Ok(Some(Fresh::Memory {
                    grant,
                    start,
                    length: *len,
                    perm: *perm,
                })),
            },
            _ => Ok(None),
        },
        _ => Ok(None),
    }
}

impl Grants {
    // Whether 4,096 grants were made, or the receive grant above has 64 children that aren't done.
    #[tactic(auto, using(crate::proofs::Tally::crowded))]
    fn is_full(&self, line: &GrantLine) -> bool
        ensures { result ≡ (nat_le 4096 (length self.now) || is_crowded line.now self.now) }
    {
        if GRANTS <= self.made.len() {
            return true;
        }
        match line {
            GrantLine::Send { of, .. } => 64 <= self.children[of.number() as usize],
            _ => false,
        }
    }

    /// Why a grant of this line can't be made, over so many bytes of memory.
    pub fn refusal(&self, memory: usize, line: &GrantLine) -> Option<No>
        ensures { result ≡ make_refusal memory self.now line.now }
    {
        let above = self.above(line);
        let fresh = fresh_of(&above);
        if lacks_parent(line, &above) {
            return Some(No::NoGrant);
        }
        if is_above_closing(&above) {
            return Some(No::Closing);
        }
        if self.is_held(line.act(), line.ep()) {
            return Some(No::SlotTaken);
        }
        if is_outside(memory, line, &fresh) {
            return Some(No::OutsideParent);
        }
        if is_more(line, &fresh) {
            return Some(No::MorePermission);
        }
        if self.is_full(line) {
            return Some(No::TooMany);
        }
        None
    }

    /// The record that the next grant would begin with, if it were of this line, and its number. None where its parent
    /// isn't of the needed kind. Err where 4,096 grants were made, or its start is above 4,294,967,295.
    pub fn next(&self, line: &GrantLine) -> Result<Option<(GrantId, Fresh)>, AllocError>
        ensures { IfOk result (λ f. Forms f line.now self.now) }
    {
        if GRANTS <= self.made.len() {
            return Err(AllocError);
        }
        let grant = GrantId::new(self.made.len() as u16 + 1);
        match form(grant, line, &self.above(line))? {
            None => Ok(None),
            Some(fresh) => Ok(Some((grant, fresh))),
        }
    }

    /// The record that the next grant of a setup would begin with, if it were of this line. None where its parent isn't
    /// of the needed kind. Err where 4,096 grants were made, or its start is above 4,294,967,295.
    pub fn first(&self, line: &GrantLine) -> Result<Option<Fresh>, AllocError>
        ensures { IfOk result (λ f. f ≡ form (length self.now + 1) line.now (parent_in self.now (parent_of line.now))) }
    {
        if GRANTS <= self.made.len() {
            return Err(AllocError);
        }
        let grant = GrantId::new(self.made.len() as u16 + 1);
        form(grant, line, &self.parent(line))
    }

    /// A new live grant. Err, and nothing has changed, where memory runs out or 4,096 grants were made.
    #[tactic(auto, using(crate::proofs::Tally::may_raise, crate::proofs::Tally::tallied_push))]
    pub fn push(&mut self, line: GrantLine, fresh: Fresh) -> Result<(), AllocError>
        ensures ok { OnOk result (self.new ≡ self.old ++ new_grant line fresh ∷ []) }
        ensures kept { OnErr result (self.new ≡ self.old) }
    {
        if GRANTS <= self.made.len() {
            return Err(AllocError);
        }
        self.made.reserve(1)?;
        let _ = place(&line);
        raise(&mut self.held, &mut self.children, &line);
        self.made.push_reserved(Grant::new(line, fresh));
        Ok(())
    }
}

//! The grants by their numbers, with tables of what stands at each endpoint and under each grant.

mod change;
mod make;
mod node;
mod tally;

ghost use Rattle.std.specs.Prelude.{◌≡◌, ◌*◌, ◌+◌, ◌-◌, ◌<◌, ◌≤◌, length, nat_lt, nat_le, [], slice_get, IfOk, Option, Some, None, option_copied};
ghost use Rattle.std.specs.List.{list_any};
ghost use Rattle.m3_base.specs.Ideal.GrantRules.{holds_at, may_close};
ghost use Rattle.m3_base.specs.Ideal.State.{grant_in, undone, parent_in, parent_of};

use m3_base::ids::{ActId, EpId, GrantId};
use m3_base::order::GrantLine;
pub use node::Grant;
use std::alloc::{AllocError, Global};
use std::marker::Model;
use tally::slot;

/// How many grants there may be.
const GRANTS: usize = 4096;

/// All grants that were made. Contracts see them in the order of their numbers.
#[derive(Debug, Drop)]
pub struct Grants {
    made: Vec<Grant>,
    // at 16 * activity + endpoint, how many grants that aren't done are held there
    held: Vec<u32>,
    // by a grant's number, how many grants under it aren't done
    children: Vec<u32>,
}

impl Model for Grants {
    ghost use Rattle.std.specs.Prelude.{List};
    ghost use Rattle.m3_base.specs.Ideal.State.{Grant as GrantValue};
    ghost use Rattle.m3_ideal.specs.Tally.{IsTallied};

    ghost Value = { List GrantValue };

    ghost view = { λ s. s.made.items };

    ghost invariant = { λ s. IsTallied s.made.items s.held.items s.children.items };
}

impl Grants {
    /// No grant.
    #[tactic(auto, using(crate::proofs::Changes::tallied_empty))]
    pub fn new(alloc: Global) -> Result<Grants, AllocError>
        ensures { IfOk result (λ gs. gs ≡ []) }
    {
        let mut held = Vec::new(alloc);
        held.resize(1024, 0)?;
        let mut children = Vec::new(alloc);
        children.resize(GRANTS + 1, 0)?;
        Ok(Grants {
            made: Vec::new(alloc),
            held,
            children,
        })
    }

    /// All of them, of which there are at most 4,096.
    pub fn all(&self) -> &[Grant]
        ensures same { result.now ≡ self.now }
        ensures few { length self.now ≤ 4096 }
    {
        self.made.as_slice()
    }

    /// The grant of this number.
    pub fn get(&self, g: GrantId) -> Option<&Grant>
        ensures { option_copied result ≡ grant_in self.now g }
    {
        self.made.get(g.number() as usize - 1)
    }

    // The grant that a line is under.
    fn parent(&self, line: &GrantLine) -> Option<&Grant>
        ensures { option_copied result ≡ parent_in self.now (parent_of line.now) }
    {
        match line.parent() {
            None => None,
            Some(parent) => self.get(parent),
        }
    }

    // The grant that a line is under, where it isn't done.
    fn above(&self, line: &GrantLine) -> Option<&Grant>
        ensures { option_copied result ≡ undone (parent_in self.now (parent_of line.now)) }
    {
        let grant = self.parent(line)?;
        if grant.is_done() { None } else { Some(grant) }
    }

    // Whether the activity's endpoint has a grant that isn't done.
    #[tactic(auto, using(crate::proofs::Tally::held_any))]
    fn is_held(&self, act: ActId, ep: EpId) -> bool
        ensures { result ≡ list_any (holds_at act ep) self.now }
    {
        let at = slot(act, ep);
        0 < self.held[at]
    }

    /// Whether the grant is closing, no child of it is left, and its Close wasn't sent.
    #[tactic(auto, using(crate::proofs::Tally::childless))]
    pub fn may_close(&self, g: GrantId) -> bool
        ensures { result ≡ may_close self.now g (grant_in self.now g) }
    {
        match self.get(g) {
            None => false,
            Some(grant) => {
                grant.is_closing() && !grant.is_sent() && self.children[g.number() as usize] == 0
            }
        }
    }
}

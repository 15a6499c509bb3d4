//! How grants hang together, for a walk over a subtree that meets no other grant.

ghost use Rattle.std.specs.Prelude.{◌≡◌, true, ◌-◌, ◌<◌, ◌++◌, ◌∷◌, [], length, OnOk, OnErr, vec_len, vec_capacity};
ghost use Rattle.m3_grants.specs.Siblings.{IsPrevious, IsLast};
ghost use Rattle.m3_grants.specs.SiblingListView.{last_before, with_last};
ghost use Rattle.m3_base.specs.Setup.GrantTable.{is_before};

use m3_base::ids::GrantId;
use std::alloc::{AllocError, Global};
use std::marker::Model;

/// A grant's kin: the one it was made under, the one made before it under the same, and the last made under it.
#[derive(Clone, Copy, Debug, Drop)]
pub struct Kin {
    parent: Option<GrantId>,
    previous: Option<GrantId>,
    last_child: Option<GrantId>,
}

/// The siblings of all grants that were made. Contracts see each one's parent.
#[derive(Debug, Drop)]
pub struct Siblings {
    siblings: Vec<Kin>,
}

impl Model for Siblings {
    ghost use Rattle.std.specs.Prelude.{List, Option, ℕ};
    ghost use Rattle.m3_grants.specs.SiblingListView.{parents_in, IsLinked};

    ghost Value = { List (Option ℕ) };

    ghost view = { λ s. parents_in s.siblings.items };

    ghost invariant = { λ s. IsLinked s.siblings.items };
}

// The child is the last of its parent. The one that was so before.
fn append(siblings: &mut Vec<Kin>, parent: &Option<GrantId>, child: GrantId) -> Option<GrantId>
    ensures before { result ≡ last_before siblings.old.items parent.now }
    ensures items { siblings.new.items ≡ with_last siblings.old.items parent.now child }
    ensures len { vec_len siblings.new ≡ vec_len siblings.old }
    ensures capacity { vec_capacity siblings.new ≡ vec_capacity siblings.old }
{
    match parent {
        Some(g) => {
            let at = g.number() as usize - 1;
            if at < siblings.len() {
                let above = &mut siblings[at];
                let before = above.last_child;
                above.last_child = Some(child);
                before
            } else {
                None
            }
        }
        None => None,
    }
}

impl Siblings {
    pub fn new(alloc: Global) -> Siblings
        ensures { result ≡ [] }
    {
        Siblings {
            siblings: Vec::new(alloc),
        }
    }

    /// The next grant's. Where no memory is left, nothing has changed.
    pub fn push(&mut self, parent: Option<GrantId>) -> Result<(), AllocError>
        requires few { length self.old < 4096 }
        requires before { is_before parent (length self.old) ≡ true }
        ensures pushed { OnOk result (self.new ≡ self.old ++ parent ∷ []) }
        ensures kept { OnErr result (self.new ≡ self.old) }
    {
        self.siblings.reserve(1)?;
        let child = GrantId::new(self.siblings.len() as u16 + 1);
        let previous = append(&mut self.siblings, &parent, child);
        self.siblings.push_reserved(Kin {
            parent,
            previous,
            last_child: None,
        });
        Ok(())
    }

    /// The grant that was made before this one under the same.
    pub fn previous(&self, g: GrantId) -> Option<GrantId>
        ensures { IsPrevious self.now g result }
    {
        let at = g.number() as usize - 1;
        if at < self.siblings.len() {
            self.siblings[at].previous
        } else {
            None
        }
    }

    /// The last grant that was made under this one.
    pub fn last_child(&self, g: GrantId) -> Option<GrantId>
        ensures { IsLast self.now g (length self.now) result }
    {
        let at = g.number() as usize - 1;
        if at < self.siblings.len() {
            self.siblings[at].last_child
        } else {
            None
        }
    }
}

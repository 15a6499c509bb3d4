//! The activities that are ready at a tile, first in, first out.

ghost use Rattle.std.specs.Prelude.{◌≡◌, ◌==◌, not, [], filter, length, slice_get, IfOk};
ghost use Rattle.std.specs.List.{IsDistinct};
ghost use Rattle.std.specs.VecDeque.{deque_capacity};
ghost use Rattle.m3_base.specs.Placement.State.{with_member};

use m3_base::ids::ActId;
use std::alloc::{AllocError, Global};
use std::collections::VecDeque;
use std::marker::Model;

/// A ready list, with room for all activities. Contracts see the activities' numbers, front first.
#[derive(Drop)]
pub struct ReadyList {
    acts: VecDeque<ActId>,
    /// Whether the activity of this number is in the list.
    has: Vec<bool>,
}

impl Model for ReadyList {
    ghost use Rattle.std.specs.Prelude.{ℕ, List};
    ghost use Rattle.std.specs.VecDeque.{deque_capacity};
    ghost use Rattle.m3_sched.specs.ReadyListView.{IsList};

    ghost Value = { List ℕ };

    ghost view = { λ s. s.acts.items };

    ghost invariant = { λ s. IsList s.acts.items (deque_capacity s.acts) s.has.items };
}

/// The activity is taken out of a queue, in which no activity is twice.
fn remove(acts: &mut VecDeque<ActId>, act: ActId)
    requires { IsDistinct ◌==◌ acts.old.items }
    ensures left { acts.new.items ≡ filter (λ b. not (b == act)) acts.old.items }
    ensures capacity { deque_capacity acts.new ≡ deque_capacity acts.old }
{
    let is_first = match acts.front() {
        None => false,
        Some(first) => *first == act,
    };
    if is_first {
        acts.pop_front();
    } else {
        acts.retain(|b| *b != act);
    }
}

impl ReadyList {
    /// A list of nobody.
    pub fn new(alloc: Global) -> Result<ReadyList, AllocError>
        ensures { IfOk result (λ s. s ≡ []) }
    {
        let mut has = Vec::new(alloc);
        has.resize(64, false)?;
        let acts = VecDeque::with_capacity(alloc, 64)?;
        Ok(ReadyList { acts, has })
    }

    /// The activity joins at the back, unless it is in the list.
    pub fn join(&mut self, act: ActId)
        ensures { self.new ≡ with_member act self.old }
    {
        let at = usize::from(act.number());
        if self.has[at] {
            return;
        }
        self.has[at] = true;
        self.acts.push_back_reserved(act);
    }

    /// The activity is taken out. At the front this takes constant time.
    pub fn leave(&mut self, act: ActId)
        ensures { self.new ≡ filter (λ b. not (b == act)) self.old }
    {
        let at = usize::from(act.number());
        if !self.has[at] {
            return;
        }
        self.has[at] = false;
        remove(&mut self.acts, act);
    }

    /// The front.
    pub fn front(&self) -> Option<ActId>
        ensures { result ≡ slice_get self.now 0 }
    {
        match self.acts.front() {
            None => None,
            Some(act) => Some(*act),
        }
    }

    /// Whether nobody is in the list.
    pub fn is_empty(&self) -> bool
        ensures { result ≡ (length self.now == 0) }
    {
        self.acts.is_empty()
    }
}

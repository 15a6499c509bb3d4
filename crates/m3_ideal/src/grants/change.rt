//! Changes of grants.

ghost use Rattle.std.specs.Prelude.{◌≡◌, ◌<◌, true, false, [], length, slice_index_or, IfOk, OnOk, OnErr};
ghost use Rattle.m3_base.specs.Ideal.State.{Closed, Done, grant_in};
ghost use Rattle.m3_base.specs.Ideal.GrantRules.{change_grant, revoke_refusal, after_revoke, with_root_closing, marks_under, is_marked, closing_where, to_closing};
ghost use Rattle.m3_base.specs.Ideal.State.{parent_of};

use super::node::Standing;
use super::tally::{lower, place, raise};
use super::{Grant, Grants};
use m3_base::event::No;
use m3_base::ids::GrantId;
use std::alloc::{AllocError, Global};

// Whether the parent of a grant is marked.
fn is_marked(marks: &[bool], grant: &Grant) -> bool
    ensures { result ≡ is_marked (parent_of grant.now.line) marks.now }
{
    match grant.line().parent() {
        None => false,
        Some(parent) => match marks.get(parent.number() as usize - 1) {
            Some(mark) => *mark,
            None => false,
        },
    }
}

// For each grant, whether it is this one or under it.
fn marks_under(alloc: Global, grants: &[Grant], g: GrantId) -> Result<Vec<bool>, AllocError>
    requires { length grants.now < 65536 }
    ensures { IfOk result (λ marks. marks.items ≡ marks_under g 1 [] grants.now) }
{
    let mut marks = Vec::with_capacity(alloc, grants.len())?;
    let mut number = 1;
    for grant in grants {
        let mark = number == g.number() as u32 || is_marked(&marks, grant);
        marks.push(mark)?;
        number += 1;
    }
    Ok(marks)
}

// A marked live grant is closing.
fn close_if(grant: &mut Grant, mark: bool)
    ensures { grant.new ≡ to_closing mark grant.old }
{
    if mark && grant.is_live() {
        grant.set_standing(Standing::Closing);
    }
}

// Whether a place is marked.
fn mark_at(marks: &[bool], at: usize) -> bool
    ensures { result ≡ slice_index_or marks.now at false }
{
    if at < marks.len() { marks[at] } else { false }
}

// The marked live grants are closing.
fn close_marked(grants: &mut [Grant], marks: &[bool])
    ensures { grants.new ≡ closing_where marks.now grants.old }
{
    for at in 0..grants.len() {
        let mark = mark_at(marks, at);
        let grant = &mut grants[at];
        close_if(grant, mark);
    }
}

impl Grants {
    /// Why the grant can't be revoked.
    pub fn revoke_refusal(&self, g: GrantId) -> Option<No>
        ensures { result ≡ revoke_refusal (grant_in self.now g) }
    {
        match self.get(g) {
            None => Some(No::NoGrant),
            Some(grant) => {
                if grant.is_done() {
                    Some(No::NoGrant)
                } else if grant.is_live() {
                    None
                } else {
                    Some(No::Closing)
                }
            }
        }
    }

    /// The Close of a grant is sent.
    pub fn send_close(&mut self, g: GrantId)
        ensures { self.new ≡ change_grant self.old g (λ x. record x { close_sent = true }) }
    {
        let at = g.number() as usize - 1;
        if at < self.made.len() {
            self.made[at].send_close();
        }
    }

    /// A grant is closed.
    pub fn close(&mut self, g: GrantId)
        ensures { self.new ≡ change_grant self.old g (λ x. record x { standing = Closed }) }
    {
        let at = g.number() as usize - 1;
        if at < self.made.len() {
            if self.made[at].is_done() {
                let line = self.made[at].line();
                let _ = place(&line);
                raise(&mut self.held, &mut self.children, &line);
            }
            self.made[at].set_standing(Standing::Closed);
        }
    }

    /// A grant that isn't done yet is done.
    pub fn finish(&mut self, g: GrantId)
        ensures { self.new ≡ change_grant self.old g (λ x. record x { standing = Done }) }
    {
        let at = g.number() as usize - 1;
        if at < self.made.len() {
            if !self.made[at].is_done() {
                let line = self.made[at].line();
                let _ = place(&line);
                lower(&mut self.held, &mut self.children, &line);
            }
            self.made[at].set_standing(Standing::Done);
        }
    }

    /// All live grants under this one, and this one, are closing, and this one is the root of the revoke. Err, and
    /// nothing has changed, where memory runs out.
    pub fn revoke(&mut self, alloc: Global, g: GrantId) -> Result<(), AllocError>
        ensures ok { OnOk result (self.new ≡ after_revoke self.old g) }
        ensures kept { OnErr result (self.new ≡ self.old) }
    {
        let marks = self.marks_under(alloc, g)?;
        self.close_under(&marks);
        self.root(g);
        Ok(())
    }

    // For each grant, whether it is this one or under it.
    fn marks_under(&self, alloc: Global, g: GrantId) -> Result<Vec<bool>, AllocError>
        ensures { IfOk result (λ marks. marks.items ≡ marks_under g 1 [] self.now) }
    {
        marks_under(alloc, &self.made, g)
    }

    // The marked live grants are closing.
    fn close_under(&mut self, marks: &[bool])
        ensures { self.new ≡ closing_where marks.now self.old }
    {
        close_marked(&mut self.made, marks);
    }

    // The grant is the root of a revoke.
    fn root(&mut self, g: GrantId)
        ensures { self.new ≡ with_root_closing self.old g }
    {
        let at = g.number() as usize - 1;
        if at < self.made.len() {
            self.made[at].root();
        }
    }
}

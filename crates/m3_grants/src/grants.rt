//! The tree of grants.

ghost use Rattle.std.specs.Prelude.{◌≡◌, ◌≢◌, true, ◌+◌, ◌≤◌, ◌&&◌, [], length, IfOk, OnOk, OnErr, None, Some, Err, is_some};
ghost use Rattle.std.specs.List.{list_any};
ghost use Rattle.m3_base.specs.Ideal.GrantRules.{make_refusal, revoke_refusal, after_revoke, holds_at, fresh_of};
ghost use Rattle.m3_base.specs.Placement.Order.{least_closing};
ghost use Rattle.m3_base.specs.Setup.Rules.{facts_of};
ghost use Rattle.m3_base.specs.Ideal.State.{grant_in, undone};
ghost use Rattle.m3_base.specs.Setup.GrantTable.{with_made, is_live_in, Stands};
ghost use Rattle.m3_grants.specs.GrantTree.{cause_in, cause_of, after_line, line_in, holder_in, IsHeld, IsChildless, is_sent_in, is_undone_in, with_sent, with_done, root_of};
ghost use Rattle.m3_grants.specs.declared.refusal.GrantRefusal.{GrantRefusal};

use crate::changes::{add_child, mark_done, mark_root, mark_sent, remove_child};
use crate::nodes::Nodes;
use crate::refusal::{GrantRefusal, refusal_of};
use crate::walk::close_subtree;
use m3_base::grants::node::{Node, Stage};
use m3_base::grants::{above_node, grant_record, grant_refusal, held_at};
use m3_base::ids::{ActId, EpId, GrantId, endpoint_index};
use m3_base::limits::{ALL_ENDPOINTS, MOST_GRANTS};
use m3_base::order::GrantLine;
use m3_base::packet::Fresh;
use m3_base::setup::Setup;
use m3_base::setup_line::SetupLine;
use std::alloc::{AllocError, Global};
use std::marker::Model;

/// All grants that were made, in the order of their numbers.
#[derive(Debug, Drop)]
pub struct Grants {
    memory: u32,
    nodes: Nodes,
    // at 16 * activity + endpoint, the grant there that isn't done
    held: Vec<Option<GrantId>>,
    // empty between calls, with room for all grants that a revoke has still to visit
    pending: Vec<GrantId>,
}

impl Model for Grants {
    ghost use Rattle.m3_grants.specs.GrantTree.{GrantTree};
    ghost use Rattle.m3_base.specs.Setup.GrantTable.{grants_of};
    ghost use Rattle.m3_grants.specs.NodeView.{IsWhole};
    ghost use Rattle.std.specs.Prelude.{vec_capacity};

    ghost Value = { GrantTree };

    ghost view = { λ s. record { memory = s.memory; grants = grants_of s.nodes } };

    ghost invariant = { λ s. IsWhole s.nodes s.held.items s.memory s.pending.items (vec_capacity s.pending) };
}

impl Grants {
    // Of no grants.
    fn empty(alloc: Global, memory: u32) -> Result<Grants, AllocError>
        requires { memory ≤ 1048576 }
        ensures { IfOk result (λ t. t ≡ record { memory = memory; grants = [] }) }
    {
        let mut held = Vec::new(alloc);
        held.resize(ALL_ENDPOINTS, None)?;
        Ok(Grants {
            memory,
            nodes: Nodes::new(alloc)?,
            held,
            pending: Vec::with_capacity(alloc, MOST_GRANTS)?,
        })
    }

    /// The grants of a setup, all live, as they stand at opening.
    pub fn new(alloc: Global, setup: &Setup) -> Result<Grants, AllocError>
        ensures { IfOk result (λ t. t ≡ record { memory = setup.now.memory; grants = (facts_of setup.now).grants }) }
    {
        let lines = setup.lines();
        let mut grants = Grants::empty(alloc, setup.memory())?;
        for line in lines {
            grants.read(line)?;
        }
        Ok(grants)
    }

    // A line of the setup, which no rule refuses: the only failure is that no memory is left.
    fn read(&mut self, line: &SetupLine) -> Result<(), AllocError>
        ensures { OnOk result (self.new ≡ after_line line.now self.old) }
    {
        match line {
            SetupLine::Grant(line) => match self.make(*line) {
                Ok(_) => Ok(()),
                Err(_) => Err(AllocError),
            },
            _ => Ok(()),
        }
    }

    // The grant of this number.
    fn get(&self, g: GrantId) -> Option<Node>
        ensures { Stands self.now.grants g (grant_in self.now.grants g) result }
    {
        self.nodes.get(g)
    }

    // The grant of this number, where it isn't done.
    fn open(&self, g: GrantId) -> Option<Node>
        ensures { Stands self.now.grants g (undone (grant_in self.now.grants g)) result }
    {
        let node = self.get(g)?;
        match node.stage {
            Stage::Done => None,
            _ => Some(node),
        }
    }

    // Why a grant of this line can't be made.
    fn refusal(&self, line: &GrantLine) -> Option<GrantRefusal>
        ensures { cause_in result ≡ make_refusal self.now.memory self.now.grants line.now }
    {
        let no = grant_refusal(
            self.memory,
            self.nodes.as_slice(),
            self.held.as_slice(),
            line,
        )?;
        Some(refusal_of(no))
    }

    // Makes a grant that isn't refused. Where no memory is left, nothing has changed.
    fn add(&mut self, line: GrantLine) -> Result<GrantId, AllocError>
        requires allowed { make_refusal self.old.memory self.old.grants line ≡ None }
        ensures id { IfOk result (λ g. g ≡ length self.old.grants + 1) }
        ensures made { OnOk result (self.new ≡ record self.old { grants = with_made line self.old.grants }) }
        ensures kept { OnErr result (self.new ≡ self.old) }
    {
        let grant = GrantId::new(self.nodes.len() as u16 + 1);
        let above = above_node(self.nodes.as_slice(), line.parent());
        let fresh = match grant_record(grant, &line, above) {
            Some(fresh) => fresh,
            None => return Ok(grant),
        };
        self.nodes.push(line, fresh)?;
        add_child(&mut self.nodes, line.parent());
        let at = endpoint_index(line.act(), line.ep());
        self.held[at] = Some(grant);
        Ok(grant)
    }

    /// How many grants were made.
    pub fn count(&self) -> u16
        ensures count { result ≡ length self.now.grants }
        ensures range { result ≤ 4096 }
    {
        self.nodes.len() as u16
    }

    /// Makes a live grant of this line. Its number is the next one. The refusals come exactly where they stand, and the
    /// first of them where there are several: the order of the variants of `GrantRefusal`. `NoMemory` comes only where
    /// no other does. After a refusal nothing has changed.
    pub fn make(&mut self, line: GrantLine) -> Result<GrantId, GrantRefusal>
        ensures id { IfOk result (λ g. g ≡ length self.old.grants + 1) }
        ensures made { OnOk result (self.new ≡ record self.old { grants = with_made line self.old.grants }) }
        ensures kept { OnErr result (self.new ≡ self.old) }
        ensures refused { cause_of result ≡ make_refusal self.old.memory self.old.grants line }
    {
        if let Some(refusal) = self.refusal(&line) {
            return Err(refusal);
        }
        match self.add(line) {
            Ok(grant) => Ok(grant),
            Err(_) => Err(GrantRefusal::NoMemory),
        }
    }

    /// The record that the grant stands for. None exactly where it doesn't exist or is done.
    pub fn fresh(&self, g: GrantId) -> Option<Fresh>
        ensures { result ≡ fresh_of (undone (grant_in self.now.grants g)) }
    {
        match self.open(g) {
            Some(node) => Some(node.fresh),
            None => None,
        }
    }

    /// The line that the grant was made by. None exactly where it doesn't exist or is done.
    pub fn line(&self, g: GrantId) -> Option<GrantLine>
        ensures { result ≡ line_in (undone (grant_in self.now.grants g)) }
    {
        match self.open(g) {
            Some(node) => Some(node.line),
            None => None,
        }
    }

    /// Who holds the grant, and at which endpoint. None exactly where it doesn't exist or is done.
    pub fn holder(&self, g: GrantId) -> Option<(ActId, EpId)>
        ensures { result ≡ holder_in (undone (grant_in self.now.grants g)) }
    {
        match self.open(g) {
            Some(node) => Some((node.line.act(), node.line.ep())),
            None => None,
        }
    }

    /// Whether the grant exists and is live.
    pub fn live(&self, g: GrantId) -> bool
        ensures { result ≡ is_live_in (grant_in self.now.grants g) }
    {
        match self.get(g) {
            Some(node) => matches!(node.stage, Stage::Live),
            None => false,
        }
    }

    /// The one grant that is held at this endpoint and isn't done. None exactly where there is none.
    pub fn held(&self, act: ActId, ep: EpId) -> Option<GrantId>
        ensures held { IsHeld self.now.grants act ep result }
        ensures some { is_some result ≡ list_any (holds_at act ep) self.now.grants }
    {
        held_at(self.held.as_slice(), act, ep)
    }

    /// All live grants under this one, and this one, are closing, and this one is the root of the revoke. `NoGrant`
    /// exactly where it doesn't exist or is done, `Closing` exactly where it isn't live; then nothing has changed. It is
    /// never refused for want of memory.
    pub fn revoke(&mut self, g: GrantId) -> Result<(), GrantRefusal>
        ensures ok { OnOk result (self.new ≡ record self.old { grants = after_revoke self.old.grants g }) }
        ensures kept { OnErr result (self.new ≡ self.old) }
        ensures refused { cause_of result ≡ revoke_refusal (grant_in self.old.grants g) }
        ensures memory { result ≢ Err GrantRefusal.NoMemory }
    {
        match self.open(g) {
            None => Err(GrantRefusal::NoGrant),
            Some(node) => {
                if !matches!(node.stage, Stage::Live) {
                    return Err(GrantRefusal::Closing);
                }
                close_subtree(&mut self.nodes, &mut self.pending, g);
                mark_root(&mut self.nodes, g);
                Ok(())
            }
        }
    }

    /// The grant whose Close is due next: the least that is closing, has no child that isn't done, and whose Close
    /// wasn't sent. None exactly where there is none.
    pub fn next_close(&self) -> Option<GrantId>
        ensures least { result ≡ least_closing self.now.grants 1 self.now.grants }
        ensures children_first { IsChildless self.now.grants result }
    {
        self.nodes.first_due()
    }

    /// The grant's Close is sent. The condition is that `next_close` gives it.
    pub fn sent(&mut self, g: GrantId)
        requires { least_closing self.old.grants 1 self.old.grants ≡ Some g }
        ensures sent { self.new ≡ record self.old { grants = with_sent self.old.grants g } }
        ensures awaits_closed { is_sent_in (grant_in self.new.grants g) ≡ true }
        ensures undone { is_undone_in (grant_in self.new.grants g) ≡ true }
    {
        mark_sent(&mut self.nodes, g);
    }

    /// Whether the grant's Close was sent and it isn't done: the condition of `closed`.
    pub fn awaits_closed(&self, g: GrantId) -> bool
        ensures { result ≡ (is_sent_in (grant_in self.now.grants g) && is_undone_in (grant_in self.now.grants g)) }
    {
        match self.open(g) {
            Some(node) => node.close_sent,
            None => false,
        }
    }

    /// The grant is done, and its endpoint has no grant. The condition is that its Close was sent and it isn't done.
    /// Some of its number exactly where it is the root of a revoke.
    pub fn closed(&mut self, g: GrantId) -> Option<GrantId>
        requires sent { is_sent_in (grant_in self.old.grants g) ≡ true }
        requires undone { is_undone_in (grant_in self.old.grants g) ≡ true }
        ensures root { result ≡ root_of g (grant_in self.old.grants g) }
        ensures done { self.new ≡ record self.old { grants = with_done self.old.grants g } }
    {
        let node = self.get(g)?;
        remove_child(&mut self.nodes, node.line.parent());
        let at = endpoint_index(node.line.act(), node.line.ep());
        self.held[at] = None;
        mark_done(&mut self.nodes, g);
        if node.is_root { Some(g) } else { None }
    }
}

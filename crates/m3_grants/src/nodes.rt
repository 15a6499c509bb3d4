//! The grants in the order of their numbers, with what finds those that are due or under another at once.

ghost use Rattle.std.specs.Prelude.{◌≡◌, true, ◌-◌, ◌<◌, ◌≤◌, ◌++◌, ◌∷◌, [], length, slice_get, slice_set, IfOk, OnOk, OnErr};
ghost use Rattle.m3_base.specs.Setup.GrantTable.{new_node, is_before};
ghost use Rattle.m3_grants.specs.NodeView.{first_due, is_due};
ghost use Rattle.m3_grants.specs.Siblings.{IsPrevious, IsLast};
ghost use Rattle.m3_grants.specs.DueIndexView.{parents_of, HasParent};
ghost use Rattle.m3_base.specs.Ideal.State.{parent_of};

use crate::siblings::Siblings;
use m3_base::grants::node::{Node, Stage};
use m3_base::grants::node_at;
use m3_base::ids::GrantId;
use m3_base::order::GrantLine;
use m3_base::packet::Fresh;
use m3_bit_set::bit_set::BitSet;
use std::alloc::{AllocError, Global};
use std::marker::Model;

/// All grants that were made. Contracts see the list of them: the grant of number g stands at g - 1.
#[derive(Debug, Drop)]
pub struct Nodes {
    nodes: Vec<Node>,
    // where those stand whose Close is due
    due: BitSet,
    siblings: Siblings,
}

impl Model for Nodes {
    ghost use Rattle.std.specs.Prelude.{List};
    ghost use Rattle.m3_base.specs.declared.grants.node.Node.{Node as ANode};
    ghost use Rattle.m3_grants.specs.DueIndexView.{IsIndexed};

    ghost Value = { List ANode };

    ghost view = { λ s. s.nodes.items };

    ghost invariant = { λ s. IsIndexed s.nodes.items s.due s.siblings };
}

// Whether a grant's Close is due.
fn is_due(node: &Node) -> bool
    ensures { result ≡ is_due node.now }
{
    matches!(node.stage, Stage::Closing) && !node.close_sent && node.children == 0
}

impl Nodes {
    pub fn new(alloc: Global) -> Result<Nodes, AllocError>
        ensures { IfOk result (λ nodes. nodes ≡ []) }
    {
        let due = BitSet::new(alloc)?;
        Ok(Nodes {
            nodes: Vec::new(alloc),
            due,
            siblings: Siblings::new(alloc),
        })
    }

    pub fn len(&self) -> usize
        ensures { result ≡ length self.now }
    {
        self.nodes.len()
    }

    /// The grant of this number.
    pub fn get(&self, g: GrantId) -> Option<Node>
        ensures found { result ≡ slice_get self.now (g - 1) }
        ensures some { 0 < g }
    {
        node_at(self.nodes.as_slice(), g)
    }

    /// All of them.
    pub fn as_slice(&self) -> &[Node]
        ensures { result.now ≡ self.now }
    {
        self.nodes.as_slice()
    }

    /// The next grant, which is live. Where no memory is left, nothing has changed.
    pub fn push(&mut self, line: GrantLine, fresh: Fresh) -> Result<(), AllocError>
        requires few { length self.old < 4096 }
        requires before { is_before (parent_of line) (length self.old) ≡ true }
        ensures pushed { OnOk result (self.new ≡ self.old ++ new_node line fresh ∷ []) }
        ensures kept { OnErr result (self.new ≡ self.old) }
    {
        self.nodes.reserve(1)?;
        self.siblings.push(line.parent())?;
        self.nodes.push_reserved(Node {
            line,
            fresh,
            stage: Stage::Live,
            close_sent: false,
            is_root: false,
            children: 0,
        });
        Ok(())
    }

    /// The grant of this number is so from now on. Its parent stays.
    pub fn put(&mut self, g: GrantId, node: Node)
        requires { HasParent (parent_of node.line) (slice_get self.old (g - 1)) }
        ensures { self.new ≡ slice_set self.old (g - 1) node }
    {
        let at = g.number() as usize - 1;
        let due = is_due(&node);
        self.nodes[at] = node;
        if due {
            self.due.insert(at);
        } else {
            self.due.remove(at);
        }
    }

    /// The first grant whose Close is due.
    pub fn first_due(&self) -> Option<GrantId>
        ensures { result ≡ first_due 1 self.now }
    {
        let at = self.due.first()?;
        Some(GrantId::new(at as u16 + 1))
    }
    /// The grant that was made before this one under the same.
    pub fn previous(&self, g: GrantId) -> Option<GrantId>
        ensures { IsPrevious (parents_of self.now) g result }
    {
        self.siblings.previous(g)
    }

    /// The last grant that was made under this one.
    pub fn last_child(&self, g: GrantId) -> Option<GrantId>
        ensures last { IsLast (parents_of self.now) g (length (parents_of self.now)) result }
        ensures few { length self.now ≤ 4096 }
    {
        self.siblings.last_child(g)
    }
}

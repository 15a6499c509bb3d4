//! The grants of a setup, as they stand at opening.

ghost use Rattle.std.specs.Prelude.{◌≡◌, true, ◌+◌, ◌<◌, ◌≤◌, ◌++◌, ◌∷◌, [], length, IfOk, OnOk, OnErr, None, is_some, vec_len, vec_capacity};
ghost use Rattle.m3_base.specs.Ideal.GrantRules.{make_refusal, fresh_of};
ghost use Rattle.m3_base.specs.Setup.GrantTable.{grant_of, under_parent, has_room_under, new_node, with_child_more};
ghost use Rattle.m3_base.specs.Setup.Rules.{grant_added, may_hold_files};
ghost use Rattle.m3_base.specs.Ideal.State.{grant_in};

use crate::grants::node::{Node, Stage};
use crate::grants::{above_node, grant_record, grant_refusal, node_at};
use crate::ids::{GrantId, endpoint_index};
use crate::limits::{ALL_ENDPOINTS, BLOCK_BYTES};
use crate::order::GrantLine;
use crate::packet::{Fresh, Perm};
use std::alloc::{AllocError, Global};
use std::marker::Model;

/// The grants in the order of their numbers. Contracts see them as they stand: all live.
#[derive(Debug, Drop)]
pub struct SetupGrants {
    nodes: Vec<Node>,
    // at an endpoint's index, the grant there
    held: Vec<Option<GrantId>>,
}

impl Model for SetupGrants {
    ghost use Rattle.std.specs.Prelude.{List};
    ghost use Rattle.m3_base.specs.Ideal.State.{Grant};

    ghost Value = { List Grant };

    ghost use Rattle.m3_base.specs.Setup.GrantTable.{grants_of, IsSetupTable};

    ghost view = { λ s. grants_of s.nodes.items };

    ghost invariant = { λ s. IsSetupTable s.nodes.items s.held.items };
}

// The parent has one more child.
fn add_child(nodes: &mut Vec<Node>, parent: Option<GrantId>)
    requires { has_room_under nodes.old.items parent ≡ true }
    ensures items { nodes.new.items ≡ under_parent nodes.old.items parent with_child_more }
    ensures len { vec_len nodes.new ≡ vec_len nodes.old }
    ensures capacity { vec_capacity nodes.new ≡ vec_capacity nodes.old }
{
    if let Some(g) = parent {
        let at = g.number() as usize - 1;
        if at < nodes.len() {
            let above = &mut nodes[at];
            above.children += 1;
        }
    }
}

impl SetupGrants {
    /// No grant.
    pub fn new(alloc: Global) -> Result<SetupGrants, AllocError>
        ensures { IfOk result (λ g. g ≡ []) }
    {
        let mut held = Vec::new(alloc);
        held.resize(ALL_ENDPOINTS, None)?;
        Ok(SetupGrants {
            nodes: Vec::new(alloc),
            held,
        })
    }

    // The grant of this number.
    fn get(&self, g: GrantId) -> Option<Node>
        ensures { grant_in self.now g ≡ grant_of result }
    {
        node_at(self.nodes.as_slice(), g)
    }

    /// The record that the grant of this number begins with.
    pub fn fresh(&self, g: GrantId) -> Option<Fresh>
        ensures { result ≡ fresh_of (grant_in self.now g) }
    {
        match self.get(g) {
            Some(grant) => Some(grant.fresh),
            None => None,
        }
    }

    /// Whether the grant of this number is a range or part that may be read and written, with a block's 256 bytes.
    pub fn may_hold_files(&self, g: GrantId) -> bool
        ensures { result ≡ may_hold_files (fresh_of (grant_in self.now g)) }
    {
        match self.fresh(g) {
            Some(
                Fresh::Memory {
                    length,
                    perm: Perm::Rw,
                    ..
                },
            ) => BLOCK_BYTES <= length,
            _ => false,
        }
    }

    /// Whether the kernel would refuse to make this grant after these.
    pub fn refuses(&self, memory: u32, line: &GrantLine) -> bool
        ensures { result ≡ is_some (make_refusal memory self.now line.now) }
    {
        grant_refusal(memory, self.nodes.as_slice(), self.held.as_slice(), line).is_some()
    }

    /// Makes the grant of this line, where its parent is there and of the needed kind. Where no memory is left,
    /// nothing has changed.
    pub fn add(&mut self, memory: u32, line: GrantLine) -> Result<(), AllocError>
        requires size { memory ≤ 1048576 }
        requires allowed { make_refusal memory self.old line ≡ None }
        ensures added { OnOk result (self.new ≡ grant_added line self.old) }
        ensures kept { OnErr result (self.new ≡ self.old) }
    {
        let grant = GrantId::new(self.nodes.len() as u16 + 1);
        let above = above_node(self.nodes.as_slice(), line.parent());
        let fresh = match grant_record(grant, &line, above) {
            Some(fresh) => fresh,
            None => return Ok(()),
        };
        self.nodes.reserve(1)?;
        add_child(&mut self.nodes, line.parent());
        let at = endpoint_index(line.act(), line.ep());
        self.held[at] = Some(grant);
        self.nodes.push_reserved(Node {
            line,
            fresh,
            stage: Stage::Live,
            close_sent: false,
            is_root: false,
            children: 0,
        });
        Ok(())
    }
}

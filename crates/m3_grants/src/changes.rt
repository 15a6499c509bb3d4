//! Changes of single grants.

ghost use Rattle.std.specs.Prelude.{◌≡◌, true, ◌-◌};
ghost use Rattle.m3_base.specs.Setup.GrantTable.{under_parent, has_room_under, with_node, with_child_more};
ghost use Rattle.m3_grants.specs.NodeView.{has_child_under, sent_node, done_node, root_node, closing_node, with_child_less};

use crate::nodes::Nodes;
use m3_base::grants::node::Stage;
use m3_base::ids::GrantId;

/// The parent has one more child.
pub fn add_child(nodes: &mut Nodes, parent: Option<GrantId>)
    requires { has_room_under nodes.old parent ≡ true }
    ensures { nodes.new ≡ under_parent nodes.old parent with_child_more }
{
    if let Some(g) = parent {
        if let Some(mut node) = nodes.get(g) {
            node.children += 1;
            nodes.put(g, node);
        }
    }
}

/// The parent has one child less.
pub fn remove_child(nodes: &mut Nodes, parent: Option<GrantId>)
    requires { has_child_under nodes.old parent ≡ true }
    ensures { nodes.new ≡ under_parent nodes.old parent with_child_less }
{
    if let Some(g) = parent {
        if let Some(mut node) = nodes.get(g) {
            node.children -= 1;
            nodes.put(g, node);
        }
    }
}

/// Its Close was sent.
pub fn mark_sent(nodes: &mut Nodes, g: GrantId)
    ensures { nodes.new ≡ with_node nodes.old (g - 1) sent_node }
{
    if let Some(mut node) = nodes.get(g) {
        node.close_sent = true;
        nodes.put(g, node);
    }
}

/// It is done.
pub fn mark_done(nodes: &mut Nodes, g: GrantId)
    ensures { nodes.new ≡ with_node nodes.old (g - 1) done_node }
{
    if let Some(mut node) = nodes.get(g) {
        node.stage = Stage::Done;
        nodes.put(g, node);
    }
}

/// It is closing.
pub fn mark_closing(nodes: &mut Nodes, g: GrantId)
    ensures { nodes.new ≡ with_node nodes.old (g - 1) closing_node }
{
    if let Some(mut node) = nodes.get(g) {
        node.stage = Stage::Closing;
        nodes.put(g, node);
    }
}

/// It is the root of a revoke.
pub fn mark_root(nodes: &mut Nodes, g: GrantId)
    ensures { nodes.new ≡ with_node nodes.old (g - 1) root_node }
{
    if let Some(mut node) = nodes.get(g) {
        node.is_root = true;
        nodes.put(g, node);
    }
}

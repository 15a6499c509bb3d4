//! The walk over a subtree, which meets its grants and those that were made right under them.

ghost use Rattle.std.specs.Prelude.{◌≡◌, true, ℕ, ◌+◌, ◌-◌, ◌<◌, ◌≤◌, ◌++◌, ◌∷◌, [], List, length, slice_get, option_to_list, vec_len, vec_capacity};
ghost use Rattle.m3_base.specs.Ideal.GrantRules.{marks_under};
ghost use Rattle.m3_base.specs.Ideal.State.{grant_in};
ghost use Rattle.m3_base.specs.declared.grants.node.Node.{Node as ANode};
ghost use Rattle.m3_base.specs.Setup.GrantTable.{is_live_in, grants_of, with_node};
ghost use Rattle.m3_grants.specs.NodeView.{AllRightful, closing_node, close_where, is_live_node};
ghost use Rattle.m3_grants.specs.DueIndexView.{parents_of};
ghost use Rattle.m3_grants.specs.Siblings.{IsLast};
ghost use Rattle.m3_grants.specs.SubtreeWalk.{Walks, live_count, left};

use crate::changes::mark_closing;
use crate::nodes::Nodes;
use m3_base::grants::node::Stage;
use m3_base::ids::GrantId;

// The grant, if any, is visited later.
fn push_pending(pending: &mut Vec<GrantId>, next: Option<GrantId>)
    requires { vec_len pending.old < vec_capacity pending.old }
    ensures items { pending.new.items ≡ pending.old.items ++ option_to_list next }
    ensures len { vec_len pending.new ≡ vec_len pending.old + length (option_to_list next) }
    ensures capacity { vec_capacity pending.new ≡ vec_capacity pending.old }
{
    if let Some(g) = next {
        pending.push_reserved(g);
    }
}

fn is_live(nodes: &Nodes, g: GrantId) -> bool
    ensures { result ≡ is_live_node (slice_get nodes.now (g - 1)) }
{
    match nodes.get(g) {
        Some(node) => matches!(node.stage, Stage::Live),
        None => false,
    }
}

// The grant is closing. The last grant that was made under it.
fn close(nodes: &mut Nodes, g: GrantId) -> Option<GrantId>
    ensures nodes { nodes.new ≡ with_node nodes.old (g - 1) closing_node }
    ensures last { IsLast (parents_of nodes.new) g (length (parents_of nodes.new)) result }
    ensures few { length nodes.new ≤ 4096 }
{
    mark_closing(nodes, g);
    nodes.last_child(g)
}

// The grant is closing where it was live, and those that were made before it under the same are visited later.
fn visit(nodes: &mut Nodes, pending: &mut Vec<GrantId>, g: GrantId)
    requires { vec_len pending.old + 1 + live_count nodes.old ≤ vec_capacity pending.old }
    ensures walks { (root : ℕ) (before : List ANode) →
        Walks root before nodes.old (pending.old.items ++ g ∷ []) →
        Walks root before nodes.new pending.new.items }
    ensures nearer { (root : ℕ) (before : List ANode) →
        Walks root before nodes.old (pending.old.items ++ g ∷ []) →
        left nodes.new pending.new.items < left nodes.old (pending.old.items ++ g ∷ []) }
    ensures capacity { vec_capacity pending.new ≡ vec_capacity pending.old }
{
    let previous = nodes.previous(g);
    push_pending(pending, previous);
    if is_live(nodes, g) {
        let last = close(nodes, g);
        push_pending(pending, last);
    }
}

/// All live grants of g's subtree are closing, where g is live. The list of those to visit needs room for all.
pub fn close_subtree(nodes: &mut Nodes, pending: &mut Vec<GrantId>, g: GrantId)
    requires rightful { AllRightful (grants_of nodes.old) }
    requires live { is_live_in (grant_in (grants_of nodes.old) g) ≡ true }
    requires none { pending.old.items ≡ [] }
    requires room { 4096 ≤ vec_capacity pending.old }
    ensures items { nodes.new ≡ close_where (marks_under g 1 [] (grants_of nodes.old)) nodes.old }
    ensures none { pending.new.items ≡ [] }
    ensures room { vec_capacity pending.new ≡ vec_capacity pending.old }
{
    let child = close(nodes, g);
    push_pending(pending, child);
    while let Some(next) = pending.pop() {
        visit(nodes, pending, next);
    }
}

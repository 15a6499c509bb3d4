//! The table of grants: why the kernel refuses a line, and the record that its grant begins with. A setup and the
//! kernel's tree of grants both ask here.

pub mod node;
mod rules;

ghost use Rattle.std.specs.Prelude.{◌≡◌, ◌+◌, ◌-◌, ◌*◌, ◌<◌, ◌||◌, nat_le, length, slice_get, slice_index_or, None};
ghost use Rattle.m3_base.specs.Ideal.State.{grant_in, undone, parent_in};
ghost use Rattle.m3_base.specs.Ideal.GrantRules.{make_refusal};
ghost use Rattle.m3_base.specs.Setup.GrantTable.{grants_of, Stands, StandsAbove, AllCounted, IsTree, crowds};

use crate::event::No;
use crate::ids::{ActId, EpId, GrantId, endpoint_index};
use crate::limits::MOST_GRANTS;
use crate::order::GrantLine;
use node::{Node, Stage};
pub use rules::grant_record;

/// The grant of this number.
pub fn node_at(nodes: &[Node], g: GrantId) -> Option<Node>
    ensures found { result ≡ slice_get nodes.now (g - 1) }
    ensures some { 0 < g }
{
    let at = g.number() as usize - 1;
    if at < nodes.len() {
        Some(nodes[at])
    } else {
        None
    }
}

// The grant of this number, with its count of children.
fn counted_node(nodes: &[Node], g: GrantId) -> Option<Node>
    requires { AllCounted nodes.now }
    ensures { Stands (grants_of nodes.now) g (grant_in (grants_of nodes.now) g) result }
{
    node_at(nodes, g)
}

/// The grant of this number, where it isn't done.
pub fn open_node(nodes: &[Node], g: GrantId) -> Option<Node>
    requires { AllCounted nodes.now }
    ensures { Stands (grants_of nodes.now) g (undone (grant_in (grants_of nodes.now) g)) result }
{
    let node = counted_node(nodes, g)?;
    match node.stage {
        Stage::Done => None,
        _ => Some(node),
    }
}

/// The grant that a line is made under, where there is one and it isn't done.
pub fn above_node(nodes: &[Node], parent: Option<GrantId>) -> Option<Node>
    requires { AllCounted nodes.now }
    ensures { StandsAbove (grants_of nodes.now) parent (undone (parent_in (grants_of nodes.now) parent)) result }
{
    match parent {
        Some(g) => open_node(nodes, g),
        None => None,
    }
}

/// The grant at an activity's endpoint that isn't done, by the table of all endpoints.
pub fn held_at(held: &[Option<GrantId>], act: ActId, ep: EpId) -> Option<GrantId>
    requires { length held.now ≡ 1024 }
    ensures held { result ≡ slice_index_or held.now (16 * act + ep) None }
    ensures act { act < 64 }
    ensures ep { ep < 16 }
{
    let at = endpoint_index(act, ep);
    held[at]
}

// Whether all grants were made, or the receive grant above has as many children as it may.
fn is_full(nodes: &[Node], line: &GrantLine, above: &Option<Node>) -> bool
    ensures { result ≡ (nat_le 4096 (length nodes.now) || crowds line.now above.now) }
{
    MOST_GRANTS <= nodes.len() || rules::is_crowded(line, above)
}

/// Why the kernel refuses to make a grant of this line, with so many bytes of memory; None where it doesn't.
pub fn grant_refusal(
    memory: u32,
    nodes: &[Node],
    held: &[Option<GrantId>],
    line: &GrantLine,
) -> Option<No>
    requires { IsTree nodes.now held.now }
    ensures { result ≡ make_refusal memory (grants_of nodes.now) line.now }
{
    let above = above_node(nodes, line.parent());
    if rules::lacks_parent(line, &above) {
        return Some(No::NoGrant);
    }
    if rules::is_above_closing(&above) {
        return Some(No::Closing);
    }
    if held_at(held, line.act(), line.ep()).is_some() {
        return Some(No::SlotTaken);
    }
    if rules::is_outside(memory, line, &above) {
        return Some(No::OutsideParent);
    }
    if rules::is_more(line, &above) {
        return Some(No::MorePermission);
    }
    if is_full(nodes, line, &above) {
        return Some(No::TooMany);
    }
    None
}

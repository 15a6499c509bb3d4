//! The tables of grants that aren't done: how many are held at each endpoint, and how many are under each grant.

ghost use Rattle.std.specs.Prelude.{◌≡◌, ◌*◌, ◌+◌, ◌<◌, ◌≤◌, length};
ghost use Rattle.m3_base.specs.Ideal.State.{parent_of, holder, holder_ep};
ghost use Rattle.m3_ideal.specs.Tally.{place_of, IsParent, IsSize, MayRaise, MayLower, held_raised, held_lowered, under_raised, under_lowered};

use m3_base::ids::{ActId, EpId};
use m3_base::order::GrantLine;

/// Where an endpoint stands in the table.
pub fn slot(act: ActId, ep: EpId) -> usize
    ensures at { result ≡ 16 * act + ep }
    ensures range { result < 1024 }
    ensures act { act < 64 }
    ensures ep { ep < 16 }
{
    16 * act.number() as usize + ep.number() as usize
}

/// Where the endpoint of a line stands in the table.
#[tactic(auto, using(crate::proofs::Tally::no_parent, crate::proofs::Tally::some_parent))]
pub fn place(line: &GrantLine) -> usize
    ensures at { result ≡ place_of line.now }
    ensures act { holder line.now < 64 }
    ensures ep { holder_ep line.now < 16 }
    ensures parent { IsParent (parent_of line.now) }
{
    let at = slot(line.act(), line.ep());
    match line.parent() {
        None => at,
        Some(parent) => {
            let _ = parent.number();
            at
        }
    }
}

/// A grant of this line that isn't done comes.
pub fn raise(held: &mut Vec<u32>, children: &mut Vec<u32>, line: &GrantLine)
    requires size { IsSize held.old.items children.old.items }
    requires fits { MayRaise line.now held.old.items children.old.items }
    ensures held { held.new.items ≡ held_raised line.now held.old.items }
    ensures children { children.new.items ≡ under_raised (parent_of line.now) children.old.items }
{
    let at = slot(line.act(), line.ep());
    held[at] += 1;
    if let Some(parent) = line.parent() {
        children[parent.number() as usize] += 1;
    }
}

/// A grant of this line that wasn't done goes.
pub fn lower(held: &mut Vec<u32>, children: &mut Vec<u32>, line: &GrantLine)
    requires size { IsSize held.old.items children.old.items }
    requires some { MayLower line.now held.old.items children.old.items }
    ensures held { held.new.items ≡ held_lowered line.now held.old.items }
    ensures children { children.new.items ≡ under_lowered (parent_of line.now) children.old.items }
{
    let at = slot(line.act(), line.ep());
    held[at] -= 1;
    if let Some(parent) = line.parent() {
        children[parent.number() as usize] -= 1;
    }
}

//! What of a grant's line and its parent refuses it, and the record that it begins with.

ghost use Rattle.std.specs.Prelude.{◌≡◌, ℕ, Some, is_none};
ghost use Rattle.m3_base.specs.Ideal.GrantRules.{form, is_outside, is_more, is_above_closing, fresh_of};
ghost use Rattle.m3_base.specs.declared.order.GrantLine.{GrantLine};
ghost use Rattle.m3_base.specs.Setup.GrantTable.{grant_of, FitsUnder, crowds};

use super::node::{Node, Stage};
use crate::ids::GrantId;
use crate::limits::MOST_CHILDREN;
use crate::order::GrantLine;
use crate::packet::{Fresh, Perm};

/// Whether the parent isn't there, or isn't of the needed kind.
pub fn lacks_parent(line: &GrantLine, above: &Option<Node>) -> bool
    ensures { (n : ℕ) → result ≡ is_none (form n line.now (grant_of above.now)) }
{
    match (line, above) {
        (GrantLine::Send { .. }, Some(above)) => !matches!(above.fresh, Fresh::Receive { .. }),
        (GrantLine::Part { .. }, Some(above)) => !matches!(above.fresh, Fresh::Memory { .. }),
        (GrantLine::Send { .. }, None) => true,
        (GrantLine::Part { .. }, None) => true,
        _ => false,
    }
}

/// Whether the parent is there and isn't live.
pub fn is_above_closing(above: &Option<Node>) -> bool
    ensures { result ≡ is_above_closing (grant_of above.now) }
{
    match above {
        Some(above) => !matches!(above.stage, Stage::Live),
        None => false,
    }
}

/// Whether the range ends past its parent, or past memory.
pub fn is_outside(memory: u32, line: &GrantLine, above: &Option<Node>) -> bool
    ensures { result ≡ is_outside memory line.now (fresh_of (grant_of above.now)) }
{
    match line {
        GrantLine::Range { at, len, .. } => (memory as u64) < *at as u64 + *len as u64,
        GrantLine::Part { at, len, .. } => match above {
            Some(
                Node {
                    fresh: Fresh::Memory { length, .. },
                    ..
                },
            ) => (*length as u64) < *at as u64 + *len as u64,
            _ => false,
        },
        _ => false,
    }
}

/// Whether a part permits what its parent doesn't.
pub fn is_more(line: &GrantLine, above: &Option<Node>) -> bool
    ensures { result ≡ is_more line.now (fresh_of (grant_of above.now)) }
{
    match (line, above) {
        (
            GrantLine::Part { perm, .. },
            Some(
                Node {
                    fresh: Fresh::Memory { perm: its, .. },
                    ..
                },
            ),
        ) => !perm.is_within(*its),
        _ => false,
    }
}

/// Whether the receive grant above has 64 children that aren't done.
pub fn is_crowded(line: &GrantLine, above: &Option<Node>) -> bool
    ensures { result ≡ crowds line.now above.now }
{
    match (line, above) {
        (GrantLine::Send { .. }, Some(above)) => MOST_CHILDREN <= above.children,
        _ => false,
    }
}

fn send_record(
    grant: GrantId,
    of: GrantId,
    label: u64,
    credits: u8,
    above: Option<Node>,
) -> Option<Fresh>
    ensures { (act ep : ℕ) → result ≡ form grant (GrantLine.Send act ep of label credits) (grant_of above) }
{
    let above = above?;
    match above.fresh {
        Fresh::Receive { size, .. } => Some(Fresh::Send {
            grant,
            to: above.line.act(),
            to_ep: above.line.ep(),
            to_grant: of,
            label,
            size,
            limit: credits,
        }),
        _ => None,
    }
}

fn part_record(grant: GrantId, at: u32, len: u32, perm: Perm, above: Option<Node>) -> Option<Fresh>
    requires { FitsUnder (GrantLine.Part 0 0 0 at len perm) (grant_of above) }
    ensures { (act ep of : ℕ) → result ≡ form grant (GrantLine.Part act ep of at len perm) (grant_of above) }
{
    match above {
        Some(
            Node {
                fresh: Fresh::Memory { start, .. },
                ..
            },
        ) => Some(Fresh::Memory {
            grant,
            start: start + at,
            length: len,
            perm,
        }),
        _ => None,
    }
}

/// The record that a grant of this line and number begins with; none where its parent isn't there or isn't of the
/// needed kind.
pub fn grant_record(grant: GrantId, line: &GrantLine, above: Option<Node>) -> Option<Fresh>
    requires { FitsUnder line.now (grant_of above) }
    ensures { result ≡ form grant line.now (grant_of above) }
{
    match line {
        GrantLine::Recv { slots, size, .. } => Some(Fresh::Receive {
            grant,
            slots: *slots,
            size: *size,
        }),
        GrantLine::Send {
            of,
            label,
            credits,
            ..
        } => send_record(grant, *of, *label, *credits, above),
        GrantLine::Range { at, len, perm, .. } => Some(Fresh::Memory {
            grant,
            start: *at,
            length: *len,
            perm: *perm,
        }),
        GrantLine::Part { at, len, perm, .. } => part_record(grant, *at, *len, *perm, above),
    }
}

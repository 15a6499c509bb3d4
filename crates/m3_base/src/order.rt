//! What the kernel is asked: grants, revokes, switches, and lines on files.

ghost use Rattle.std.specs.Prelude.{◌≡◌};
ghost use Rattle.m3_base.specs.Ideal.State.{holder, holder_ep, parent_of};
ghost use Rattle.m3_base.specs.Limits.{is_in_limits};

use crate::ids::{ActId, EpId, GrantId, TileId};
use crate::limits::{MOST_CREDITS, MOST_MESSAGE, MOST_SLOTS};
use crate::packet::Perm;
use crate::payload::Name;

/// A grant, as it is made. `of` is its parent: a receive grant for a send grant, a range or part for a part.
#[derive(Clone, Copy, Debug, PartialEq, Eq, Drop)]
pub enum GrantLine {
    /// A receive endpoint of 1 to 32 slots of 1 to 512 bytes.
    Recv {
        act: ActId,
        ep: EpId,
        slots: u8,
        size: u16,
    },
    /// A send endpoint with 1 to 32 credits, whose messages carry the label.
    Send {
        act: ActId,
        ep: EpId,
        of: GrantId,
        label: u64,
        credits: u8,
    },
    /// `len` bytes of memory from `at` on.
    Range {
        act: ActId,
        ep: EpId,
        at: u32,
        len: u32,
        perm: Perm,
    },
    /// `len` bytes from `at` on, counted from the start of its parent.
    Part {
        act: ActId,
        ep: EpId,
        of: GrantId,
        at: u32,
        len: u32,
        perm: Perm,
    },
}

impl GrantLine {
    /// Who is to hold the grant.
    pub fn act(&self) -> ActId
        ensures { result ≡ holder self.now }
    {
        match self {
            GrantLine::Recv { act, .. } => *act,
            GrantLine::Send { act, .. } => *act,
            GrantLine::Range { act, .. } => *act,
            GrantLine::Part { act, .. } => *act,
        }
    }

    /// The holder's endpoint for it.
    pub fn ep(&self) -> EpId
        ensures { result ≡ holder_ep self.now }
    {
        match self {
            GrantLine::Recv { ep, .. } => *ep,
            GrantLine::Send { ep, .. } => *ep,
            GrantLine::Range { ep, .. } => *ep,
            GrantLine::Part { ep, .. } => *ep,
        }
    }

    /// The grant that it is made under, where there is one.
    pub fn parent(&self) -> Option<GrantId>
        ensures { result ≡ parent_of self.now }
    {
        match self {
            GrantLine::Send { of, .. } => Some(*of),
            GrantLine::Part { of, .. } => Some(*of),
            _ => None,
        }
    }

    /// Whether its numbers are in their ranges: slots and credits, sizes, and lengths.
    pub fn is_in_limits(&self) -> bool
        ensures { result ≡ is_in_limits self.now }
    {
        match self {
            GrantLine::Recv { slots, size, .. } => {
                1 <= *slots && *slots <= MOST_SLOTS && (1 <= *size && *size <= MOST_MESSAGE)
            }
            GrantLine::Send { credits, .. } => 1 <= *credits && *credits <= MOST_CREDITS,
            GrantLine::Range { len, .. } => 0 < *len,
            GrantLine::Part { len, .. } => 0 < *len,
        }
    }
}

/// An order to the kernel.
#[derive(Clone, Copy, Debug, PartialEq, Eq, Drop)]
pub enum Order {
    Switch { tile: TileId, act: ActId },
    Grant(GrantLine),
    Revoke(GrantId),
}

/// A line on the files of a range grant. `Extend` adds this many bytes, 1 to 2^32 - 1.
#[derive(Debug, Drop)]
pub enum FileLine {
    Create(Name),
    Extend(Name, u32),
    Remove(Name),
    Open {
        name: Name,
        off: u32,
        act: ActId,
        ep: EpId,
        perm: Perm,
    },
    Close(GrantId),
}

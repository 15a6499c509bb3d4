//! Why the kernel refuses to make a grant, or to revoke one.

ghost use Rattle.std.specs.Prelude.{◌≡◌, true, Some};
ghost use Rattle.m3_base.specs.Journal.OutcomeForms.{allows_for_grant};
ghost use Rattle.m3_grants.specs.GrantTree.{cause};

use m3_base::event::No;
use thiserror::Error;

/// The causes are looked at in this order, and `NoMemory` last.
#[derive(Clone, Copy, Debug, PartialEq, Eq, Drop, Error)]
pub enum GrantRefusal {
    /// The named grant doesn't exist, is done, or isn't of the needed kind.
    #[error("there is no such grant")]
    NoGrant,
    /// It isn't live: it is on its way to be done.
    #[error("the grant is closing")]
    Closing,
    /// The holder's endpoint has a grant that isn't done.
    #[error("the endpoint has a grant")]
    SlotTaken,
    /// The range ends past its parent, or past memory.
    #[error("the range ends past its parent")]
    OutsideParent,
    /// A permission isn't the parent's.
    #[error("the parent permits less")]
    MorePermission,
    /// 4,096 grants were made, or the receive grant has 64 children that aren't done.
    #[error("there are too many grants")]
    TooMany,
    #[error("no memory is left")]
    NoMemory,
}

/// The refusal of this cause, which is one of a grant or a revoke.
pub fn refusal_of(no: No) -> GrantRefusal
    requires { allows_for_grant no ≡ true }
    ensures { cause result ≡ Some no }
{
    match no {
        No::NoGrant => GrantRefusal::NoGrant,
        No::Closing => GrantRefusal::Closing,
        No::SlotTaken => GrantRefusal::SlotTaken,
        No::OutsideParent => GrantRefusal::OutsideParent,
        No::MorePermission => GrantRefusal::MorePermission,
        _ => GrantRefusal::TooMany,
    }
}

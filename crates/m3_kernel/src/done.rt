//! What an event of the kernel came to.

ghost use Rattle.std.specs.Prelude.{◌≡◌, None, Some, Ok};
ghost use Rattle.m3_base.specs.declared.event.Said.{Said};
ghost use Rattle.m3_base.specs.declared.event.IdleWhy.{IdleWhy};
ghost use Rattle.m3_grants.specs.GrantTree.{cause};
ghost use Rattle.m3_model.specs.Kernel.State.{Kernel};
ghost use Rattle.m3_model.specs.LocalStep.{LocalResult};
ghost use Rattle.m3_kernel.specs.OrderAnswers.{Closes, Orders, cause_of_order};
ghost use Rattle.m3_kernel.specs.StepContracts.{Does, TellsOrder, done_with};

use crate::order::{CloseSent, OrderRefusal, Ordered};
use m3_base::event::{IdleWhy, No, Outcome, Said};
use m3_base::ids::ActId;
use m3_core::parcel::Emit;
use m3_grants::refusal::GrantRefusal;
use std::alloc::AllocError;

/// What an event came to, and what goes out: first the answer or Closed, second Restore.
#[derive(Drop)]
pub struct Done {
    pub outcome: Outcome,
    pub first: Option<Emit>,
    pub second: Option<Emit>,
}

/// What is said of an event, with at most one parcel that goes out, and no Restore.
#[inline(always)]
pub fn says(said: Said, first: Option<Emit>) -> Done
    ensures { result ≡ done_with said None first None }
{
    let outcome = Outcome {
        made: None,
        said,
        restore: None,
    };
    Done {
        outcome,
        first,
        second: None,
    }
}

/// What is said of an event with which this activity's Restore goes out.
#[inline(always)]
pub fn restores(said: Said, first: Option<Emit>, act: ActId, second: Emit) -> Done
    ensures { result ≡ done_with said (Some act) first (Some second) }
{
    let outcome = Outcome {
        made: None,
        said,
        restore: Some(act),
    };
    Done {
        outcome,
        first,
        second: Some(second),
    }
}

/// An event that changed nothing.
#[inline(always)]
pub fn is_idle(why: IdleWhy) -> Done
    ensures { result ≡ done_with (Said.Idle why) None None None }
{
    says(Said::Idle(why), None)
}

/// A parcel that doesn't fit is dropped, as if the link were empty.
#[inline(always)]
pub fn dropped() -> Done
    ensures { result ≡ done_with (Said.Idle IdleWhy.EmptyLink) None None None }
{
    is_idle(IdleWhy::EmptyLink)
}

/// Why the grants refuse, as a journal has it. None where no memory is left.
fn cause_of_grant(why: GrantRefusal) -> Option<No>
    ensures { result ≡ cause why }
{
    match why {
        GrantRefusal::NoGrant => Some(No::NoGrant),
        GrantRefusal::Closing => Some(No::Closing),
        GrantRefusal::SlotTaken => Some(No::SlotTaken),
        GrantRefusal::OutsideParent => Some(No::OutsideParent),
        GrantRefusal::MorePermission => Some(No::MorePermission),
        GrantRefusal::TooMany => Some(No::TooMany),
        GrantRefusal::NoMemory => None,
    }
}

/// Why an order is refused, as a journal has it. None where no memory is left.
fn cause_of(why: OrderRefusal) -> Option<No>
    ensures { result ≡ cause_of_order why }
{
    match why {
        OrderRefusal::NotHome => Some(No::NotHome),
        OrderRefusal::Already => Some(No::Already),
        OrderRefusal::Leaving => Some(No::Leaving),
        OrderRefusal::Grant(why) => cause_of_grant(why),
        OrderRefusal::NoMemory => None,
    }
}

/// What an order that was carried out came to, as an event tells it.
#[tactic(auto, using(crate::proofs::StepOutcome::save_told, crate::proofs::StepOutcome::grant_told, crate::proofs::StepOutcome::revoke_told))]
fn done_by(ordered: Ordered) -> Done
    ensures { (old new : Kernel) (step : LocalResult Kernel) → Orders (Ok ordered) old new step → Does result new step }
{
    match ordered {
        Ordered::Save { leaving, emit } => says(Said::Save(leaving), Some(emit)),
        Ordered::Granted { grant, id, emit } => {
            let held = emit.is_none();
            says(Said::Granted { grant, id, held }, emit)
        }
        Ordered::Revoking(grant) => says(Said::Revoking(grant), None),
    }
}

/// What an order came to, as an event tells it. The error is that no memory was left.
#[tactic(auto, using(crate::proofs::StepOutcome::refused_told, crate::proofs::StepOutcome::unmade_kept))]
pub fn done_by_order(answer: Result<Ordered, OrderRefusal>) -> Result<Done, AllocError>
    ensures { TellsOrder answer result }
{
    match answer {
        Ok(ordered) => Ok(done_by(ordered)),
        Err(why) => match cause_of(why) {
            Some(cause) => Ok(says(Said::No(cause), None)),
            None => Err(AllocError),
        },
    }
}

/// What a Close came to, as an event tells it.
#[tactic(auto, using(crate::proofs::StepOutcome::close_told))]
pub fn done_by_close(sent: Option<CloseSent>) -> Done
    ensures { (new : Kernel) (step : LocalResult Kernel) → Closes sent new step → Does result new step }
{
    match sent {
        None => is_idle(IdleWhy::NothingToClose),
        Some(CloseSent { grant, id, emit }) => {
            let held = emit.is_none();
            says(Said::CloseSent { grant, id, held }, emit)
        }
    }
}

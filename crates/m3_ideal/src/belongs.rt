//! Which outcomes belong to which event.

ghost use Rattle.std.specs.Prelude.{◌≡◌};
ghost use Rattle.m3_base.specs.Journal.OutcomeForms.{allows_for_command, allows_for_do, allows_for_turn, is_landing_outcome, allows_for_take, allows_for_tend, allows_for_close, allows_for_grant, allows_for_switch, allows_for_order, is_file_outcome, allows_for_file, allows_outcome, may_restore, is_allowed_outcome};

use m3_base::command::Command;
use m3_base::event::{Event, IdleWhy, Made, No, Outcome, Said};
use m3_base::ids::ActId;
use m3_base::order::Order;

fn is_of_command(command: &Command, said: &Said) -> bool
    ensures { result ≡ allows_for_command command.now said.now }
{
    match (command, said) {
        (_, Said::Flying(_)) => true,
        (_, Said::Refused(_)) => true,
        (Command::Fetch { .. }, Said::Message { .. }) => true,
        (Command::Fetch { .. }, Said::ReplyMessage { .. }) => true,
        (Command::Fetch { .. }, Said::Nothing) => true,
        (Command::Acknowledge { .. }, Said::Acknowledged(_)) => true,
        _ => false,
    }
}

fn is_of_do(command: &Command, said: &Said) -> bool
    ensures { result ≡ allows_for_do command.now said.now }
{
    match said {
        Said::Idle(why) => matches!(why, IdleWhy::NotCurrent | IdleWhy::Busy),
        _ => is_of_command(command, said),
    }
}

fn is_of_turn(made: &Option<Made>, said: &Said) -> bool
    ensures { result ≡ allows_for_turn made.now said.now }
{
    match made {
        None => matches!(
            said,
            Said::Idle(IdleWhy::NotCurrent | IdleWhy::Ended | IdleWhy::Busy | IdleWhy::Waiting)
        ),
        Some(Made::Command(command)) => is_of_command(command, said),
        Some(Made::Await(_)) => matches!(said, Said::Awake | Said::Yield | Said::Asleep),
        Some(Made::Quantum) => matches!(said, Said::Yield),
        Some(Made::End) => matches!(said, Said::Ended),
    }
}

fn is_of_landing(said: &Said) -> bool
    ensures { result ≡ is_landing_outcome said.now }
{
    matches!(
        said,
        Said::Landed(_)
            | Said::LandRefused(..)
            | Said::Answered { .. }
            | Said::Credited(..)
            | Said::Discarded(..)
            | Said::Installed(..)
            | Said::Closing(..)
            | Said::Closed(..)
    )
}

fn is_of_take(said: &Said) -> bool
    ensures { result ≡ allows_for_take said.now }
{
    match said {
        Said::Idle(why) => matches!(why, IdleWhy::EmptyLink),
        Said::Bounced(_) => true,
        Said::Routed(_) => true,
        Said::Held(..) => true,
        Said::Saving(_) => true,
        Said::Saved(_) => true,
        Said::Current(_) => true,
        Said::Yielded(_) => true,
        Said::Done { .. } => true,
        _ => is_of_landing(said),
    }
}

fn is_of_tend(said: &Said) -> bool
    ensures { result ≡ allows_for_tend said.now }
{
    match said {
        Said::Idle(why) => matches!(why, IdleWhy::NotResting | IdleWhy::EmptyHold),
        _ => is_of_landing(said),
    }
}

fn is_of_close(said: &Said) -> bool
    ensures { result ≡ allows_for_close said.now }
{
    matches!(
        said,
        Said::Idle(IdleWhy::NothingToClose) | Said::CloseSent { .. }
    )
}

// The refusals of a grant or a revoke.
fn is_of_grants(why: No) -> bool
    ensures { result ≡ allows_for_grant why }
{
    matches!(
        why,
        No::NoGrant
            | No::Closing
            | No::SlotTaken
            | No::OutsideParent
            | No::MorePermission
            | No::TooMany
    )
}

fn is_of_switches(why: No) -> bool
    ensures { result ≡ allows_for_switch why }
{
    matches!(why, No::NotHome | No::Already | No::Leaving)
}

fn is_of_order(order: &Order, said: &Said) -> bool
    ensures { result ≡ allows_for_order order.now said.now }
{
    match (order, said) {
        (Order::Switch { .. }, Said::Save(_)) => true,
        (Order::Switch { .. }, Said::No(why)) => is_of_switches(*why),
        (Order::Grant(_), Said::Granted { .. }) => true,
        (Order::Grant(_), Said::No(why)) => is_of_grants(*why),
        (Order::Revoke(_), Said::Revoking(_)) => true,
        (Order::Revoke(_), Said::No(why)) => is_of_grants(*why),
        _ => false,
    }
}

fn is_of_files(why: No) -> bool
    ensures { result ≡ is_file_outcome why }
{
    matches!(
        why,
        No::BadName | No::NoFile | No::Exists | No::InUse | No::NoSpace
    )
}

// Any outcome of a line on files.
fn is_of_file(said: &Said) -> bool
    ensures { result ≡ allows_for_file said.now }
{
    match said {
        Said::Created => true,
        Said::Extended => true,
        Said::Removed => true,
        Said::Nothing => true,
        Said::Part { .. } => true,
        Said::Revoke => true,
        Said::No(why) => is_of_files(*why),
        _ => false,
    }
}

/// Whether an outcome with this move is one of the event, by their forms alone.
pub fn is_of(event: &Event, made: &Option<Made>, said: &Said) -> bool
    ensures { result ≡ allows_outcome event.now made.now said.now }
{
    if let Event::Turn(_) = event {
        return is_of_turn(made, said);
    }
    if made.is_some() {
        return false;
    }
    match event {
        Event::Do { command, .. } => is_of_do(command, said),
        Event::Turn(_) => false,
        Event::Take { .. } => is_of_take(said),
        Event::Tend(_) => is_of_tend(said),
        Event::Close => is_of_close(said),
        Event::Order(order) => is_of_order(order, said),
        Event::File(_) => is_of_file(said),
    }
}

// Whether a Restore may go out with the event.
fn is_of_restore(event: &Event, said: &Said, restore: Option<ActId>) -> bool
    ensures { result ≡ may_restore event.now said.now restore }
{
    match (event, restore) {
        (_, None) => true,
        (Event::Tend(_), Some(_)) => is_of_landing(said),
        (Event::Take { .. }, Some(_)) => matches!(said, Said::Saved(_)),
        _ => false,
    }
}

/// Whether the outcome has a form of the event.
pub fn belongs(event: &Event, outcome: &Outcome) -> bool
    ensures { result ≡ is_allowed_outcome event.now outcome.now }
{
    is_of(event, &outcome.made, &outcome.said)
        && is_of_restore(event, &outcome.said, outcome.restore)
}

//! The ideal steps of an entry.

ghost use Rattle.std.specs.Prelude.{◌≡◌, IfOk};
ghost use Rattle.m3_ideal.specs.EntrySteps.{steps_in};
ghost use Rattle.m3_base.specs.Journal.Entry.{steps_of, command_steps, turn_steps, landing_steps, close_steps, order_steps};

use m3_base::command::Command;
use m3_base::event::{Event, Made, Outcome, Said};
use m3_base::ids::{ActId, GrantId};
use m3_base::order::Order;
use m3_base::step::Step;
use std::alloc::{AllocError, Global};

/// The steps of an entry: none, one, or one and the Closed of a grant.
#[derive(Debug, Drop)]
pub enum EntrySteps {
    None,
    One(Step),
    Two(Step, GrantId),
}

fn of_command(
    alloc: Global,
    act: ActId,
    command: &Command,
    said: &Said,
) -> Result<EntrySteps, AllocError>
    ensures { IfOk result (λ ts. steps_in ts ≡ command_steps act command.now said.now) }
{
    if let Said::Idle(_) = said {
        return Ok(EntrySteps::None);
    }
    let command = command.copy(alloc)?;
    Ok(EntrySteps::One(Step::Issue(act, command)))
}

fn of_turn(
    alloc: Global,
    act: ActId,
    made: &Option<Made>,
    said: &Said,
) -> Result<EntrySteps, AllocError>
    ensures { IfOk result (λ ts. steps_in ts ≡ turn_steps act made.now said.now) }
{
    match made {
        Some(Made::Command(command)) => of_command(alloc, act, command, said),
        Some(Made::Await(ep)) => {
            if let Said::Idle(_) = said {
                Ok(EntrySteps::None)
            } else {
                Ok(EntrySteps::One(Step::Await(act, *ep)))
            }
        }
        _ => Ok(EntrySteps::None),
    }
}

fn of_landing(said: &Said) -> EntrySteps
    ensures { steps_in result ≡ landing_steps said.now }
{
    match said {
        Said::Landed(id) => EntrySteps::One(Step::Land(*id)),
        Said::LandRefused(id, _) => EntrySteps::One(Step::Land(*id)),
        Said::Credited(id, _) => EntrySteps::One(Step::Land(*id)),
        Said::Discarded(id, _) => EntrySteps::One(Step::Land(*id)),
        Said::Installed(id, _) => EntrySteps::One(Step::Land(*id)),
        Said::Closing(id, _) => EntrySteps::One(Step::Land(*id)),
        Said::Closed(id, grant) => EntrySteps::Two(Step::Land(*id), *grant),
        Said::Answered {
            id,
            closed: None,
            ..
        } => EntrySteps::One(Step::Answered(*id)),
        Said::Answered {
            id,
            closed: Some(grant),
            ..
        } => EntrySteps::Two(Step::Answered(*id), *grant),
        Said::Done { grant, .. } => EntrySteps::One(Step::Done(*grant)),
        _ => EntrySteps::None,
    }
}

fn of_close(said: &Said) -> EntrySteps
    ensures { steps_in result ≡ close_steps said.now }
{
    match said {
        Said::CloseSent { grant, .. } => EntrySteps::One(Step::Close(*grant)),
        _ => EntrySteps::None,
    }
}

fn of_order(order: &Order) -> EntrySteps
    ensures { steps_in result ≡ order_steps order.now }
{
    match order {
        Order::Switch { .. } => EntrySteps::None,
        Order::Grant(line) => EntrySteps::One(Step::Make(*line)),
        Order::Revoke(grant) => EntrySteps::One(Step::Revoke(*grant)),
    }
}

/// The steps of an entry.
pub fn steps_of(alloc: Global, event: &Event, outcome: &Outcome) -> Result<EntrySteps, AllocError>
    ensures { IfOk result (λ ts. steps_in ts ≡ steps_of event.now outcome.now) }
{
    match event {
        Event::Do { act, command } => of_command(alloc, *act, command, &outcome.said),
        Event::Turn(act) => of_turn(alloc, *act, &outcome.made, &outcome.said),
        Event::Take { .. } => Ok(of_landing(&outcome.said)),
        Event::Tend(_) => Ok(of_landing(&outcome.said)),
        Event::Close => Ok(of_close(&outcome.said)),
        Event::Order(order) => Ok(of_order(order)),
        Event::File(_) => Ok(EntrySteps::None),
    }
}

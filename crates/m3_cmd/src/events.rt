//! Events of a script, as a machine makes them.

ghost use Rattle.std.specs.Prelude.{◌≡◌, IfOk, OnOk, map};
ghost use Rattle.std.specs.List.{All};
ghost use Rattle.m3_base.specs.declared.event.Event.{Event as EventValue};
ghost use Rattle.m3_script.specs.Rules.{IsOrder};
ghost use Rattle.m3_cmd.specs.ListMachines.{AreMakeable, Follows};

use m3_base::event::Event;
use m3_base::order::Order;
use m3_machine::machine::Machine;
use m3_machine::recorder::JournalRecorder;
use m3_machine::refusal::StepRefusal;
use m3_programs::ListProgram;
use std::alloc::{AllocError, Global};

/// Makes the events, one after the other.
pub fn step_all(
    alloc: Global,
    machine: &mut Machine<ListProgram, JournalRecorder>,
    events: Vec<Event>,
) -> Result<(), StepRefusal>
    requires { AreMakeable machine.old.setup events.items }
    ensures { OnOk result (Follows machine.old events.items machine.new) }
{
    for event in events {
        machine.step(alloc, event)?;
    }
    Ok(())
}

/// The orders that these events are.
pub fn orders_of(alloc: Global, events: Vec<Event>) -> Result<Vec<Order>, AllocError>
    requires { All IsOrder events.items }
    ensures { IfOk result (λ v. map EventValue.Order v.items ≡ events.items) }
{
    let mut orders = Vec::new(alloc);
    for event in events {
        match event {
            Event::Order(order) => orders.push(order)?,
            _ => unreachable!(),
        }
    }
    Ok(orders)
}

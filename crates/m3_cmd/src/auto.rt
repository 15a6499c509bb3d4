//! A script is read and run by the driver, and its journal is the answer.

ghost use Rattle.std.specs.Prelude.{◌≡◌, ◌≤◌, length, IfOk};
ghost use Rattle.m3_base.specs.declared.event.Event.{Event as EventValue};
ghost use Rattle.m3_base.specs.Lists.EachElement.{Each};
ghost use Rattle.m3_machine.specs.EventNames.{NamesActs};
ghost use Rattle.m3_script.specs.declared.script.Mode.{Mode};
ghost use Rattle.m3_script.specs.Rules.{AllInRanges, AllListed, AllNamed, AreOrders};
ghost use Rattle.m3_cmd.specs.CommandLine.{limit_of};
ghost use Rattle.m3_cmd.specs.DriverContract.{IsAutoAnswer, status_of};
ghost use Rattle.m3_cmd.specs.DrivenMachines.{IsDrivenBy, IsDrivenScript};
ghost use Rattle.m3_cmd.specs.declared.words.InputForm.{InputForm as InputFormValue};

use crate::budget::budget;
use crate::events::orders_of;
use crate::machines::{journal_text, open_machine};
use crate::output::{Output, bad_line};
use crate::words::Format;
use m3_base::order::Order;
use m3_base::setup::Setup;
use m3_machine::machine::Machine;
use m3_machine::recorder::JournalRecorder;
use m3_machine::refusal::StepRefusal;
use m3_programs::ListProgram;
use m3_script::{Mode, Script, ScriptRefusal, parse};
use std::alloc::{AllocError, Global};

/// The machine that the driver ran from the opening of a setup and with these orders, and whether it has nothing more to
/// do.
pub fn drive(
    alloc: Global,
    setup: Setup,
    orders: Vec<Order>,
) -> Result<(Machine<ListProgram, JournalRecorder>, bool), StepRefusal>
    requires listed { AllListed setup.lines }
    requires few { length orders.items ≤ 4096 }
    requires orders { Each (λ o. NamesActs setup (EventValue.Order o)) orders.items }
    ensures { IfOk result (λ x. IsDrivenBy setup orders.items x.1 x.0) }
{
    let most = budget(&setup, orders.len());
    let mut machine = open_machine(alloc, setup, orders)?;
    let quiet = machine.auto(alloc, most)?;
    Ok((machine, quiet))
}

/// The status of a run of the driver that ended quiet, or not.
pub fn status_of(quiet: bool) -> u8
    ensures { result ≡ status_of quiet }
{
    if quiet { 0 } else { 6 }
}

/// The text of the journal that the driver makes of the script's setup and orders, and whether it has nothing more to do.
fn auto_to_text(
    alloc: Global,
    format: Format,
    script: Script,
) -> Result<(Vec<u8>, bool), StepRefusal>
    requires named { AllNamed script.setup script.events.items }
    requires ranges { AllInRanges script.events.items }
    requires orders { AreOrders Mode.Auto script.events.items }
    requires listed { AllListed script.setup.lines }
    ensures { IfOk result (λ x. IsDrivenScript format script.setup script.events.items x.1 x.0.items) }
{
    let Script { setup, events } = script;
    let orders = orders_of(alloc, events)?;
    let (machine, quiet) = drive(alloc, setup, orders)?;
    Ok((journal_text(alloc, format, &machine)?, quiet))
}

/// The journal that the driver makes of the script that these bytes are, or their first bad line.
pub fn auto_script(alloc: Global, format: Format, bytes: &[u8]) -> Result<Output, AllocError>
    requires { length bytes.now ≤ limit_of (InputFormValue.Auto format) }
    ensures { IfOk result (λ o. IsAutoAnswer format bytes.now o.status o.text.items) }
{
    match parse(alloc, bytes, Mode::Auto, 0) {
        Err(ScriptRefusal::NoMemory) => Err(AllocError),
        Err(ScriptRefusal::Bad { line, why }) => bad_line(alloc, line, why),
        Ok(script) => match auto_to_text(alloc, format, script) {
            Err(_) => Err(AllocError),
            Ok((text, quiet)) => Ok(Output {
                status: status_of(quiet),
                text,
            }),
        },
    }
}

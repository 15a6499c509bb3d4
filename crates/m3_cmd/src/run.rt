//! A script is read and run, and its journal is the answer.

ghost use Rattle.std.specs.Prelude.{◌≡◌, ◌≤◌, length, IfOk};
ghost use Rattle.m3_script.specs.Rules.{AllBuilt, AllInRanges, AllListed, AllNamed};
ghost use Rattle.m3_cmd.specs.CommandLine.{limit_of};
ghost use Rattle.m3_cmd.specs.ListMachines.{HasMade};
ghost use Rattle.m3_cmd.specs.RunContract.{IsRunAnswer, IsTextOf};
ghost use Rattle.m3_cmd.specs.declared.words.InputForm.{InputForm as InputFormValue};

use crate::events::step_all;
use crate::machines::{journal_text, open_machine};
use crate::output::{Output, bad_line};
use crate::words::Format;
use m3_machine::machine::Machine;
use m3_machine::recorder::JournalRecorder;
use m3_machine::refusal::StepRefusal;
use m3_programs::ListProgram;
use m3_script::{Mode, Script, ScriptRefusal, parse};
use std::alloc::{AllocError, Global};

/// The machine that made the script's events.
fn made_machine(
    alloc: Global,
    script: Script,
) -> Result<Machine<ListProgram, JournalRecorder>, StepRefusal>
    requires named { AllNamed script.setup script.events.items }
    requires ranges { AllInRanges script.events.items }
    requires built { AllBuilt script.events.items }
    requires listed { AllListed script.setup.lines }
    ensures { IfOk result (HasMade script.setup script.events.items) }
{
    let Script { setup, events } = script;
    let mut machine = open_machine(alloc, setup, Vec::new(alloc))?;
    step_all(alloc, &mut machine, events)?;
    Ok(machine)
}

/// The text of the journal of a machine that made the script's events.
fn run_to_text(alloc: Global, format: Format, script: Script) -> Result<Vec<u8>, StepRefusal>
    requires named { AllNamed script.setup script.events.items }
    requires ranges { AllInRanges script.events.items }
    requires built { AllBuilt script.events.items }
    requires listed { AllListed script.setup.lines }
    ensures { IfOk result (λ v. IsTextOf format script.setup script.events.items v.items) }
{
    let machine = made_machine(alloc, script)?;
    Ok(journal_text(alloc, format, &machine)?)
}

/// The journal of the script that these bytes are, or their first bad line.
pub fn run_script(alloc: Global, format: Format, bytes: &[u8]) -> Result<Output, AllocError>
    requires { length bytes.now ≤ limit_of (InputFormValue.Run format) }
    ensures { IfOk result (λ o. IsRunAnswer format bytes.now o.status o.text.items) }
{
    match parse(alloc, bytes, Mode::Run, 0) {
        Err(ScriptRefusal::NoMemory) => Err(AllocError),
        Err(ScriptRefusal::Bad { line, why }) => bad_line(alloc, line, why),
        Ok(script) => match run_to_text(alloc, format, script) {
            Err(_) => Err(AllocError),
            Ok(text) => Ok(Output { status: 0, text }),
        },
    }
}

//! Machines whose programs are lists of items.

ghost use Rattle.std.specs.Prelude.{◌≡◌, ◌≤◌, ◌++◌, IfOk, length, map};
ghost use Rattle.m3_base.specs.declared.event.Event.{Event as EventValue};
ghost use Rattle.m3_base.specs.Journal.Audit.{audit_lines};
ghost use Rattle.m3_base.specs.Journal.Entry.{state_after_entries};
ghost use Rattle.m3_base.specs.Lists.EachElement.{Each};
ghost use Rattle.m3_base.specs.Setup.Rules.{SetupValue, IsValid};
ghost use Rattle.m3_base.specs.Load.Summary.{summary_lines};
ghost use Rattle.m3_journal.specs.JournalText.{audit_line};
ghost use Rattle.m3_load.specs.SummaryLines.{summary_line};
ghost use Rattle.m3_text.specs.Printing.{text_of_lines};
ghost use Rattle.m3_machine.specs.EventNames.{NamesActs};
ghost use Rattle.m3_machine.specs.MachineView.{ideal, placement};
ghost use Rattle.m3_script.specs.Rules.{AllListed};
ghost use Rattle.m3_cmd.specs.ListMachines.{IsOf, IsOpened};
ghost use Rattle.m3_cmd.specs.MachineRuns.{IsRunOf, start};
ghost use Rattle.m3_cmd.specs.OutputText.{output_text};

use crate::words::Format;
use m3_base::journal::{Audit, Journal};
use m3_base::order::Order;
use m3_base::setup::Setup;
use m3_journal::{print, put_audit};
use m3_journal_json::to_json;
use m3_load::{put_summary, summary_of};
use m3_machine::machine::Machine;
use m3_machine::recorder::JournalRecorder;
use m3_programs::{ListProgram, programs_of};
use std::alloc::{AllocError, Global};

/// The machine of a setup whose programs are lists of items, with these orders left.
pub fn open_machine(
    alloc: Global,
    setup: Setup,
    orders: Vec<Order>,
) -> Result<Machine<ListProgram, JournalRecorder>, AllocError>
    requires listed { AllListed setup.lines }
    requires orders { Each (λ o. NamesActs setup (EventValue.Order o)) orders.items }
    ensures opened { IfOk result (λ m. IsOpened setup orders.items m) }
    ensures valid { IfOk result (λ m. IsValid m.setup) }
{
    let programs = programs_of(alloc, &setup)?;
    Machine::open(alloc, setup, programs, orders)
}

/// The journal of a machine: what a machine of its setup does.
pub fn journal_of(machine: &Machine<ListProgram, JournalRecorder>) -> &Journal
    ensures setup { result.now.setup ≡ machine.now.setup }
    ensures entries { result.now.entries.items ≡ machine.now.entries }
    ensures few { length machine.now.entries ≤ 2097152 }
    ensures reaches { state_after_entries (start machine.now.setup) machine.now.entries ≡ ideal machine.now }
    ensures runs { (setup : SetupValue) → IsOf setup machine.now → IsRunOf setup machine.now.entries (placement machine.now) }
{
    machine.recorder().journal()
}

/// A journal with its audit, as lines or as JSON in one line.
#[tactic(auto, unfolding(crate::specs::OutputText::output_text))]
fn output_text(
    alloc: Global,
    format: Format,
    journal: &Journal,
    audit: &Audit,
) -> Result<Vec<u8>, AllocError>
    ensures { IfOk result (λ v. v.items ≡ output_text format journal.now.setup journal.now.entries.items audit.now.lines.items) }
{
    match format {
        Format::Text => print(alloc, journal, audit),
        Format::Json => {
            let mut out = to_json(alloc, journal, audit)?;
            out.push(b'\n')?;
            Ok(out)
        }
    }
}

/// The text of a machine's journal.
pub fn journal_text(
    alloc: Global,
    format: Format,
    machine: &Machine<ListProgram, JournalRecorder>,
) -> Result<Vec<u8>, AllocError>
    ensures text { IfOk result (λ v. v.items ≡ output_text format machine.now.setup machine.now.entries
        (audit_lines machine.now.setup.tiles (ideal machine.now) (placement machine.now) machine.now.left)) }
    ensures reaches { state_after_entries (start machine.now.setup) machine.now.entries ≡ ideal machine.now }
    ensures runs { (setup : SetupValue) → IsOf setup machine.now → IsRunOf setup machine.now.entries (placement machine.now) }
{
    let journal = journal_of(machine);
    let audit = machine.audit(alloc)?;
    output_text(alloc, format, journal, &audit)
}

/// The summary of a machine's journal as that of a load of so many rounds, and its audit.
pub fn summary_text(
    alloc: Global,
    rounds: u16,
    machine: &Machine<ListProgram, JournalRecorder>,
) -> Result<Vec<u8>, AllocError>
    ensures text { IfOk result (λ v. v.items ≡
        text_of_lines (map summary_line (summary_lines rounds machine.now.entries)) ++ text_of_lines (map audit_line
        (audit_lines machine.now.setup.tiles (ideal machine.now) (placement machine.now) machine.now.left))) }
    ensures runs { (setup : SetupValue) → IsOf setup machine.now → IsRunOf setup machine.now.entries (placement machine.now) }
{
    let journal = journal_of(machine);
    let audit = machine.audit(alloc)?;
    let mut out = String::new(alloc);
    put_summary(&mut out, &summary_of(rounds, journal.entries.as_slice()))?;
    put_audit(&mut out, &audit.lines)?;
    Ok(out.into_bytes())
}

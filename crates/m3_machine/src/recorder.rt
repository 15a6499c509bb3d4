//! Recorders: they are told what a machine does, entry by entry.

ghost use Rattle.std.specs.Prelude.{◌≡◌, ◌++◌, ◌∷◌, [], List, Option, Some, IfOk, OnOk, OnErr, true, false, is_some};
ghost use Rattle.m3_base.specs.declared.event.Event.{Event as EventValue};
ghost use Rattle.m3_base.specs.declared.event.Entry.{Entry as EntryValue};
ghost use Rattle.m3_base.specs.Setup.Rules.{SetupValue};
ghost use Rattle.m3_machine.specs.RecorderEntries.{is_file, entries_with};

use m3_base::event::{Entry, Event, Outcome};
use m3_base::journal::Journal;
use m3_base::setup::Setup;
use std::alloc::{AllocError, Global};
use std::marker::Model;

/// Whoever is told the events of a machine and their outcomes: an event before the machine makes it, its outcome
/// afterwards.
pub trait Recorder {
    /// The setup of the machine.
    ghost setup: { Self → SetupValue };

    /// The entries so far.
    ghost entries: { Self → List EntryValue };

    /// The event that was told last, whose outcome isn't known.
    ghost pending: { Self → Option EventValue };

    /// A recorder without entries.
    fn new(alloc: Global, given: Setup) -> Result<Self, AllocError>
        ensures setup { IfOk result (λ r. setup r ≡ given) }
        ensures entries { IfOk result (λ r. entries r ≡ []) };

    /// The setup.
    fn setup(&self) -> &Setup
        ensures { result.now ≡ setup self.now };

    /// Takes all memory that the entry of this event needs. The event isn't a file event.
    fn note(&mut self, alloc: Global, event: &Event) -> Result<(), AllocError>
        requires { is_file event.now ≡ false }
        ensures pending { OnOk result (pending self.new ≡ Some event.now) }
        ensures entries { entries self.new ≡ entries self.old }
        ensures setup { setup self.new ≡ setup self.old };

    /// Adds the entry of the pending event with this outcome.
    fn add(&mut self, outcome: Outcome)
        requires { is_some (pending self.old) ≡ true }
        ensures entries { entries self.new ≡ entries_with (entries self.old) (pending self.old) outcome }
        ensures setup { setup self.new ≡ setup self.old };
}

/// A journal in memory.
#[derive(Drop)]
pub struct JournalRecorder {
    journal: Journal,
    pending: Option<Event>,
}

impl Model for JournalRecorder {
    ghost use Rattle.m3_machine.specs.RecorderView.{RecorderValue};

    ghost Value = { RecorderValue };

    ghost use Rattle.m3_machine.specs.RecorderView.{recorder_value, HasRoomForPending};

    ghost view = { recorder_value };

    ghost invariant = { HasRoomForPending };
}

/// A copy of an event that is no file event.
#[inline(always)]
fn copied(alloc: Global, event: &Event) -> Result<Event, AllocError>
    requires { is_file event.now ≡ false }
    ensures { IfOk result (λ e. e ≡ event.now) }
{
    match event {
        Event::Do { act, command } => Ok(Event::Do {
            act: *act,
            command: command.copy(alloc)?,
        }),
        Event::Turn(act) => Ok(Event::Turn(*act)),
        Event::Take { to, from } => Ok(Event::Take {
            to: *to,
            from: *from,
        }),
        Event::Tend(act) => Ok(Event::Tend(*act)),
        Event::Close => Ok(Event::Close),
        Event::Order(order) => Ok(Event::Order(*order)),
        Event::File(_) => unreachable!(),
    }
}

impl JournalRecorder {
    /// The setup and the entries.
    pub fn journal(&self) -> &Journal
        ensures setup { result.now.setup ≡ self.now.setup }
        ensures entries { result.now.entries.items ≡ self.now.entries }
    {
        &self.journal
    }
}

impl Recorder for JournalRecorder {
    ghost setup = { λ k. k.setup };

    ghost entries = { λ k. k.entries };

    ghost pending = { λ k. k.pending };

    fn new(alloc: Global, given: Setup) -> Result<JournalRecorder, AllocError> {
        Ok(JournalRecorder {
            journal: Journal {
                setup: given,
                entries: Vec::new(alloc),
            },
            pending: None,
        })
    }

    fn setup(&self) -> &Setup {
        &self.journal.setup
    }

    fn note(&mut self, alloc: Global, event: &Event) -> Result<(), AllocError> {
        self.journal.entries.reserve(1)?;
        let noted = copied(alloc, event)?;
        self.pending = Some(noted);
        Ok(())
    }

    fn add(&mut self, outcome: Outcome) {
        match self.pending.take() {
            Some(event) => self.journal.entries.push_reserved(Entry { event, outcome }),
            None => unreachable!(),
        }
    }
}

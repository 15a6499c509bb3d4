//! Lines added to a journal while it is read.

ghost use Rattle.std.specs.Prelude.{◌≡◌};
ghost use Rattle.m3_text.specs.Refusable.{Gives};
ghost use Rattle.m3_journal.specs.Reading.Journals.{empty_draft, longer_setup, next_stage, draft_with_line, draft_at_stage, draft_with_machine, draft_with_setup_line, draft_with_entry, draft_with_audit_line, draft_with_content, draft_with_mark, draft_after_string};
ghost use Rattle.m3_script.specs.ScriptText.{state_with_machine as new_setup};
ghost use Rattle.m3_journal.specs.Reading.Refusals.{draft_value};
ghost use Rattle.m3_script.specs.ParserView.{Leads};

use crate::reading::draft::{Draft, Stage};
use crate::reading::line::{Line, Words, read_line};
use m3_base::limits::MOST_ENTRIES;
use m3_base::setup::{Setup, SetupRefusal};
use m3_base::setup_line::SetupLine;
use m3_text::refusal::{LineRefusal, Why};
use std::alloc::Global;

fn start(alloc: Global, tiles: u8, memory: u32) -> Result<Setup, LineRefusal>
    ensures { Gives (λ s. s) result (new_setup tiles memory) }
{
    match Setup::new(alloc, tiles, memory) {
        Ok(setup) => Ok(setup),
        Err(SetupRefusal::Rule) => Err(LineRefusal::Bad(Why::Rule)),
        Err(SetupRefusal::NoMemory) => Err(LineRefusal::NoMemory),
    }
}

fn add(setup: Option<Setup>, line: SetupLine) -> Result<Setup, LineRefusal>
    ensures { Gives (λ s. s) result (longer_setup setup line) }
{
    match setup {
        None => Err(LineRefusal::Bad(Why::Place)),
        Some(setup) => {
            let mut setup = setup;
            match setup.add(line) {
                Ok(()) => Ok(setup),
                Err(SetupRefusal::Rule) => Err(LineRefusal::Bad(Why::Rule)),
                Err(SetupRefusal::NoMemory) => Err(LineRefusal::NoMemory),
            }
        }
    }
}

fn next_stage(stage: Stage, line: &Line) -> Option<Stage>
    ensures { result ≡ next_stage stage line.now }
{
    match (stage, line) {
        (Stage::Empty, Line::Head) => Some(Stage::Headed),
        (Stage::InSetup, Line::Begin) => Some(Stage::Running),
        (Stage::Running, Line::End) => Some(Stage::Ended),
        _ => None,
    }
}

impl Draft {
    /// No line was read.
    pub fn new(alloc: Global) -> Draft
        ensures { draft_value result ≡ empty_draft }
    {
        Draft {
            stage: Stage::Empty,
            setup: None,
            entries: Vec::new(alloc),
            audit: Vec::new(alloc),
        }
    }

    /// Adds a line of a text. After a refusal nothing more is to be added.
    #[tactic(auto, unfolding(crate::specs::Reading::Journals::draft_with_line))]
    pub fn take(&mut self, alloc: Global, line: Line) -> Result<(), LineRefusal>
        ensures { Leads result (draft_value self.new) (draft_with_line (draft_value self.old) line) }
    {
        match next_stage(self.stage, &line) {
            Some(stage) => {
                self.stage = stage;
                Ok(())
            }
            None => self.take_content(alloc, line),
        }
    }

    /// Begins the stage that a line begins: `Place` exactly where the line may not stand here.
    #[tactic(auto, unfolding(crate::specs::Reading::Journals::draft_with_mark))]
    pub fn advance(&mut self, line: &Line) -> Result<(), LineRefusal>
        ensures { Leads result (draft_value self.new) (draft_with_mark (draft_value self.old) line.now) }
    {
        match next_stage(self.stage, line) {
            Some(stage) => {
                self.stage = stage;
                Ok(())
            }
            None => Err(LineRefusal::Bad(Why::Place)),
        }
    }

    /// Adds a string of a journal's JSON: a line that says something at this stage. After a refusal nothing more is to
    /// be added.
    pub fn take_string<'a>(
        &mut self,
        alloc: Global,
        text: &'a [u8],
        words: &mut Words<'a>,
    ) -> Result<(), LineRefusal>
        ensures { Leads result (draft_value self.new) (draft_after_string (draft_value self.old) text.now) }
    {
        let line = read_line(alloc, text, words)?;
        self.take_content(alloc, line)
    }

    /// Adds a line that says something at this stage, which stays. After a refusal nothing more is to be added.
    pub fn take_content(&mut self, alloc: Global, line: Line) -> Result<(), LineRefusal>
        ensures { Leads result (draft_value self.new) (draft_with_content (draft_value self.old) line) }
    {
        match self.stage {
            Stage::Empty => Err(LineRefusal::Bad(Why::Place)),
            Stage::Headed => self.take_machine(alloc, line),
            Stage::InSetup => self.take_setup(line),
            Stage::Running => self.take_entry(line),
            Stage::Ended => self.take_audit(line),
        }
    }

    fn take_machine(&mut self, alloc: Global, line: Line) -> Result<(), LineRefusal>
        ensures { Leads result (draft_value self.new) (draft_with_machine (draft_value self.old) line) }
    {
        match line {
            Line::Machine { tiles, memory } => {
                self.setup = Some(start(alloc, tiles, memory)?);
                self.stage = Stage::InSetup;
                Ok(())
            }
            _ => Err(LineRefusal::Bad(Why::Place)),
        }
    }

    fn take_setup(&mut self, line: Line) -> Result<(), LineRefusal>
        ensures { Leads result (draft_value self.new) (draft_with_setup_line (draft_value self.old) line) }
    {
        match line {
            Line::Setup(line) => {
                let setup = self.setup.take();
                self.setup = Some(add(setup, line)?);
                Ok(())
            }
            _ => Err(LineRefusal::Bad(Why::Place)),
        }
    }

    fn take_entry(&mut self, line: Line) -> Result<(), LineRefusal>
        ensures { Leads result (draft_value self.new) (draft_with_entry (draft_value self.old) line) }
    {
        match line {
            Line::Entry(entry) => {
                if self.entries.len() >= MOST_ENTRIES {
                    return Err(LineRefusal::Bad(Why::Place));
                }
                self.entries.push(entry)?;
                Ok(())
            }
            _ => Err(LineRefusal::Bad(Why::Place)),
        }
    }

    fn take_audit(&mut self, line: Line) -> Result<(), LineRefusal>
        ensures { Leads result (draft_value self.new) (draft_with_audit_line (draft_value self.old) line) }
    {
        match &line {
            Line::Audit(audit) => {
                self.audit.push(*audit)?;
                Ok(())
            }
            _ => Err(LineRefusal::Bad(Why::Place)),
        }
    }
}

//! The ideal machine.

mod commands;
mod landings;
mod orders;

ghost use Rattle.std.specs.Prelude.{◌≡◌, [], None, IfOk, OnOk};
ghost use Rattle.m3_base.specs.Ideal.Context.{new_context};
ghost use Rattle.m3_base.specs.Ideal.Opening.{opening, with_line};
ghost use Rattle.m3_base.specs.Ideal.State.{context_of, new_context_in};
ghost use Rattle.m3_base.specs.Ideal.Step.{ideal_step};
ghost use Rattle.m3_base.specs.Setup.Obligations.{LineIsOk};
ghost use Rattle.m3_ideal.specs.Ideal.StepOutcome.{Steps};

use crate::contexts::Contexts;
use crate::flights::Flights;
use crate::grants::Grants;
use crate::word::Word;
use m3_base::ids::ActId;
use m3_base::order::GrantLine;
use m3_base::setup::Setup;
use m3_base::setup_line::SetupLine;
use m3_base::step::Step;
use std::alloc::{AllocError, Global};
use std::marker::Model;

/// The machine in which every activity has a context of its own. Contracts see its state.
#[derive(Debug, Drop)]
pub struct Ideal {
    memory: Vec<u8>,
    contexts: Contexts,
    flights: Flights,
    grants: Grants,
    // the number of the kernel's next flight
    kernel_next: u32,
}

impl Model for Ideal {
    ghost use Rattle.m3_base.specs.Ideal.State.{State};
    ghost use Rattle.m3_ideal.specs.IdealView.{ideal_state, IsNumbered};

    ghost Value = { State };

    ghost view = { ideal_state };

    ghost invariant = { IsNumbered };
}

impl Ideal {
    /// The machine as a setup opens it.
    pub fn open(alloc: Global, setup: &Setup) -> Result<Ideal, AllocError>
        ensures { IfOk result (λ s. s ≡ opening setup.now.memory setup.now.lines) }
    {
        let mut ideal = Ideal::empty(alloc, setup.memory())?;
        for line in setup.lines() {
            ideal.add(alloc, line)?;
        }
        Ok(ideal)
    }

    /// Its contexts.
    pub fn contexts(&self) -> &Contexts
        ensures { result.now ≡ self.now.contexts }
    {
        &self.contexts
    }

    /// All that flies.
    pub fn flights(&self) -> &Flights
        ensures { result.now.list ≡ self.now.flights }
    {
        &self.flights
    }

    /// Its grants.
    pub fn grants(&self) -> &Grants
        ensures { result.now ≡ self.now.grants }
    {
        &self.grants
    }

    // No activity and no grant, over so many bytes of memory, which are 0.
    fn empty(alloc: Global, memory: u32) -> Result<Ideal, AllocError>
        ensures { IfOk result (λ s. s ≡ opening memory []) }
    {
        let mut bytes = Vec::new(alloc);
        bytes.resize(memory as usize, 0)?;
        Ok(Ideal {
            memory: bytes,
            contexts: Contexts::new(alloc)?,
            flights: Flights::new(alloc)?,
            grants: Grants::new(alloc)?,
            kernel_next: 1,
        })
    }

    // A line of the setup is part of the machine.
    fn add(&mut self, alloc: Global, line: &SetupLine) -> Result<(), AllocError>
        requires { LineIsOk self.old line.now }
        ensures { OnOk result (self.new ≡ with_line self.old line.now) }
    {
        match line {
            SetupLine::Act { act, .. } => self.declare(alloc, *act),
            SetupLine::Grant(line) => self.grant(alloc, line),
            _ => Ok(()),
        }
    }

    // A new activity has a context.
    fn declare(&mut self, alloc: Global, act: ActId) -> Result<(), AllocError>
        requires { context_of act self.old.contexts ≡ None }
        ensures { OnOk result (self.new ≡ record self.old { contexts = new_context_in (new_context act) self.old.contexts }) }
    {
        self.contexts.add(alloc, act)
    }

    // A grant of the setup stands with its record at its holder.
    fn grant(&mut self, alloc: Global, line: &GrantLine) -> Result<(), AllocError>
        ensures { OnOk result (self.new ≡ with_line self.old (SetupLine.Grant line.now)) }
    {
        let Some(fresh) = self.grants.first(line)? else {
            return Ok(());
        };
        if self.contexts.get(line.act()).is_some() {
            self.contexts.install(alloc, line.act(), line.ep(), &fresh)?;
        }
        self.grants.push(*line, fresh)
    }

    /// A step of the machine, and what it says. None where there is no such step. After out of memory, or where a
    /// number would pass 4,294,967,295, nothing has changed.
    pub fn step(&mut self, alloc: Global, step: Step) -> Result<Option<Word>, AllocError>
        ensures { Steps result (ideal_step self.old step) self.old self.new }
    {
        match step {
            Step::Issue(act, command) => self.issue(alloc, act, command),
            Step::Await(act, ep) => Ok(self.look(act, ep)),
            Step::Land(id) => self.land(alloc, id),
            Step::Answered(id) => self.answer(id),
            Step::Make(line) => self.make(&line),
            Step::Revoke(grant) => self.revoke(alloc, grant),
            Step::Close(grant) => self.send_close(grant),
            Step::Closed(grant) => Ok(self.free(grant)),
            Step::Done(grant) => Ok(self.finish(grant)),
        }
    }
}

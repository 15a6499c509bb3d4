//! The contexts of all activities.

ghost use Rattle.std.specs.Prelude.{◌≡◌, [], None, replicate, IsSome, IfOk, OnOk, OnErr, option_copied};
ghost use Rattle.m3_base.specs.Ideal.State.{context_of, new_context_in};
ghost use Rattle.m3_base.specs.Ideal.Context.{new_context};
ghost use Rattle.m3_ideal.specs.Issuing.{IssuesAt};
ghost use Rattle.m3_ideal.specs.Landing.{Lands, GivesTo, InstallsTo, Closes, SettlesBy, Is_freed};
ghost use Rattle.m3_ideal.specs.Contexts.{AtContext, AtKept, IsDeclared};
ghost use Rattle.m3_ideal.specs.Tables.{present};
ghost use Rattle.m3_ideal.specs.Ideal.NextNumbers.{SameNexts};

use crate::context::Context;
use crate::issued::Issued;
use crate::letter::Letter;
use m3_base::command::{Answer, Command, Refusal};
use m3_base::ids::{ActId, EpId, GrantId};
use m3_base::packet::Fresh;
use std::alloc::{AllocError, Global};
use std::marker::Model;

/// The contexts of the declared activities. Contracts see them in the order of their activities.
#[derive(Debug, Drop)]
pub struct Contexts {
    // by the activity's number
    table: Vec<Option<Context>>,
}

impl Model for Contexts {
    ghost use Rattle.std.specs.Prelude.{List};
    ghost use Rattle.m3_base.specs.Ideal.Context.{Context as ContextValue};
    ghost use Rattle.m3_ideal.specs.Tables.{present};
    ghost use Rattle.m3_ideal.specs.Seated.{IsSeated};

    ghost Value = { List ContextValue };

    ghost view = { λ s. present s.table.items };

    ghost invariant = { λ s. IsSeated s.table.items };
}

impl Contexts {
    /// No context.
    #[tactic(auto, using(crate::proofs::Seats::seated_empty))]
    pub fn new(alloc: Global) -> Result<Contexts, AllocError>
        ensures { IfOk result (λ cs. cs ≡ []) }
    {
        let table = empty_table(alloc)?;
        Ok(Contexts { table })
    }

    /// The context of an activity.
    #[tactic(auto, using(crate::proofs::Seats::context_at))]
    pub fn get(&self, act: ActId) -> Option<&Context>
        ensures { option_copied result ≡ context_of act self.now }
    {
        match &self.table[act.number() as usize] {
            Some(context) => Some(context),
            None => None,
        }
    }

    /// The place of each activity, with its context.
    pub fn table(&self) -> &[Option<Context>]
        ensures { present result.now ≡ self.now }
    {
        self.table.as_slice()
    }

    /// The activity of this number, where it has a context.
    #[tactic(auto, using(crate::proofs::Seats::context_at))]
    pub fn declared(&self, number: u8) -> Option<ActId>
        ensures { IsDeclared result number self.now }
    {
        match self.table.get(usize::from(number)) {
            Some(Some(context)) => Some(context.act()),
            _ => None,
        }
    }

    /// A new context, of an activity that has none. After out of memory nothing has changed.
    pub fn add(&mut self, alloc: Global, act: ActId) -> Result<(), AllocError>
        requires { context_of act self.old ≡ None }
        ensures ok { OnOk result (self.new ≡ new_context_in (new_context act) self.old) }
        ensures kept { OnErr result (self.new ≡ self.old) }
    {
        let context = Context::new(alloc, act)?;
        self.table[act.number() as usize] = Some(context);
        Ok(())
    }

    /// A command of an activity is issued at its context.
    pub fn issue(
        &mut self,
        alloc: Global,
        act: ActId,
        command: Command,
    ) -> Result<Option<Issued>, AllocError>
        requires { IsSome (context_of act self.old) }
        ensures at { AtContext (context_of act self.old) self.old self.new (λ c d. IssuesAt result command c d) }
        ensures kept { OnErr result (self.new ≡ self.old) }
    {
        let Some(context) = &mut self.table[act.number() as usize] else {
            unreachable!()
        };
        context.issue(alloc, command)
    }

    /// A message or reply lands at an activity's context.
    pub fn land(
        &mut self,
        to: ActId,
        ep: EpId,
        grant: GrantId,
        letter: Letter,
    ) -> Result<Option<Refusal>, Letter>
        requires { IsSome (context_of to self.old) }
        ensures at { AtKept (context_of to self.old) self.old self.new (Lands result ep grant letter) }
        ensures agree { SameNexts self.old self.new }
    {
        let Some(context) = &mut self.table[to.number() as usize] else {
            unreachable!()
        };
        context.land(ep, grant, letter)
    }

    /// A credit goes to an activity.
    pub fn give(&mut self, to: ActId, send: GrantId) -> Result<bool, AllocError>
        requires { IsSome (context_of to self.old) }
        ensures at { AtKept (context_of to self.old) self.old self.new (GivesTo send result) }
        ensures agree { SameNexts self.old self.new }
        ensures kept { OnErr result (self.new ≡ self.old) }
    {
        let Some(context) = &mut self.table[to.number() as usize] else {
            unreachable!()
        };
        context.give(send)
    }

    /// A record stands at an activity's endpoint.
    pub fn install(
        &mut self,
        alloc: Global,
        to: ActId,
        ep: EpId,
        fresh: &Fresh,
    ) -> Result<(), AllocError>
        requires { IsSome (context_of to self.old) }
        ensures at { AtKept (context_of to self.old) self.old self.new (InstallsTo ep fresh.now result) }
        ensures agree { SameNexts self.old self.new }
        ensures kept { OnErr result (self.new ≡ self.old) }
    {
        let Some(context) = &mut self.table[to.number() as usize] else {
            unreachable!()
        };
        context.install(alloc, ep, fresh)
    }

    /// The kernel closes the live record of a grant at an activity's endpoint.
    pub fn close(&mut self, to: ActId, ep: EpId, grant: GrantId) -> Option<bool>
        requires { IsSome (context_of to self.old) }
        ensures at { AtKept (context_of to self.old) self.old self.new (Closes result ep grant) }
        ensures agree { SameNexts self.old self.new }
    {
        let Some(context) = &mut self.table[to.number() as usize] else {
            unreachable!()
        };
        context.close(ep, grant)
    }

    /// The answer to a command of an activity ends it.
    pub fn answer(
        &mut self,
        act: ActId,
        number: u32,
        answer: &Answer,
    ) -> Result<Option<Option<GrantId>>, AllocError>
        requires { IsSome (context_of act self.old) }
        ensures at { AtKept (context_of act self.old) self.old self.new (SettlesBy result number answer.now) }
        ensures agree { SameNexts self.old self.new }
        ensures kept { OnErr result (self.new ≡ self.old) }
    {
        let Some(context) = &mut self.table[act.number() as usize] else {
            unreachable!()
        };
        context.answer(number, answer)
    }

    /// Frees an endpoint that has a closing record of this grant and no flying command.
    pub fn free(&mut self, act: ActId, ep: EpId, grant: GrantId) -> bool
        requires { IsSome (context_of act self.old) }
        ensures at { AtKept (context_of act self.old) self.old self.new (Is_freed result ep grant) }
        ensures agree { SameNexts self.old self.new }
    {
        let Some(context) = &mut self.table[act.number() as usize] else {
            unreachable!()
        };
        context.free(ep, grant)
    }
}

// A place for each activity, with no context.
fn empty_table(alloc: Global) -> Result<Vec<Option<Context>>, AllocError>
    ensures { IfOk result (λ v. v.items ≡ replicate 64 None) }
{
    let mut table = Vec::with_capacity(alloc, 64)?;
    for _ in 0..64u8 {
        table.push(None)?;
    }
    Ok(table)
}

//! Commands, and programs that wait for messages.

ghost use Rattle.std.specs.Prelude.{◌≡◌, ℕ, Ok};
ghost use Rattle.m3_base.specs.Ideal.State.{context_of};
ghost use Rattle.m3_base.specs.Ideal.Step.{At_issue, issue_in, await_in, with_packet};
ghost use Rattle.m3_ideal.specs.Ideal.Launch.{outcome_of, packet_of_issue, MayLaunch, nexts_after};
ghost use Rattle.m3_ideal.specs.Ideal.StepOutcome.{Steps};
ghost use Rattle.m3_ideal.specs.Words.{meaning};

use crate::flights::Flights;
use crate::ideal::Ideal;
use crate::issued::Issued;
use crate::word::Word;
use m3_base::command::Command;
use m3_base::ids::{ActId, EpId};
use std::alloc::{AllocError, Global};

// The flight of an issued command goes out, where it has one.
fn launch(flights: &mut Flights, issued: Issued) -> Word
    requires { MayLaunch (packet_of_issue issued) flights.old }
    ensures word { meaning result ≡ At_issue (outcome_of issued) }
    ensures list { flights.new.list ≡ with_packet (packet_of_issue issued) flights.old.list }
    ensures nexts { flights.new.nexts ≡ nexts_after (packet_of_issue issued) flights.old.nexts }
{
    match issued {
        Issued::Refused(why) => Word::Refused(why),
        Issued::Nothing => Word::Nothing,
        Issued::Fetched { token, message } => Word::Fetched { token, message },
        Issued::Acknowledged(None) => Word::Acknowledged(None),
        Issued::Acknowledged(Some((id, flight))) => {
            flights.push(flight);
            Word::Acknowledged(Some(id))
        }
        Issued::Flies(id, flight) => {
            flights.push(flight);
            Word::Flies(id)
        }
    }
}

impl Ideal {
    /// An activity issues a command.
    pub(crate) fn issue(
        &mut self,
        alloc: Global,
        act: ActId,
        command: Command,
    ) -> Result<Option<Word>, AllocError>
        ensures { Steps result (issue_in self.old (context_of act self.old.contexts) command) self.old self.new }
    {
        if self.contexts.get(act).is_none() {
            return Ok(None);
        }
        self.flights.reserve(act.number())?;
        let Some(issued) = self.contexts.issue(alloc, act, command)? else {
            return Ok(None);
        };
        Ok(Some(launch(&mut self.flights, issued)))
    }

    /// A program asks whether an endpoint has an unread message.
    pub(crate) fn look(&self, act: ActId, ep: EpId) -> Option<Word>
        ensures { Steps {E = ℕ} (Ok result) (await_in self.now (context_of act self.now.contexts) ep) self.now self.now }
    {
        let context = self.contexts.get(act)?;
        Some(Word::Present(context.has_unread(ep)))
    }
}

//! The credits that flights carry.

ghost use Rattle.std.specs.Prelude.{◌≡◌, ℕ, ◌∷◌, [], Some, OnOk};
ghost use Rattle.m3_base.specs.Ideal.Credits.{carries_credit, gives_back_by, gives_back_in, is_through, queued_credits};
ghost use Rattle.m3_base.specs.Ideal.ReceiveRecord.{fetched_at};
ghost use Rattle.m3_base.specs.Lists.Counting.{one};
ghost use Rattle.m3_base.specs.Ideal.State.{context_of, is_number};
ghost use Rattle.m3_ideal.specs.Check.AuditCounts.{CountsFlights, Rises};
ghost use Rattle.m3_ideal.specs.Lanes.{flights_in, lanes_of};
ghost use Rattle.m3_ideal.specs.Tables.{present};

use crate::audits::counts::Counts;
use crate::audits::credits::Credits;
use crate::context::Context;
use crate::contexts::Contexts;
use crate::fetched::token_place;
use crate::flight::{Cargo, Flight};
use crate::flying::{Flying, Kind, flying_place};
use crate::lane::Lane;
use crate::records::ReceiveEnd;
use crate::slot::Record;
use m3_base::command::Answer;
use m3_base::ids::{FlightId, GrantId};
use m3_base::packet::Fresh;
use std::alloc::AllocError;

// The send grant of the message of this token.
fn replied(receive: &ReceiveEnd, token: u32) -> Option<GrantId>
    ensures { (g : ℕ) → is_through g (fetched_at token receive.now.fetched) ≡ is_number g result }
{
    let place = token_place(receive.fetched(), token)?;
    Some(receive.fetched()[place].letter().send())
}

// The send grant whose credit a refused answer to this flying command brings back.
fn given_back_by(context: &Context, flying: &Flying) -> Option<GrantId>
    ensures { (g : ℕ) → gives_back_by g context.now (Some flying.now) ≡ is_number g result }
{
    let slot = context.slots().get(flying.ep().number() as usize)?;
    match (flying.kind(), slot.record()) {
        (Kind::Send, Record::Send(r)) => Some(r.grant),
        (Kind::Reply, Record::Receive(r)) => replied(r, flying.token()),
        _ => None,
    }
}

// The send grant whose credit a refused answer to the command of this name brings back.
fn given_back(contexts: &Contexts, id: FlightId) -> Option<GrantId>
    ensures { (g : ℕ) → gives_back_in g id.number (context_of id.issuer contexts.now) ≡ is_number g result }
{
    let act = contexts.declared(id.issuer)?;
    let context = contexts.get(act)?;
    let place = flying_place(context.flying(), id.number)?;
    given_back_by(context, &context.flying()[place])
}

// The send grant of which a flight carries a credit.
fn carried(contexts: &Contexts, flight: &Flight) -> Option<GrantId>
    ensures { (g : ℕ) → carries_credit g contexts.now flight.now ≡ is_number g result }
{
    match &flight.cargo {
        Cargo::Message { letter, .. } => Some(letter.send()),
        Cargo::Credit { grant, .. } => Some(*grant),
        Cargo::Answer {
            id,
            answer: Answer::Refused(_),
        } => given_back(contexts, *id),
        _ => None,
    }
}

// The credit that a flight carries.
fn count_flying(flying: &mut Counts, contexts: &Contexts, flight: &Flight) -> Result<(), AllocError>
    ensures { OnOk result (Rises (λ g. one (carries_credit g contexts.now flight.now)) flying.old flying.new) }
{
    match carried(contexts, flight) {
        Some(grant) => flying.add(grant, 1),
        None => Ok(()),
    }
}

// The credits of a send record that is to be installed.
fn count_held(held: &mut Counts, flight: &Flight) -> Result<(), AllocError>
    ensures { OnOk result (Rises (λ g. queued_credits g flight.now) held.old held.new) }
{
    match &flight.cargo {
        Cargo::Install {
            fresh: Fresh::Send { grant, limit, .. },
            ..
        } => held.add(*grant, u32::from(*limit)),
        _ => Ok(()),
    }
}

impl Credits {
    fn flight(&mut self, contexts: &Contexts, flight: &Flight) -> Result<(), AllocError>
        ensures { OnOk result (CountsFlights contexts.now (flight.now ∷ []) self.old self.new) }
    {
        let Some(flights) = self.flights.checked_add(1) else {
            return Err(AllocError);
        };
        self.flights = flights;
        count_flying(&mut self.flying, contexts, flight)?;
        count_held(&mut self.held, flight)
    }

    fn number(&mut self, contexts: &Contexts, place: &Option<Flight>) -> Result<(), AllocError>
        ensures { OnOk result (CountsFlights contexts.now (present (place.now ∷ [])) self.old self.new) }
    {
        match place {
            Some(flight) => self.flight(contexts, flight),
            None => Ok(()),
        }
    }

    fn lane(&mut self, contexts: &Contexts, lane: &[Option<Flight>]) -> Result<(), AllocError>
        ensures { OnOk result (CountsFlights contexts.now (present lane.now) self.old self.new) }
    {
        for place in lane {
            self.number(contexts, place)?;
        }
        Ok(())
    }

    /// Counts what the flights of all lanes carry, where these are all contexts.
    pub fn flights(&mut self, contexts: &Contexts, lanes: &[Lane]) -> Result<(), AllocError>
        ensures { OnOk result (CountsFlights contexts.now (flights_in (lanes_of lanes.now)) self.old self.new) }
    {
        for lane in lanes {
            self.lane(contexts, lane.flights())?;
        }
        Ok(())
    }
}

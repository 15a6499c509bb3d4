//! What lands, and answers that end their commands.

ghost use Rattle.std.specs.Prelude.{◌≡◌, ℕ, Some, Ok, if◌then◌else◌};
ghost use Rattle.m3_base.specs.declared.command.Answer.{Answer};
ghost use Rattle.m3_base.specs.declared.packet.Packet.{Packet};
ghost use Rattle.m3_base.specs.Ideal.Flights.{flight, change_flight, end_flight};
ghost use Rattle.m3_base.specs.Ideal.Step.{Credits, Discards, land_in, answered_in, number_of};
ghost use Rattle.m3_ideal.specs.declared.flight.Landing.{Landing};
ghost use Rattle.m3_ideal.specs.Ideal.FlightParts.{landing_at, letter_at, answer_at};
ghost use Rattle.m3_ideal.specs.Ideal.StepOutcome.{Steps};
ghost use Rattle.m3_ideal.specs.Words.{meaning};

use crate::flight::{Cargo, Flight, Landing};
use crate::flights::Flights;
use crate::ideal::Ideal;
use crate::letter::Letter;
use crate::memory::{bytes_at, write_at};
use crate::word::Word;
use m3_base::command::{Answer, Refusal};
use m3_base::ids::{ActId, EpId, FlightId, GrantId};
use m3_base::packet::Fresh;
use std::alloc::{AllocError, Global};

impl Ideal {
    /// A flight that isn't an answer lands.
    pub(crate) fn land(&mut self, alloc: Global, id: FlightId) -> Result<Option<Word>, AllocError>
        ensures { Steps result (land_in self.old id (flight id self.old.flights)) self.old self.new }
    {
        let Some(flight) = self.flights.get(id) else {
            return Ok(None);
        };
        match flight.landing() {
            Landing::Letter { to, ep, grant } => self.land_letter(id, to, ep, grant),
            Landing::Credit { to, grant } => self.give(id, to, grant),
            Landing::Read { place, len } => self.read(alloc, id, place, len),
            Landing::Write { place } => self.write(id, place),
            Landing::Answer => Ok(None),
            Landing::Install { to, ep, fresh } => self.install(alloc, id, to, ep, fresh),
            Landing::Close { to, ep, grant } => Ok(self.close(id, to, ep, grant)),
        }
    }

    // A credit comes to an activity.
    fn give(&mut self, id: FlightId, to: ActId, grant: GrantId) -> Result<Option<Word>, AllocError>
        requires { landing_at (flight id self.old.flights) ≡ Some (Landing.Credit to grant) }
        ensures { Steps result (land_in self.old id (flight id self.old.flights)) self.old self.new }
    {
        if self.contexts.get(to).is_none() {
            return Ok(None);
        }
        let there = self.contexts.give(to, grant)?;
        end(&mut self.flights, id);
        Ok(Some(credit_word(there, id, grant)))
    }

    // A record comes to an activity's endpoint.
    fn install(
        &mut self,
        alloc: Global,
        id: FlightId,
        to: ActId,
        ep: EpId,
        fresh: Fresh,
    ) -> Result<Option<Word>, AllocError>
        requires { landing_at (flight id self.old.flights) ≡ Some (Landing.Install to ep fresh) }
        ensures { Steps result (land_in self.old id (flight id self.old.flights)) self.old self.new }
    {
        if self.contexts.get(to).is_none() {
            return Ok(None);
        }
        self.contexts.install(alloc, to, ep, &fresh)?;
        let _ = self.flights.end(id);
        Ok(Some(Word::Installed(id, grant_of(&fresh))))
    }

    // The record of a grant closes at an activity's endpoint, where it is live.
    fn close(&mut self, id: FlightId, to: ActId, ep: EpId, grant: GrantId) -> Option<Word>
        requires { landing_at (flight id self.old.flights) ≡ Some (Landing.Close to ep grant) }
        ensures { Steps {E = ℕ} (Ok result) (land_in self.old id (flight id self.old.flights)) self.old self.new }
    {
        if self.contexts.get(to).is_none() {
            return None;
        }
        let Some(flies) = self.contexts.close(to, ep, grant) else {
            return None;
        };
        end(&mut self.flights, id);
        Some(if flies {
            Word::StartsClosing(id, grant)
        } else {
            Word::Closed(id, grant)
        })
    }

    // A read takes its bytes.
    fn read(
        &mut self,
        alloc: Global,
        id: FlightId,
        place: u32,
        len: u16,
    ) -> Result<Option<Word>, AllocError>
        requires { landing_at (flight id self.old.flights) ≡ Some (Landing.Read place len) }
        ensures { Steps result (land_in self.old id (flight id self.old.flights)) self.old self.new }
    {
        let bytes = bytes_at(alloc, &self.memory, place, len)?;
        let answer = Answer::Bytes(bytes);
        let _ = self.flights.swap(Flight::new(Cargo::Answer { id, answer }));
        Ok(Some(Word::Landed(id)))
    }

    // A write puts its bytes.
    fn write(&mut self, id: FlightId, place: u32) -> Result<Option<Word>, AllocError>
        requires { landing_at (flight id self.old.flights) ≡ Some (Landing.Write place) }
        ensures { Steps result (land_in self.old id (flight id self.old.flights)) self.old self.new }
    {
        let Some(flight) = self.flights.get(id) else {
            return Ok(None);
        };
        write_at(&mut self.memory, place, flight.bytes())?;
        let answer = Answer::Written;
        let _ = self.flights.swap(Flight::new(Cargo::Answer { id, answer }));
        Ok(Some(Word::Landed(id)))
    }

    // A message or a reply comes to an activity's endpoint. Its answer takes its place.
    fn land_letter(
        &mut self,
        id: FlightId,
        to: ActId,
        ep: EpId,
        grant: GrantId,
    ) -> Result<Option<Word>, AllocError>
        requires { landing_at (flight id self.old.flights) ≡ Some (Landing.Letter to ep grant) }
        ensures { Steps result (land_in self.old id (flight id self.old.flights)) self.old self.new }
    {
        if self.contexts.get(to).is_none() {
            return Ok(None);
        }
        let Some(letter) = take_letter(&mut self.flights, id) else {
            return Ok(None);
        };
        let is_message = letter.is_message();
        match self.contexts.land(to, ep, grant, letter) {
            Err(letter) => {
                put_letter(&mut self.flights, to, ep, grant, letter);
                Err(AllocError)
            }
            Ok(None) => {
                put_landed(&mut self.flights, id, is_message);
                Ok(Some(Word::Landed(id)))
            }
            Ok(Some(why)) => {
                put_refusal(&mut self.flights, id, why);
                Ok(Some(Word::LandRefused(id, why)))
            }
        }
    }

    /// The answer to a command ends it.
    pub(crate) fn answer(&mut self, id: FlightId) -> Result<Option<Word>, AllocError>
        ensures { Steps result (answered_in self.old id (flight id self.old.flights)) self.old self.new }
    {
        let Some(flight) = self.flights.get(id) else {
            return Ok(None);
        };
        let Some(answer) = flight.answer() else {
            return Ok(None);
        };
        let Some(act) = self.contexts.declared(id.issuer) else {
            return Ok(None);
        };
        let Some(closed) = self.contexts.answer(act, id.number, answer)? else {
            return Ok(None);
        };
        match end_answer(&mut self.flights, id) {
            None => unreachable!(),
            Some(answer) => Ok(Some(Word::Answered { id, answer, closed })),
        }
    }
}

// The letter of a message, which an answer replaces.
fn take_letter(flights: &mut Flights, id: FlightId) -> Option<Letter>
    ensures letter { result ≡ letter_at (flight id flights.old.list) }
    ensures list { flights.new.list ≡ change_flight (Packet.Answer id Answer.Sent) flights.old.list }
    ensures nexts { flights.new.nexts ≡ flights.old.nexts }
{
    let answer = Answer::Sent;
    flights
        .swap(Flight::new(Cargo::Answer { id, answer }))?
        .into_letter()
}

// The answer takes the place of the flight of this name.
fn put_answer(flights: &mut Flights, id: FlightId, answer: Answer)
    ensures list { flights.new.list ≡ change_flight (Packet.Answer id answer) flights.old.list }
    ensures nexts { flights.new.nexts ≡ flights.old.nexts }
{
    let _ = flights.swap(Flight::new(Cargo::Answer { id, answer }));
}

// A refusal takes its place.
fn put_refusal(flights: &mut Flights, id: FlightId, why: Refusal)
    ensures list { flights.new.list ≡ change_flight (Packet.Answer id (Answer.Refused why)) flights.old.list }
    ensures nexts { flights.new.nexts ≡ flights.old.nexts }
{
    put_answer(flights, id, Answer::Refused(why));
}

// A letter takes the place of the flight of its name.
fn put_letter(flights: &mut Flights, to: ActId, ep: EpId, grant: GrantId, letter: Letter)
    ensures list { flights.new.list ≡ change_flight (Packet.Message to ep grant letter) flights.old.list }
    ensures nexts { flights.new.nexts ≡ flights.old.nexts }
{
    let _ = flights.swap(Flight::new(Cargo::Message {
        to,
        ep,
        grant,
        letter,
    }));
}

// The answer to a message, or to a reply, takes its place.
fn put_landed(flights: &mut Flights, id: FlightId, is_message: bool)
    ensures list { flights.new.list ≡ change_flight (Packet.Answer id (if is_message then Answer.Sent else Answer.Replied)) flights.old.list }
    ensures nexts { flights.new.nexts ≡ flights.old.nexts }
{
    if is_message {
        put_answer(flights, id, Answer::Sent);
    } else {
        put_answer(flights, id, Answer::Replied);
    }
}

// What is said of a credit.
fn credit_word(there: bool, id: FlightId, grant: GrantId) -> Word
    ensures { meaning result ≡ (if there then Credits id grant else Discards id grant) }
{
    if there {
        Word::Credited(id, grant)
    } else {
        Word::Discarded(id, grant)
    }
}

// The flight of this name ends.
fn end(flights: &mut Flights, id: FlightId)
    ensures list { flights.new.list ≡ end_flight id flights.old.list }
    ensures nexts { flights.new.nexts ≡ flights.old.nexts }
{
    let _ = flights.end(id);
}

// The answer that flies under this name, which ends.
fn end_answer(flights: &mut Flights, id: FlightId) -> Option<Answer>
    ensures answer { result ≡ answer_at (flight id flights.old.list) }
    ensures list { flights.new.list ≡ end_flight id flights.old.list }
    ensures nexts { flights.new.nexts ≡ flights.old.nexts }
{
    flights.end(id)?.into_answer()
}

// The grant of a record.
fn grant_of(fresh: &Fresh) -> GrantId
    ensures { result ≡ number_of fresh.now }
{
    match fresh {
        Fresh::Send { grant, .. } => *grant,
        Fresh::Receive { grant, .. } => *grant,
        Fresh::Memory { grant, .. } => *grant,
    }
}

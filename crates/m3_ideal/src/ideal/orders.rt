//! Grants: made, revoked, closed and done.

ghost use Rattle.std.specs.Prelude.{◌≡◌, ◌<◌, ℕ, Ok, IfOk, OnOk, slice_index_or};
ghost use Rattle.m3_base.specs.Ideal.Flights.{flight_name};
ghost use Rattle.m3_base.specs.declared.packet.Packet.{Packet};
ghost use Rattle.m3_base.specs.Ideal.State.{context_of, holder, holder_ep, grant_in};
ghost use Rattle.m3_base.specs.Ideal.GrantRules.{revoke_refusal};
ghost use Rattle.m3_base.specs.Ideal.Step.{make_for, revoke_in, send_close_in, closed_in, done_in};
ghost use Rattle.m3_ideal.specs.Ideal.StepOutcome.{Steps};
ghost use Rattle.m3_ideal.specs.Making.{line_in};

use crate::flight::{Cargo, Flight};
use crate::flights::{Flights, KERNEL};
use crate::ideal::Ideal;
use crate::word::Word;
use m3_base::ids::{FlightId, GrantId};
use m3_base::order::GrantLine;
use m3_base::packet::Fresh;
use std::alloc::{AllocError, Global};

impl Ideal {
    /// A grant is made, or refused.
    pub(crate) fn make(&mut self, line: &GrantLine) -> Result<Option<Word>, AllocError>
        ensures { Steps result (make_for self.old line.now (context_of (holder line.now) self.old.contexts)) self.old self.new }
    {
        if self.contexts.get(line.act()).is_none() {
            return Ok(None);
        }
        if let Some(why) = self.grants.refusal(self.memory.len(), line) {
            return Ok(Some(Word::No(why)));
        }
        let Some((grant, fresh)) = self.grants.next(line)? else {
            return Ok(None);
        };
        let id = kernel_flight(&mut self.flights, self.kernel_next)?;
        self.grants.push(*line, copy_of(&fresh))?;
        self.kernel_next += 1;
        self.flights.push(install(id, line, fresh));
        Ok(Some(Word::Made(grant, id)))
    }

    /// A grant is revoked, or that is refused.
    pub(crate) fn revoke(
        &mut self,
        alloc: Global,
        grant: GrantId,
    ) -> Result<Option<Word>, AllocError>
        ensures { Steps result (revoke_in self.old grant (revoke_refusal (grant_in self.old.grants grant))) self.old self.new }
    {
        if let Some(why) = self.grants.revoke_refusal(grant) {
            return Ok(Some(Word::No(why)));
        }
        self.grants.revoke(alloc, grant)?;
        Ok(Some(Word::Revoking(grant)))
    }

    /// The Close of a grant that is due goes out.
    pub(crate) fn send_close(&mut self, grant: GrantId) -> Result<Option<Word>, AllocError>
        ensures { Steps result (send_close_in self.old grant (grant_in self.old.grants grant)) self.old self.new }
    {
        if !self.grants.may_close(grant) {
            return Ok(None);
        }
        let Some(line) = self.line(grant) else {
            return Ok(None);
        };
        let id = kernel_flight(&mut self.flights, self.kernel_next)?;
        self.kernel_next += 1;
        self.grants.send_close(grant);
        self.flights.push(Flight::new(Cargo::Close {
            id,
            to: line.act(),
            ep: line.ep(),
            grant,
        }));
        Ok(Some(Word::CloseSent(grant, id)))
    }

    // The line of a grant.
    fn line(&self, grant: GrantId) -> Option<GrantLine>
        ensures { result ≡ line_in (grant_in self.now.grants grant) }
    {
        let grant = self.grants.get(grant)?;
        Some(grant.line())
    }

    /// The endpoint of a closing grant becomes free.
    pub(crate) fn free(&mut self, grant: GrantId) -> Option<Word>
        ensures { Steps {E = ℕ} (Ok result) (closed_in self.old grant (grant_in self.old.grants grant)) self.old self.new }
    {
        let line = self.line(grant)?;
        if self.contexts.get(line.act()).is_none() {
            return None;
        }
        if !self.contexts.free(line.act(), line.ep(), grant) {
            return None;
        }
        self.grants.close(grant);
        Some(Word::Freed(grant))
    }

    /// A closed grant is done.
    pub(crate) fn finish(&mut self, grant: GrantId) -> Option<Word>
        ensures { Steps {E = ℕ} (Ok result) (done_in self.old grant (grant_in self.old.grants grant)) self.old self.new }
    {
        let of = self.grants.get(grant)?;
        if !of.is_closed() {
            return None;
        }
        let is_root = of.is_root();
        self.grants.finish(grant);
        Some(Word::Done { grant, is_root })
    }
}

// The name of the kernel's next flight, which has this number, and for which there is room then. Err, and nothing has
// changed, where the number is 4,294,967,295, or memory runs out.
fn kernel_flight(flights: &mut Flights, number: u32) -> Result<FlightId, AllocError>
    ensures list { flights.new.list ≡ flights.old.list }
    ensures nexts { flights.new.nexts ≡ flights.old.nexts }
    ensures name { IfOk result (λ id. id ≡ flight_name 64 number) }
    ensures below { IfOk result (λ id. number < 4294967295) }
    ensures room { OnOk result (0 < slice_index_or flights.new.rooms 64 0) }
{
    if number == 4294967295 {
        return Err(AllocError);
    }
    flights.reserve(KERNEL)?;
    Ok(FlightId {
        issuer: KERNEL,
        number,
    })
}

fn copy_of(fresh: &Fresh) -> Fresh
    ensures { result ≡ fresh.now }
{
    *fresh
}

// The Install of a grant of this line, with its record.
fn install(id: FlightId, line: &GrantLine, fresh: Fresh) -> Flight
    ensures { result ≡ Packet.Install id (holder line.now) (holder_ep line.now) fresh }
{
    Flight::new(Cargo::Install {
        id,
        to: line.act(),
        ep: line.ep(),
        fresh,
    })
}

//! Fields that several packets have.

ghost use Rattle.std.specs.Prelude.{◌≡◌, ◌≤◌, IfOk};
ghost use Rattle.m3_wire.specs.ByteReader.{Gives, Reads};
ghost use Rattle.m3_wire.specs.Decoders.{act, ep, grant, count, label, place, most_from, act_id, kernel_id, length_prefixed};

use crate::reader::Reader;
use crate::refusal::{Fault, ReadError};
use m3_base::ids::{ActId, EpId, FlightId, GrantId};
use m3_base::limits::{KERNEL, MOST_GRANTS, MOST_MEMORY};
use m3_base::payload::Payload;
use std::alloc::Global;

impl<'a> Reader<'a> {
    #[inline(always)]
    pub fn act(&mut self) -> Result<ActId, Fault>
        ensures { Gives result self.new.rest.now (act self.old.rest.now) }
    {
        let number = self.byte_in_range(0, 63)?;
        Ok(ActId::new(number))
    }

    #[inline(always)]
    pub fn ep(&mut self) -> Result<EpId, Fault>
        ensures { Gives result self.new.rest.now (ep self.old.rest.now) }
    {
        let number = self.byte_in_range(0, 15)?;
        Ok(EpId::new(number))
    }

    #[inline(always)]
    pub fn grant(&mut self) -> Result<GrantId, Fault>
        ensures { Gives result self.new.rest.now (grant self.old.rest.now) }
    {
        let number = self.number(4, 1, MOST_GRANTS as u64)?;
        Ok(GrantId::new(number as u16))
    }

    /// The number of a flight.
    #[inline(always)]
    pub fn count(&mut self) -> Result<u32, Fault>
        ensures { Gives result self.new.rest.now (count self.old.rest.now) }
    {
        let number = self.number(4, 1, u32::MAX as u64)?;
        Ok(number as u32)
    }

    #[inline(always)]
    pub fn label(&mut self) -> Result<u64, Fault>
        ensures { Gives result self.new.rest.now (label self.old.rest.now) }
    {
        self.number(8, 0, u64::MAX)
    }

    #[inline(always)]
    pub fn place(&mut self) -> Result<u32, Fault>
        ensures value { Gives result self.new.rest.now (place self.old.rest.now) }
        ensures range { IfOk result (λ p. p ≤ 1048576) }
    {
        let place = self.number(4, 0, MOST_MEMORY as u64)?;
        Ok(place as u32)
    }

    /// The name of an activity's flight.
    #[tactic(auto, unfolding(crate::specs::ByteReader::pair, crate::specs::ByteReader::mapped))]
    #[inline(always)]
    pub fn act_id(&mut self) -> Result<FlightId, Fault>
        ensures { Gives result self.new.rest.now (act_id self.old.rest.now) }
    {
        let issuer = self.byte_in_range(0, 63)?;
        let number = self.count()?;
        Ok(FlightId { issuer, number })
    }

    /// The name of a flight of the kernel, of which its number alone is spelled.
    #[tactic(auto, unfolding(crate::specs::ByteReader::mapped))]
    #[inline(always)]
    pub fn kernel_id(&mut self) -> Result<FlightId, Fault>
        ensures { Gives result self.new.rest.now (kernel_id self.old.rest.now) }
    {
        let number = self.count()?;
        Ok(FlightId {
            issuer: KERNEL,
            number,
        })
    }

    /// At most `most` bytes behind their number.
    #[tactic(auto, unfolding(crate::specs::ByteReader::pair, crate::specs::ByteReader::mapped))]
    #[inline(always)]
    pub fn length_prefixed(&mut self, alloc: Global, most: u16) -> Result<Payload, ReadError>
        ensures { Reads result self.new.rest.now (length_prefixed most self.old.rest.now) }
    {
        let len = self.number(2, 0, most as u64)?;
        self.payload(alloc, len as usize)
    }
}

//! The memory's part: it serves the reads and writes that it takes.

ghost use Rattle.std.specs.Prelude.{◌≡◌, ◌+◌, nat_le, length, replicate, IfOk};
ghost use Rattle.m3_kernel.specs.ParcelView.{parcel_of};
ghost use Rattle.m3_model.specs.Memory.Step.{serve, memory_take};
ghost use Rattle.m3_engine.specs.MemoryView.{may_serve_packet};
ghost use Rattle.m3_engine.specs.TileStepView.{Does};

use crate::tile::{TileDid, is_idle, says};
use m3_base::event::{IdleWhy, Said};
use m3_base::packet::Packet;
use m3_core::parcel::{Emit, Parcel};
use m3_kernel::site::Site;
use m3_mem::memory::Memory;
use std::alloc::{AllocError, Global};
use std::marker::Model;

/// The memory tile. Contracts see it as its bytes at its site.
#[derive(Drop)]
pub struct MemPart {
    site: Site,
    memory: Memory,
}

impl Model for MemPart {
    ghost use Rattle.m3_engine.specs.MemoryView.{MemoryAt};

    ghost Value = { MemoryAt };

    ghost view = { λ m. record { site = m.site; memory = m.memory } };
}

impl MemPart {
    /// So many bytes, all 0.
    pub fn new(alloc: Global, site: Site, size: u32) -> Result<MemPart, AllocError>
        ensures site { IfOk result (λ m. m.site ≡ site) }
        ensures memory { IfOk result (λ m. m.memory ≡ replicate size 0) }
    {
        let memory = Memory::new(alloc, size)?;
        Ok(MemPart { site, memory })
    }

    /// Whether so many bytes from this place on lie inside.
    fn has(&self, place: u32, len: usize) -> bool
        ensures { result ≡ nat_le (place + len) (length self.now.memory) }
    {
        let size = self.memory.view().len();
        place as usize <= size && len <= size - place as usize
    }

    /// Whether the packet is a read or a write of an activity of the setup whose bytes lie inside.
    fn may_serve(&self, packet: &Packet) -> bool
        ensures { result ≡ may_serve_packet self.now.site self.now.memory packet.now }
    {
        match packet {
            Packet::Read {
                id,
                place,
                buffer,
                ..
            } => self.site.declares(id.issuer) && self.has(*place, buffer.len()),
            Packet::Write {
                id,
                place,
                payload,
                ..
            } => self.site.declares(id.issuer) && self.has(*place, payload.len()),
            _ => false,
        }
    }

    /// It serves a read or a write, and the answer goes to the home of its activity. Any other packet is dropped.
    fn serve(&mut self, packet: Packet) -> TileDid
        ensures site { self.new.site ≡ self.old.site }
        ensures does { Does result self.new.memory (serve self.old.site self.old.memory packet) }
    {
        if !self.may_serve(&packet) {
            return is_idle(IdleWhy::EmptyLink);
        }
        let id = packet.id();
        let to = self.site.tile_of(id.issuer);
        let parcel = Parcel::Data(self.memory.serve(packet));
        says(Said::Landed(id), Some(Emit { to, parcel }))
    }

    /// The memory takes a parcel. A read or a write of an activity of the setup is served where its bytes lie inside.
    /// Anything else is dropped, as if the link were empty. It takes no memory.
    pub fn take(&mut self, parcel: Parcel) -> TileDid
        ensures site { self.new.site ≡ self.old.site }
        ensures does { Does result self.new.memory (memory_take self.old.site self.old.memory (parcel_of parcel)) }
    {
        match parcel {
            Parcel::Data(packet) => self.serve(packet),
            _ => is_idle(IdleWhy::EmptyLink),
        }
    }
}

//! What the setup says of activities, and no step changes: where each has its home, and which have a program. A part has
//! a site of its own; those of one machine share their tables.

mod tables;

ghost use Rattle.std.specs.Prelude.{◌≡◌, IfOk, map};
ghost use Rattle.m3_base.specs.Placement.Routing.{target};
ghost use Rattle.m3_model.specs.Config.Site.{home_of, has_program, is_shared, tile_of, tile_for};
ghost use Rattle.m3_model.specs.Config.KnownActivities.{is_home, are_homes, acts_in_form, is_named};
ghost use Rattle.m3_model.specs.SetupOpening.{opened_site};
ghost use Rattle.m3_kernel.specs.HomeTableView.{home_tile, value_of};

use m3_base::ids::{ActId, TileId};
use m3_base::packet::{Fresh, Packet};
use m3_base::setup::Setup;
use std::alloc::{AllocError, Global};
use std::marker::Model;
use std::sync::Arc;
pub use tables::Home;
use tables::Tables;

/// A setup's activities with their homes, the quantum, and the size of the memory. Contracts see them as declared.
#[derive(Drop)]
pub struct Site {
    tables: Arc<Tables>,
}

impl Model for Site {
    ghost use Rattle.std.specs.Arc.{arc_value};
    ghost use Rattle.m3_model.specs.Config.Site.{Site as SiteValue};

    ghost Value = { SiteValue };

    ghost view = { λ s. arc_value s.tables };
}

impl Site {
    /// The site of a setup.
    pub fn new(alloc: Global, setup: &Setup) -> Result<Site, AllocError>
        ensures { IfOk result (λ s. s ≡ opened_site setup.now) }
    {
        let tables = Arc::new(alloc, Tables::new(alloc, setup)?)?;
        Ok(Site { tables })
    }

    /// The same site, of another part. It shares the tables and takes no memory; it is refused only where 2^63 others do.
    pub fn share(&self) -> Result<Site, AllocError>
        ensures { IfOk result (λ s. s ≡ self.now) }
    {
        let tables = Arc::try_clone(&self.tables)?;
        Ok(Site { tables })
    }

    /// The activities, as declared.
    #[inline(always)]
    pub fn homes(&self) -> &[Home]
        ensures { map value_of result.now ≡ self.now.homes }
    {
        self.tables.homes()
    }

    /// The home tile of this activity, or none where the setup doesn't declare it.
    #[inline(always)]
    pub fn home(&self, act: ActId) -> Option<TileId>
        ensures { result ≡ home_tile (home_of act self.now) }
    {
        self.tables.home(act)
    }

    /// The home tile of the issuer of a flight; tile 0 where the setup doesn't declare it, as for the kernel.
    #[inline(always)]
    pub fn tile_of(&self, issuer: u8) -> TileId
        ensures { result ≡ tile_of self.now issuer }
    {
        self.tables.tile_of(issuer)
    }

    /// How many Do moves a stay of a program makes on a tile that it shares, before it yields.
    #[inline(always)]
    pub fn quantum(&self) -> u8
        ensures { result ≡ self.now.quantum }
    {
        self.tables.quantum()
    }

    /// Whether more than one activity has its home at the tile.
    #[inline(always)]
    pub fn is_shared(&self, tile: TileId) -> bool
        ensures { result ≡ is_shared tile self.now.homes }
    {
        self.tables.is_shared(tile)
    }

    /// Whether the activity of this number has a program.
    #[inline(always)]
    pub fn has_program(&self, act: u8) -> bool
        ensures { result ≡ has_program self.now act }
    {
        self.tables.has_program(act)
    }

    /// Whether the setup declares the activity of this number.
    #[inline(always)]
    pub fn declares(&self, act: u8) -> bool
        ensures { result ≡ is_home self.now act }
    {
        self.tables.declares(act)
    }

    /// The tile that a packet goes to from where it arises: tile 1 for a read or a write, else the home of the activity
    /// that it is for.
    #[inline(always)]
    pub fn tile_for(&self, packet: &Packet) -> TileId
        ensures { result ≡ tile_for self.now (target packet.now) }
    {
        match packet {
            Packet::Message { to, .. } => self.tile_of(to.number()),
            Packet::Credit { to, .. } => self.tile_of(to.number()),
            Packet::Read { .. } => TileId::new(1),
            Packet::Write { .. } => TileId::new(1),
            Packet::Answer { id, .. } => self.tile_of(id.issuer),
            Packet::Install { to, .. } => self.tile_of(to.number()),
            Packet::Close { to, .. } => self.tile_of(to.number()),
        }
    }

    /// Whether a record that is installed names activities of the setup alone.
    fn names_form(&self, fresh: &Fresh) -> bool
        ensures { result ≡ are_homes self.now (acts_in_form fresh.now) }
    {
        match fresh {
            Fresh::Send { to, .. } => self.declares(to.number()),
            Fresh::Receive { .. } => true,
            Fresh::Memory { .. } => true,
        }
    }

    /// Whether a packet names activities of the setup alone.
    pub fn names(&self, packet: &Packet) -> bool
        ensures { result ≡ is_named self.now packet.now }
    {
        match packet {
            Packet::Message { to, message, .. } => {
                self.declares(to.number()) && self.declares(message.id().issuer)
            }
            Packet::Credit { id, to, .. } => self.declares(id.issuer) && self.declares(to.number()),
            Packet::Read { id, .. } => self.declares(id.issuer),
            Packet::Write { id, .. } => self.declares(id.issuer),
            Packet::Answer { id, .. } => self.declares(id.issuer),
            Packet::Install { to, fresh, .. } => {
                self.declares(to.number()) && self.names_form(fresh)
            }
            Packet::Close { to, .. } => self.declares(to.number()),
        }
    }
}

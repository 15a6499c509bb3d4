//! The tables of a site: the homes of activities in a list as declared, and by the numbers of activities and of tiles.

ghost use Rattle.std.specs.Prelude.{◌≡◌, ◌==◌, ◌++◌, ◌∷◌, List, IfOk, OnOk, length, map, replicate, None, false, []};
ghost use Rattle.std.specs.List.{list_any};
ghost use Rattle.m3_base.specs.declared.setup_line.SetupLine.{SetupLine};
ghost use Rattle.m3_base.specs.Setup.Rules.{programmed_acts};
ghost use Rattle.m3_model.specs.Config.Site.{Home as HomeValue, home_of, has_program, is_shared, tile_of};
ghost use Rattle.m3_model.specs.Config.KnownActivities.{is_home};
ghost use Rattle.m3_model.specs.Config.FromSetup.{with_home};
ghost use Rattle.m3_model.specs.SetupOpening.{opened_site};
ghost use Rattle.m3_kernel.specs.HomeTableView.{home_tile, home_with, site_before, value_of, with_declared, AreCrowds, ArePrograms, AreTiles, Grows};

use m3_base::ids::{ActId, TileId};
use m3_base::setup::Setup;
use m3_base::setup_line::{ProgramKind, SetupLine};
use std::alloc::{AllocError, Global};
use std::marker::Model;

/// A declared activity, its home tile, and whether it has a program.
#[derive(Clone, Copy, Debug, PartialEq, Eq, Drop)]
pub struct Home {
    act: ActId,
    tile: TileId,
    has_program: bool,
}

/// The activities of a setup with their homes, the quantum, and the size of the memory. Contracts see them as declared.
#[derive(Drop)]
pub struct Tables {
    homes: Vec<Home>,
    /// The home tile of each activity, by its number.
    tiles: Vec<Option<TileId>>,
    /// Whether the activity has a program, by its number.
    programs: Vec<bool>,
    /// How many activities are at home on each tile, by its number: none, one, or 2 for more.
    crowds: Vec<u8>,
    quantum: u8,
    memory: u32,
}

impl Home {
    /// Its activity.
    pub fn act(&self) -> ActId
        ensures { result ≡ self.now.act }
    {
        self.act
    }

    /// Its tile.
    pub fn tile(&self) -> TileId
        ensures { result ≡ self.now.tile }
    {
        self.tile
    }

    /// Whether it has a program.
    pub fn has_program(&self) -> bool
        ensures { result ≡ self.now.has_program }
    {
        self.has_program
    }
}

impl Model for Tables {
    ghost use Rattle.std.specs.Prelude.{map};
    ghost use Rattle.m3_model.specs.Config.Site.{Site as SiteValue};
    ghost use Rattle.m3_kernel.specs.HomeTableView.{value_of, AreHomeTables};

    ghost Value = { SiteValue };

    ghost view = { λ s. record { homes = map value_of s.homes.items; quantum = s.quantum; memory = s.memory } };

    ghost invariant = { λ s. AreHomeTables (map value_of s.homes.items) s.tiles.items s.programs.items s.crowds.items };
}

fn no_tiles(alloc: Global) -> Result<Vec<Option<TileId>>, AllocError>
    ensures { IfOk result (λ v. v.items ≡ replicate 64 None) }
{
    let mut tiles = Vec::new(alloc);
    for _ in 0..64u8 {
        tiles.push(None)?;
    }
    Ok(tiles)
}

fn no_programs(alloc: Global) -> Result<Vec<bool>, AllocError>
    ensures { IfOk result (λ v. v.items ≡ replicate 64 false) }
{
    let mut programs = Vec::new(alloc);
    for _ in 0..64u8 {
        programs.push(false)?;
    }
    Ok(programs)
}

fn no_crowds(alloc: Global) -> Result<Vec<u8>, AllocError>
    ensures { IfOk result (λ v. v.items ≡ replicate 16 0) }
{
    let mut crowds = Vec::new(alloc);
    for _ in 0..16u8 {
        crowds.push(0)?;
    }
    Ok(crowds)
}

/// The tables by activities get the home of one more; the first of an activity stands.
fn record(
    tiles: &mut Vec<Option<TileId>>,
    programs: &mut Vec<bool>,
    act: ActId,
    tile: TileId,
    has_program: bool,
)
    requires tiles { length tiles.old.items ≡ 64 }
    requires programs { length programs.old.items ≡ 64 }
    ensures tiles { Grows AreTiles (home_with act tile has_program) tiles.old.items tiles.new.items }
    ensures programs { (homes : List HomeValue) → AreTiles homes tiles.old.items → ArePrograms homes programs.old.items →
        ArePrograms (homes ++ home_with act tile has_program ∷ []) programs.new.items }
{
    let at = usize::from(act.number());
    if tiles[at].is_none() {
        tiles[at] = Some(tile);
        programs[at] = has_program;
    }
}

/// One more activity is at home on the tile.
fn count(crowds: &mut Vec<u8>, tile: TileId)
    requires { length crowds.old.items ≡ 16 }
    ensures { (x : HomeValue) → x.tile ≡ tile → Grows AreCrowds x crowds.old.items crowds.new.items }
{
    let at = usize::from(tile.number());
    if crowds[at] < 2 {
        crowds[at] += 1;
    }
}

/// Whether a setup gives the activity a program.
fn is_programmed(setup: &Setup, act: ActId) -> bool
    ensures { result ≡ list_any (λ b. b == act) (programmed_acts setup.now.lines) }
{
    match setup.program(act) {
        ProgramKind::Absent => false,
        _ => true,
    }
}

impl Tables {
    /// The tables of a setup without lines.
    fn start(alloc: Global, memory: u32) -> Result<Tables, AllocError>
        ensures { IfOk result (λ s. s ≡ site_before memory) }
    {
        let tiles = no_tiles(alloc)?;
        let programs = no_programs(alloc)?;
        let crowds = no_crowds(alloc)?;
        Ok(Tables {
            homes: Vec::new(alloc),
            tiles,
            programs,
            crowds,
            quantum: 8,
            memory,
        })
    }

    /// An activity is declared.
    fn declare(&mut self, act: ActId, tile: TileId, has_program: bool) -> Result<(), AllocError>
        ensures { OnOk result (self.new ≡ with_declared (home_with act tile has_program) self.old) }
    {
        self.homes.push(Home {
            act,
            tile,
            has_program,
        })?;
        record(&mut self.tiles, &mut self.programs, act, tile, has_program);
        count(&mut self.crowds, tile);
        Ok(())
    }

    /// A line of the setup.
    fn read(&mut self, setup: &Setup, line: &SetupLine) -> Result<(), AllocError>
        ensures { OnOk result (self.new ≡ with_home (programmed_acts setup.now.lines) self.old line.now) }
    {
        match line {
            SetupLine::Act { act, tile } => self.declare(*act, *tile, is_programmed(setup, *act)),
            SetupLine::Quantum(quantum) => {
                self.quantum = *quantum;
                Ok(())
            }
            _ => Ok(()),
        }
    }

    /// The tables of a setup.
    pub fn new(alloc: Global, setup: &Setup) -> Result<Tables, AllocError>
        ensures { IfOk result (λ s. s ≡ opened_site setup.now) }
    {
        let mut tables = Tables::start(alloc, setup.memory())?;
        for line in setup.lines() {
            tables.read(setup, line)?;
        }
        Ok(tables)
    }

    /// The activities, as declared.
    pub fn homes(&self) -> &[Home]
        ensures { map value_of result.now ≡ self.now.homes }
    {
        self.homes.as_slice()
    }

    /// The home tile of this activity, or none where the setup doesn't declare it.
    #[inline(always)]
    pub fn home(&self, act: ActId) -> Option<TileId>
        ensures { result ≡ home_tile (home_of act self.now) }
    {
        self.tiles[usize::from(act.number())]
    }

    /// The home tile of the issuer of a flight; tile 0 where the setup doesn't declare it, as for the kernel.
    #[inline(always)]
    pub fn tile_of(&self, issuer: u8) -> TileId
        ensures { result ≡ tile_of self.now issuer }
    {
        match self.tiles.get(usize::from(issuer)) {
            Some(Some(tile)) => *tile,
            _ => TileId::new(0),
        }
    }

    /// How many Do moves a stay of a program makes on a tile that it shares, before it yields.
    #[inline(always)]
    pub fn quantum(&self) -> u8
        ensures { result ≡ self.now.quantum }
    {
        self.quantum
    }

    /// Whether more than one activity has its home at the tile.
    #[inline(always)]
    pub fn is_shared(&self, tile: TileId) -> bool
        ensures { result ≡ is_shared tile self.now.homes }
    {
        self.crowds[usize::from(tile.number())] == 2
    }

    /// Whether the activity of this number has a program.
    #[inline(always)]
    pub fn has_program(&self, act: u8) -> bool
        ensures { result ≡ has_program self.now act }
    {
        match self.programs.get(usize::from(act)) {
            Some(has_program) => *has_program,
            None => false,
        }
    }

    /// Whether the setup declares the activity of this number.
    #[inline(always)]
    pub fn declares(&self, act: u8) -> bool
        ensures { result ≡ is_home self.now act }
    {
        match self.tiles.get(usize::from(act)) {
            Some(tile) => tile.is_some(),
            None => false,
        }
    }
}

//! What the lines of a setup say so far, so that the next one is judged without looking back.

ghost use Rattle.std.specs.Prelude.{◌≡◌, ℕ, ◌+◌, ◌*◌, ◌<◌, ◌≤◌, true, false, Some, None, ◌||◌, nat_lt, ◌++◌, ◌∷◌, [], length, slice_set, IfOk, OnOk, OnErr};
ghost use Rattle.std.specs.List.{list_any};
ghost use Rattle.m3_base.specs.Limits.{is_within};
ghost use Rattle.m3_base.specs.Setup.Rules.{no_lines, program_in, chunks, facts_with_line, breaks_rule, is_undeclared, is_taken, is_pipe, is_fuel, is_machine, InRange, forbids_writer, facts_with_program, grant_added, home_at};
ghost use Rattle.m3_base.specs.Ideal.GrantRules.{make_refusal, fresh_of};
ghost use Rattle.m3_base.specs.Ideal.State.{holder, holder_ep, grant_in};

use super::grants::SetupGrants;
use crate::ids::{ActId, GrantId, TileId};
use crate::limits::{
    MOST_ACTIVITIES, MOST_CHUNK, MOST_FUEL, MOST_QUANTUM, MOST_RING, MOST_WEIGHT, MOST_WRITER_BYTES,
};
use crate::order::GrantLine;
use crate::packet::Fresh;
use crate::setup_line::{ProgramKind, SetupLine};
use std::alloc::{AllocError, Global};
use std::marker::Model;

/// Homes, programs and grants of the lines so far.
#[derive(Debug, Drop)]
pub struct SetupFacts {
    tiles: u8,
    memory: u32,
    // for each activity
    homes: Vec<Option<TileId>>,
    programs: Vec<ProgramKind>,
    grants: SetupGrants,
    boxes: Vec<u32>,
    weight: u32,
    has_quantum: bool,
    has_files: bool,
}

impl Model for SetupFacts {
    ghost use Rattle.m3_base.specs.Setup.Rules.{Facts};

    ghost Value = { Facts };

    ghost use Rattle.m3_base.specs.Setup.View.{facts_in, IsFacts};

    ghost view = { facts_in };

    ghost invariant = { IsFacts };
}

// The chunks that a writer cuts its bytes into, and what its program weighs.
fn writer_weight(chunk: u16, bytes: usize) -> u32
    requires some { 0 < chunk }
    requires limit { bytes ≤ 65536 }
    ensures { result ≡ 5 * (chunks chunk bytes + 1) }
{
    let chunk = chunk as usize;
    let chunks = (bytes + (chunk - 1)) / chunk;
    5 * (chunks as u32 + 1)
}

fn is_within(least: u16, most: u16, n: u16) -> bool
    ensures { result ≡ is_within least most n }
{
    least <= n && n <= most
}

fn is_pipe(chunk: u16, ring: u8) -> bool
    ensures { result ≡ is_pipe chunk ring }
{
    is_within(1, MOST_CHUNK, chunk) && is_within(1, MOST_RING, ring as u16)
}

fn is_taken(before: ProgramKind, kind: ProgramKind) -> bool
    ensures { result ≡ is_taken before kind }
{
    match before {
        ProgramKind::Absent => false,
        ProgramKind::Listed => !matches!(kind, ProgramKind::Listed),
        ProgramKind::Single => true,
    }
}

impl SetupFacts {
    /// Of no lines.
    pub fn new(alloc: Global, tiles: u8, memory: u32) -> Result<SetupFacts, AllocError>
        requires { is_machine tiles memory ≡ true }
        ensures { IfOk result (λ f. f ≡ no_lines tiles memory) }
    {
        let mut homes = Vec::new(alloc);
        homes.resize(MOST_ACTIVITIES, None)?;
        let mut programs = Vec::new(alloc);
        programs.resize(MOST_ACTIVITIES, ProgramKind::Absent)?;
        let grants = SetupGrants::new(alloc)?;
        Ok(SetupFacts {
            tiles,
            memory,
            homes,
            programs,
            grants,
            boxes: Vec::new(alloc),
            weight: 0,
            has_quantum: false,
            has_files: false,
        })
    }

    pub fn tiles(&self) -> u8
        ensures { result ≡ self.now.tiles }
    {
        self.tiles
    }

    pub fn memory(&self) -> u32
        ensures { result ≡ self.now.memory }
    {
        self.memory
    }

    pub fn has_files(&self) -> bool
        ensures { result ≡ self.now.has_files }
    {
        self.has_files
    }

    /// The record that the grant of this number begins with.
    pub fn fresh(&self, g: GrantId) -> Option<Fresh>
        ensures { result ≡ fresh_of (grant_in self.now.grants g) }
    {
        self.grants.fresh(g)
    }

    /// The home tile of an activity, where it is declared.
    pub fn home(&self, act: ActId) -> Option<TileId>
        ensures { result ≡ home_at self.now.homes act }
    {
        self.homes[act.number() as usize]
    }

    /// The kind of an activity's program.
    pub fn program(&self, act: ActId) -> ProgramKind
        ensures { result ≡ program_in self.now.programs act }
    {
        self.programs[act.number() as usize]
    }

    // Whether the activity may have no such program, or none of this weight.
    fn forbids_program(&self, act: ActId, kind: ProgramKind, weight: u32) -> bool
        ensures { result ≡ (is_undeclared act self.now ||
            (is_taken (program_in self.now.programs act) kind ||
            nat_lt 16384 (self.now.weight + weight))) }
    {
        self.home(act).is_none()
            || is_taken(self.program(act), kind)
            || MOST_WEIGHT < self.weight as u64 + weight as u64
    }

    /// Whether a line is refused after these.
    pub fn refuses(&self, line: &SetupLine) -> bool
        ensures { result ≡ breaks_rule line.now self.now }
    {
        match line {
            SetupLine::Act { act, tile } => {
                let tile = tile.number();
                self.home(*act).is_some() || !(2 <= tile && tile < self.tiles)
            }
            SetupLine::Quantum(q) => self.has_quantum || !is_within(1, MOST_QUANTUM, *q as u16),
            SetupLine::Grant(line) => {
                self.home(line.act()).is_none()
                    || !line.is_in_limits()
                    || self.grants.refuses(self.memory, line)
            }
            SetupLine::Files(g) => self.has_files || !self.grants.may_hold_files(*g),
            SetupLine::Item(act, command) => {
                !command.is_short() || self.forbids_program(*act, ProgramKind::Listed, 1)
            }
            SetupLine::AwaitItem(act, _) => self.forbids_program(*act, ProgramKind::Listed, 1),
            SetupLine::Writer {
                act,
                chunk,
                ring,
                bytes,
                ..
            } => self.forbids_writer(*act, *chunk, *ring, bytes.len()),
            SetupLine::Reader {
                act,
                chunk,
                ring,
                fuel,
                ..
            } => {
                !(is_pipe(*chunk, *ring) && is_within(1, MOST_FUEL, *fuel))
                    || self.forbids_program(*act, ProgramKind::Single, *fuel as u32)
            }
            SetupLine::Boxed { act, logic, fuel } => {
                !is_within(1, MOST_FUEL, *fuel)
                    || self.boxes.contains(logic)
                    || self.forbids_program(*act, ProgramKind::Single, *fuel as u32)
            }
        }
    }

    fn forbids_writer(&self, act: ActId, chunk: u16, ring: u8, bytes: usize) -> bool
        ensures { result ≡ forbids_writer act chunk ring bytes self.now }
    {
        if !is_pipe(chunk, ring) || MOST_WRITER_BYTES < bytes {
            return true;
        }
        self.forbids_program(act, ProgramKind::Single, writer_weight(chunk, bytes))
    }

    fn declare(&mut self, act: ActId, tile: TileId)
        ensures facts { self.new ≡ record self.old { homes = slice_set self.old.homes act (Some tile) } }
        ensures range { act < 64 }
    {
        let at = act.number() as usize;
        self.homes[at] = Some(tile);
    }

    fn set_quantum(&mut self)
        ensures { self.new ≡ record self.old { has_quantum = true } }
    {
        self.has_quantum = true;
    }

    fn set_files(&mut self)
        ensures { self.new ≡ record self.old { has_files = true } }
    {
        self.has_files = true;
    }

    fn add_program(&mut self, act: ActId, kind: ProgramKind, weight: u32)
        requires { self.old.weight + weight ≤ 16384 }
        ensures facts { self.new ≡ facts_with_program act kind weight self.old }
        ensures range { act < 64 }
    {
        let at = act.number() as usize;
        self.programs[at] = kind;
        self.weight += weight;
    }

    fn add_box(&mut self, logic: u32) -> Result<(), AllocError>
        ensures added { OnOk result (self.new ≡ record self.old { boxes = self.old.boxes ++ logic ∷ [] }) }
        ensures kept { OnErr result (self.new ≡ self.old) }
    {
        self.boxes.reserve(1)?;
        self.boxes.push_reserved(logic);
        Ok(())
    }

    fn add_grant(&mut self, line: GrantLine) -> Result<(), AllocError>
        requires { make_refusal self.old.memory self.old.grants line ≡ None }
        ensures added { OnOk result (self.new ≡ record self.old { grants = grant_added line self.old.grants }) }
        ensures kept { OnErr result (self.new ≡ self.old) }
        ensures range { (holder line < 64) × (holder_ep line < 16) }
    {
        let act = line.act();
        let ep = line.ep();
        act.number();
        ep.number();
        self.grants.add(self.memory, line)
    }

    /// Adds what this line says, which isn't refused. Where no memory is left, nothing has changed.
    pub fn add_line(&mut self, line: &SetupLine) -> Result<(), AllocError>
        requires { breaks_rule line.now self.old ≡ false }
        ensures noted { OnOk result (self.new ≡ facts_with_line line.now self.old) }
        ensures kept { OnErr result (self.new ≡ self.old) }
        ensures range { OnOk result (InRange line.now) }
    {
        match line {
            SetupLine::Act { act, tile } => self.declare(*act, *tile),
            SetupLine::Quantum(_) => self.set_quantum(),
            SetupLine::Grant(line) => self.add_grant(*line)?,
            SetupLine::Files(_) => self.set_files(),
            SetupLine::Item(act, _) => self.add_program(*act, ProgramKind::Listed, 1),
            SetupLine::AwaitItem(act, _) => self.add_program(*act, ProgramKind::Listed, 1),
            SetupLine::Writer {
                act,
                chunk,
                bytes,
                ..
            } => {
                let weight = writer_weight(*chunk, bytes.len());
                self.add_program(*act, ProgramKind::Single, weight)
            }
            SetupLine::Reader { act, fuel, .. } => {
                self.add_program(*act, ProgramKind::Single, *fuel as u32)
            }
            SetupLine::Boxed { act, logic, fuel } => {
                self.add_box(*logic)?;
                self.add_program(*act, ProgramKind::Single, *fuel as u32)
            }
        }
        Ok(())
    }
}

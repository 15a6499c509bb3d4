//! Setups: the tiles and memory of a machine, its activities, and what they begin with.

mod facts;
mod grants;
mod refusal;

ghost use Rattle.std.specs.Prelude.{◌≡◌, ℕ, List, [], ◌∷◌, ◌++◌, true, false, None, Some, IfOk, OnOk, OnErr, Err, ◌↔◌, is_some};
ghost use Rattle.m3_base.specs.Setup.Rules.{SetupValue, IsValid, facts_of, is_machine, breaks_rule, program_in, home_at};
ghost use Rattle.m3_base.specs.Ideal.GrantRules.{fresh_of};
ghost use Rattle.m3_base.specs.Ideal.State.{grant_in};

use crate::ids::{ActId, GrantId, TileId};
use crate::limits::{LEAST_TILES, MOST_MEMORY, MOST_TILES};
use crate::packet::Fresh;
use crate::setup_line::{ProgramKind, SetupLine};
use facts::SetupFacts;
pub use refusal::SetupRefusal;
use std::alloc::{AllocError, Global};
use std::marker::Model;

/// The first line of a setup and the lines that were added, in order. Each keeps the rules of setups.
#[derive(Debug, Drop)]
pub struct Setup {
    facts: SetupFacts,
    lines: Vec<SetupLine>,
}

impl Model for Setup {
    ghost use Rattle.m3_base.specs.Setup.Rules.{SetupValue};

    ghost Value = { SetupValue };

    ghost use Rattle.m3_base.specs.Setup.View.{setup_in, IsSetup};

    ghost view = { setup_in };

    ghost invariant = { IsSetup };
}

impl Setup {
    /// A machine of 3 to 16 tiles with 1 to 1,048,576 bytes of memory, and no further line. `Rule` comes exactly where
    /// a number is outside its limit.
    pub fn new(alloc: Global, tiles: u8, memory: u32) -> Result<Setup, SetupRefusal>
        ensures ok { IfOk result (λ s. s ≡ record { tiles = tiles; memory = memory; lines = [] }) }
        ensures rule { result ≡ Err SetupRefusal.Rule ↔ is_machine tiles memory ≡ false }
    {
        if !(LEAST_TILES <= tiles
            && tiles <= MOST_TILES
            && (1 <= memory && memory <= MOST_MEMORY))
        {
            return Err(SetupRefusal::Rule);
        }
        match SetupFacts::new(alloc, tiles, memory) {
            Ok(facts) => Ok(Setup {
                facts,
                lines: Vec::new(alloc),
            }),
            Err(_) => Err(SetupRefusal::NoMemory),
        }
    }

    /// Adds a line. `Rule` comes exactly where a rule refuses it after the lines before. After a refusal nothing has
    /// changed.
    pub fn add(&mut self, line: SetupLine) -> Result<(), SetupRefusal>
        ensures ok { OnOk result (self.new ≡ record self.old { lines = self.old.lines ++ line ∷ [] }) }
        ensures kept { OnErr result (self.new ≡ self.old) }
        ensures rule { result ≡ Err SetupRefusal.Rule ↔ breaks_rule line (facts_of self.old) ≡ true }
    {
        if self.facts.refuses(&line) {
            return Err(SetupRefusal::Rule);
        }
        match self.append(line) {
            Ok(()) => Ok(()),
            Err(_) => Err(SetupRefusal::NoMemory),
        }
    }

    // Adds a line that isn't refused.
    fn append(&mut self, line: SetupLine) -> Result<(), AllocError>
        requires { breaks_rule line (facts_of self.old) ≡ false }
        ensures ok { OnOk result (self.new ≡ record self.old { lines = self.old.lines ++ line ∷ [] }) }
        ensures kept { OnErr result (self.new ≡ self.old) }
    {
        self.lines.reserve(1)?;
        self.facts.add_line(&line)?;
        self.lines.push_reserved(line);
        Ok(())
    }

    /// How many tiles there are, 3 to 16.
    pub fn tiles(&self) -> u8
        ensures { result ≡ self.now.tiles }
    {
        self.facts.tiles()
    }

    /// How many bytes of memory there are, 1 to 1,048,576.
    pub fn memory(&self) -> u32
        ensures { result ≡ self.now.memory }
    {
        self.facts.memory()
    }

    /// The lines after the first, in the order in which they were added. They keep all rules.
    pub fn lines(&self) -> &[SetupLine]
        ensures lines { result.now ≡ self.now.lines }
        ensures valid { IsValid self.now }
    {
        self.lines.as_slice()
    }

    /// The home tile of an activity; None where it isn't declared.
    pub fn home(&self, act: ActId) -> Option<TileId>
        ensures { result ≡ home_at (facts_of self.now).homes act }
    {
        self.facts.home(act)
    }

    /// The kind of an activity's program.
    pub fn program(&self, act: ActId) -> ProgramKind
        ensures { result ≡ program_in (facts_of self.now).programs act }
    {
        self.facts.program(act)
    }

    /// The record that the grant of this number begins with; None where the lines have fewer grants.
    pub fn fresh(&self, g: GrantId) -> Option<Fresh>
        ensures { result ≡ fresh_of (grant_in (facts_of self.now).grants g) }
    {
        self.facts.fresh(g)
    }

    /// Whether a line gives the files their grant.
    pub fn has_files(&self) -> bool
        ensures { result ≡ (facts_of self.now).has_files }
    {
        self.facts.has_files()
    }
}

//! The setup of a load.

ghost use Rattle.std.specs.Prelude.{◌≡◌, true, false, ◌++◌, ◌∷◌, [], IfOk, OnOk};
ghost use Rattle.m3_base.specs.Limits.{Within};
ghost use Rattle.m3_base.specs.Load.Setup.{load_setup};
ghost use Rattle.m3_base.specs.Setup.Rules.{AllKept, breaks_rule, facts_of, is_machine};

use crate::lines::load_lines;
use m3_base::setup::{Setup, SetupRefusal};
use m3_base::setup_line::SetupLine;
use std::alloc::{AllocError, Global};

/// A machine of so many tiles and so many bytes of memory.
fn empty_setup(alloc: Global, tiles: u8, memory: u32) -> Result<Setup, AllocError>
    requires { is_machine tiles memory ≡ true }
    ensures { IfOk result (λ s. s ≡ record { tiles = tiles; memory = memory; lines = [] }) }
{
    match Setup::new(alloc, tiles, memory) {
        Ok(setup) => Ok(setup),
        Err(SetupRefusal::NoMemory) => Err(AllocError),
        Err(SetupRefusal::Rule) => unreachable!(),
    }
}

/// Adds a line that no rule refuses.
fn add_line(setup: &mut Setup, line: SetupLine) -> Result<(), AllocError>
    requires { breaks_rule line (facts_of setup.old) ≡ false }
    ensures { OnOk result (setup.new ≡ record setup.old { lines = setup.old.lines ++ line ∷ [] }) }
{
    match setup.add(line) {
        Ok(()) => Ok(()),
        Err(SetupRefusal::NoMemory) => Err(AllocError),
        Err(SetupRefusal::Rule) => unreachable!(),
    }
}

/// Adds lines that no rule refuses, one after the other.
fn add_lines(setup: &mut Setup, lines: Vec<SetupLine>) -> Result<(), AllocError>
    requires { AllKept lines.items (facts_of setup.old) }
    ensures { OnOk result (setup.new ≡ record setup.old { lines = setup.old.lines ++ lines.items }) }
{
    for line in lines {
        add_line(setup, line)?;
    }
    Ok(())
}

/// The setup of the load of so many rounds, 1 to 500.
pub fn load_setup(alloc: Global, rounds: u16) -> Result<Setup, AllocError>
    requires { Within 1 500 rounds }
    ensures { IfOk result (λ s. s ≡ load_setup rounds) }
{
    let mut setup = empty_setup(alloc, 6, 65_536)?;
    add_lines(&mut setup, load_lines(alloc, rounds)?)?;
    Ok(setup)
}

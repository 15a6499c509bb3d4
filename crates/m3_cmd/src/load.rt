//! The load is run by the driver, and its summary is the answer.

ghost use Rattle.std.specs.Prelude.{IfOk};
ghost use Rattle.m3_base.specs.Limits.{Within};
ghost use Rattle.m3_cmd.specs.DriverContract.{IsLoadAnswer, IsLoadTextOf};

use crate::auto::{drive, status_of};
use crate::machines::summary_text;
use crate::output::Output;
use m3_load::load_setup;
use m3_machine::refusal::StepRefusal;
use std::alloc::{AllocError, Global};

/// The summary of the journal that the driver makes of the load of so many rounds, and whether it has nothing more to do.
fn load_to_text(alloc: Global, rounds: u16) -> Result<(Vec<u8>, bool), StepRefusal>
    requires { Within 1 500 rounds }
    ensures { IfOk result (λ x. IsLoadTextOf rounds x.1 x.0.items) }
{
    let setup = load_setup(alloc, rounds)?;
    let (machine, quiet) = drive(alloc, setup, Vec::new(alloc))?;
    Ok((summary_text(alloc, rounds, &machine)?, quiet))
}

/// The summary of the load of so many rounds, 1 to 500.
pub fn run_load(alloc: Global, rounds: u16) -> Result<Output, AllocError>
    requires { Within 1 500 rounds }
    ensures { IfOk result (λ o. IsLoadAnswer rounds o.status o.text.items) }
{
    match load_to_text(alloc, rounds) {
        Err(_) => Err(AllocError),
        Ok((text, quiet)) => Ok(Output {
            status: status_of(quiet),
            text,
        }),
    }
}

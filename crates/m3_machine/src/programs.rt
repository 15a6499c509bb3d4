//! The programs of a machine, by the numbers of their activities.

ghost use Rattle.std.specs.Prelude.{◌≡◌, None, replicate, IfOk};
ghost use Rattle.m3_machine.specs.ProgramTable.{program_table};

use m3_base::ids::ActId;
use std::alloc::{AllocError, Global};

/// A place for each number, with no program.
fn no_programs<P: Drop>(alloc: Global) -> Result<Vec<Option<P>>, AllocError>
    ensures { IfOk result (λ v. v.items ≡ replicate 64 None) }
{
    let mut table = Vec::new(alloc);
    for _ in 0..64u8 {
        table.push(None)?;
    }
    Ok(table)
}

/// The programs by the numbers of their activities; of two programs for one activity the later one.
pub fn program_table<P: Drop>(
    alloc: Global,
    programs: Vec<(ActId, P)>,
) -> Result<Vec<Option<P>>, AllocError>
    ensures { IfOk result (λ v. v.items ≡ program_table programs.items) }
{
    let mut table = no_programs(alloc)?;
    for (act, program) in programs {
        table[usize::from(act.number())] = Some(program);
    }
    Ok(table)
}

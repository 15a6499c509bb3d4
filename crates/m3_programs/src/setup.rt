//! The list programs of a setup.

ghost use Rattle.std.specs.Prelude.{◌≡◌, ◌<◌, ◌++◌, ◌∷◌, [], IfOk, List, OnOk, length, map, true, replicate};
ghost use Rattle.std.specs.List.{All};
ghost use Rattle.m3_base.specs.Programs.{is_short_move};
ghost use Rattle.m3_base.specs.Setup.Rules.{IsValid};
ghost use Rattle.m3_base.specs.declared.setup_line.SetupLine.{SetupLine};
ghost use Rattle.m3_programs.specs.SetupPrograms.{IsTableOf, IsShortLine, kept_program, list_of, setup_programs, with_item};

use crate::list::ListProgram;
use m3_base::ids::ActId;
use m3_base::program::Move;
use m3_base::setup::Setup;
use m3_base::setup_line::SetupLine;
use std::alloc::{AllocError, Global};

/// A program of no items for each activity.
fn empty_table(alloc: Global) -> Result<Vec<ListProgram>, AllocError>
    ensures { IfOk result (λ v. v.items ≡ replicate 64 (list_of [])) }
{
    let mut table = Vec::new(alloc);
    for _ in 0..64u8 {
        table.push(ListProgram::new(alloc))?;
    }
    Ok(table)
}

/// Adds an item to an activity's program.
fn push_item(table: &mut Vec<ListProgram>, act: ActId, item: Move) -> Result<(), AllocError>
    requires count { length table.old.items ≡ 64 }
    requires short { is_short_move item ≡ true }
    ensures added { OnOk result (table.new.items ≡ with_item act item table.old.items) }
    ensures range { act < 64 }
{
    let program = &mut table[act.number() as usize];
    program.push(item)
}

/// Adds the item that a line has, if it has one.
fn add_line(alloc: Global, table: &mut Vec<ListProgram>, line: &SetupLine) -> Result<(), AllocError>
    requires count { length table.old.items ≡ 64 }
    requires short { IsShortLine line.now }
    ensures { (lines : List SetupLine) → IsTableOf table.old.items lines →
        OnOk result (IsTableOf table.new.items (lines ++ line.now ∷ [])) }
{
    match line {
        SetupLine::Item(act, command) => {
            let command = command.copy(alloc)?;
            push_item(table, *act, Move::Do(command))
        }
        SetupLine::AwaitItem(act, ep) => push_item(table, *act, Move::Await(*ep)),
        _ => Ok(()),
    }
}

/// The program of each activity, which has the items of these lines.
fn table_of(alloc: Global, lines: &[SetupLine]) -> Result<Vec<ListProgram>, AllocError>
    requires { All IsShortLine lines.now }
    ensures { IfOk result (λ v. IsTableOf v.items lines.now) }
{
    let mut table = empty_table(alloc)?;
    for line in lines {
        add_line(alloc, &mut table, line)?;
    }
    Ok(table)
}

/// Adds an activity's program to the others, where it has items.
fn push_program(
    programs: &mut Vec<(ActId, ListProgram)>,
    act: u8,
    program: ListProgram,
) -> Result<(), AllocError>
    requires { act < 64 }
    ensures { OnOk result (map (λ p. (p.0, p.1)) programs.new.items ≡
        map (λ p. (p.0, p.1)) programs.old.items ++ kept_program act program) }
{
    if program.is_empty() {
        return Ok(());
    }
    programs.push((ActId::new(act), program))?;
    Ok(())
}

/// The list programs of a setup's lines, one for each activity that has items, by the activities' numbers.
pub fn programs_of(alloc: Global, setup: &Setup) -> Result<Vec<(ActId, ListProgram)>, AllocError>
    ensures programs { IfOk result (λ v. map (λ p. (p.0, p.1)) v.items ≡ setup_programs setup.now.lines) }
    ensures valid { IsValid setup.now }
{
    let table = table_of(alloc, setup.lines())?;
    let mut programs = Vec::new(alloc);
    let mut act: u8 = 0;
    for program in table {
        push_program(&mut programs, act, program)?;
        act += 1;
    }
    Ok(programs)
}

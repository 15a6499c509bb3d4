//! The programs of a script: lists of items, as the lines of its setup name them.
#![tactic(auto)]

ghost use Rattle.m3_programs.specs.ListsMove.{ListsMove};

mod list;
mod setup;

pub use list::ListProgram;
pub use setup::programs_of;

/// A list program has a move whenever it is asked: its next item, or its end.
pub fn lists_move()
    ensures { ListsMove }
{}

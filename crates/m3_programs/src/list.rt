//! A program that is a list of commands and awaits.

ghost use Rattle.std.specs.Prelude.{◌≡◌, true, ◌++◌, ◌∷◌, [], ◌==◌, length, IfOk, OnOk, OnErr};
ghost use Rattle.m3_base.specs.Programs.{is_short_move};
ghost use Rattle.m3_programs.specs.ListProgramView.{ListState};

use m3_base::program::{Move, Program, Seen};
use std::alloc::{AllocError, Global};
use std::marker::Model;

/// Commands and awaits, which are its moves in this order, whatever it sees; then it has ended.
#[derive(Debug, Drop)]
pub struct ListProgram {
    items: Vec<Move>,
    // how many of them were made
    made: usize,
}

impl Model for ListProgram {
    ghost use Rattle.m3_programs.specs.ListProgramView.{ListState};

    ghost Value = { ListState };

    ghost use Rattle.m3_programs.specs.ListProgramView.{list_state, IsListState};

    ghost view = { list_state };

    ghost invariant = { IsListState };
}

/// The same move anew.
fn copy_move(alloc: Global, item: &Move) -> Result<Move, AllocError>
    ensures { IfOk result (λ m. m ≡ item.now) }
{
    match item {
        Move::Do(command) => {
            let command = command.copy(alloc)?;
            Ok(Move::Do(command))
        }
        Move::Await(ep) => Ok(Move::Await(*ep)),
        Move::Ended => Ok(Move::Ended),
    }
}

impl ListProgram {
    /// A program of no items.
    pub fn new(alloc: Global) -> ListProgram
        ensures { result ≡ record { items = []; made = 0 } }
    {
        ListProgram {
            items: Vec::new(alloc),
            made: 0,
        }
    }

    /// Adds an item behind the others. A payload has at most 8,192 bytes. Out of memory, nothing has changed.
    pub fn push(&mut self, item: Move) -> Result<(), AllocError>
        requires { is_short_move item ≡ true }
        ensures added { OnOk result (self.new ≡ record self.old { items = self.old.items ++ item ∷ [] }) }
        ensures kept { OnErr result (self.new ≡ self.old) }
    {
        self.items.reserve(1)?;
        self.items.push_reserved(item);
        Ok(())
    }

    /// Whether it has no items.
    pub fn is_empty(&self) -> bool
        ensures { result ≡ (length self.now.items == 0) }
    {
        self.items.is_empty()
    }
}

impl Program for ListProgram {
    ghost use Rattle.m3_programs.specs.ItemMoves.{meaning_of, ItemMoves};

    ghost meaning = { meaning_of };

    ghost moves = { λ p. ItemMoves p.items };

    fn next(&mut self, alloc: Global, seen: &Seen) -> Result<Move, AllocError> {
        if self.items.len() <= self.made {
            return Ok(Move::Ended);
        }
        let item = copy_move(alloc, &self.items[self.made])?;
        self.made += 1;
        Ok(item)
    }
}

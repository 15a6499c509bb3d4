//! Programs: what moves an activity.

use crate::command::{Command, Reply};
use crate::ids::{EpId, TileId};
use std::alloc::{AllocError, Global};

/// What a program has seen when it is asked for its next move.
#[derive(Debug, Drop)]
pub enum Seen {
    /// It is its first move.
    First,
    /// The reply to the command of its last move.
    Answer(Reply),
    /// The endpoint that it awaited has an unread message.
    Awake,
}

/// The next move of a program.
#[derive(Debug, Drop)]
pub enum Move {
    Do(Command),
    Await(EpId),
    Ended,
}

/// The program of an activity.
pub trait Program {
    ghost use Rattle.std.specs.Prelude.{◌≡◌, ℕ, List, true, IfOk, OnErr, ◌↔◌};
    ghost use Rattle.m3_base.specs.declared.program.Seen.{Seen};
    ghost use Rattle.m3_base.specs.declared.program.Move.{Move};
    ghost use Rattle.m3_base.specs.Programs.{is_short_move};

    /// Where it stands, as a list of numbers.
    ghost meaning: { Self → List ℕ };

    /// Which moves lead from one meaning to another.
    ghost moves: { Self → List ℕ → Seen → Move → List ℕ → Type 0 };

    /// Its next move. Out of memory, it leaves the meaning as it was. The payload of a move has at most 8,192 bytes.
    fn next(&mut self, alloc: Global, seen: &Seen) -> Result<Move, AllocError>
        ensures moves { IfOk result (λ m. moves self.old (meaning self.old) seen.now m (meaning self.new)) }
        ensures kept { OnErr result (meaning self.new ≡ meaning self.old) }
        ensures short { IfOk result (λ m. is_short_move m ≡ true) }
        ensures same { (a : List ℕ) (s : Seen) (m : Move) (b : List ℕ) → moves self.new a s m b ↔ moves self.old a s m b };
}

/// A program that is handed in, in a box.
pub trait Logic: Send + Drop {
    ghost use Rattle.std.specs.Prelude.{◌≡◌, ℕ, List, true, IfOk, OnErr, ◌↔◌};
    ghost use Rattle.m3_base.specs.declared.program.Seen.{Seen};
    ghost use Rattle.m3_base.specs.declared.program.Move.{Move};
    ghost use Rattle.m3_base.specs.Programs.{is_short_move};

    /// Where it stands, as a list of numbers.
    ghost meaning: { Self → List ℕ };

    /// Which moves lead from one meaning to another.
    ghost moves: { Self → List ℕ → Seen → Move → List ℕ → Type 0 };

    /// Its next move. Out of memory, it leaves the meaning as it was. The payload of a move has at most 8,192 bytes.
    fn next(&mut self, alloc: Global, seen: &Seen) -> Result<Move, AllocError>
        ensures moves { IfOk result (λ m. moves self.old (meaning self.old) seen.now m (meaning self.new)) }
        ensures kept { OnErr result (meaning self.new ≡ meaning self.old) }
        ensures short { IfOk result (λ m. is_short_move m ≡ true) }
        ensures same { (a : List ℕ) (s : Seen) (m : Move) (b : List ℕ) → moves self.new a s m b ↔ moves self.old a s m b };
}

/// What the part of a tile passes before each of its turns.
pub trait Gate {
    fn pass(&self, tile: TileId, turn: u32);
}

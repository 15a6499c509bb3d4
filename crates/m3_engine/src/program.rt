//! What a turn asks for, and what the program answers.

ghost use Rattle.std.specs.Prelude.{◌≡◌, ◌↔◌, ℕ, List, true, IfOk, OnErr};
ghost use Rattle.m3_base.specs.declared.program.Move.{Move};
ghost use Rattle.m3_base.specs.declared.program.Seen.{Seen};
ghost use Rattle.m3_base.specs.Programs.{is_short_move};
ghost use Rattle.m3_model.specs.Config.KnownActivities.{is_home};
ghost use Rattle.m3_model.specs.Invariant.Housing.{IsSetup};
ghost use Rattle.m3_engine.specs.PartsView.{HasParts, ask_in, parts_of};
ghost use Rattle.m3_engine.specs.ProgramTurn.{IsAsked, IsHeard, IsMove, made_of};

use crate::ask::Ask;
use crate::parts::Parts;
use m3_base::event::Made;
use m3_base::ids::ActId;
use m3_base::program::{Move, Program, Seen};
use std::alloc::{AllocError, Global};

/// A program's move, as an entry tells it.
fn made_of(program_move: Move) -> Made
    ensures { result ≡ made_of program_move }
{
    match program_move {
        Move::Do(command) => Made::Command(command),
        Move::Await(ep) => Made::Await(ep),
        Move::Ended => Made::End,
    }
}

/// The move of the program that sees this.
fn move_of<P: Program>(alloc: Global, seen: &Seen, program: &mut P) -> Result<Made, AllocError>
    ensures moved { IfOk result (λ made. IsMove (P.moves program.old) (P.meaning program.old)
        (P.meaning program.new) seen.now made) }
    ensures kept { OnErr result (P.meaning program.new ≡ P.meaning program.old) }
    ensures same { (a : List ℕ) (s : Seen) (m : Move) (b : List ℕ) →
        P.moves program.new a s m b ↔ P.moves program.old a s m b }
{
    let program_move = program.next(alloc, seen)?;
    Ok(made_of(program_move))
}

/// The move of an activity's turn, for which the program is asked where the turn needs it. None where the turn is idle.
/// Out of memory the program's meaning is as before.
pub fn move_in_turn<P: Program>(
    alloc: Global,
    parts: &Parts,
    act: ActId,
    program: &mut P,
) -> Result<Option<Made>, AllocError>
    requires parts { HasParts parts.now }
    requires setup { IsSetup parts.now.kernel.site }
    requires declared { is_home parts.now.kernel.site act ≡ true }
    requires heard { IsHeard (ask_in (parts_of parts.now) act) }
    ensures asked { IfOk result (λ made. IsAsked (P.moves program.old) (P.meaning program.old)
        (P.meaning program.new) (ask_in (parts_of parts.now) act) made) }
    ensures kept { OnErr result (P.meaning program.new ≡ P.meaning program.old) }
    ensures same { (a : List ℕ) (s : Seen) (m : Move) (b : List ℕ) →
        P.moves program.new a s m b ↔ P.moves program.old a s m b }
{
    match parts.ask(act) {
        Ask::Idle(_) => Ok(None),
        Ask::Quantum => Ok(Some(Made::Quantum)),
        Ask::Pending(ep) => Ok(Some(Made::Await(ep))),
        Ask::Program => match parts.seen(act) {
            None => unreachable!(),
            Some(seen) => {
                let made = move_of(alloc, seen, program)?;
                Ok(Some(made))
            }
        },
    }
}

//! List programs, and those of a setup.

use m3_base::command::{Command, Reply};
use m3_base::ids::EpId;
use m3_base::program::{Move, Program, Seen};
use m3_programs::{ListProgram, programs_of};
use m3_script::{Mode, parse};
use std::alloc::AllocError;

// Two programs, whose items stand among one another, and an activity without one.
const MIXED: &[u8] =
    b"machine tiles 4 memory 64\nact 5 tile 2\nact 3 tile 2\nact 0 tile 3\nprog 5 send 1 2a\nprog 3 await 7\nprog 5 fetch 2\nbegin\n";

/// The move as its kind and its endpoint.
fn kind(made: &Move) -> (char, u8) {
    match made {
        Move::Do(Command::Send { ep, .. }) => ('s', ep.number()),
        Move::Do(Command::Fetch { ep }) => ('f', ep.number()),
        Move::Await(ep) => ('w', ep.number()),
        Move::Ended => ('e', 0),
        _ => ('?', 0),
    }
}

#[test]
fn a_list_program_makes_its_items_and_ends(rt: HostRuntime) -> Result<(), AllocError> {
    let mut program = ListProgram::new(rt.alloc());
    assert!(rt; program.is_empty());
    program.push(Move::Await(EpId::new(3)))?;
    program.push(Move::Do(Command::Fetch { ep: EpId::new(4) }))?;
    assert!(rt; !program.is_empty());
    for (seen, made) in [
        (Seen::First, ('w', 3)),
        (Seen::Awake, ('f', 4)),
        (Seen::Answer(Reply::Nothing), ('e', 0)),
        (Seen::Awake, ('e', 0)),
    ] {
        assert_eq!(rt; kind(&program.next(rt.alloc(), &seen)?), made);
    }
    Ok(())
}

#[test]
fn each_activity_has_its_own_items(rt: HostRuntime) -> Result<(), AllocError> {
    let script = parse(rt.alloc(), MIXED, Mode::Auto, 0).map_err(|_| AllocError)?;
    let programs = programs_of(rt.alloc(), &script.setup)?;
    assert_eq!(rt; programs.len(), 2);
    let wanted = [(3, [('w', 7), ('e', 0)]), (5, [('s', 1), ('f', 2)])];
    for ((act, program), (number, moves)) in programs.into_iter().zip(wanted) {
        assert_eq!(rt; act.number(), number);
        let mut program = program;
        for made in moves {
            assert_eq!(rt; kind(&program.next(rt.alloc(), &Seen::First)?), made);
        }
    }
    Ok(())
}

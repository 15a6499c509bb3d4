//! What holds of a machine along whole runs: it stays sound, its journal is a run of the ideal machine, its programs hear
//! what the journal says, and the driver's next event is that of the state and the placement that it stands for. Theorems
//! over definitions; no code.
#![tactic(auto)]

ghost use Rattle.m3_trace.specs.Continuation.{EventsGoOn, DriversGoOn};
ghost use Rattle.m3_trace.specs.TraceFacts.{TracesAreRuns};
ghost use Rattle.m3_trace.specs.ProgramsHear.{ProgramsHear};
ghost use Rattle.m3_trace.specs.StepsRefine.{StepsRefine};

use m3_base::program::Program;

/// A local step of a part, with what it does to links, is a step of the ideal machine and of its placement. Whoever makes
/// local steps one after the other, in one thread or merged from many, has the ideal machine's run by it.
pub fn steps_refine()
    ensures { StepsRefine }
{}

/// The journal of a trace is a run of the ideal machine, with its placements, its replies and its laws.
pub fn traces_are_runs()
    ensures { TracesAreRuns }
{}

/// Each trace goes on, by whatever events fit its setup, or by the driver's until it ends, where its programs have a move
/// whenever they are asked. So what was written of a journal before memory ran out, or a write failed, is the beginning of
/// a whole one.
pub fn runs_go_on<P: Program>()
    ensures events { EventsGoOn P.moves P.meaning }
    ensures driver { DriversGoOn P.moves P.meaning }
{}

/// A program sees at each of its turns what the journal says, wherever its context was when that came: its replies and the
/// answers to its commands, in their order. It is called just where its turn asks it, and not after its end.
pub fn programs_hear()
    ensures { ProgramsHear }
{}

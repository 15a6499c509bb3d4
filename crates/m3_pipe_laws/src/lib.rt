//! The laws of pipes: a writer and a reader that pass bytes through memory, in any ideal run.
#![tactic(auto)]

ghost use Rattle.m3_pipe_laws.specs.Pipe.{PipesDeliver};
ghost use Rattle.m3_pipe_laws.specs.Exclusion.{ClearStatesKeepOut, GrantsKeepOut, NoWriteFlies};
ghost use Rattle.m3_pipe_laws.specs.Laws.{WriterWindow, WriterFits, ReaderOrder, ReaderFits, NoticesAreRead, RingsDeliver};

/// The writer writes and sends only while fewer than ring notices are without a reply.
pub fn writer_window()
    ensures { WriterWindow }
{}

/// The reader reads the next chunk and replies with the next number, whatever it saw.
pub fn reader_order()
    ensures { ReaderOrder }
{}

/// A notice is read back as its number and its size, where both are below 2 ^ 32.
pub fn notices_are_read()
    ensures { NoticesAreRead }
{}

/// What is read from the ring is a prefix of what was written, and that a prefix of the data.
pub fn rings_deliver()
    ensures { RingsDeliver }
{}

/// The writer's move is the one of its phase, after any answers.
pub fn writer_fits()
    ensures { WriterFits }
{}

/// The reader's move is the one of its phase.
pub fn reader_fits()
    ensures { ReaderFits }
{}

/// In every ideal run of every valid setup with a pipe, the bytes of the reader's reads are a prefix of those of the writer's writes, these are a prefix of the writer's data, and the reader's state has just the bytes of its reads.
pub fn pipes_deliver()
    ensures { PipesDeliver }
{}

/// No other activity writes into a ring where each other grant that may write and has bytes of it has no write that flies.
pub fn clear_states_keep_out()
    ensures { ClearStatesKeepOut }
{}

/// No activity but the one that holds a range grant writes into a ring, where each other grant of the run may not write, has no byte of it, or has no write that flies.
pub fn grants_keep_out()
    ensures { GrantsKeepOut }
{}

/// No write through a grant flies in a run where none is issued through a record of it.
pub fn no_write_flies()
    ensures { NoWriteFlies }
{}

//! Scripts, and why bytes are none.

use m3_base::event::Event;
use m3_base::setup::Setup;
use m3_text::refusal::Why;
use thiserror::Error;

/// What a script is read for, which decides the events that may stand in it.
#[derive(Clone, Copy, Debug, PartialEq, Eq, Drop)]
pub enum Mode {
    /// Each event is in the script.
    Run,
    /// The script has orders alone, and the driver makes the other events.
    Auto,
    /// As `Auto`, and the tiles run in threads.
    Tiles,
}

/// A machine's setup, and the events that it is to make in order.
#[derive(Debug, Drop)]
pub struct Script {
    pub setup: Setup,
    pub events: Vec<Event>,
}

#[derive(Debug, Drop, Error)]
pub enum ScriptRefusal {
    /// The first line that is refused, counted from 1, and the first cause for it. A script that ends before `begin` is
    /// refused at the line after its last.
    #[error("bad line {line}: {why}")]
    Bad { line: u32, why: Why },
    #[error("no memory is left")]
    NoMemory,
}

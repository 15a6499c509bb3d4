//! Bytes as a script.

ghost use Rattle.std.specs.Prelude.{◌≡◌, ◌≤◌, length, IfOk};
ghost use Rattle.m3_script.specs.Rules.{AllBuilt, AllInRanges, AllListed, AllNamed, AreOrders};
ghost use Rattle.m3_script.specs.ScriptText.{script_of, script_at_end};
ghost use Rattle.m3_script.specs.ParserView.{Parses, refusal, state};

use crate::reading::{ParseOptions, ParserState, read_first};
use crate::script::{Mode, Script, ScriptRefusal};
use m3_text::refusal::{LineRefusal, Why};
use std::alloc::Global;

/// The script that the bytes spell, or the first line that is refused. `boxes` logics are handed in.
pub fn parse(alloc: Global, bytes: &[u8], mode: Mode, boxes: u32) -> Result<Script, ScriptRefusal>
    requires limit { length bytes.now ≤ 67108864 }
    ensures exact { Parses result (script_of mode boxes bytes.now) }
    ensures named { IfOk result (λ s. AllNamed s.setup s.events.items) }
    ensures ranges { IfOk result (λ s. AllInRanges s.events.items) }
    ensures built { IfOk result (λ s. AllBuilt s.events.items) }
    ensures orders { IfOk result (λ s. AreOrders mode s.events.items) }
    ensures listed { IfOk result (λ s. AllListed s.setup.lines) }
{
    let options = ParseOptions { mode, boxes };
    let mut parser = ParserState::Empty;
    let mut words = Vec::new(alloc);
    let mut rest = bytes;
    let mut line: u32 = 1;
    while !rest.is_empty() {
        match read_first(alloc, options, &mut parser, rest, &mut words) {
            Ok(after) => rest = after,
            Err(error) => return Err(refusal(line, error)),
        }
        line += 1;
    }
    script_at_end(parser, line)
}

fn refusal(line: u32, error: LineRefusal) -> ScriptRefusal
    ensures { result ≡ refusal line error }
{
    match error {
        LineRefusal::Bad(why) => ScriptRefusal::Bad { line, why },
        LineRefusal::NoMemory => ScriptRefusal::NoMemory,
    }
}

fn script_at_end(parser: ParserState, line: u32) -> Result<Script, ScriptRefusal>
    ensures { Parses result (script_at_end line (state parser)) }
{
    match parser {
        ParserState::Running(setup, events) => Ok(Script { setup, events }),
        _ => Err(ScriptRefusal::Bad {
            line,
            why: Why::Place,
        }),
    }
}

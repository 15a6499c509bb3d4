//! A script while it is read.

ghost use Rattle.std.specs.Prelude.{◌≡◌, ℕ, ◌<◌, IfOk, IfSome, Ok, length};
ghost use Rattle.std.specs.Option.{MatchOption};
ghost use Rattle.m3_text.specs.Lines.{texts};
ghost use Rattle.m3_text.specs.Refusable.{Gives};
ghost use Rattle.m3_script.specs.ScriptText.{state_with_machine, state_with_line, Running, events_with, after_first_line, after_setup_line, after_event_line, after_words, words_of_line, after_line, is_skipped};
ghost use Rattle.m3_script.specs.QuickForms.{ReadsFirst};
ghost use Rattle.m3_script.specs.ParserView.{state, IsBefore, Leads};

use crate::line::{Line, read_form};
use crate::quick::cut_event;
use crate::rules::{is_allowed, lacks_logic, names_undeclared};
use crate::script::Mode;
use m3_base::event::Event;
use m3_base::setup::{Setup, SetupRefusal};
use m3_base::setup_line::SetupLine;
use m3_text::lines::{cut_line, cut_words, is_plain};
use m3_text::refusal::{LineRefusal, Why};
use std::alloc::Global;
use std::mem;

/// What the lines so far say.
#[derive(Debug, Drop)]
pub enum ParserState {
    /// The first line is still to come.
    Empty,
    InSetup(Setup),
    /// `begin` came, and these events since.
    Running(Setup, Vec<Event>),
}

/// What a script is read for, and how many logics are handed in.
#[derive(Clone, Copy, Debug, Drop)]
pub struct ParseOptions {
    pub mode: Mode,
    pub boxes: u32,
}

// The most words that a form has.
const MOST_WORDS: usize = 13;

/// Takes in the first line of a text, and answers what follows it. A line that is refused ends the reading, so that
/// nothing is said of `parser` then.
#[inline(always)]
pub fn read_first<'a>(
    alloc: Global,
    options: ParseOptions,
    parser: &mut ParserState,
    text: &'a [u8],
    words: &mut Vec<&'a [u8]>,
) -> Result<&'a [u8], LineRefusal>
    requires { 0 < length text.now }
    ensures reads { ReadsFirst options.mode options.boxes text.now (state parser.old) result (state parser.new) }
    ensures shorter { IfOk result (λ rest. length rest.now < length text.now) }
{
    match read_quickly(alloc, options.mode, parser, text) {
        Some(after) => Ok(after),
        None => {
            let (line, after) = cut_line(text);
            read_line(alloc, options, parser, line, words)?;
            Ok(after)
        }
    }
}

// Takes in the first line where it is an event that is read without its words. Else nothing has changed.
#[inline(always)]
fn read_quickly<'a>(
    alloc: Global,
    mode: Mode,
    parser: &mut ParserState,
    text: &'a [u8],
) -> Option<&'a [u8]>
    ensures reads { MatchOption result (state parser.new ≡ state parser.old) (λ rest. (boxes : ℕ) →
        ReadsFirst mode boxes text.now (state parser.old) (Ok rest) (state parser.new)) }
    ensures shorter { IfSome result (λ rest. length rest.now < length text.now) }
{
    match parser {
        ParserState::Running(setup, events) => read_quick_event(alloc, mode, setup, events, text),
        _ => None,
    }
}

#[tactic(auto, using(crate::proofs::QuickForms::event_shorter))]
#[inline(always)]
fn read_quick_event<'a>(
    alloc: Global,
    mode: Mode,
    setup: &Setup,
    events: &mut Vec<Event>,
    text: &'a [u8],
) -> Option<&'a [u8]>
    ensures reads { MatchOption result (events.new.items ≡ events.old.items) (λ rest. (boxes : ℕ) →
        ReadsFirst mode boxes text.now (Running setup.now events.old.items) (Ok rest)
        (Running setup.now events.new.items)) }
    ensures shorter { IfSome result (λ rest. length rest.now < length text.now) }
{
    let (event, after) = cut_event(alloc, text)?;
    let allowed = is_allowed(mode, events.as_slice(), &event);
    if !allowed {
        return None;
    }
    if names_undeclared(setup, &event) {
        return None;
    }
    match events.push(event) {
        Ok(()) => Some(after),
        Err(_) => None,
    }
}

/// Takes in one line more. A line that is refused ends the reading, so that nothing is said of `parser` then.
#[tactic(auto, using(crate::proofs::WordLimit::skipped_by_few, crate::proofs::WordLimit::taken_by_few), unfolding(crate::specs::ScriptText::after_line))]
#[inline(always)]
pub fn read_line<'a>(
    alloc: Global,
    options: ParseOptions,
    parser: &mut ParserState,
    line: &'a [u8],
    words: &mut Vec<&'a [u8]>,
) -> Result<(), LineRefusal>
    ensures { Leads result (state parser.new)
        (after_line options.mode options.boxes (state parser.old) line.now) }
{
    if !is_plain(line) {
        return Err(LineRefusal::Bad(Why::Form));
    }
    cut_words(line, MOST_WORDS + 1, words)?;
    if is_skipped(words) {
        return Ok(());
    }
    read_words(alloc, options, parser, words)
}

#[inline(always)]
fn is_skipped(words: &[&[u8]]) -> bool
    ensures { result ≡ is_skipped (texts words.now) }
{
    match words {
        [] => true,
        [[b'#', ..], ..] => true,
        _ => false,
    }
}

#[tactic(auto, unfolding(crate::specs::ScriptText::words_of_line))]
#[inline(always)]
fn read_words(
    alloc: Global,
    options: ParseOptions,
    parser: &mut ParserState,
    words: &[&[u8]],
) -> Result<(), LineRefusal>
    ensures { Leads result (state parser.new)
        (words_of_line options.mode options.boxes (state parser.old) (texts words.now)) }
{
    if MOST_WORDS < words.len() {
        return Err(LineRefusal::Bad(Why::Form));
    }
    let line = read_form(alloc, words)?;
    apply(alloc, options, parser, line)
}

#[tactic(auto, unfolding(crate::specs::ScriptText::after_words))]
#[inline(always)]
fn apply(
    alloc: Global,
    options: ParseOptions,
    parser: &mut ParserState,
    line: Line,
) -> Result<(), LineRefusal>
    ensures { Leads result (state parser.new)
        (after_words options.mode options.boxes (state parser.old) line) }
{
    match parser {
        ParserState::Running(setup, events) => apply_event_line(options.mode, setup, events, line),
        _ => apply_before_begin(alloc, options, parser, line),
    }
}

/// A line up to `begin`.
#[tactic(auto, unfolding(crate::specs::ScriptText::after_words))]
fn apply_before_begin(
    alloc: Global,
    options: ParseOptions,
    parser: &mut ParserState,
    line: Line,
) -> Result<(), LineRefusal>
    requires { IsBefore (state parser.old) }
    ensures { Leads result (state parser.new)
        (after_words options.mode options.boxes (state parser.old) line) }
{
    match mem::replace(parser, ParserState::Empty) {
        ParserState::Empty => {
            *parser = apply_first(alloc, line)?;
            Ok(())
        }
        ParserState::InSetup(setup) => {
            *parser = apply_setup_line(alloc, options.boxes, setup, line)?;
            Ok(())
        }
        ParserState::Running(..) => unreachable!(),
    }
}

fn apply_first(alloc: Global, line: Line) -> Result<ParserState, LineRefusal>
    ensures { Gives state result (after_first_line line) }
{
    match line {
        Line::Machine { tiles, memory } => Ok(ParserState::InSetup(new_setup(
            alloc, tiles, memory,
        )?)),
        _ => Err(LineRefusal::Bad(Why::Place)),
    }
}

fn apply_setup_line(
    alloc: Global,
    boxes: u32,
    setup: Setup,
    line: Line,
) -> Result<ParserState, LineRefusal>
    ensures { Gives state result (after_setup_line boxes setup line) }
{
    match line {
        Line::Setup(line) => Ok(ParserState::InSetup(add_setup_line(boxes, setup, line)?)),
        Line::Begin => Ok(ParserState::Running(setup, Vec::new(alloc))),
        _ => Err(LineRefusal::Bad(Why::Place)),
    }
}

#[inline(always)]
fn apply_event_line(
    mode: Mode,
    setup: &Setup,
    events: &mut Vec<Event>,
    line: Line,
) -> Result<(), LineRefusal>
    ensures { Leads result (Running setup.now events.new.items)
        (after_event_line mode setup.now events.old.items line) }
{
    match line {
        Line::Event(event) => append_event(mode, setup, events, event),
        _ => Err(LineRefusal::Bad(Why::Place)),
    }
}

fn new_setup(alloc: Global, tiles: u8, memory: u32) -> Result<Setup, LineRefusal>
    ensures { Gives (λ s. s) result (state_with_machine tiles memory) }
{
    match Setup::new(alloc, tiles, memory) {
        Ok(setup) => Ok(setup),
        Err(SetupRefusal::Rule) => Err(LineRefusal::Bad(Why::Rule)),
        Err(SetupRefusal::NoMemory) => Err(LineRefusal::NoMemory),
    }
}

fn add_setup_line(boxes: u32, setup: Setup, line: SetupLine) -> Result<Setup, LineRefusal>
    ensures { Gives (λ s. s) result (state_with_line boxes setup line) }
{
    if lacks_logic(boxes, &line) {
        return Err(LineRefusal::Bad(Why::Rule));
    }
    let mut setup = setup;
    match setup.add(line) {
        Ok(()) => Ok(setup),
        Err(SetupRefusal::Rule) => Err(LineRefusal::Bad(Why::Rule)),
        Err(SetupRefusal::NoMemory) => Err(LineRefusal::NoMemory),
    }
}

#[inline(always)]
fn append_event(
    mode: Mode,
    setup: &Setup,
    events: &mut Vec<Event>,
    event: Event,
) -> Result<(), LineRefusal>
    ensures { Leads result events.new.items (events_with mode setup.now events.old.items event) }
{
    if !is_allowed(mode, events.as_slice(), &event) {
        return Err(LineRefusal::Bad(Why::Place));
    }
    if names_undeclared(setup, &event) {
        return Err(LineRefusal::Bad(Why::Rule));
    }
    events.push(event)?;
    Ok(())
}

//! The rules of scripts, beside those that every setup keeps.

ghost use Rattle.std.specs.Prelude.{◌≡◌, nat_lt};
ghost use Rattle.m3_script.specs.Rules.{lacks_logic, has_program, is_absent, is_allowed, order_names_undeclared, file_names_undeclared, names_undeclared};

use crate::script::Mode;
use m3_base::event::Event;
use m3_base::ids::{ActId, TileId};
use m3_base::order::{FileLine, Order};
use m3_base::setup::Setup;
use m3_base::setup_line::{ProgramKind, SetupLine};

// The most orders that a script has whose other events the driver makes.
const MOST_ORDERS: usize = 4096;

/// Whether the line is a box for a logic that isn't among those handed in.
pub fn lacks_logic(boxes: u32, line: &SetupLine) -> bool
    ensures { result ≡ lacks_logic boxes line.now }
{
    match line {
        SetupLine::Boxed { logic, .. } => boxes <= *logic,
        _ => false,
    }
}

/// Whether an event may follow these in a script that is read for this: any in a run, and else an order, up to 4,096.
#[inline(always)]
pub fn is_allowed(mode: Mode, events: &[Event], event: &Event) -> bool
    ensures { result ≡ is_allowed mode events.now event.now }
{
    match mode {
        Mode::Run => true,
        _ => match event {
            Event::Order(_) => events.len() < MOST_ORDERS,
            _ => false,
        },
    }
}

#[inline(always)]
fn is_absent(setup: &Setup, act: ActId) -> bool
    ensures { result ≡ is_absent act setup.now }
{
    setup.home(act).is_none()
}

#[inline(always)]
fn has_program(setup: &Setup, act: ActId) -> bool
    ensures { result ≡ has_program act setup.now }
{
    match setup.program(act) {
        ProgramKind::Absent => false,
        _ => true,
    }
}

#[inline(always)]
fn has_tile(setup: &Setup, tile: TileId) -> bool
    ensures { result ≡ nat_lt tile setup.now.tiles }
{
    tile.number() < setup.tiles()
}

fn order_names_undeclared(setup: &Setup, order: &Order) -> bool
    ensures { result ≡ order_names_undeclared order.now setup.now }
{
    match order {
        Order::Switch { tile, act } => !has_tile(setup, *tile) || is_absent(setup, *act),
        Order::Grant(line) => is_absent(setup, line.act()),
        Order::Revoke(_) => false,
    }
}

fn file_names_undeclared(setup: &Setup, line: &FileLine) -> bool
    ensures { result ≡ file_names_undeclared line.now setup.now }
{
    match line {
        FileLine::Open { act, .. } => is_absent(setup, *act),
        _ => false,
    }
}

/// Whether the setup has no such tile or activity as the event names, or the activity has a program at a do, or none
/// at a turn.
#[inline(always)]
pub fn names_undeclared(setup: &Setup, event: &Event) -> bool
    ensures { result ≡ names_undeclared event.now setup.now }
{
    match event {
        Event::Do { act, .. } => is_absent(setup, *act) || has_program(setup, *act),
        Event::Turn(act) => is_absent(setup, *act) || !has_program(setup, *act),
        Event::Take { to, from } => !(has_tile(setup, *to) && has_tile(setup, *from)),
        Event::Tend(act) => is_absent(setup, *act),
        Event::Close => false,
        Event::Order(order) => order_names_undeclared(setup, order),
        Event::File(line) => file_names_undeclared(setup, line),
    }
}

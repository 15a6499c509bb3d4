//! The moves of a turn, and the command of one, where it is issued.

ghost use Rattle.std.specs.Prelude.{◌≡◌, ◌<◌, true, length, Some, option_map};
ghost use Rattle.m3_base.specs.Ideal.Flights.{name_of};
ghost use Rattle.m3_engine.specs.IssueView.{fetched_reply};
ghost use Rattle.m3_base.specs.declared.event.Made.{Made};
ghost use Rattle.m3_base.specs.Ideal.Context.{Context as ContextValue};
ghost use Rattle.m3_base.specs.Ideal.Issue.{Issued as Issue, issue};
ghost use Rattle.m3_base.specs.Limits.{is_short};
ghost use Rattle.m3_core.specs.IssueView.{issued_by};
ghost use Rattle.m3_core.specs.Preconditions.{HasTokenFor};
ghost use Rattle.m3_model.specs.Tile.State.{Resident, Tile};
ghost use Rattle.m3_model.specs.Tile.Step.{seen_of_reply, turn_issued, with_current, with_resident};
ghost use Rattle.m3_engine.specs.SparesView.{AreFull};
ghost use Rattle.m3_engine.specs.StayView.{seen_value};
ghost use Rattle.m3_engine.specs.TileStepView.{Does};
ghost use Rattle.m3_engine.specs.TurnView.{CanMove, after_command, made_result};

use crate::fetched_message::shown_in;
use crate::spares::{Spares, buffer, copied, front};
use crate::stay::{Hearing, Stay, has_unread};
use crate::tile::{TileDid, issue_result};
use m3_base::command::{Command, Reply};
use m3_base::event::Made;
use m3_base::ids::FlightId;
use m3_base::message::Message;
use m3_base::packet::Packet;
use m3_base::program::Seen;
use m3_core::context::Context;
use m3_core::issued::Issued;
use m3_kernel::site::Site;
use std::alloc::Global;

fn name_in(packet: &Option<Packet>) -> Option<FlightId>
    ensures { result ≡ option_map name_of packet.now }
{
    match packet {
        None => None,
        Some(packet) => Some(packet.id()),
    }
}

fn fetched(token: &Option<u32>, front: Option<Message>) -> Reply
    ensures { result ≡ fetched_reply front token.now }
{
    match (token, front) {
        (Some(token), Some(message)) => Reply::Fetched {
            token: *token,
            message,
        },
        _ => Reply::Nothing,
    }
}

/// What the program of an issued command is to hear, where a fetch takes this message.
#[tactic(auto, using(crate::proofs::IssueHears::fetched_heard, crate::proofs::IssueHears::acknowledged_heard))]
fn hearing_of(issued: &Issued, front: Option<Message>) -> Hearing
    ensures { (c : ContextValue) (i : Issue) → issued_by front issued.now c ≡ Some i → seen_value result ≡ seen_of_reply i.told }
{
    let reply = match issued {
        Issued::Flies(id, _) => return Hearing::Waits(id.number),
        Issued::Fetched(token) => fetched(token, front),
        Issued::Acknowledged(credit) => Reply::Acknowledged(name_in(credit)),
        Issued::Refused(why) => Reply::Refused(*why),
    };
    Hearing::Known(Seen::Answer(reply))
}

/// The command is issued. It answers what that came to, and what its program is to hear of it. The entry has the command
/// as well.
fn issue(
    alloc: Global,
    site: &Site,
    spares: &mut Spares,
    context: &mut Context,
    command: Command,
) -> (TileDid, Hearing)
    requires full { AreFull spares.old }
    requires short { is_short command ≡ true }
    requires idle { length context.old.flying ≡ 0 }
    requires number { context.old.next < 4294967295 }
    requires token { HasTokenFor context.old command }
    ensures made { result.0.outcome.made ≡ Some (Made.Command command) }
    ensures does { (t : Tile) (y : Resident) → Does result.0
        (with_resident (after_command (seen_value result.1) y) (with_current (Some context.new) t))
        (turn_issued site.now t y (Made.Command command) (issue context.old command)) }
{
    let made = copied(alloc, &mut spares.payload, &command);
    let shown = front(alloc, &mut spares.shown, context, &command);
    let heard = front(alloc, &mut spares.reply, context, &command);
    let buffer = buffer(alloc, &mut spares.buffer, &command);
    let issued = context.issue(command, buffer);
    let hearing = hearing_of(&issued, heard);
    let mut did = issue_result(site, issued, shown_in(shown));
    did.outcome.made = Some(Made::Command(made));
    (did, hearing)
}

/// The turn of a stay with this move, where it runs with this context and no command of it flies.
pub fn make_move(
    alloc: Global,
    site: &Site,
    spares: &mut Spares,
    context: &mut Context,
    stay: &mut Stay,
    made: Made,
) -> TileDid
    requires full { AreFull spares.old }
    requires idle { length context.old.flying ≡ 0 }
    requires can { CanMove context.old stay.old made }
    ensures made { result.outcome.made ≡ Some made }
    ensures act { stay.new.act ≡ stay.old.act }
    ensures does { (t : Tile) → t.current ≡ Some context.old → Does result
        (with_resident stay.new (with_current (Some context.new) t)) (made_result site.now t context.old stay.old made) }
{
    match made {
        Made::Command(command) => {
            let (did, hearing) = issue(alloc, site, spares, context, command);
            stay.after_command(hearing);
            did
        }
        Made::Await(ep) => stay.turn_await(ep, has_unread(context, ep)),
        Made::Quantum => stay.turn_quantum(),
        Made::End => stay.turn_end(),
    }
}

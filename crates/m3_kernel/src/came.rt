//! What comes of a packet at a context.

ghost use Rattle.std.specs.Prelude.{◌≡◌, true, None, Some, IsSome};
ghost use Rattle.m3_base.specs.Ideal.Acceptance.{fits};
ghost use Rattle.m3_base.specs.Ideal.Arrival.{arrive};
ghost use Rattle.m3_base.specs.Placement.Routing.{target};
ghost use Rattle.m3_core.specs.ArrivalView.{answer_by, freed_by};
ghost use Rattle.m3_kernel.specs.ArrivalView.{credit_of, answers_to, NamesCredit, said_credit, said_came, AtMostOne, arrival_of};

use m3_base::event::Said;
use m3_base::ids::{FlightId, GrantId};
use m3_base::packet::Packet;
use m3_core::arrived::Arrived;
use m3_core::context::Context;

/// What came of a packet: what is said of it, the answer that arose, and the grant whose endpoint became free.
#[derive(Debug, Drop)]
pub struct Came {
    pub said: Said,
    pub answer: Option<Packet>,
    pub freed: Option<GrantId>,
}

/// The number of the activity that a packet is for; a read or a write is for none.
pub fn target_of(packet: &Packet) -> Option<u8>
    ensures { result ≡ target packet.now }
{
    match packet {
        Packet::Message { to, .. } => Some(to.number()),
        Packet::Credit { to, .. } => Some(to.number()),
        Packet::Read { .. } => None,
        Packet::Write { .. } => None,
        Packet::Answer { id, .. } => Some(id.issuer),
        Packet::Install { to, .. } => Some(to.number()),
        Packet::Close { to, .. } => Some(to.number()),
    }
}

/// The number of the activity that the answer to a packet goes to: the sender of a message.
pub fn answers_to(packet: &Packet) -> Option<u8>
    ensures { result ≡ answers_to packet.now }
{
    match packet {
        Packet::Message { message, .. } => Some(message.header.sender.number()),
        _ => None,
    }
}

/// The grant of a credit.
fn credit_of(packet: &Packet) -> Option<GrantId>
    ensures { result ≡ credit_of packet.now }
{
    match packet {
        Packet::Credit { grant, .. } => Some(*grant),
        _ => None,
    }
}

/// What is said of a credit, and whether an endpoint took it.
fn said_of_credit(id: FlightId, credit: Option<GrantId>, taken: bool) -> Said
    requires { IsSome credit }
    ensures { result ≡ said_credit id credit taken }
{
    match credit {
        None => unreachable!(),
        Some(grant) => {
            if taken {
                Said::Credited(id, grant)
            } else {
                Said::Discarded(id, grant)
            }
        }
    }
}

fn answered(said: Said, answer: Packet) -> Came
    ensures { result ≡ record { said = said; answer = Some answer; freed = None } }
{
    Came {
        said,
        answer: Some(answer),
        freed: None,
    }
}

fn freeing(said: Said, freed: Option<GrantId>) -> Came
    ensures { result ≡ record { said = said; answer = None; freed = freed } }
{
    Came {
        said,
        answer: None,
        freed,
    }
}

/// What came of a packet of this name, and of this grant where it is a credit.
fn told(id: FlightId, credit: Option<GrantId>, arrived: Arrived) -> Came
    requires { NamesCredit credit arrived }
    ensures said { result.said ≡ said_came id credit arrived }
    ensures answer { result.answer ≡ answer_by arrived }
    ensures freed { result.freed ≡ freed_by arrived }
    ensures one { AtMostOne result.answer result.freed }
{
    match arrived {
        Arrived::Landed(answer) => answered(Said::Landed(id), answer),
        Arrived::Refused(why, answer) => answered(Said::LandRefused(id, why), answer),
        Arrived::Answered(id, answer, closed) => {
            let freed = match &closed {
                None => None,
                Some(grant) => Some(*grant),
            };
            freeing(Said::Answered { id, answer, closed }, freed)
        }
        Arrived::Credited(taken) => freeing(said_of_credit(id, credit, taken), None),
        Arrived::Installed(grant) => freeing(Said::Installed(id, grant), None),
        Arrived::Closing(grant) => freeing(Said::Closing(id, grant), None),
        Arrived::Closed(grant) => freeing(Said::Closed(id, grant), Some(grant)),
    }
}

/// A packet that fits arrives at the context. No packet both is answered and frees an endpoint.
pub fn meet(context: &mut Context, packet: Packet) -> Came
    requires { fits context.old packet ≡ true }
    ensures arrives { arrive context.old packet ≡ Some (arrival_of result context.new) }
    ensures one { AtMostOne result.answer result.freed }
{
    let id = packet.id();
    let credit = credit_of(&packet);
    let arrived = context.arrive(packet);
    told(id, credit, arrived)
}

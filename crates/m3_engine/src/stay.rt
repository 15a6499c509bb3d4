//! The stay of an activity on its tile, and what its program hears there.

mod turn;

ghost use Rattle.std.specs.Prelude.{◌≡◌, IfOk};
ghost use Rattle.m3_base.specs.Ideal.Context.{endpoint};
ghost use Rattle.m3_base.specs.Ideal.Step.{has_unread};
ghost use Rattle.m3_base.specs.Journal.Replies.{reply_of};
ghost use Rattle.m3_kernel.specs.ParcelView.{heard_in};
ghost use Rattle.m3_model.specs.Machine.{new_stay};
ghost use Rattle.m3_model.specs.Tile.Step.{is_waiting, resident_after_answers, resident_at_restore};
ghost use Rattle.m3_engine.specs.StayView.{HearsOf, is_waiting_for};

use m3_base::command::{Answer, Reply};
use m3_base::ids::{ActId, EpId};
use m3_base::packet::Packet;
use m3_base::program::Seen;
use m3_core::context::Context;
use m3_core::parcel::Heard;
use m3_kernel::away::heard_of;
use std::alloc::{AllocError, Global};
use std::marker::Model;

/// What the program of an activity is to hear next.
#[derive(Debug, Drop)]
pub enum Hearing {
    /// What it sees at its next move.
    Known(Seen),
    /// The answer to the command of this number, which flies.
    Waits(u32),
}

/// An activity as its home tile has it, be it there or not.
#[derive(Drop)]
pub struct Stay {
    act: ActId,
    /// The Await that has no unread message yet.
    pending: Option<EpId>,
    ended: bool,
    /// The Do moves of this stay.
    moves: u32,
    yield_sent: bool,
    hearing: Hearing,
}

impl Model for Stay {
    ghost use Rattle.m3_model.specs.Tile.State.{Resident};
    ghost use Rattle.m3_engine.specs.StayView.{stay_value};

    ghost Value = { Resident };

    ghost view = { stay_value };
}

/// What an answer is to the program that waits for it.
fn reply_of(answer: Answer) -> Reply
    ensures { result ≡ reply_of answer }
{
    match answer {
        Answer::Sent => Reply::Sent,
        Answer::Replied => Reply::Replied,
        Answer::Written => Reply::Written,
        Answer::Bytes(bytes) => Reply::Bytes(bytes),
        Answer::Refused(why) => Reply::Refused(why),
    }
}

/// Whether an endpoint has an unread message.
pub fn has_unread(context: &Context, ep: EpId) -> bool
    ensures { result ≡ has_unread (endpoint context.now ep) }
{
    match context.front(ep) {
        None => false,
        Some(_) => true,
    }
}

impl Stay {
    /// The stay of an activity whose program has made no move yet.
    pub fn new(act: ActId) -> Stay
        ensures { result ≡ new_stay act }
    {
        Stay {
            act,
            pending: None,
            ended: false,
            moves: 0,
            yield_sent: false,
            hearing: Hearing::Known(Seen::First),
        }
    }

    /// Its activity.
    #[inline(always)]
    pub fn act(&self) -> ActId
        ensures { result ≡ self.now.act }
    {
        self.act
    }

    /// Whether its program has ended.
    pub fn ended(&self) -> bool
        ensures { result ≡ self.now.ended }
    {
        self.ended
    }

    /// Whether its pending Await has no unread message in this context.
    pub fn is_waiting(&self, context: &Context) -> bool
        ensures { result ≡ is_waiting context.now self.now }
    {
        match self.pending {
            None => false,
            Some(ep) => !has_unread(context, ep),
        }
    }

    /// Whether its program waits for the answer to the command of this number.
    fn is_waiting_for(&self, number: u32) -> bool
        ensures { result ≡ is_waiting_for number self.now.seen }
    {
        match &self.hearing {
            Hearing::Known(_) => false,
            Hearing::Waits(waited) => *waited == number,
        }
    }

    /// What its program is to hear of a packet: the answer that it waits for.
    #[tactic(auto, using(crate::proofs::StayHears::deaf_to))]
    pub fn heard(&self, alloc: Global, packet: &Packet) -> Result<Option<Heard>, AllocError>
        ensures { IfOk result (λ h. HearsOf packet.now self.now h) }
    {
        match packet {
            Packet::Answer { id, .. } => {
                if self.is_waiting_for(id.number) {
                    heard_of(alloc, packet)
                } else {
                    Ok(None)
                }
            }
            _ => Ok(None),
        }
    }

    /// Its program hears this, where it waits for it.
    pub fn hear(&mut self, heard: Option<Heard>)
        ensures { self.new ≡ resident_after_answers (heard_in heard) self.old }
    {
        if let Some(Heard { number, answer }) = heard {
            if self.is_waiting_for(number) {
                self.hearing = Hearing::Known(Seen::Answer(reply_of(answer)));
            }
        }
    }

    /// It begins anew, and its program hears what came while it was away.
    pub fn restart(&mut self, heard: Option<Heard>)
        ensures { self.new ≡ resident_at_restore (heard_in heard) self.old }
    {
        self.moves = 0;
        self.yield_sent = false;
        self.hear(heard);
    }
}

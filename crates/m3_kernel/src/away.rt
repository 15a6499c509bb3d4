//! An activity that is away from its tile.

ghost use Rattle.std.specs.Prelude.{◌≡◌, ◌++◌, true, [], Some, IfOk};
ghost use Rattle.m3_base.specs.Ideal.Acceptance.{fits};
ghost use Rattle.m3_base.specs.Ideal.Arrival.{arrive};
ghost use Rattle.m3_model.specs.LocalStep.{heard_in_answer};
ghost use Rattle.m3_model.specs.Parcel.{Restore};
ghost use Rattle.m3_kernel.specs.ParcelView.{heard_in, parcel_of};
ghost use Rattle.m3_model.specs.Kernel.Step.{after_packet};
ghost use Rattle.m3_kernel.specs.ArrivalView.{arrival_of, AtMostOne};
ghost use Rattle.m3_kernel.specs.PendingAnswer.{AreNotBoth};

use crate::came::{Came, meet};
use m3_base::packet::Packet;
use m3_core::context::Context;
use m3_core::parcel::{Heard, Parcel};
use std::alloc::{AllocError, Global};
use std::marker::Model;

/// What the kernel has of an activity that is away: its context, the answer that it heard meanwhile, and whether its
/// program has ended.
#[derive(Drop)]
pub struct Away {
    context: Context,
    heard: Option<Heard>,
    ended: bool,
}

impl Model for Away {
    ghost use Rattle.m3_model.specs.Kernel.State.{SavedActivity as AwayValue};
    ghost use Rattle.m3_kernel.specs.ParcelView.{heard_in};
    ghost use Rattle.m3_kernel.specs.PendingAnswer.{IsSettled};

    ghost Value = { AwayValue };

    ghost view = { λ y. record { context = y.context; heard = heard_in y.heard; ended = y.ended } };

    ghost invariant = { λ y. IsSettled (heard_in y.heard) y.context };
}

/// What the program is to hear of a packet: an answer to its command.
pub fn heard_of(alloc: Global, packet: &Packet) -> Result<Option<Heard>, AllocError>
    ensures { IfOk result (λ h. heard_in h ≡ heard_in_answer packet.now) }
{
    match packet {
        Packet::Answer { id, answer } => {
            let answer = answer.copy(alloc)?;
            Ok(Some(Heard {
                number: id.number,
                answer,
            }))
        }
        _ => Ok(None),
    }
}

/// What is heard joins what was heard. One of them is nothing.
fn hear(before: &mut Option<Heard>, heard: Option<Heard>)
    requires { AreNotBoth (heard_in before.old) (heard_in heard) }
    ensures { heard_in before.new ≡ heard_in before.old ++ heard_in heard }
{
    if heard.is_some() {
        *before = heard;
    }
}

impl Away {
    /// An activity that comes away with this context, and has heard nothing yet.
    pub fn new(context: Context, ended: bool) -> Away
        ensures { result ≡ record { context = context; heard = []; ended = ended } }
    {
        Away {
            context,
            heard: None,
            ended,
        }
    }

    /// Its context.
    pub fn context(&self) -> &Context
        ensures { result.now ≡ self.now.context }
    {
        &self.context
    }

    /// Whether its program has ended.
    pub fn has_ended(&self) -> bool
        ensures { result ≡ self.now.ended }
    {
        self.ended
    }

    /// A packet that fits arrives at its context, and it hears what its program is to hear of it.
    pub fn deliver(&mut self, heard: Option<Heard>, packet: Packet) -> Came
        requires fits { fits self.old.context packet ≡ true }
        requires heard { heard_in heard ≡ heard_in_answer packet }
        ensures arrives { arrive self.old.context packet ≡ Some (arrival_of result self.new.context) }
        ensures one { AtMostOne result.answer result.freed }
        ensures away { self.new ≡ after_packet packet self.new.context self.old }
    {
        let _few = self.context.flying();
        let came = meet(&mut self.context, packet);
        hear(&mut self.heard, heard);
        came
    }

    /// It goes back to its tile, with what it heard.
    pub fn restored(self) -> Parcel
        ensures { parcel_of result ≡ Restore self.context.act self.context self.heard }
    {
        let Away { context, heard, .. } = self;
        Parcel::Restore {
            act: context.act(),
            context,
            heard,
        }
    }
}

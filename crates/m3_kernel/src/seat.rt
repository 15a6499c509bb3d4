//! The seat of an activity: where it is, and the packets that are held for it.

ghost use Rattle.std.specs.Prelude.{◌≡◌, ◌&&◌, ◌==◌, ◌∷◌, ◌++◌, [], length, option_copied, OnOk};
ghost use Rattle.m3_model.specs.Kernel.State.{ActivityEntry as SeatValue, Is_placed, Is_leaving, Is_resting, Is_coming};
ghost use Rattle.m3_model.specs.Parcel.{Restore};
ghost use Rattle.m3_kernel.specs.ParcelView.{parcel_of};
ghost use Rattle.m3_model.specs.Kernel.Step.{is_coming_entry, residency_of_saved};
ghost use Rattle.m3_kernel.specs.ArrivalView.{AtMostOne};
ghost use Rattle.m3_kernel.specs.ActivityView.{seat_value, new_seat, place_of, away_in, context_in, coming_from, deliverable_front, is_idle_rest, HasRoom, RemembersAnswer, Delivered, IsComing, Restores};

use crate::away::Away;
use crate::came::Came;
use m3_base::ids::ActId;
use m3_base::packet::Packet;
use m3_core::context::Context;
use m3_core::parcel::{Heard, Parcel};
use std::alloc::{AllocError, Global};
use std::collections::VecDeque;
use std::mem;

/// How the kernel counts an activity.
#[derive(Clone, Copy, Debug, PartialEq, Eq, Drop)]
pub enum Place {
    /// It is at its tile.
    Placed,
    /// Its tile was told to save it.
    Leaving,
    /// The kernel has its context.
    Resting,
    /// The kernel has its context, and its tile is to get it as soon as who leaves is saved and nothing is held.
    Coming,
}

/// How the kernel counts an activity, with what it has of one that is away.
#[derive(Drop)]
pub enum Seating {
    Placed,
    Leaving,
    Resting(Away),
    Coming(Away),
}

/// An activity, where it is, and its hold list, oldest first.
#[derive(Drop)]
pub struct Seat {
    act: ActId,
    seating: Seating,
    hold: VecDeque<Packet>,
}

impl Seat {
    /// A new seat: Placed without a context, Resting with one. Nothing is held.
    pub fn new(alloc: Global, act: ActId, context: Option<Context>) -> Seat
        ensures { seat_value result ≡ new_seat act context }
    {
        let seating = match context {
            None => Seating::Placed,
            Some(context) => Seating::Resting(Away::new(context, false)),
        };
        Seat {
            act,
            seating,
            hold: VecDeque::new(alloc),
        }
    }

    /// Its activity.
    pub fn act(&self) -> ActId
        ensures { result ≡ self.now.act }
    {
        self.act
    }

    /// How its activity is counted.
    pub fn place(&self) -> Place
        ensures { result ≡ place_of (seat_value self.now).seating }
    {
        match &self.seating {
            Seating::Placed => Place::Placed,
            Seating::Leaving => Place::Leaving,
            Seating::Resting(_) => Place::Resting,
            Seating::Coming(_) => Place::Coming,
        }
    }

    /// What the kernel has of its activity.
    fn away(&self) -> Option<&Away>
        ensures { option_copied result ≡ away_in (seat_value self.now).seating }
    {
        match &self.seating {
            Seating::Resting(away) => Some(away),
            Seating::Coming(away) => Some(away),
            _ => None,
        }
    }

    /// Its activity's context, where the kernel has it: exactly where it is Resting or Coming.
    pub fn context(&self) -> Option<&Context>
        ensures { option_copied result ≡ context_in (away_in (seat_value self.now).seating) }
    {
        match self.away() {
            None => None,
            Some(away) => Some(away.context()),
        }
    }

    /// The packets that are held for its activity, oldest first.
    pub fn hold(&self) -> &VecDeque<Packet>
        ensures { result.now.items ≡ (seat_value self.now).hold }
    {
        &self.hold
    }

    /// Whether nothing is held for its activity.
    pub fn holds_nothing(&self) -> bool
        ensures { result ≡ (length (seat_value self.now).hold == 0) }
    {
        self.hold.is_empty()
    }

    /// Whether its activity is Coming, and nothing is held.
    pub fn is_due(&self) -> bool
        ensures { result ≡ (is_coming_entry (seat_value self.now).seating && (length (seat_value self.now).hold == 0)) }
    {
        match &self.seating {
            Seating::Coming(_) => self.hold.is_empty(),
            _ => false,
        }
    }

    /// Whether its activity is Resting, and its program, if it has one, hasn't ended.
    pub fn is_idle_rest(&self) -> bool
        ensures { result ≡ is_idle_rest (seat_value self.now).seating }
    {
        match &self.seating {
            Seating::Resting(away) => !away.has_ended(),
            _ => false,
        }
    }

    /// The oldest packet that is held, where its activity is away and the packet fits its context.
    pub fn deliverable_front(&self) -> Option<&Packet>
        ensures { option_copied result ≡ deliverable_front (seat_value self.now) }
    {
        let away = self.away()?;
        let packet = self.hold.front()?;
        if away.context().fits(packet) {
            Some(packet)
        } else {
            None
        }
    }

    /// Its activity, which was Placed, is Leaving.
    pub fn start_save(&mut self)
        ensures { seat_value self.new ≡ record (seat_value self.old) { seating = Is_leaving } }
    {
        self.seating = Seating::Leaving;
    }

    /// Its activity, which was Leaving, rests with this context.
    pub fn rest(&mut self, context: Context, ended: bool)
        ensures { seat_value self.new ≡ record (seat_value self.old) { seating = residency_of_saved context ended } }
    {
        self.seating = Seating::Resting(Away::new(context, ended));
    }

    /// Its activity, which was Resting, is Coming.
    pub fn start_restore(&mut self)
        ensures { seat_value self.new ≡ record (seat_value self.old) { seating = coming_from (seat_value self.old).seating } }
    {
        match mem::replace(&mut self.seating, Seating::Placed) {
            Seating::Resting(away) => self.seating = Seating::Coming(away),
            other => self.seating = other,
        }
    }

    /// Its activity, which is Coming, is Placed. It gives the Restore.
    pub fn restore(&mut self) -> Parcel
        requires { IsComing (seat_value self.old).seating }
        ensures seat { seat_value self.new ≡ record (seat_value self.old) { seating = Is_placed } }
        ensures parcel { Restores (seat_value self.old).seating (parcel_of result) }
    {
        match mem::replace(&mut self.seating, Seating::Placed) {
            Seating::Coming(away) => away.restored(),
            _ => unreachable!(),
        }
    }

    /// Makes room for one more packet in the hold list.
    pub fn reserve(&mut self) -> Result<(), AllocError>
        ensures same { seat_value self.new ≡ seat_value self.old }
        ensures room { OnOk result (HasRoom self.new) }
    {
        self.hold.reserve(1)
    }

    /// The packet joins the back of the hold list, which has room for it.
    pub fn hold_packet(&mut self, packet: Packet)
        requires { HasRoom self.old }
        ensures { seat_value self.new ≡ record (seat_value self.old) { hold = (seat_value self.old).hold ++ packet ∷ [] } }
    {
        self.hold.push_back_reserved(packet);
    }

    /// The oldest packet that is held, which fits, arrives at the context, and the activity hears what is to be heard of
    /// it. There is room for one more packet then.
    pub fn deliver(&mut self, heard: Option<Heard>) -> Came
        requires { RemembersAnswer (seat_value self.old) heard }
        ensures met { Delivered (seat_value self.old) (seat_value self.new) result }
        ensures one { AtMostOne result.answer result.freed }
        ensures room { HasRoom self.new }
    {
        match self.hold.pop_front() {
            None => unreachable!(),
            Some(packet) => match &mut self.seating {
                Seating::Resting(away) => away.deliver(heard, packet),
                Seating::Coming(away) => away.deliver(heard, packet),
                _ => unreachable!(),
            },
        }
    }
}

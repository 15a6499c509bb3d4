//! What flies.

ghost use Rattle.std.specs.Prelude.{◌≡◌, option_copied};
ghost use Rattle.m3_base.specs.Ideal.Flights.{name_of};
ghost use Rattle.m3_ideal.specs.FlightView.{packet_of};
ghost use Rattle.m3_ideal.specs.Ideal.FlightParts.{landing_of, letter_in, bytes_in, answer_in};

use crate::letter::Letter;
use m3_base::command::Answer;
use m3_base::ids::{ActId, EpId, FlightId, GrantId};
use m3_base::packet::Fresh;
use m3_base::payload::Payload;
use std::marker::Model;

/// What a flight carries. A message has its name of its letter.
#[derive(Debug, Drop)]
pub enum Cargo {
    /// A message or a reply to the receive grant `grant` at an activity's endpoint.
    Message {
        to: ActId,
        ep: EpId,
        grant: GrantId,
        letter: Letter,
    },
    /// A credit for the endpoint of the send grant `grant`.
    Credit {
        id: FlightId,
        to: ActId,
        grant: GrantId,
    },
    /// A read of `len` bytes.
    Read {
        id: FlightId,
        grant: GrantId,
        place: u32,
        len: u16,
    },
    /// A write of the payload.
    Write {
        id: FlightId,
        grant: GrantId,
        place: u32,
        payload: Payload,
    },
    /// The answer to the command of this name.
    Answer {
        id: FlightId,
        answer: Answer,
    },
    /// The kernel installs a record.
    Install {
        id: FlightId,
        to: ActId,
        ep: EpId,
        fresh: Fresh,
    },
    /// The kernel closes a record.
    Close {
        id: FlightId,
        to: ActId,
        ep: EpId,
        grant: GrantId,
    },
}

/// Where a flight lands, and with what, but for a letter and the bytes of a write.
#[derive(Clone, Copy, Debug, Drop)]
pub enum Landing {
    Letter { to: ActId, ep: EpId, grant: GrantId },
    Credit { to: ActId, grant: GrantId },
    Read { place: u32, len: u16 },
    Write { place: u32 },
    /// It is an answer, and lands nowhere.
    Answer,
    Install { to: ActId, ep: EpId, fresh: Fresh },
    Close { to: ActId, ep: EpId, grant: GrantId },
}

/// A flight. Contracts see its packet.
#[derive(Debug, Drop)]
pub struct Flight {
    pub cargo: Cargo,
}

impl Model for Flight {
    ghost use Rattle.m3_base.specs.declared.packet.Packet.{Packet};

    ghost Value = { Packet };

    ghost use Rattle.m3_ideal.specs.FlightView.{packet_of};

    ghost view = { λ f. packet_of f.cargo };
}

impl Flight {
    /// A flight of this cargo.
    pub fn new(cargo: Cargo) -> Flight
        ensures { result ≡ packet_of cargo }
    {
        Flight { cargo }
    }

    /// Its name.
    pub fn id(&self) -> FlightId
        ensures { result ≡ name_of self.now }
    {
        match &self.cargo {
            Cargo::Message { letter, .. } => letter.id(),
            Cargo::Credit { id, .. } => *id,
            Cargo::Read { id, .. } => *id,
            Cargo::Write { id, .. } => *id,
            Cargo::Answer { id, .. } => *id,
            Cargo::Install { id, .. } => *id,
            Cargo::Close { id, .. } => *id,
        }
    }

    /// Where it lands.
    pub fn landing(&self) -> Landing
        ensures { result ≡ landing_of self.now }
    {
        match &self.cargo {
            Cargo::Message { to, ep, grant, .. } => Landing::Letter {
                to: *to,
                ep: *ep,
                grant: *grant,
            },
            Cargo::Credit { to, grant, .. } => Landing::Credit {
                to: *to,
                grant: *grant,
            },
            Cargo::Read { place, len, .. } => Landing::Read {
                place: *place,
                len: *len,
            },
            Cargo::Write { place, .. } => Landing::Write { place: *place },
            Cargo::Answer { .. } => Landing::Answer,
            Cargo::Install { to, ep, fresh, .. } => Landing::Install {
                to: *to,
                ep: *ep,
                fresh: *fresh,
            },
            Cargo::Close { to, ep, grant, .. } => Landing::Close {
                to: *to,
                ep: *ep,
                grant: *grant,
            },
        }
    }

    /// Its letter, where it has one.
    pub fn into_letter(self) -> Option<Letter>
        ensures { result ≡ letter_in self }
    {
        match self.cargo {
            Cargo::Message { letter, .. } => Some(letter),
            _ => None,
        }
    }

    /// The bytes of a write; of any other flight, none.
    pub fn bytes(&self) -> &[u8]
        ensures { result.now ≡ bytes_in self.now }
    {
        match &self.cargo {
            Cargo::Write { payload, .. } => payload.bytes(),
            _ => &[],
        }
    }

    /// The answer that it is, if it is one.
    pub fn answer(&self) -> Option<&Answer>
        ensures { option_copied result ≡ answer_in self.now }
    {
        match &self.cargo {
            Cargo::Answer { answer, .. } => Some(answer),
            _ => None,
        }
    }

    /// The answer that it is, if it is one.
    pub fn into_answer(self) -> Option<Answer>
        ensures { result ≡ answer_in self }
    {
        match self.cargo {
            Cargo::Answer { answer, .. } => Some(answer),
            _ => None,
        }
    }
}

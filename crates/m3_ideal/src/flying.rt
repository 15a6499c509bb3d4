//! Commands that fly.

ghost use Rattle.std.specs.Prelude.{◌≡◌, ◌==◌};
ghost use Rattle.std.specs.List.{list_any, position};
ghost use Rattle.m3_base.specs.Ideal.Landing.{is_command_at};
ghost use Rattle.m3_ideal.specs.FlyingView.{kind_of};
ghost use Rattle.m3_base.specs.Ideal.Positions.{IsFlyingPlaceOf};

use m3_base::ids::EpId;
use std::marker::Model;

/// What kind of command flies.
#[derive(Clone, Copy, Debug, Drop)]
pub enum Kind {
    Send,
    Reply,
    Read,
    Write,
}

/// A command that flies: its flight's number, its kind, its endpoint, and for a reply the token of the message that it
/// answers, else 0.
#[derive(Debug, Drop)]
pub struct Flying {
    number: u32,
    kind: Kind,
    ep: EpId,
    token: u32,
}

impl Model for Flying {
    ghost use Rattle.m3_base.specs.Ideal.Context.{Flying as Meaning};

    ghost Value = { Meaning };

    ghost use Rattle.m3_ideal.specs.FlyingView.{flying_command};

    ghost view = { flying_command };
}

impl Flying {
    /// A flying command.
    pub fn new(number: u32, kind: Kind, ep: EpId, token: u32) -> Flying
        ensures { result ≡ record { number = number; kind = kind_of kind; ep = ep; token = token } }
    {
        Flying {
            number,
            kind,
            ep,
            token,
        }
    }

    /// Its flight's number.
    pub fn number(&self) -> u32
        ensures { result ≡ self.now.number }
    {
        self.number
    }

    /// Its kind.
    pub fn kind(&self) -> Kind
        ensures { kind_of result ≡ self.now.kind }
    {
        self.kind
    }

    /// Its endpoint.
    pub fn ep(&self) -> EpId
        ensures { result ≡ self.now.ep }
    {
        self.ep
    }

    /// The token of the message that it replies to, or 0.
    pub fn token(&self) -> u32
        ensures { result ≡ self.now.token }
    {
        self.token
    }
}

/// Whether a command of this endpoint is among them.
pub fn is_used(flying: &[Flying], ep: EpId) -> bool
    ensures { result ≡ list_any (is_command_at ep) flying.now }
{
    let number = ep.number();
    flying.iter().any(|f| f.ep().number() == number)
}

/// The place of the command of this number.
#[tactic(auto, using(m3_base::proofs::Positions::flying_place))]
pub fn flying_place(flying: &[Flying], number: u32) -> Option<usize>
    ensures { IsFlyingPlaceOf flying.now number result }
{
    flying_position(flying, number)
}

fn flying_position(flying: &[Flying], number: u32) -> Option<usize>
    ensures { result ≡ position (λ f. f.number == number) flying.now }
{
    flying.iter().position(|f| f.number() == number)
}

//! Commands that fly.

ghost use Rattle.std.specs.Prelude.{◌≡◌, ℕ};
ghost use Rattle.m3_core.specs.FlyingView.{kind_of};

use m3_base::ids::EpId;
use std::marker::Model;

/// What kind of command flies.
#[derive(Clone, Copy, Debug, PartialEq, Eq, Drop)]
pub enum Kind {
    Send,
    Reply,
    Read,
    Write,
}

/// A command that flies: its flight's number, its kind, its endpoint, and for a reply the token of the message that it
/// answers, else 0.
#[derive(Debug, Drop)]
pub struct Flying {
    number: u32,
    kind: Kind,
    ep: EpId,
    token: u32,
}

impl Model for Flying {
    ghost use Rattle.m3_base.specs.Ideal.Context.{Flying as Meaning};

    ghost Value = { Meaning };

    ghost use Rattle.m3_core.specs.FlyingView.{flying_command};

    ghost view = { flying_command };
}

impl Flying {
    /// A flying command.
    #[inline(always)]
    pub fn new(number: u32, kind: Kind, ep: EpId, token: u32) -> Flying
        ensures { result ≡ record { number = number; kind = kind_of kind; ep = ep; token = token } }
    {
        Flying {
            number,
            kind,
            ep,
            token,
        }
    }

    /// Its flight's number.
    #[inline(always)]
    pub fn number(&self) -> u32
        ensures { result ≡ self.now.number }
    {
        self.number
    }

    /// Its kind.
    #[inline(always)]
    pub fn kind(&self) -> Kind
        ensures { kind_of result ≡ self.now.kind }
    {
        self.kind
    }

    /// Its endpoint.
    #[inline(always)]
    pub fn ep(&self) -> EpId
        ensures { result ≡ self.now.ep }
    {
        self.ep
    }

    /// The token of the message that it replies to, or 0.
    #[inline(always)]
    pub fn token(&self) -> u32
        ensures { result ≡ self.now.token }
    {
        self.token
    }
}

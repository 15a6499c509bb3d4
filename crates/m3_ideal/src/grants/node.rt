//! One grant.

ghost use Rattle.std.specs.Prelude.{◌≡◌, true};
ghost use Rattle.m3_base.specs.Ideal.State.{is_done, is_live};
ghost use Rattle.m3_base.specs.Ideal.GrantRules.{new_grant, is_closing_grant, is_closed_grant};
ghost use Rattle.m3_ideal.specs.GrantView.{standing_of};

use m3_base::order::GrantLine;
use m3_base::packet::Fresh;
use std::marker::Model;

/// How far a grant is.
#[derive(Clone, Copy, Debug, Drop)]
pub enum Standing {
    Live,
    Closing,
    Closed,
    Done,
}

/// A grant by its line, the record that it stands for, and its marks.
#[derive(Debug, Drop)]
pub struct Grant {
    line: GrantLine,
    fresh: Fresh,
    standing: Standing,
    close_sent: bool,
    is_root: bool,
}

impl Model for Grant {
    ghost use Rattle.m3_base.specs.Ideal.State.{Grant as Meaning};

    ghost Value = { Meaning };

    ghost use Rattle.m3_ideal.specs.GrantView.{grant_value};

    ghost view = { grant_value };
}

impl Grant {
    /// A live grant of this line.
    pub fn new(line: GrantLine, fresh: Fresh) -> Grant
        ensures { result ≡ new_grant line fresh }
    {
        Grant {
            line,
            fresh,
            standing: Standing::Live,
            close_sent: false,
            is_root: false,
        }
    }

    /// Its line.
    pub fn line(&self) -> GrantLine
        ensures { result ≡ self.now.line }
    {
        self.line
    }

    /// The record that it stands for.
    pub fn fresh(&self) -> Fresh
        ensures { result ≡ self.now.fresh }
    {
        self.fresh
    }

    /// Whether it is live.
    pub fn is_live(&self) -> bool
        ensures { result ≡ is_live self.now.standing }
    {
        matches!(self.standing, Standing::Live)
    }

    /// Whether it is closing.
    pub fn is_closing(&self) -> bool
        ensures { result ≡ is_closing_grant self.now.standing }
    {
        matches!(self.standing, Standing::Closing)
    }

    /// Whether it is closed.
    pub fn is_closed(&self) -> bool
        ensures { result ≡ is_closed_grant self.now.standing }
    {
        matches!(self.standing, Standing::Closed)
    }

    /// Whether it is done.
    pub fn is_done(&self) -> bool
        ensures { result ≡ is_done self.now.standing }
    {
        matches!(self.standing, Standing::Done)
    }

    /// Whether its Close was sent.
    pub fn is_sent(&self) -> bool
        ensures { result ≡ self.now.close_sent }
    {
        self.close_sent
    }

    /// Whether it is the root of a revoke.
    pub fn is_root(&self) -> bool
        ensures { result ≡ self.now.is_root }
    {
        self.is_root
    }

    /// It is so far from now on.
    pub fn set_standing(&mut self, standing: Standing)
        ensures { self.new ≡ record self.old { standing = standing_of standing } }
    {
        self.standing = standing;
    }

    /// Its Close is sent.
    pub fn send_close(&mut self)
        ensures { self.new ≡ record self.old { close_sent = true } }
    {
        self.close_sent = true;
    }

    /// It is the root of a revoke.
    pub fn root(&mut self)
        ensures { self.new ≡ record self.old { is_root = true } }
    {
        self.is_root = true;
    }
}

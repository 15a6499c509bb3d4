//! Messages that were fetched.

ghost use Rattle.std.specs.Prelude.{◌≡◌, ◌==◌, ◌≤◌, false, length, vec_capacity};
ghost use Rattle.std.specs.List.{position};
ghost use Rattle.m3_base.specs.Ideal.ReceiveRecord.{without_token, with_mark};
ghost use Rattle.m3_ideal.specs.Places.{IsTokenPlaceOf};

use crate::letter::Letter;
use std::marker::Model;

/// A message that was fetched; it is marked while it is being replied to.
#[derive(Debug, Drop)]
pub struct Fetched {
    token: u32,
    marked: bool,
    letter: Letter,
}

impl Model for Fetched {
    ghost use Rattle.m3_base.specs.Ideal.Context.{Fetched as Meaning};

    ghost Value = { Meaning };

    ghost use Rattle.m3_ideal.specs.FetchedView.{fetched_message};

    ghost view = { fetched_message };
}

impl Fetched {
    /// A message as it is fetched.
    pub fn new(token: u32, letter: Letter) -> Fetched
        ensures { result ≡ record { token = token; marked = false; message = letter } }
    {
        Fetched {
            token,
            marked: false,
            letter,
        }
    }

    /// Its token.
    pub fn token(&self) -> u32
        ensures { result ≡ self.now.token }
    {
        self.token
    }

    /// Whether it is being replied to.
    pub fn marked(&self) -> bool
        ensures { result ≡ self.now.marked }
    {
        self.marked
    }

    /// The message.
    pub fn letter(&self) -> &Letter
        ensures { result.now ≡ self.now.message }
    {
        &self.letter
    }

    /// It is being replied to, or no more.
    pub fn set_marked(&mut self, marked: bool)
        ensures { self.new ≡ record self.old { marked = marked } }
    {
        self.marked = marked;
    }
}

/// The place of the message of this token. None exactly where there is none.
#[tactic(auto, using(crate::proofs::Places::token_place))]
pub fn token_place(fetched: &[Fetched], token: u32) -> Option<usize>
    ensures { IsTokenPlaceOf fetched.now token result }
{
    token_position(fetched, token)
}

/// The message of this token, where there is one, is being replied to, or no more.
pub fn mark(fetched: &mut [Fetched], token: u32, marked: bool)
    ensures list { fetched.new ≡ with_mark marked token fetched.old }
{
    if let Some(place) = token_place(fetched, token) {
        fetched[place].set_marked(marked);
    }
}

/// The message of this token, where there is one, is gone.
pub fn remove(fetched: &mut Vec<Fetched>, token: u32)
    ensures list { fetched.new.items ≡ without_token token fetched.old.items }
    ensures len { length fetched.new.items ≤ length fetched.old.items }
    ensures room { vec_capacity fetched.new ≡ vec_capacity fetched.old }
{
    if let Some(place) = token_place(fetched, token) {
        fetched.remove(place);
    }
}

fn token_position(fetched: &[Fetched], token: u32) -> Option<usize>
    ensures { result ≡ position (λ f. f.token == token) fetched.now }
{
    fetched.iter().position(|f| f.token() == token)
}

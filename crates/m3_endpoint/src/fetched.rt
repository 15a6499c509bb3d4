//! Fetched messages.

ghost use Rattle.std.specs.Prelude.{◌≡◌, ℕ, ◌==◌, ◌≤◌, false, length, vec_capacity};
ghost use Rattle.std.specs.List.{position};
ghost use Rattle.m3_base.specs.Ideal.ReceiveRecord.{without_token, with_mark};
ghost use Rattle.m3_endpoint.specs.TokenOrder.{AreOrdered};
ghost use Rattle.m3_endpoint.specs.TokenPosition.{IsPlaceOf};

use m3_base::message::Message;
use std::marker::Model;

/// A message that was fetched; it is marked while it is being replied to.
#[derive(Drop)]
pub struct FetchedMessage {
    token: u32,
    marked: bool,
    message: Message,
}

impl Model for FetchedMessage {
    ghost use Rattle.m3_base.specs.Ideal.Context.{Fetched};

    ghost Value = { Fetched };

    ghost use Rattle.m3_endpoint.specs.FetchedView.{fetched_message};

    ghost view = { fetched_message };
}

impl FetchedMessage {
    /// A message as it is fetched.
    pub fn new(token: u32, message: Message) -> FetchedMessage
        ensures { result ≡ record { token = token; marked = false; message = message } }
    {
        FetchedMessage {
            token,
            marked: false,
            message,
        }
    }

    /// Its token.
    pub fn token(&self) -> u32
        ensures { result ≡ self.now.token }
    {
        self.token
    }

    /// Whether it is being replied to.
    pub fn marked(&self) -> bool
        ensures { result ≡ self.now.marked }
    {
        self.marked
    }

    /// The message.
    pub fn message(&self) -> &Message
        ensures { result.now ≡ self.now.message }
    {
        &self.message
    }

    /// It is being replied to, or no more.
    pub fn set_marked(&mut self, marked: bool)
        ensures { self.new ≡ record self.old { marked = marked } }
    {
        self.marked = marked;
    }
}

/// The place of the message of this token. None exactly where there is none.
#[tactic(auto, using(crate::proofs::TokenPosition::is_place))]
pub fn place_of(fetched: &[FetchedMessage], token: u32) -> Option<usize>
    ensures { IsPlaceOf fetched.now token result }
{
    position_of(fetched, token)
}

/// The message of this token, where there is one, is being replied to, or no more.
#[tactic(auto, using(crate::proofs::TokenOrder::ordered_mark))]
pub fn mark(fetched: &mut [FetchedMessage], token: u32, marked: bool)
    ensures list { fetched.new ≡ with_mark marked token fetched.old }
    ensures ordered { (next : ℕ) → AreOrdered 0 fetched.old next → AreOrdered 0 fetched.new next }
{
    if let Some(place) = place_of(fetched, token) {
        fetched[place].set_marked(marked);
    }
}

/// The message of this token, where there is one, is gone.
#[tactic(auto, using(crate::proofs::TokenOrder::ordered_without))]
pub fn remove(fetched: &mut Vec<FetchedMessage>, token: u32)
    ensures list { fetched.new.items ≡ without_token token fetched.old.items }
    ensures len { length fetched.new.items ≤ length fetched.old.items }
    ensures room { vec_capacity fetched.new ≡ vec_capacity fetched.old }
    ensures ordered { (next : ℕ) → AreOrdered 0 fetched.old.items next → AreOrdered 0 fetched.new.items next }
{
    if let Some(place) = place_of(fetched, token) {
        fetched.remove(place);
    }
}

fn position_of(fetched: &[FetchedMessage], token: u32) -> Option<usize>
    ensures { result ≡ position (λ f. f.token == token) fetched.now }
{
    fetched.iter().position(|f| f.token() == token)
}

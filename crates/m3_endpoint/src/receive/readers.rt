//! Readers of a receive record.

ghost use Rattle.std.specs.Prelude.{◌≡◌, ℕ, ◌<◌, ◌≤◌, ◌↔◌, ◌==◌, ◌||◌, not, IsTrue, IsSome, IfSome, Some, length, slice_get, option_map, option_copied};
ghost use Rattle.m3_base.specs.Lists.Counting.{one, how_many};
ghost use Rattle.m3_base.specs.Ideal.Acceptance.{is_form};
ghost use Rattle.m3_base.specs.Ideal.Credits.{is_sent_by, is_owed};
ghost use Rattle.m3_endpoint.specs.Counters.{Adds};
ghost use Rattle.m3_endpoint.specs.RecordForms.{receive_form};
ghost use Rattle.m3_endpoint.specs.TokenOrder.{is_smaller};
ghost use Rattle.m3_endpoint.specs.ReceiveOps.{unread_at, token_in, message_at, unmarked_at, header_or_refusal, reply_header, marked_at, grant_in, size_in, closing_in, next_token_in, unread_count, fetched_count, token_at, message_in_order, queued_in};

use crate::counters::add_saturating;
use crate::fetched::{FetchedMessage, place_of};
use crate::receive::ReceiveEp;
use circular_buffer::HeapCircularBuffer;
use m3_base::command::Refusal;
use m3_base::ids::GrantId;
use m3_base::limits::NO_REPLY;
use m3_base::message::{Header, Message};
use m3_base::packet::Fresh;

impl ReceiveEp {
    /// The oldest unread message. None exactly where none is unread.
    pub fn front(&self) -> Option<&Message>
        ensures { option_copied result ≡ unread_at self.now 0 }
    {
        if !self.used {
            return None;
        }
        self.unread.front()
    }

    /// The message of this token. None exactly where none of this token is fetched, marked or not.
    pub fn fetched(&self, token: u32) -> Option<&Message>
        ensures { option_copied result ≡ message_at token self.now }
    {
        if !self.used {
            return None;
        }
        match place_of(&self.fetched, token) {
            None => None,
            Some(place) => Some(self.fetched[place].message()),
        }
    }

    /// The header of the message of this token, unless it is being replied to. `NoSuchToken` where there is none.
    pub(crate) fn unmarked_header(&self, token: u32) -> Result<Header, Refusal>
        ensures { result ≡ header_or_refusal (unmarked_at token self.now) }
    {
        if !self.used {
            return Err(Refusal::NoSuchToken);
        }
        match place_of(&self.fetched, token) {
            None => Err(Refusal::NoSuchToken),
            Some(place) => {
                if self.fetched[place].marked() {
                    return Err(Refusal::NoSuchToken);
                }
                Ok(self.fetched[place].message().header)
            }
        }
    }

    /// The header of the message of this token, which may be replied to. The refusals are those of `begin_reply`.
    pub fn reply_header(&self, token: u32) -> Result<Header, Refusal>
        ensures { result ≡ reply_header (unmarked_at token self.now) }
    {
        let header = self.unmarked_header(token)?;
        if wants_none(&header) {
            return Err(Refusal::NoReplyWanted);
        }
        Ok(header)
    }

    /// Whether it is used.
    pub fn is_used(&self) -> bool
        ensures { IsTrue result ↔ IsSome self.now }
    {
        self.used
    }

    /// The form that it was opened by.
    pub fn fresh(&self) -> Fresh
        requires { IsSome self.now }
        ensures same { Some result ≡ option_map receive_form self.now }
        ensures form { IsTrue (is_form result) }
    {
        Fresh::Receive {
            grant: self.grant,
            slots: self.slots,
            size: self.size,
        }
    }

    /// Its grant.
    pub fn grant(&self) -> GrantId
        requires { IsSome self.now }
        ensures { Some result ≡ option_map grant_in self.now }
    {
        self.grant
    }

    /// The largest payload, in bytes.
    pub fn size(&self) -> u16
        requires { IsSome self.now }
        ensures { Some result ≡ option_map size_in self.now }
    {
        self.size
    }

    /// Whether it is closing.
    pub fn closing(&self) -> bool
        requires { IsSome self.now }
        ensures { Some result ≡ option_map closing_in self.now }
    {
        self.closing
    }

    /// How many messages were fetched since it was opened: the token of the next one.
    pub fn next_token(&self) -> u32
        requires { IsSome self.now }
        ensures { Some result ≡ option_map next_token_in self.now }
    {
        self.next_token
    }

    /// How many messages are unread.
    pub fn unread_len(&self) -> usize
        requires { IsSome self.now }
        ensures { Some result ≡ option_map unread_count self.now }
    {
        self.unread.len()
    }

    /// How many messages are fetched, marked or not.
    pub fn fetched_len(&self) -> usize
        requires { IsSome self.now }
        ensures { Some result ≡ option_map fetched_count self.now }
    {
        self.fetched.len()
    }

    /// The unread message with `i` older ones. None exactly where `i` isn't below `unread_len`.
    pub fn unread(&self, i: usize) -> Option<&Message>
        requires { IsSome self.now }
        ensures { option_copied result ≡ unread_at self.now i }
    {
        self.unread.get(i)
    }

    /// The token of the fetched message with `i` smaller ones. None exactly where `i` isn't below `fetched_len`.
    pub fn fetched_token(&self, i: usize) -> Option<u32>
        requires { IsSome self.now }
        ensures token { result ≡ token_at self.now i }
        ensures smaller { IfSome result (λ t. IfSome self.now (λ r. how_many (is_smaller t) r.fetched ≡ i)) }
        ensures below { IfSome result (λ t. IfSome self.now (λ r. t < r.next_token)) }
    {
        token_of(&self.fetched, i)
    }

    /// The fetched message with `i` smaller tokens. None exactly where `i` isn't below `fetched_len`.
    pub fn fetched_message(&self, i: usize) -> Option<&Message>
        requires { IsSome self.now }
        ensures { option_copied result ≡ message_in_order self.now i }
    {
        match self.fetched.get(i) {
            None => None,
            Some(fetched) => Some(fetched.message()),
        }
    }

    /// How many messages that were sent through this grant, and aren't replies, are unread, or fetched and not being
    /// replied to.
    #[tactic(auto, using(crate::proofs::CountIsStd::counted))]
    pub fn queued(&self, grant: GrantId) -> u32
        requires { IsSome self.now }
        ensures count { Some result ≡ option_map (queued_in grant) self.now }
        ensures range { result ≤ 32 }
    {
        let grant = grant.number() as u32;
        let unread = self.unread.iter().filter(|m| is_sent_by(m, grant)).count();
        let fetched = self
            .fetched
            .iter()
            .filter(|f| is_sent_by(f.message(), grant) && !f.marked())
            .count();
        (unread + fetched) as u32
    }

    /// Adds, to the counts of their send grants, the messages that aren't replies and are unread, or fetched and not
    /// being replied to.
    pub fn count_queued(&self, counts: &mut [u32])
        requires { IsSome self.now }
        ensures { IfSome self.now (λ r. Adds (λ g. queued_in g r) counts.old counts.new) }
    {
        count_unread(&self.unread, counts);
        count_fetched(&self.fetched, counts);
    }

    /// Whether a message of this token is being replied to.
    pub fn marked(&self, token: u32) -> bool
        requires { IsSome self.now }
        ensures { result ≡ marked_at token self.now }
    {
        match place_of(&self.fetched, token) {
            None => false,
            Some(place) => self.fetched[place].marked(),
        }
    }
}

/// Whether a message was sent through this grant and isn't a reply.
fn is_sent_by(message: &Message, grant: u32) -> bool
    ensures { result ≡ is_sent_by grant message.now }
{
    message.header.flags == 0 && message.header.send == grant
}

/// Adds a message to the count of its send grant, unless it is a reply.
fn count_message(message: &Message, counts: &mut [u32])
    ensures { Adds (λ g. one (is_sent_by g message.now)) counts.old counts.new }
{
    if message.header.flags == 0 {
        add_saturating(counts, message.header.send, 1);
    }
}

fn count_unread(unread: &HeapCircularBuffer<Message>, counts: &mut [u32])
    ensures { Adds (λ g. how_many (is_sent_by g) unread.now.items) counts.old counts.new }
{
    for message in unread.iter() {
        count_message(message, counts);
    }
}

/// Adds a fetched message, unless it is being replied to: its credit is its reply's then.
fn count_owed(fetched: &FetchedMessage, counts: &mut [u32])
    ensures { Adds (λ g. one (is_owed g fetched.now)) counts.old counts.new }
{
    if !fetched.marked() {
        count_message(fetched.message(), counts);
    }
}

fn count_fetched(fetched: &[FetchedMessage], counts: &mut [u32])
    ensures { Adds (λ g. how_many (is_owed g) fetched.now) counts.old counts.new }
{
    for message in fetched {
        count_owed(message, counts);
    }
}

/// Whether a message with this header wants no reply: it is itself a reply, or names no reply endpoint.
fn wants_none(header: &Header) -> bool
    ensures { result ≡ (not (header.now.flags == 0) || (header.now.reply_ep == 255)) }
{
    header.flags != 0 || header.reply_ep == NO_REPLY
}

/// The token of the message at this place.
fn token_of(fetched: &[FetchedMessage], i: usize) -> Option<u32>
    ensures { result ≡ option_map token_in (slice_get fetched.now i) }
{
    fetched.get(i).map(|f| f.token())
}

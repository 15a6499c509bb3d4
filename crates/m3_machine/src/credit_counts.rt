//! The credits of send grants, counted by grant.

ghost use Rattle.std.specs.Prelude.{◌≡◌, ℕ, ◌∷◌, [], replicate, Option, Some, IfOk};
ghost use Rattle.m3_base.specs.Ideal.Context.{Context as Its};
ghost use Rattle.m3_base.specs.Ideal.State.{is_number};
ghost use Rattle.m3_base.specs.Ideal.Credits.{gives_back_by, gives_back_in};
ghost use Rattle.m3_machine.specs.CreditCounts.{listed, carries, Counts, CountsBy};

use crate::context_table::ContextTable;
use crate::traversal::Visitor;
use m3_base::command::Answer;
use m3_base::packet::{Fresh, Packet};
use m3_core::context::Context;
use m3_core::flying::{Flying, Kind};
use m3_endpoint::counters::add_saturating;
use m3_endpoint::endpoint::Record;
use std::alloc::{AllocError, Global};

/// For each send grant by its number, its credits that are held, that fly, and that are queued. A count stands still at
/// the largest number.
#[derive(Drop)]
pub struct CreditCounts {
    pub held: Vec<u32>,
    pub flying: Vec<u32>,
    pub queued: Vec<u32>,
}

/// Counts the credits of what it visits, where the contexts of all activities are in a table.
#[derive(Drop)]
pub struct CreditCounter<'a> {
    pub contexts: ContextTable<'a>,
    pub counts: CreditCounts,
}

/// No count of any grant, 1 to 4,096, and of 0, which is no grant's number.
fn no_counts(alloc: Global) -> Result<Vec<u32>, AllocError>
    ensures { IfOk result (λ v. v.items ≡ replicate 4097 0) }
{
    let mut counts = Vec::new(alloc);
    for _ in 0..4097u16 {
        counts.push(0)?;
    }
    Ok(counts)
}

/// The send grant whose credit a refused answer to this flying command brings back.
fn given_back_by(context: &Context, flying: &Flying) -> Option<u32>
    ensures { (g : ℕ) → gives_back_by g context.now (Some flying.now) ≡ is_number g result }
{
    match flying.kind() {
        Kind::Send => match context.endpoint(flying.ep()) {
            Record::Send(record) => Some(u32::from(record.grant().number())),
            _ => None,
        },
        Kind::Reply => match context.fetched(flying.ep(), flying.token()) {
            Some(message) => Some(message.header.send),
            None => None,
        },
        _ => None,
    }
}

/// The send grant whose credit a refused answer to the flying command of this number brings back.
fn given_back(context: &Context, number: u32) -> Option<u32>
    ensures { (g : ℕ) → gives_back_in g number (Some context.now) ≡ is_number g result }
{
    for flying in context.flying() {
        if flying.number() == number {
            return given_back_by(context, flying);
        }
    }
    None
}

/// The send grant of which a packet carries a credit.
fn carried(contexts: &ContextTable, packet: &Packet) -> Option<u32>
    ensures { (g : ℕ) → carries g (listed contexts.now.contexts.items) packet.now ≡ is_number g result }
{
    match packet {
        Packet::Message { message, .. } => Some(message.header.send),
        Packet::Credit { grant, .. } => Some(u32::from(grant.number())),
        Packet::Answer {
            id,
            answer: Answer::Refused(_),
        } => match contexts.get(id.issuer) {
            None => None,
            Some(context) => given_back(context, id.number),
        },
        _ => None,
    }
}

impl CreditCounts {
    /// Nothing is counted yet.
    pub fn new(alloc: Global) -> Result<CreditCounts, AllocError>
        ensures held { IfOk result (λ t. t.held.items ≡ replicate 4097 0) }
        ensures flying { IfOk result (λ t. t.flying.items ≡ replicate 4097 0) }
        ensures queued { IfOk result (λ t. t.queued.items ≡ replicate 4097 0) }
    {
        let held = no_counts(alloc)?;
        let flying = no_counts(alloc)?;
        let queued = no_counts(alloc)?;
        Ok(CreditCounts {
            held,
            flying,
            queued,
        })
    }

    fn context(&mut self, context: &Context)
        ensures { (find : ℕ → Option Its) → Counts find (context.now ∷ []) [] self.old self.new }
    {
        context.count(&mut self.held, &mut self.queued);
    }

    fn packet(&mut self, contexts: &ContextTable, packet: &Packet)
        ensures { Counts (listed contexts.now.contexts.items) [] (packet.now ∷ []) self.old self.new }
    {
        if let Some(grant) = carried(contexts, packet) {
            add_saturating(&mut self.flying, grant, 1);
        }
        if let Packet::Install {
            fresh: Fresh::Send { grant, limit, .. },
            ..
        } = packet
        {
            add_saturating(&mut self.held, u32::from(grant.number()), u32::from(*limit));
        }
    }
}

impl<'a> Visitor<'a> for CreditCounter<'a> {
    ghost visits = { λ cs ps a b. CountsBy cs ps a.contexts.contexts.items b.contexts.contexts.items a.counts b.counts };

    fn context(&mut self, context: &'a Context) {
        self.counts.context(context);
    }

    fn packet(&mut self, packet: &Packet) {
        self.counts.packet(&self.contexts, packet);
    }
}

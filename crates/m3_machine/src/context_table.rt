//! The contexts of activities, wherever they are.

ghost use Rattle.std.specs.Prelude.{◌≡◌, ℕ, length, replicate, None, IfOk, option_copied};
ghost use Rattle.m3_machine.specs.CreditCounts.{listed, EntersWhole};

use crate::traversal::Visitor;
use m3_base::packet::Packet;
use m3_core::context::Context;
use std::alloc::{AllocError, Global};

/// For each activity by its number its context, where it was visited.
#[derive(Drop)]
pub struct ContextTable<'a> {
    pub contexts: Vec<Option<&'a Context>>,
}

fn no_contexts<'a>(alloc: Global) -> Result<Vec<Option<&'a Context>>, AllocError>
    ensures { IfOk result (λ v. v.items ≡ replicate 256 None) }
{
    let mut contexts = Vec::new(alloc);
    for _ in 0..256u16 {
        contexts.push(None)?;
    }
    Ok(contexts)
}

impl<'a> ContextTable<'a> {
    /// No context was visited yet.
    pub fn new(alloc: Global) -> Result<ContextTable<'a>, AllocError>
        ensures { IfOk result (λ t. t.contexts.items ≡ replicate 256 None) }
    {
        let contexts = no_contexts(alloc)?;
        Ok(ContextTable { contexts })
    }

    /// The context of the activity of this number.
    pub fn get(&self, act: u8) -> Option<&'a Context>
        ensures { option_copied result ≡ listed self.now.contexts.items act }
    {
        match self.contexts.get(usize::from(act)) {
            Some(context) => *context,
            None => None,
        }
    }
}

impl<'a> Visitor<'a> for ContextTable<'a> {
    ghost visits = { λ cs ps a b. EntersWhole cs a.contexts.items b.contexts.items };

    fn context(&mut self, context: &'a Context) {
        let at = usize::from(context.act().number());
        if at < self.contexts.len() {
            self.contexts[at] = Some(context);
        }
    }

    fn packet(&mut self, _packet: &Packet) {}
}

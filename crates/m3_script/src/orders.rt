//! Orders to the kernel, by their words.

ghost use Rattle.std.specs.Prelude.{◌≡◌};
ghost use Rattle.m3_text.specs.Lines.{texts};
ghost use Rattle.m3_text.specs.Refusable.{Gives};
ghost use Rattle.m3_script.specs.Events.{switch_of, revoke_of, order_of};

use crate::grants::read_grant_line;
use m3_base::order::Order;
use m3_text::fields::{read_act, read_grant, read_tile};
use m3_text::refusal::{LineRefusal, Why};
use m3_text::shapes::{count_test, cut_first, word};

/// The order of these words.
#[tactic(auto, unfolding(crate::specs::Events::order_of))]
#[inline(always)]
pub fn read_order(words: &[&[u8]]) -> Result<Order, LineRefusal>
    ensures { Gives (λ o. o) result (order_of (texts words.now)) }
{
    let (first, rest) = cut_first(words);
    if first == b"switch".as_slice() {
        read_switch(rest)
    } else if first == b"grant".as_slice() {
        Ok(Order::Grant(read_grant_line(rest)?))
    } else if first == b"revoke".as_slice() {
        read_revoke(rest)
    } else {
        Err(LineRefusal::Bad(Why::Form))
    }
}

/// `switch T A`, by the words after the first.
#[tactic(auto, unfolding(crate::specs::Events::switch_of))]
#[inline(always)]
fn read_switch(words: &[&[u8]]) -> Result<Order, LineRefusal>
    ensures { Gives (λ o. o) result (switch_of (texts words.now)) }
{
    count_test(words, 2)?;
    let tile = read_tile(word(words, 0))?;
    let act = read_act(word(words, 1))?;
    Ok(Order::Switch { tile, act })
}

/// `revoke G`
#[tactic(auto, unfolding(crate::specs::Events::revoke_of))]
fn read_revoke(words: &[&[u8]]) -> Result<Order, LineRefusal>
    ensures { Gives (λ o. o) result (revoke_of (texts words.now)) }
{
    count_test(words, 1)?;
    let grant = read_grant(word(words, 0))?;
    Ok(Order::Revoke(grant))
}

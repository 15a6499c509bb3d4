//! Which contexts may come back to a tile.

ghost use Rattle.std.specs.Prelude.{◌≡◌, ◌&&◌, ◌≤◌, IsSome, length};
ghost use Rattle.std.specs.List.{list_all};
ghost use Rattle.m3_model.specs.Config.KnownActivities.{is_from_home, is_fetched_from_home, names_at, is_named_context, has_bounded_token, has_bounded_counters};
ghost use Rattle.m3_model.specs.Tile.Step.{may_return};
ghost use Rattle.m3_core.specs.MessageInvariant.{IsSoundRecord};
ghost use Rattle.m3_endpoint.specs.RecordView.{endpoint_of};
ghost use Rattle.m3_engine.specs.ReceiveRecordView.{unread_of, fetched_of};

use m3_base::ids::{ActId, EpId};
use m3_base::packet::Fresh;
use m3_core::context::Context;
use m3_endpoint::endpoint::Record;
use m3_endpoint::receive::ReceiveEp;
use m3_kernel::site::Site;

/// The largest next number and next token that a context may come back with: one more than a journal has entries.
const MOST_NEXT: u32 = 2_097_153;

/// Whether the unread messages are from activities of the setup.
fn names_unread(site: &Site, mailbox: &ReceiveEp) -> bool
    requires { IsSome mailbox.now }
    ensures { result ≡ list_all (is_from_home site.now) (unread_of mailbox.now) }
{
    for i in 0..mailbox.unread_len() {
        match mailbox.unread(i) {
            None => unreachable!(),
            Some(message) => {
                if !site.declares(message.header.sender.number()) {
                    return false;
                }
            }
        }
    }
    true
}

/// Whether the fetched messages are from activities of the setup.
fn names_fetched(site: &Site, mailbox: &ReceiveEp) -> bool
    requires { IsSome mailbox.now }
    ensures { result ≡ list_all (is_fetched_from_home site.now) (fetched_of mailbox.now) }
{
    for i in 0..mailbox.fetched_len() {
        match mailbox.fetched_message(i) {
            None => unreachable!(),
            Some(message) => {
                if !site.declares(message.header.sender.number()) {
                    return false;
                }
            }
        }
    }
    true
}

/// Whether the record and its messages name activities of the setup alone.
fn names_at(site: &Site, occupant: &Record) -> bool
    requires { IsSoundRecord occupant.now }
    ensures { result ≡ names_at site.now (endpoint_of occupant.now) }
{
    match occupant {
        Record::Free => true,
        Record::Send(record) => match record.fresh() {
            Fresh::Send { to, .. } => site.declares(to.number()),
            _ => unreachable!(),
        },
        Record::Receive(record) => names_unread(site, record) && names_fetched(site, record),
        Record::Memory(_) => true,
    }
}

/// Whether the next token of the record is low.
fn has_low_token(occupant: &Record) -> bool
    requires { IsSoundRecord occupant.now }
    ensures { result ≡ has_bounded_token (endpoint_of occupant.now) }
{
    match occupant {
        Record::Receive(record) => record.next_token() <= MOST_NEXT,
        _ => true,
    }
}

/// Whether the records and messages of a context name activities of the setup alone.
fn names_context(site: &Site, context: &Context) -> bool
    ensures { result ≡ is_named_context site.now context.now }
{
    for ep in 0..16u8 {
        if !names_at(site, context.endpoint(EpId::new(ep))) {
            return false;
        }
    }
    true
}

/// Whether the next tokens of a context are low.
fn has_low_tokens(context: &Context) -> bool
    ensures { result ≡ list_all has_bounded_token context.now.endpoints }
{
    for ep in 0..16u8 {
        if !has_low_token(context.endpoint(EpId::new(ep))) {
            return false;
        }
    }
    true
}

/// Whether the next number and the next tokens of a context are low.
fn has_low_numbers(context: &Context) -> bool
    ensures { result ≡ has_bounded_counters context.now }
{
    context.next_number() <= MOST_NEXT && has_low_tokens(context)
}

/// Whether this activity may come back with a context: it is its own, its records and messages name activities of the setup alone, and its next number and
/// next tokens are at most 2,097,153. It costs in proportion to the context.
pub fn may_return(site: &Site, act: ActId, context: &Context) -> bool
    ensures { result ≡ may_return site.now act context.now }
{
    context.act() == act && (names_context(site, context) && has_low_numbers(context))
}

//! One endpoint's part of each command.

ghost use Rattle.std.specs.Prelude.{◌≡◌, true, IfOk, OnErr, option_copied};
ghost use Rattle.m3_ideal.specs.Slots.{sent, replying, acknowledging, accessing, send_by, less_unless, Fetches};
ghost use Rattle.m3_base.specs.Ideal.EndpointStep.{changed_if, less_at, marking_at, after_fetch_at, freed_at, oldest_at, fetch_outcome};

use crate::letter::{Address, Letter};
use crate::records::SendEnd;
use crate::slot::{Record, Slot};
use m3_base::command::Refusal;
use m3_base::ids::{ActId, EpId, GrantId};
use std::alloc::AllocError;

/// Where a send goes, and what its header takes from the record.
#[derive(Clone, Copy, Debug, Drop)]
pub struct Target {
    pub to: ActId,
    pub ep: EpId,
    pub grant: GrantId,
    pub send: GrantId,
    pub label: u64,
}

/// Where a reply goes, and what its header takes from the message that it answers.
#[derive(Clone, Copy, Debug, Drop)]
pub struct Return {
    pub address: Address,
    pub send: GrantId,
    pub label: u64,
}

/// Who gets a credit back, and of which send grant.
#[derive(Clone, Copy, Debug, Drop)]
pub struct CreditTo {
    pub to: ActId,
    pub grant: GrantId,
}

/// The place of a read or write in memory, and its grant.
#[derive(Clone, Copy, Debug, Drop)]
pub struct Access {
    pub grant: GrantId,
    pub place: u32,
}

impl Slot {
    /// Takes a credit for a payload of this length.
    pub fn send(&mut self, bytes: usize, is_bad_reply: bool) -> Result<Target, Refusal>
        ensures answer { result ≡ sent bytes is_bad_reply self.old }
        ensures after { self.new ≡ changed_if result (less_at self.old) self.old }
    {
        match &mut self.record {
            Record::Send(r) => send_by(r, bytes, is_bad_reply),
            _ => Err(Refusal::NoEndpoint),
        }
    }

    /// Begins a reply of this length to the message of this token.
    pub fn begin_reply(&mut self, token: u32, bytes: usize) -> Result<Return, Refusal>
        ensures answer { result ≡ replying token bytes self.old }
        ensures after { self.new ≡ changed_if result (marking_at true token self.old) self.old }
    {
        let Record::Receive(r) = &mut self.record else {
            return Err(Refusal::NoEndpoint);
        };
        if r.closing() {
            return Err(Refusal::Revoked);
        }
        let Some(letter) = r.unmarked(token) else {
            return Err(Refusal::NoSuchToken);
        };
        let Some(address) = letter.address() else {
            return Err(Refusal::NoReplyWanted);
        };
        if bytes > 512 {
            return Err(Refusal::TooLarge);
        }
        let back = Return {
            address,
            send: letter.send(),
            label: letter.label(),
        };
        r.mark(token, true);
        Ok(back)
    }

    /// Fetches the oldest unread message. Err, and nothing has changed, where the next token is 4,294,967,295.
    pub fn fetch(&mut self) -> Result<Result<Option<u32>, Refusal>, AllocError>
        ensures fetches { IfOk result (λ r. Fetches r self.old self.new) }
        ensures kept { OnErr result (self.new ≡ self.old) }
    {
        let Record::Receive(r) = &mut self.record else {
            return Ok(Err(Refusal::NoEndpoint));
        };
        if r.closing() {
            return Ok(Err(Refusal::Revoked));
        }
        let token = r.fetch()?;
        Ok(Ok(token))
    }

    /// The oldest unread message of its receive record.
    pub fn front(&self) -> Option<&Letter>
        ensures { option_copied result ≡ oldest_at self.now }
    {
        match &self.record {
            Record::Receive(r) => r.front(),
            _ => None,
        }
    }

    /// Frees the slot of the message of this token. None for a reply, which owes no credit.
    pub fn acknowledge(&mut self, token: u32) -> Result<Option<CreditTo>, Refusal>
        ensures answer { result ≡ acknowledging token self.old }
        ensures after { self.new ≡ changed_if result (freed_at token self.old) self.old }
    {
        let Record::Receive(r) = &mut self.record else {
            return Err(Refusal::NoEndpoint);
        };
        if r.closing() {
            return Err(Refusal::Revoked);
        }
        let Some(letter) = r.unmarked(token) else {
            return Err(Refusal::NoSuchToken);
        };
        let credit = if letter.is_message() {
            Some(CreditTo {
                to: letter.sender(),
                grant: letter.send(),
            })
        } else {
            None
        };
        r.free(token);
        Ok(credit)
    }

    /// The place of a read or write of `len` bytes at the offset `off`. Err where it is above 4,294,967,295.
    pub fn access(
        &self,
        off: u32,
        len: usize,
        is_write: bool,
    ) -> Result<Result<Access, Refusal>, AllocError>
        ensures { IfOk result (λ r. r ≡ accessing off len is_write self.now) }
    {
        let Record::Memory(r) = &self.record else {
            return Ok(Err(Refusal::NoEndpoint));
        };
        if r.closing {
            return Ok(Err(Refusal::Revoked));
        }
        if len > 4096 {
            return Ok(Err(Refusal::TooLarge));
        }
        if u64::from(r.length) < u64::from(off) + len as u64 {
            return Ok(Err(Refusal::OutOfRange));
        }
        let allowed = if is_write {
            r.perm.may_write()
        } else {
            r.perm.may_read()
        };
        if !allowed {
            return Ok(Err(Refusal::NoPermission));
        }
        match r.start.checked_add(off) {
            None => Err(AllocError),
            Some(place) => Ok(Ok(Access {
                grant: r.grant,
                place,
            })),
        }
    }
}

// Takes a credit of this record.
fn send_by(r: &mut SendEnd, bytes: usize, is_bad_reply: bool) -> Result<Target, Refusal>
    ensures answer { result ≡ send_by r.old bytes is_bad_reply }
    ensures after { r.new ≡ less_unless result r.old }
{
    if r.closing {
        return Err(Refusal::Revoked);
    }
    if is_bad_reply {
        return Err(Refusal::BadReplyEndpoint);
    }
    if bytes > usize::from(r.size) {
        return Err(Refusal::TooLarge);
    }
    if r.held == 0 {
        return Err(Refusal::NoCredits);
    }
    r.held -= 1;
    Ok(Target {
        to: r.to,
        ep: r.to_ep,
        grant: r.to_grant,
        send: r.grant,
        label: r.label,
    })
}

//! Send records: the right to send to one receive endpoint, as often as there are credits.

ghost use Rattle.std.specs.Prelude.{◌≡◌, ℕ, ◌<◌, ◌≤◌, ◌↔◌, IsTrue, false, true};
ghost use Rattle.m3_base.specs.Ideal.Context.{Sends, new_endpoint};
ghost use Rattle.m3_base.specs.Ideal.Issue.{less_one};
ghost use Rattle.m3_base.specs.Ideal.Landing.{one_more};
ghost use Rattle.m3_base.specs.Ideal.Acceptance.{is_form};
ghost use Rattle.m3_endpoint.specs.RecordForms.{IsSendForm, send_form};

use m3_base::ids::{ActId, EpId, GrantId};
use m3_base::packet::Fresh;
use std::marker::Model;

/// A send record: where it sends to, its label, the largest payload in bytes, and its credits. It holds at most
/// `limit` of them.
#[derive(Debug, Drop)]
pub struct SendEp {
    grant: GrantId,
    to: ActId,
    to_ep: EpId,
    to_grant: GrantId,
    label: u64,
    size: u16,
    limit: u8,
    held: u8,
    closing: bool,
}

impl Model for SendEp {
    ghost use Rattle.m3_base.specs.Ideal.Context.{SendRecord};

    ghost Value = { SendRecord };

    ghost use Rattle.m3_endpoint.specs.SendView.{send_record, IsKept};

    ghost view = { send_record };

    ghost invariant = { IsKept };
}

impl SendEp {
    /// The record of a send form. It holds its limit.
    pub fn new(fresh: &Fresh) -> SendEp
        requires { IsSendForm fresh.now }
        ensures { Sends result ≡ new_endpoint fresh.now }
    {
        match fresh {
            Fresh::Send {
                grant,
                to,
                to_ep,
                to_grant,
                label,
                size,
                limit,
            } => SendEp {
                grant: *grant,
                to: *to,
                to_ep: *to_ep,
                to_grant: *to_grant,
                label: *label,
                size: *size,
                limit: *limit,
                held: *limit,
                closing: false,
            },
            _ => unreachable!(),
        }
    }

    /// Takes a credit. False, with nothing changed, exactly where none is held.
    #[inline(always)]
    pub fn take_credit(&mut self) -> bool
        ensures answer { IsTrue result ↔ (0 < self.old.held) }
        ensures taken { IsTrue result → self.new ≡ less_one self.old }
        ensures none { result ≡ false → self.new ≡ self.old }
    {
        if self.held == 0 {
            return false;
        }
        self.held -= 1;
        true
    }

    /// A credit comes back.
    #[inline(always)]
    pub fn give_credit(&mut self)
        requires { self.old.held < self.old.limit }
        ensures { self.new ≡ one_more self.old }
    {
        self.held += 1;
    }

    /// The record is closing from now on.
    pub fn close(&mut self)
        ensures { self.new ≡ record self.old { closing = true } }
    {
        self.closing = true;
    }

    /// The form that it was made of.
    pub fn fresh(&self) -> Fresh
        ensures same { result ≡ send_form self.now }
        ensures form { IsTrue (is_form result) }
    {
        Fresh::Send {
            grant: self.grant,
            to: self.to,
            to_ep: self.to_ep,
            to_grant: self.to_grant,
            label: self.label,
            size: self.size,
            limit: self.limit,
        }
    }

    /// The credits held.
    #[inline(always)]
    pub fn held(&self) -> u8
        ensures held { result ≡ self.now.held }
        ensures limit { result ≤ self.now.limit }
    {
        self.held
    }

    /// Whether it is closing.
    #[inline(always)]
    pub fn closing(&self) -> bool
        ensures { result ≡ self.now.closing }
    {
        self.closing
    }

    /// Its grant.
    #[inline(always)]
    pub fn grant(&self) -> GrantId
        ensures { result ≡ self.now.grant }
    {
        self.grant
    }

    /// The activity that it sends to.
    #[inline(always)]
    pub fn to(&self) -> ActId
        ensures { result ≡ self.now.to }
    {
        self.to
    }

    /// The endpoint that it sends to.
    #[inline(always)]
    pub fn to_ep(&self) -> EpId
        ensures { result ≡ self.now.to_ep }
    {
        self.to_ep
    }

    /// The receive grant that it sends to.
    #[inline(always)]
    pub fn to_grant(&self) -> GrantId
        ensures { result ≡ self.now.to_grant }
    {
        self.to_grant
    }

    /// What its messages say of their sender.
    #[inline(always)]
    pub fn label(&self) -> u64
        ensures { result ≡ self.now.label }
    {
        self.label
    }

    /// The largest payload, in bytes.
    #[inline(always)]
    pub fn size(&self) -> u16
        ensures same { result ≡ self.now.size }
        ensures range { result ≤ 512 }
    {
        self.size
    }

    /// How many credits it holds at most.
    #[inline(always)]
    pub fn limit(&self) -> u8
        ensures { result ≡ self.now.limit }
    {
        self.limit
    }
}

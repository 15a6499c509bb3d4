//! Orders: switches, grants and revokes; and the Closes that revokes make due.

ghost use Rattle.std.specs.Prelude.{◌≡◌, ◌+◌, IfOk, OnErr, Err, None, Some};
ghost use Rattle.m3_base.specs.declared.order.Order.{Order};
ghost use Rattle.m3_base.specs.Ideal.State.{holder};
ghost use Rattle.m3_base.specs.Placement.Order.{least_closing};
ghost use Rattle.m3_model.specs.Kernel.Step.{entry_of, kernel_id, kernel_order, kernel_close};
ghost use Rattle.m3_kernel.specs.KernelStateView.{kernel_in, IsKept, CanRoute};
ghost use Rattle.m3_kernel.specs.OrderAnswers.{HasNumber, HolderIsSeated, HoldersAreSeated, IsNoneDue, MayTakeMemory, Orders, Closes, is_sent};
ghost use Rattle.m3_kernel.specs.StepContracts.{IsSeatOf, DueCloseIs, IsDueClose};
ghost use Rattle.m3_kernel.specs.declared.order.OrderRefusal.{OrderRefusal};

use crate::order::{CloseSent, OrderRefusal, Ordered};
use crate::state::State;
use m3_base::ids::{ActId, EpId, FlightId, GrantId};
use m3_base::limits::KERNEL;
use m3_base::order::{GrantLine, Order};
use m3_base::packet::Packet;
use std::alloc::AllocError;

/// A grant whose Close is due, and its holder's endpoint.
#[derive(Clone, Copy, Debug, Drop)]
pub struct DueClose {
    grant: GrantId,
    act: ActId,
    ep: EpId,
}

impl State {
    /// The name of the kernel's next packet, whose number is then used.
    fn next_id(&mut self) -> FlightId
        requires { HasNumber (kernel_in self.old) }
        ensures id { result ≡ kernel_id (kernel_in self.old) }
        ensures used { self.new ≡ record self.old { next = self.old.next + 1 } }
    {
        let number = self.next;
        self.next += 1;
        FlightId {
            issuer: KERNEL,
            number,
        }
    }

    /// The grant is made, and its Install goes to the holder, whose seat is at this place.
    fn make(&mut self, at: usize, line: GrantLine) -> Result<Ordered, OrderRefusal>
        requires kept { IsKept self.old }
        requires place { IsSeatOf (kernel_in self.old) (holder line) at }
        requires room { CanRoute self.old at }
        requires number { HasNumber (kernel_in self.old) }
        ensures kept { IsKept self.new }
        ensures site { self.new.site ≡ self.old.site }
        ensures orders { Orders result (kernel_in self.old) (kernel_in self.new)
            (kernel_order self.old.site (kernel_in self.old) (Order.Grant line)) }
    {
        let grant = self.grants.make(line)?;
        let Some(fresh) = self.grants.fresh(grant) else {
            unreachable!()
        };
        let id = self.next_id();
        let (to, ep) = (line.act(), line.ep());
        let emit = self.route(at, Packet::Install { id, to, ep, fresh });
        Ok(Ordered::Granted { grant, id, emit })
    }

    /// A grant. Room for its Install is taken first.
    fn grant(&mut self, line: GrantLine) -> Result<Ordered, OrderRefusal>
        requires kept { IsKept self.old }
        requires seated { HolderIsSeated (kernel_in self.old) (Order.Grant line) }
        requires number { HasNumber (kernel_in self.old) }
        ensures kept { IsKept self.new }
        ensures site { self.new.site ≡ self.old.site }
        ensures orders { Orders result (kernel_in self.old) (kernel_in self.new)
            (kernel_order self.old.site (kernel_in self.old) (Order.Grant line)) }
    {
        let Some(at) = self.place(line.act().number()) else {
            unreachable!()
        };
        self.reserve(at)?;
        self.make(at, line)
    }

    /// A revoke. It takes no memory, and nothing goes out yet.
    fn revoke(&mut self, grant: GrantId) -> Result<Ordered, OrderRefusal>
        requires { IsKept self.old }
        ensures kept { IsKept self.new }
        ensures site { self.new.site ≡ self.old.site }
        ensures orders { Orders result (kernel_in self.old) (kernel_in self.new)
            (kernel_order self.old.site (kernel_in self.old) (Order.Revoke grant)) }
    {
        self.grants.revoke(grant)?;
        Ok(Ordered::Revoking(grant))
    }

    /// An order is carried out. After a refusal the kernel is as before.
    pub fn order(&mut self, order: Order) -> Result<Ordered, OrderRefusal>
        requires kept { IsKept self.old }
        requires seated { HolderIsSeated (kernel_in self.old) order }
        requires number { HasNumber (kernel_in self.old) }
        ensures kept { IsKept self.new }
        ensures site { self.new.site ≡ self.old.site }
        ensures orders { Orders result (kernel_in self.old) (kernel_in self.new)
            (kernel_order self.old.site (kernel_in self.old) order) }
        ensures memory { result ≡ Err OrderRefusal.NoMemory → MayTakeMemory order }
    {
        match order {
            Order::Switch { tile, act } => self.switch(tile, act),
            Order::Grant(line) => self.grant(line),
            Order::Revoke(grant) => self.revoke(grant),
        }
    }

    /// The grant whose Close is due next.
    fn due_close(&self) -> Option<DueClose>
        ensures { DueCloseIs (kernel_in self.now) result }
    {
        let grant = self.grants.next_close()?;
        let (act, ep) = self.grants.holder(grant)?;
        Some(DueClose { grant, act, ep })
    }

    /// The Close goes to the holder, whose seat is at this place.
    fn send_close(&mut self, at: usize, due: DueClose) -> CloseSent
        requires kept { IsKept self.old }
        requires due { IsDueClose (kernel_in self.old) due }
        requires place { IsSeatOf (kernel_in self.old) due.act at }
        requires room { CanRoute self.old at }
        requires number { HasNumber (kernel_in self.old) }
        ensures kept { IsKept self.new }
        ensures site { self.new.site ≡ self.old.site }
        ensures grant { result.grant ≡ due.grant }
        ensures closes { kernel_close self.old.site (kernel_in self.old) ≡ is_sent result (kernel_in self.new) }
    {
        let DueClose { grant, act: to, ep } = due;
        self.grants.sent(grant);
        let id = self.next_id();
        let emit = self.route(at, Packet::Close { id, to, ep, grant });
        CloseSent { grant, id, emit }
    }

    /// The Close that is due goes to the grant's holder. Room for it is taken first.
    pub fn close(&mut self) -> Result<Option<CloseSent>, AllocError>
        requires kept { IsKept self.old }
        requires number { HasNumber (kernel_in self.old) }
        ensures kept { IsKept self.new }
        ensures site { self.new.site ≡ self.old.site }
        ensures ok { IfOk result (λ r. Closes r (kernel_in self.new) (kernel_close self.old.site (kernel_in self.old))) }
        ensures due { HoldersAreSeated (kernel_in self.old) → IfOk result (λ r. IsNoneDue r (kernel_in self.old)) }
        ensures err { OnErr result (kernel_in self.new ≡ kernel_in self.old) }
    {
        let Some(due) = self.due_close() else {
            return Ok(None);
        };
        let Some(at) = self.place(due.act.number()) else {
            return Ok(None);
        };
        self.reserve(at)?;
        Ok(Some(self.send_close(at, due)))
    }
}

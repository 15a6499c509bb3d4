//! The kernel: it counts where each activity is, keeps the contexts of those that are away and what is held for them,
//! and routes packets.

ghost use Rattle.std.specs.Prelude.{◌≡◌, Some, true, IfOk, IfErr, OnErr, Err, option_copied, option_map, length, slice_get};
ghost use Rattle.m3_base.specs.declared.event.Event.{Event};
ghost use Rattle.m3_kernel.specs.ParcelView.{parcel_of};
ghost use Rattle.m3_model.specs.Kernel.Driver.{least_tend, next_switch};
ghost use Rattle.m3_model.specs.Kernel.Step.{entry_of, kernel_take, kernel_tend, kernel_order, kernel_close};
ghost use Rattle.m3_kernel.specs.ActivityView.{seats_of, place_of};
ghost use Rattle.m3_kernel.specs.OrderAnswers.{HasNumber, HolderIsSeated, HoldersAreSeated, IsNoneDue, MayTakeMemory, Orders, Closes};
ghost use Rattle.m3_kernel.specs.StepContracts.{Does};
ghost use Rattle.m3_kernel.specs.declared.order.OrderRefusal.{OrderRefusal};
ghost use Rattle.m3_model.specs.SetupOpening.{opened_site};
ghost use Rattle.m3_kernel.specs.KernelOpening.{opened_kernel, CanOpen, AreLeft};
ghost use Rattle.m3_kernel.specs.KernelQueries.{hold_in, context_of_seat, is_seated, SeatIs};

use crate::done::Done;
use crate::driver::least_tend;
use crate::order::{CloseSent, OrderRefusal, Ordered};
use crate::seat::{Place, Seat};
use crate::site::Site;
use crate::state::State;
use m3_base::ids::ActId;
use m3_base::order::Order;
use m3_base::packet::Packet;
use m3_base::setup::Setup;
use m3_core::context::Context;
use m3_core::parcel::Parcel;
use m3_grants::grants::Grants;
use std::alloc::{AllocError, Global};
use std::marker::Model;

/// The kernel of a machine. Contracts see it as a kernel at its site.
#[derive(Drop)]
pub struct Kernel {
    state: State,
}

impl Model for Kernel {
    ghost use Rattle.m3_kernel.specs.KernelStateView.{KernelAt};

    ghost Value = { KernelAt };

    ghost use Rattle.m3_kernel.specs.KernelView.{kernel_at, IsWhole};

    ghost view = { kernel_at };

    ghost invariant = { IsWhole };
}

impl Kernel {
    /// The whole kernel of a setup. Each declared activity has its seat: the first of each tile is Placed, and any other
    /// rests with its context. These contexts are taken out of the table, which has those of the setup's opening, by the
    /// activities' numbers; the others are left in it.
    pub fn new(
        alloc: Global,
        setup: &Setup,
        contexts: &mut Vec<Option<Context>>,
    ) -> Result<Kernel, AllocError>
        requires { CanOpen setup.now contexts.old.items }
        ensures site { IfOk result (λ k. k.site ≡ opened_site setup.now) }
        ensures kernel { IfOk result (λ k. k.kernel ≡ opened_kernel setup.now) }
        ensures left { IfOk result (λ k. AreLeft k.kernel contexts.old.items contexts.new.items) }
    {
        let state = State::open(alloc, setup, contexts)?;
        Ok(Kernel { state })
    }

    /// Where the setup's activities have their homes.
    pub fn site(&self) -> &Site
        ensures { result.now ≡ self.now.site }
    {
        &self.state.site
    }

    /// The kernel's grants.
    pub fn grants(&self) -> &Grants
        ensures grants { result.now.grants ≡ self.now.kernel.grants }
        ensures memory { result.now.memory ≡ self.now.site.memory }
    {
        &self.state.grants
    }

    /// The number of the kernel's next packet.
    pub fn next_number(&self) -> u32
        ensures { result ≡ self.now.kernel.next }
    {
        self.state.next
    }

    /// The seats, in the order in which the activities were declared.
    pub fn seats(&self) -> &[Seat]
        ensures { seats_of result.now ≡ self.now.kernel.seats }
    {
        self.state.seats.as_slice()
    }

    /// The seat of an activity. None exactly where it has none.
    pub fn seat_of(&self, act: ActId) -> Option<&Seat>
        ensures { SeatIs (entry_of act self.now.kernel) (option_copied result) }
    {
        match self.state.place(act.number()) {
            None => None,
            Some(at) => Some(&self.state.seats[at]),
        }
    }

    /// How an activity is counted. The condition is that it has a seat.
    pub fn place(&self, act: ActId) -> Place
        requires { is_seated (entry_of act self.now.kernel) ≡ true }
        ensures { Some result ≡ option_map (λ x. place_of x.seating) (entry_of act self.now.kernel) }
    {
        match self.seat_of(act) {
            None => unreachable!(),
            Some(seat) => seat.place(),
        }
    }

    /// How many packets are held for an activity.
    pub fn hold_len(&self, act: ActId) -> usize
        ensures { result ≡ length (hold_in (entry_of act self.now.kernel)) }
    {
        match self.seat_of(act) {
            None => 0,
            Some(seat) => seat.hold().len(),
        }
    }

    /// The packet at this place of an activity's hold list, oldest first.
    pub fn held(&self, act: ActId, at: usize) -> Option<&Packet>
        ensures { option_copied result ≡ slice_get (hold_in (entry_of act self.now.kernel)) at }
    {
        match self.seat_of(act) {
            None => None,
            Some(seat) => seat.hold().get(at),
        }
    }

    /// The context of an activity that is Resting or Coming. None where the kernel has none.
    pub fn context(&self, act: ActId) -> Option<&Context>
        ensures { option_copied result ≡ context_of_seat (entry_of act self.now.kernel) }
    {
        match self.seat_of(act) {
            None => None,
            Some(seat) => seat.context(),
        }
    }

    /// The kernel takes a parcel. One that doesn't fit is dropped, and the outcome is idle empty-link. At most one parcel
    /// goes out. Out of memory, it changes nothing and gives the parcel back.
    pub fn take(&mut self, parcel: Parcel) -> Result<Done, (Parcel, AllocError)>
        ensures site { self.new.site ≡ self.old.site }
        ensures ok { IfOk result (λ d. Does d self.new.kernel (kernel_take self.old.site self.old.kernel (parcel_of parcel))) }
        ensures err { OnErr result (self.new ≡ self.old) }
        ensures given_back { IfErr result (λ e. e.0 ≡ parcel) }
    {
        self.state.take(parcel)
    }

    /// The front of an activity's hold list is applied to its context: idle not-resting where it is Placed or Leaving,
    /// then idle empty-hold where nothing that fits is held. First the answer or Closed goes out, then Restore. Want of
    /// memory changes nothing.
    pub fn tend(&mut self, alloc: Global, act: ActId) -> Result<Done, AllocError>
        ensures site { self.new.site ≡ self.old.site }
        ensures ok { IfOk result (λ d. Does d self.new.kernel (kernel_tend self.old.site self.old.kernel act)) }
        ensures err { OnErr result (self.new ≡ self.old) }
    {
        self.state.tend(alloc, act)
    }

    /// An order is carried out: a switch, where Save goes to who is at the tile; a grant, whose Install goes to the
    /// holder, or is held where the holder is away; or a revoke. A switch is refused where the tile isn't the activity's
    /// home, then where it is Placed or Coming already, then where a switch of the tile is under way; it takes no memory.
    /// After a refusal, out of memory among them, the kernel is as before.
    pub fn order(&mut self, order: Order) -> Result<Ordered, OrderRefusal>
        requires seated { HolderIsSeated self.old.kernel order }
        requires number { HasNumber self.old.kernel }
        ensures site { self.new.site ≡ self.old.site }
        ensures orders { Orders result self.old.kernel self.new.kernel (kernel_order self.old.site self.old.kernel order) }
        ensures memory { result ≡ Err OrderRefusal.NoMemory → MayTakeMemory order }
    {
        self.state.order(order)
    }

    /// The Close of the grant that is due goes to its holder, or is held where the holder is away. None exactly where no
    /// grant is due: each grant's holder has a seat, for a setup's grants and by the condition of `order`. Out of memory,
    /// it changes nothing.
    pub fn close(&mut self) -> Result<Option<CloseSent>, AllocError>
        requires { HasNumber self.old.kernel }
        ensures site { self.new.site ≡ self.old.site }
        ensures ok { IfOk result (λ r. Closes r self.new.kernel (kernel_close self.old.site self.old.kernel)) }
        ensures due { HoldersAreSeated self.old.kernel → IfOk result (λ r. IsNoneDue r self.old.kernel) }
        ensures err { OnErr result (self.new ≡ self.old) }
    {
        self.state.close()
    }

    /// The activity with the least number among those that are Resting or Coming and for which something is held.
    pub fn least_tend(&self) -> Option<ActId>
        ensures { result ≡ least_tend self.now.kernel.seats }
    {
        least_tend(&self.state)
    }

    /// The switch of the least tile that wants one, to the front of its ready list; None exactly where no tile wants a
    /// switch. A tile wants one where no switch is under way there, a Yield of its Placed activity was taken in this stay,
    /// and somebody is ready.
    pub fn wanted(&self) -> Option<Order>
        ensures { option_map Event.Order result ≡ next_switch self.now.site self.now.kernel }
    {
        self.state.wanted()
    }
}

//! What no clause says: that the kernel answers where memory suffices.

use m3_base::ids::{ActId, EpId, FlightId, GrantId, TileId};
use m3_base::message::{Header, Message};
use m3_base::order::{GrantLine, Order};
use m3_base::packet::Packet;
use m3_base::payload::Payload;
use m3_base::setup::{Setup, SetupRefusal};
use m3_base::setup_line::SetupLine;
use m3_core::context::Context;
use m3_core::parcel::{Emit, Parcel};
use m3_engine::opening::initial_contexts;
use m3_kernel::done::{Done, done_by_order};
use m3_kernel::kernel::Kernel;
use std::alloc::{AllocError, Global};

/// Activities 0 and 1 have their home on tile 2, and 1 has a mailbox of two slots at endpoint 0.
fn setup(alloc: Global) -> Result<Setup, SetupRefusal> {
    let tile = TileId::new(2);
    let mut setup = Setup::new(alloc, 4, 4096)?;
    setup.add(SetupLine::Act {
        act: ActId::new(0),
        tile,
    })?;
    setup.add(SetupLine::Act {
        act: ActId::new(1),
        tile,
    })?;
    setup.add(SetupLine::Grant(GrantLine::Recv {
        act: ActId::new(1),
        ep: EpId::new(0),
        slots: 2,
        size: 16,
    }))?;
    Ok(setup)
}

/// An empty message of an activity to the mailbox of activity 1.
fn message(alloc: Global, sender: ActId) -> Parcel {
    let header = Header {
        flags: 0,
        reply_ep: 255,
        sender,
        lane: 0,
        length: 0,
        send: 2,
        reply: 0,
        number: 1,
        label: 7,
    };
    Parcel::Data(Packet::Message {
        to: ActId::new(1),
        ep: EpId::new(0),
        grant: GrantId::new(1),
        message: Message {
            header,
            payload: Payload::new(Vec::new(alloc)),
        },
    })
}

/// The kernel closes the mailbox.
fn close() -> Parcel {
    Parcel::Data(Packet::Close {
        id: FlightId {
            issuer: 64,
            number: 1,
        },
        to: ActId::new(1),
        ep: EpId::new(0),
        grant: GrantId::new(1),
    })
}

/// An event of the kernel.
#[derive(Clone, Copy, Debug, Drop)]
enum Step {
    Switch(TileId, ActId),
    Message,
    MessageOf(ActId),
    Close,
    Saved,
    Rests {
        act: ActId,
        waiting: bool,
        ended: bool,
    },
    Yield(ActId),
    Save(ActId),
    Closed,
    Tend(ActId),
}

fn take(kernel: &mut Kernel, parcel: Parcel) -> Result<Done, AllocError> {
    match kernel.take(parcel) {
        Ok(done) => Ok(done),
        Err((_, error)) => Err(error),
    }
}

/// A switch, while the kernel has few packets of its own.
fn switch(kernel: &mut Kernel, tile: TileId, act: ActId) -> Result<Done, AllocError> {
    if kernel.next_number() < 1000 {
        done_by_order(kernel.order(Order::Switch { tile, act }))
    } else {
        Err(AllocError)
    }
}

/// The activity's tile has saved it, with a new context.
fn saved(
    alloc: Global,
    kernel: &mut Kernel,
    act: ActId,
    waiting: bool,
    ended: bool,
) -> Result<Done, AllocError> {
    let context = Context::new(alloc, act)?;
    take(
        kernel,
        Parcel::Saved {
            act,
            context,
            waiting,
            ended,
        },
    )
}

fn run(alloc: Global, kernel: &mut Kernel, step: Step) -> Result<Done, AllocError> {
    match step {
        Step::Switch(tile, act) => switch(kernel, tile, act),
        Step::Message => take(kernel, message(alloc, ActId::new(0))),
        Step::MessageOf(sender) => take(kernel, message(alloc, sender)),
        Step::Close => take(kernel, close()),
        Step::Saved => saved(alloc, kernel, ActId::new(0), false, false),
        Step::Rests {
            act,
            waiting,
            ended,
        } => saved(alloc, kernel, act, waiting, ended),
        Step::Yield(act) => take(kernel, Parcel::Yield(act)),
        Step::Save(act) => take(kernel, Parcel::Save(act)),
        Step::Closed => take(kernel, Parcel::Closed(GrantId::new(1))),
        Step::Tend(act) => kernel.tend(alloc, act),
    }
}

fn tile(emit: &Option<Emit>) -> u8 {
    match emit {
        None => 99,
        Some(emit) => emit.to.number(),
    }
}

/// What is said, who is restored, and the tiles of what goes out, 99 where nothing does.
fn text(alloc: Global, done: &Done) -> Result<String, AllocError> {
    format!(in alloc;
        "{:?} {:?} {} {}",
        done.outcome.said,
        done.outcome.restore,
        tile(&done.first),
        tile(&done.second)
    )
}

/// A switch is refused for its reasons in order; what comes for an activity that is away is held; and Restore goes out
/// only with the last packet that was held for it.
#[test]
fn a_switch_waits_for_what_is_held(rt: HostRuntime) {
    let alloc = rt.alloc();
    let setup = setup(alloc).expect(&rt, "the lines are fine");
    let mut table = initial_contexts(alloc, &setup).expect(&rt, "memory");
    let mut kernel = Kernel::new(alloc, &setup, &mut table).expect(&rt, "memory");
    let zero = ActId::new(0);
    let one = ActId::new(1);
    let home = TileId::new(2);
    for (step, expected) in [
        (Step::Switch(TileId::new(3), one), "No(NotHome) None 99 99"),
        (Step::Switch(home, zero), "No(Already) None 99 99"),
        (Step::Tend(zero), "Idle(NotResting) None 99 99"),
        (Step::Tend(one), "Idle(EmptyHold) None 99 99"),
        (
            Step::Message,
            "Held(FlightId { issuer: 0, number: 1 }, ActId { number: 1 }) None 99 99",
        ),
        (Step::Yield(zero), "Yielded(ActId { number: 0 }) None 99 99"),
        (
            Step::Switch(home, one),
            "Save(ActId { number: 0 }) None 2 99",
        ),
        (Step::Switch(home, one), "No(Already) None 99 99"),
        (Step::Switch(home, zero), "No(Leaving) None 99 99"),
        (Step::Save(zero), "Idle(EmptyLink) None 99 99"),
        (Step::Closed, "Idle(EmptyLink) None 99 99"),
        (
            Step::Close,
            "Held(FlightId { issuer: 64, number: 1 }, ActId { number: 1 }) None 99 99",
        ),
        (Step::Saved, "Saved(ActId { number: 0 }) None 99 99"),
        (
            Step::Tend(one),
            "Landed(FlightId { issuer: 0, number: 1 }) None 99 99",
        ),
        (
            Step::Tend(one),
            "Closed(FlightId { issuer: 64, number: 1 }, GrantId { number: 1 }) Some(ActId { number: 1 }) 0 2",
        ),
        (Step::Tend(zero), "Idle(EmptyHold) None 99 99"),
        (
            Step::Message,
            "Routed(FlightId { issuer: 0, number: 1 }) None 2 99",
        ),
        (
            Step::Switch(home, zero),
            "Save(ActId { number: 1 }) None 2 99",
        ),
    ] {
        let done = run(alloc, &mut kernel, step).expect(&rt, "memory");
        let told = text(alloc, &done).expect(&rt, "memory");
        assert_eq!(rt; told.as_str(), expected);
    }
    assert_eq!(rt; kernel.hold_len(zero), 1);
}

/// Activities 0, 1 and 2 have their home on tile 2, and a program each; 3 has its home on tile 3.
fn programmed(alloc: Global) -> Result<Setup, SetupRefusal> {
    let mut setup = setup(alloc)?;
    setup.add(SetupLine::Act {
        act: ActId::new(2),
        tile: TileId::new(2),
    })?;
    setup.add(SetupLine::Act {
        act: ActId::new(3),
        tile: TileId::new(3),
    })?;
    for act in 0..3u8 {
        setup.add(SetupLine::AwaitItem(ActId::new(act), EpId::new(0)))?;
    }
    Ok(setup)
}

/// The activity's tile has saved it, with this told of its program.
fn rests(act: ActId, waiting: bool, ended: bool) -> Step {
    Step::Rests {
        act,
        waiting,
        ended,
    }
}

/// Whom an order switches to; 99 for another order.
fn switched_to(order: &Order) -> u8 {
    match order {
        Order::Switch { act, .. } => act.number(),
        _ => 99,
    }
}

/// Whom the least tile that wants a switch wants; 99 where none wants one.
fn wanted(kernel: &Kernel) -> u8 {
    match kernel.wanted() {
        Some(order) => switched_to(&order),
        None => 99,
    }
}

/// A tile wants a switch once its Placed activity has yielded, while somebody is ready and nobody moves. Who rests at
/// opening is ready; who is saved is so where it neither waits nor has ended; who waited is so when a packet is applied.
#[test]
fn a_yield_wants_the_front_of_the_ready_list(rt: HostRuntime) {
    let alloc = rt.alloc();
    let setup = programmed(alloc).expect(&rt, "the lines are fine");
    let mut table = initial_contexts(alloc, &setup).expect(&rt, "memory");
    let mut kernel = Kernel::new(alloc, &setup, &mut table).expect(&rt, "memory");
    let zero = ActId::new(0);
    let one = ActId::new(1);
    let two = ActId::new(2);
    let home = TileId::new(2);
    assert_eq!(rt; wanted(&kernel), 99);
    for (step, expected) in [
        // 1 and 2 are ready from opening on
        (Step::Yield(zero), 1),
        (Step::Switch(home, one), 99),
        (rests(zero, false, false), 99),
        // 2 stands before 0, which joined at the back
        (Step::Yield(one), 2),
        (Step::Switch(home, two), 99),
        // 1 waits, so it isn't ready until a message lands
        (rests(one, true, false), 99),
        (Step::Yield(two), 0),
        (Step::MessageOf(ActId::new(3)), 0),
        (Step::Tend(one), 0),
        (Step::Switch(home, zero), 99),
        // 2 has ended
        (rests(two, false, true), 99),
        (Step::Yield(zero), 1),
        (Step::Switch(home, one), 99),
        (rests(zero, true, false), 99),
        // nobody is ready
        (Step::Yield(one), 99),
    ] {
        run(alloc, &mut kernel, step).expect(&rt, "memory");
        assert_eq!(rt; wanted(&kernel), expected);
    }
}

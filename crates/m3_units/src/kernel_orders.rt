//! What no clause says: that orders and Closes are carried out where memory suffices.

ghost use Rattle.m3_kernel.specs.OrderAnswers.{HasNumber};

use m3_base::ids::{ActId, EpId, GrantId, TileId};
use m3_base::order::{GrantLine, Order};
use m3_base::packet::Perm;
use m3_base::setup::{Setup, SetupRefusal};
use m3_base::setup_line::SetupLine;
use m3_core::parcel::{Emit, Parcel};
use m3_engine::opening::initial_contexts;
use m3_kernel::kernel::Kernel;
use m3_kernel::order::{CloseSent, OrderRefusal, Ordered};
use std::alloc::{AllocError, Global};

/// A mailbox at endpoint 0 of activity 1.
fn mailbox() -> GrantLine {
    GrantLine::Recv {
        act: ActId::new(1),
        ep: EpId::new(0),
        slots: 2,
        size: 16,
    }
}

/// Bytes that may be read, at endpoint 1 of activity 0.
fn bytes() -> GrantLine {
    GrantLine::Range {
        act: ActId::new(0),
        ep: EpId::new(1),
        at: 0,
        len: 64,
        perm: Perm::R,
    }
}

/// Part of the bytes, for activity 0.
fn part(len: u32, perm: Perm) -> GrantLine {
    GrantLine::Part {
        act: ActId::new(0),
        ep: EpId::new(3),
        of: GrantId::new(2),
        at: 0,
        len,
        perm,
    }
}

/// Credits for a mailbox, for activity 0.
fn credits(of: GrantId) -> GrantLine {
    GrantLine::Send {
        act: ActId::new(0),
        ep: EpId::new(2),
        of,
        label: 7,
        credits: 1,
    }
}

/// All of the memory, at endpoint 4 of activity 1.
fn memory() -> GrantLine {
    GrantLine::Range {
        act: ActId::new(1),
        ep: EpId::new(4),
        at: 0,
        len: 4096,
        perm: Perm::Rw,
    }
}

/// Activities 0 and 1 have their home on tile 2. Grant 1 is the mailbox, and grant 2 are the bytes.
fn setup(alloc: Global) -> Result<Setup, SetupRefusal> {
    let tile = TileId::new(2);
    let mut setup = Setup::new(alloc, 4, 4096)?;
    setup.add(SetupLine::Act {
        act: ActId::new(0),
        tile,
    })?;
    setup.add(SetupLine::Act {
        act: ActId::new(1),
        tile,
    })?;
    setup.add(SetupLine::Grant(mailbox()))?;
    setup.add(SetupLine::Grant(bytes()))?;
    Ok(setup)
}

/// What the kernel is asked.
#[derive(Clone, Copy, Debug, Drop)]
enum Step {
    Order(Order),
    Close,
    /// The endpoint of this grant became free.
    Closed(GrantId),
}

fn switched(tile: TileId, act: ActId) -> Step {
    Step::Order(Order::Switch { tile, act })
}

fn made(line: GrantLine) -> Step {
    Step::Order(Order::Grant(line))
}

fn revoked(grant: GrantId) -> Step {
    Step::Order(Order::Revoke(grant))
}

fn emit_text(alloc: Global, emit: &Option<Emit>) -> Result<String, AllocError> {
    match emit {
        None => format!(in alloc; "held"),
        Some(emit) => format!(in alloc; "to {}", emit.to),
    }
}

fn order_text(alloc: Global, answer: &Result<Ordered, OrderRefusal>) -> Result<String, AllocError> {
    match answer {
        Ok(ordered) => ordered_text(alloc, ordered),
        Err(why) => format!(in alloc; "{why}"),
    }
}

fn ordered_text(alloc: Global, ordered: &Ordered) -> Result<String, AllocError> {
    match ordered {
        Ordered::Save { leaving, emit } => format!(in alloc; "save {leaving} to {}", emit.to),
        Ordered::Granted { grant, id, emit } => {
            let out = emit_text(alloc, emit)?;
            format!(in alloc; "granted {grant} {id} {out}")
        }
        Ordered::Revoking(grant) => format!(in alloc; "revoking {grant}"),
    }
}

fn close_text(alloc: Global, sent: &Option<CloseSent>) -> Result<String, AllocError> {
    match sent {
        None => format!(in alloc; "none"),
        Some(sent) => {
            let out = emit_text(alloc, &sent.emit)?;
            format!(in alloc; "close {} {} {out}", sent.grant, sent.id)
        }
    }
}

/// A grant to an activity that has a seat.
fn grant(kernel: &mut Kernel, line: GrantLine) -> Option<Result<Ordered, OrderRefusal>>
    requires { HasNumber kernel.old.kernel }
{
    match kernel.seat_of(line.act()) {
        None => None,
        Some(_) => Some(kernel.order(Order::Grant(line))),
    }
}

fn order(kernel: &mut Kernel, order: Order) -> Option<Result<Ordered, OrderRefusal>>
    requires { HasNumber kernel.old.kernel }
{
    match order {
        Order::Grant(line) => grant(kernel, line),
        Order::Switch { tile, act } => Some(kernel.order(Order::Switch { tile, act })),
        Order::Revoke(grant) => Some(kernel.order(Order::Revoke(grant))),
    }
}

fn run(alloc: Global, kernel: &mut Kernel, step: Step) -> Result<String, AllocError> {
    if kernel.next_number() > 1000 {
        return Err(AllocError);
    }
    match step {
        Step::Order(asked) => match order(kernel, asked) {
            None => Err(AllocError),
            Some(answer) => order_text(alloc, &answer),
        },
        Step::Close => {
            let sent = kernel.close()?;
            close_text(alloc, &sent)
        }
        Step::Closed(grant) => match kernel.take(Parcel::Closed(grant)) {
            Ok(done) => format!(in alloc; "{:?}", done.outcome.said),
            Err((_, error)) => Err(error),
        },
    }
}

/// An order is refused for its reasons; an Install and a Close go to who is placed, and are held for who is away; and a
/// grant's Close goes out only once its children are done.
#[test]
fn orders_and_closes_are_carried_out(rt: HostRuntime) {
    let alloc = rt.alloc();
    let setup = setup(alloc).expect(&rt, "the lines are fine");
    let mut table = initial_contexts(alloc, &setup).expect(&rt, "memory");
    let mut kernel = Kernel::new(alloc, &setup, &mut table).expect(&rt, "memory");
    let (zero, one) = (ActId::new(0), ActId::new(1));
    let tile = TileId::new(2);
    let elsewhere = TileId::new(3);
    let (root, range, child) = (GrantId::new(1), GrantId::new(2), GrantId::new(3));
    for (step, expected) in [
        (
            switched(elsewhere, one),
            "the activity's home is another tile",
        ),
        (switched(tile, zero), "the activity is there already"),
        (made(mailbox()), "the endpoint has a grant"),
        (made(credits(range)), "there is no such grant"),
        (made(part(65, Perm::R)), "the range ends past its parent"),
        (made(part(64, Perm::W)), "the parent permits less"),
        (made(credits(root)), "granted 3 k.1 to 2"),
        (made(memory()), "granted 4 k.2 held"),
        (Step::Close, "none"),
        (revoked(GrantId::new(9)), "there is no such grant"),
        (revoked(root), "revoking 1"),
        (revoked(child), "the grant is closing"),
        (Step::Close, "close 3 k.3 to 2"),
        (Step::Close, "none"),
        (
            Step::Closed(child),
            "Done { grant: GrantId { number: 3 }, revoked: None }",
        ),
        (revoked(child), "there is no such grant"),
        (Step::Close, "close 1 k.4 held"),
        (switched(tile, one), "save 0 to 2"),
        (switched(tile, zero), "a switch of the tile is under way"),
        (switched(tile, one), "the activity is there already"),
        (
            Step::Closed(root),
            "Done { grant: GrantId { number: 1 }, revoked: Some(GrantId { number: 1 }) }",
        ),
    ] {
        let told = run(alloc, &mut kernel, step).expect(&rt, "memory");
        assert_eq!(rt; told.as_str(), expected);
    }
    assert_eq!(rt; kernel.hold_len(one), 2);
}

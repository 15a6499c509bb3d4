//! What the kernel has for the driver: the least activity that can be tended.

ghost use Rattle.std.specs.Prelude.{◌≡◌};
ghost use Rattle.m3_base.specs.Placement.Driver.{least_of};
ghost use Rattle.m3_kernel.specs.ActivityView.{seat_value, seats_of};
ghost use Rattle.m3_kernel.specs.KernelStateView.{kernel_in, IsKept};
ghost use Rattle.m3_model.specs.Kernel.Driver.{can_tend, least_tend};

use crate::seat::{Place, Seat};
use crate::state::State;
use m3_base::ids::ActId;

/// Whether the seat's activity is away, and something is held for it.
fn can_tend(seat: &Seat) -> bool
    ensures { result ≡ can_tend (seat_value seat.now) }
{
    match seat.place() {
        Place::Placed => false,
        Place::Leaving => false,
        _ => !seat.hold().is_empty(),
    }
}

fn least_of(least: Option<ActId>, act: ActId) -> ActId
    ensures { result ≡ least_of least act }
{
    match least {
        None => act,
        Some(least) => {
            if least.number() < act.number() {
                least
            } else {
                act
            }
        }
    }
}

/// The least activity that can be tended, by a look at each.
fn least_of_all(seats: &[Seat]) -> Option<ActId>
    ensures { result ≡ least_tend (seats_of seats.now) }
{
    let mut least: Option<ActId> = None;
    for seat in seats {
        if can_tend(seat) {
            least = Some(least_of(least, seat.act()));
        }
    }
    least
}

/// The least activity that can be tended. Each one is looked at only where the least for which something is held is
/// Leaving.
pub fn least_tend(state: &State) -> Option<ActId>
    requires { IsKept state.now }
    ensures { result ≡ least_tend (kernel_in state.now).seats }
{
    let first = state.held.first()?;
    if let Some(at) = state.place_at(first) {
        let seat = &state.seats[at];
        if can_tend(seat) {
            return Some(seat.act());
        }
    }
    least_of_all(state.seats.as_slice())
}

//! What no clause says: that links carry parcels where memory suffices.

use m3_base::ids::{ActId, TileId};
use m3_core::parcel::Parcel;
use m3_link::wires::Wires;

/// The activity of a Yield, which stands for a parcel here.
fn seen(parcel: Option<&Parcel>) -> Option<u8> {
    match parcel {
        Some(Parcel::Yield(act)) => Some(act.number()),
        _ => None,
    }
}

/// Two parcels leave a link in the order in which they joined it, and one that is put back is its front again.
#[test]
fn parcels_leave_in_order(rt: HostRuntime) {
    let alloc = rt.alloc();
    let mut wires = Wires::new(alloc).expect(&rt, "memory");
    for (from, to) in [(0u8, 0u8), (0, 15), (2, 3), (15, 0), (15, 15)] {
        let (from, to) = (TileId::new(from), TileId::new(to));
        wires.reserve_from(from).expect(&rt, "memory");
        wires.push(from, to, Parcel::Yield(ActId::new(4)));
        wires.push(from, to, Parcel::Yield(ActId::new(5)));
        assert_eq!(rt; wires.len(from, to), 2);
        assert_eq!(rt; seen(wires.get(from, to, 0)), Some(4));
        assert_eq!(rt; seen(wires.get(from, to, 1)), Some(5));
        assert!(rt; wires.get(from, to, 2).is_none());
        let front = wires.take(from, to).expect(&rt, "two are there");
        wires.put_back(from, to, front);
        assert_eq!(rt; seen(wires.take(from, to).as_ref()), Some(4));
        assert_eq!(rt; seen(wires.take(from, to).as_ref()), Some(5));
        assert!(rt; wires.take(from, to).is_none());
        assert!(rt; wires.is_empty(from, to));
    }
    assert_eq!(rt; wires.flights(), 0);
}

/// The least receiving tile comes first, then the least sending tile, and a link that was emptied no more.
#[test]
fn the_least_link_comes_first(rt: HostRuntime) {
    let alloc = rt.alloc();
    let mut wires = Wires::new(alloc).expect(&rt, "memory");
    assert!(rt; wires.first().is_none());
    for (from, to) in [(0u8, 15u8), (3, 2), (15, 0), (2, 2), (0, 1)] {
        let (from, to) = (TileId::new(from), TileId::new(to));
        wires.reserve_from(from).expect(&rt, "memory");
        wires.push(from, to, Parcel::Yield(ActId::new(4)));
    }
    for (from, to) in [(15u8, 0u8), (0, 1), (2, 2), (3, 2), (0, 15)] {
        let first = wires.first().expect(&rt, "a parcel is there");
        assert_eq!(rt; (first.1.number(), first.0.number()), (from, to));
        let _front = wires.take(first.1, first.0);
    }
    assert!(rt; wires.first().is_none());
}

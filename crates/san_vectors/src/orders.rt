//! The needs of a network of two leaves, piece after piece, worked out by hand. The first leaf has
//! one activity, numbered 0, the second two, numbered 1 and 2. They share place 0.

ghost use Rattle.std.specs.Prelude.{◌≡◌, ◌<◌, All, IfOk, length, map};

use crate::network::put_and_get;
use san_base::{ActId, Kind, LeafId, NoMemory, PlaceId, Tick};
use san_net::Flat;
use san_turn::{Need, Order, Taken};
use std::alloc::Global;
use std::test::Fail;

/// A piece of a leaf: its kind, its time, a place that it wrote, when the leaf's least timer is due
/// and of which activity, and whether there is more.
type Piece = (u32, Kind, u64, Option<u32>, Option<(u64, u32)>, bool);

const FIRE_PUT: Kind = Kind::Fire(ActId(0));

const FIRE_GET: Kind = Kind::Fire(ActId(2));

/// Pieces, and what is needed after each. Both timers are due at tick 2, that of the first leaf goes
/// first. One timer is due at the horizon and is needed, another one after it.
const PIECES: [(Piece, Need); 16] = [
    (
        (0, Kind::Settle, 0, None, None, false),
        Need::Settle(LeafId(1)),
    ),
    (
        (1, Kind::Settle, 0, None, None, true),
        Need::Settle(LeafId(1)),
    ),
    (
        (1, Kind::Settle, 0, None, None, false),
        Need::Refresh(LeafId(0)),
    ),
    (
        (0, Kind::Refresh, 0, None, Some((2, 0)), false),
        Need::Refresh(LeafId(1)),
    ),
    (
        (1, Kind::Refresh, 0, None, Some((2, 1)), false),
        Need::Fire(LeafId(0), ActId(0), Tick(2)),
    ),
    (
        (0, FIRE_PUT, 2, Some(1), None, false),
        Need::Refresh(LeafId(0)),
    ),
    (
        (0, Kind::Refresh, 2, None, None, false),
        Need::Fire(LeafId(1), ActId(1), Tick(2)),
    ),
    (
        (1, Kind::Fire(ActId(1)), 2, Some(2), None, true),
        Need::Settle(LeafId(1)),
    ),
    (
        (1, Kind::Settle, 2, Some(0), None, false),
        Need::Settle(LeafId(0)),
    ),
    (
        (0, Kind::Settle, 2, None, None, false),
        Need::Refresh(LeafId(0)),
    ),
    (
        (0, Kind::Refresh, 2, None, Some((10, 0)), false),
        Need::Refresh(LeafId(1)),
    ),
    (
        (1, Kind::Refresh, 2, None, Some((9, 2)), false),
        Need::Fire(LeafId(1), ActId(2), Tick(9)),
    ),
    (
        (1, FIRE_GET, 9, Some(0), None, false),
        Need::Settle(LeafId(0)),
    ),
    (
        (0, Kind::Settle, 9, None, Some((10, 0)), false),
        Need::Refresh(LeafId(0)),
    ),
    (
        (0, Kind::Refresh, 9, None, Some((10, 0)), false),
        Need::Refresh(LeafId(1)),
    ),
    ((1, Kind::Refresh, 9, None, None, false), Need::End),
];

/// The place, if there is one of the network.
fn written_of(alloc: Global, flat: &Flat, place: Option<u32>) -> Result<Vec<PlaceId>, NoMemory>
    ensures { IfOk result (λ v. All (λ place. place.0 < length flat.now.initial) v.items) }
{
    let mut written = Vec::new(alloc);
    match place {
        Some(place) if place < flat.places() => written.push(PlaceId(place))?,
        _ => (),
    }
    Ok(written)
}

/// The order of a network at time 0, with a horizon of 9.
fn opened(alloc: Global, flat: &Flat) -> Result<Order, NoMemory>
    ensures { IfOk result (λ o. o.firsts ≡ map (λ p. p.first.0) flat.now.parts) }
{
    let order = Order::open(alloc, flat, Tick(9))?;
    Ok(order)
}

/// An order takes a piece.
fn take(alloc: Global, flat: &Flat, order: &mut Order, piece: Piece) -> Result<(), NoMemory>
    requires { order.old.firsts ≡ map (λ p. p.first.0) flat.now.parts }
    ensures { order.new.firsts ≡ order.old.firsts }
{
    let (leaf, kind, time, place, due, more) = piece;
    let taken = Taken {
        kind,
        time: Tick(time),
        written: written_of(alloc, flat, place)?,
        due: due.map(|(time, act)| (Tick(time), ActId(act))),
        more,
    };
    if leaf < flat.leaves() {
        order.took(flat, LeafId(leaf), &taken);
    }
    Ok(())
}

/// The first piece after which the need, or the time, is another than the list says.
fn first_wrong(alloc: Global, flat: &Flat) -> Result<Option<Piece>, NoMemory> {
    let mut order = opened(alloc, flat)?;
    'pieces: for (piece, need) in PIECES {
        take(alloc, flat, &mut order, piece)?;
        if order.need() != need || order.time() != Tick(piece.2) {
            return Ok(Some(piece));
        }
    }
    Ok(None)
}

#[test]
fn needs_in_turn(rt: HostRuntime) -> Result<(), Fail> {
    let flat = put_and_get(rt.alloc())?;
    let order = opened(rt.alloc(), &flat)?;
    assert_eq!(rt; order.need(), Need::Settle(LeafId(0)));
    assert_eq!(rt; first_wrong(rt.alloc(), &flat)?, None);
    Ok(())
}

#[test]
fn leaves_and_copies(rt: HostRuntime) -> Result<(), Fail> {
    let flat = put_and_get(rt.alloc())?;
    let mut order = opened(rt.alloc(), &flat)?;
    let first = order.copy(rt.alloc())?;
    assert!(rt; order.is_unsettled(LeafId(1)) && order.is_stale(LeafId(1)));
    assert!(rt; !order.is_unsettled(LeafId(2)) && !order.is_stale(LeafId(2)));
    take(
        rt.alloc(),
        &flat,
        &mut order,
        (1, Kind::Settle, 0, None, None, true),
    )?;
    assert!(rt; order.is_going(LeafId(1)) && !order.is_going(LeafId(0)));
    assert!(rt; !order.is_unsettled(LeafId(1)) && order.is_stale(LeafId(1)));
    assert!(rt; !order.same(&first));
    assert!(rt; order.same(&order.copy(rt.alloc())?));
    Ok(())
}

//! The committed part takes a piece.

ghost use Rattle.std.specs.Prelude.{◌≡◌, ◌≤◌, ◌+◌, ◌++◌, length, map, take, vec_capacity, vec_len};
ghost use Rattle.san_base.specs.declared.limits.TheConstants.{MAX_CELLS};
ghost use Rattle.san_core.specs.Committed.{with_taken};
ghost use Rattle.san_net.specs.Runs.{event_in, net_at};
ghost use Rattle.san_core.specs.inner.CanTake.{CanTake};
ghost use Rattle.san_law.specs.Core.{taken};
ghost use Rattle.san_leaf.specs.States.{kind_in, pair_in};

use crate::admission::Taking;
use crate::committed::Committed;
use san_base::{Event, Limits, PlaceId};
use san_leaf::Piece;
use san_net::Flat;
use san_turn::Taken;

/// Appends the first events of a piece, for which there is room.
fn append(events: &mut Vec<Event>, made: &[Event], passed: u32)
    requires passed { passed ≤ length made.now }
    requires room { vec_len events.old + passed ≤ vec_capacity events.old }
    ensures appended { events.new.items ≡ events.old.items ++ take passed made.now }
    ensures len { vec_len events.new ≡ vec_len events.old + passed }
    ensures room { vec_capacity events.old ≤ vec_capacity events.new }
{
    let Ok(()) = events.extend_from_slice(&made[..passed as usize]) else {
        unreachable!()
    };
}

/// Takes a piece: its events as far as the limits let them through, with their impulses, and then,
/// where nothing stops the core, its state, its shared values and its order; what it wrote.
pub(crate) fn take_piece(
    flat: &Flat,
    limits: &Limits,
    held: &mut Committed,
    events: &mut Vec<Event>,
    news: &mut Taken,
    piece: Piece,
) -> Vec<(PlaceId, u32)>
    requires can { CanTake (net_at flat.now piece.seed limits.now) flat.now held.old piece }
    requires room { vec_len events.old + 64 ≤ vec_capacity events.old }
    requires news { MAX_CELLS ≤ vec_capacity news.old.written }
    ensures held { held.new ≡ with_taken (net_at flat.now piece.seed limits.now) held.old
        piece.part.leaf.0 (kind_in piece.part.first.0 piece.kind) piece.time piece.outcome }
    ensures events { events.new.items ≡ events.old.items ++ map (event_in flat.now) (taken (net_at
        flat.now piece.seed limits.now) held.old.core piece.part.leaf.0 (kind_in
        piece.part.first.0 piece.kind) piece.time piece.outcome).events }
    ensures written { map pair_in result.items ≡ piece.outcome.writes }
    ensures len { vec_len events.new ≤ vec_len events.old + 64 }
    ensures room { vec_capacity events.old ≤ vec_capacity events.new }
    ensures news { vec_capacity news.old.written ≤ vec_capacity news.new.written }
{
    held.is_bounded();
    let part = piece.part().get();
    let taking = Taking {
        leaf: part.leaf,
        first: part.first,
        kind: piece.kind(),
        time: piece.time(),
    };
    let outcome = piece.into_outcome();
    let admission = held.admit(limits, taking, &outcome);
    append(events, &outcome.events, admission.passed);
    held.take(flat, taking, admission, outcome, news)
}

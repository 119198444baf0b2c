//! The version of another leaf that comes next.

ghost use Rattle.std.specs.Prelude.{◌≡◌, map};
ghost use Rattle.san_ahead.specs.Aheads.{line_in, or_version};
ghost use Rattle.san_book.specs.Lines.{line_of};
ghost use Rattle.san_book.specs.Nets.{shared_in};
ghost use Rattle.san_book.specs.Plans.{lesser, next_version, numbers_of};
ghost use Rattle.san_line.specs.Lines.{next_after};
ghost use Rattle.san_net.specs.Leaf.{slot_in};

use san_base::{LeafId, PlaceId, Tick};
use san_line::Line;
use san_net::Slot;

/// The lesser of two by time, then by leaf.
fn lesser(one: Option<(u64, u32)>, other: Option<(u64, u32)>) -> Option<(u64, u32)>
    ensures { result ≡ lesser one other }
{
    match (one, other) {
        (None, other) => other,
        (Some(one), None) => Some(one),
        (Some(one), Some(other)) => {
            if other.0 < one.0 || other.0 == one.0 && other.1 < one.1 {
                Some(other)
            } else {
                Some(one)
            }
        }
    }
}

/// A time and a leaf as numbers.
fn numbers(version: Option<(Tick, LeafId)>) -> Option<(u64, u32)>
    ensures { result ≡ numbers_of version }
{
    match version {
        Some((time, leaf)) => Some((time.0, leaf.0)),
        None => None,
    }
}

/// The time and the leaf of a place's first version above a time by another leaf.
fn later(lines: &[Line], leaf: LeafId, after: Tick, place: PlaceId) -> Option<(u64, u32)>
    ensures { result ≡ numbers_of (next_after leaf.0 after.0 (line_of (map line_in lines.now) place.0).versions) }
{
    let place = place.0 as usize;
    if place < lines.len() {
        numbers(lines[place].later(leaf, after))
    } else {
        None
    }
}

/// The lesser of a time and a leaf, and those of a cell's first version above a time, where the cell
/// is shared.
fn or_version(
    lines: &[Line],
    leaf: LeafId,
    after: Tick,
    slot: Slot,
    least: Option<(u64, u32)>,
) -> Option<(u64, u32)>
    ensures { result ≡ or_version (map line_in lines.now) leaf.0 after.0 (slot_in slot) least }
{
    match slot {
        Slot::Private(_) => least,
        Slot::Shared(place) => lesser(later(lines, leaf, after, place), least),
    }
}

/// The least time and leaf of the versions above a time by other leaves, over the shared ones of some
/// cells.
pub(crate) fn next_version(
    lines: &[Line],
    leaf: LeafId,
    after: Tick,
    slots: &[Slot],
) -> Option<(u64, u32)>
    ensures { result ≡ next_version (map line_in lines.now) leaf.0 after.0 (shared_in (map slot_in slots.now)) }
{
    let mut least = None;
    let mut at = slots.len();
    'cells: while at > 0 {
        at -= 1;
        let slot = slots[at];
        least = or_version(lines, leaf, after, slot, least);
    }
    least
}

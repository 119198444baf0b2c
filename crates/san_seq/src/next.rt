//! Which instantaneous activity completes next.

ghost use Rattle.std.specs.Prelude.{◌≡◌, ◌≤◌, ◌<◌, ◌⊎◌, ℕ, length, Ok, map, slice_get, slice_index, true, unwrap_or, IfSome, Some};
ghost use Rattle.std.specs.Option.{option_map};
ghost use Rattle.san_law.specs.Lawful.{AllBelow};
ghost use Rattle.san_law.specs.Next as law;
ghost use Rattle.san_law.specs.State.{gather};
ghost use Rattle.san_net.specs.Accepted.{IsAccepted};
ghost use Rattle.san_net.specs.Laid.{places_of};
ghost use Rattle.san_net.specs.Leaf.{found_by, first_in};
ghost use Rattle.san_law.specs.Net.{Nothing};
ghost use Rattle.san_seq.specs.inner.Firsts.{AreEarlier, AreEarlierBy, EachEarlier, IsEarlier, IsFirst, IsFound};
ghost use Rattle.san_seq.specs.inner.Known.{AreAsleep, AreSettled, HasFlags, HaveSame};
ghost use Rattle.san_seq.specs.inner.Nexts.{first_by, first_from, next_among, next_in};
ghost use Rattle.san_seq.specs.inner.Wakes.{AreOrdered, AreWoken, EachOrdered};

use crate::renewal::Markings;
use crate::stale::{Flagged, Stale};
use crate::wakes::{Band, Wakes};
use san_base::{LeafId, PlaceId, Trap};
use san_net::{FirstInstant, Flat, LeafCells, Part, first_instant};
use san_winner::Flags;

/// Which instantaneous activity completes next: its leaf, and its number in the leaf.
#[derive(Clone, Copy, Debug, PartialEq, Eq)]
pub(crate) enum Next {
    /// None is enabled and none traps.
    Stable,
    Completes(LeafId, u32),
    Traps(LeafId, u32, Trap),
}

/// The first of a leaf's instantaneous activities.
fn first_of_leaf(part: &Part, marking: &[u32]) -> FirstInstant
    requires accepted { IsAccepted part.now.atomic }
    requires each { length part.now.slots ≡ length part.now.atomic.initial }
    requires over { AllBelow (places_of part.now) (length marking.now) }
    ensures { found_by (Ok result)
        ≡ first_in part.now.atomic (gather (places_of part.now) marking.now) }
{
    let mut cells = LeafCells::new(part.slots.as_slice(), marking);
    first_instant(part.atomic.get(), &mut cells)
}

/// What a leaf has first, or nothing, so that the search goes on.
fn found_at(leaf: LeafId, first: FirstInstant) -> Option<Next>
    ensures { (rest : law.Next) → law.found_at leaf.0 (found_by (Ok first)) rest
        ≡ unwrap_or (option_map next_in result) rest }
{
    match first {
        FirstInstant::None => None,
        FirstInstant::Enabled(act) => Some(Next::Completes(leaf, act)),
        FirstInstant::Trapped(act, trap) => Some(Next::Traps(leaf, act, trap)),
    }
}

/// What a leaf of the network has first, or nothing.
fn first_at(flat: &Flat, leaf: LeafId, marking: &[u32]) -> Option<Next>
    requires leaf { leaf.0 < length flat.now.parts }
    requires sized { length marking.now ≡ length flat.now.initial }
    ensures { (rest : law.Next)
        → law.found_at leaf.0 (first_by marking.now (slice_get flat.now.parts leaf.0)) rest
        ≡ unwrap_or (option_map next_in result) rest }
{
    flat.is_network();
    let first = first_of_leaf(flat.part(leaf).get(), marking);
    found_at(leaf, first)
}

/// The first leaf that is known to have something, and what completes there. Where none is known, it
/// is the number after all leaves, and nothing.
#[derive(Clone, Copy, Debug, PartialEq, Eq)]
pub(crate) struct First {
    pub(crate) leaf: LeafId,
    pub(crate) next: Next,
}

/// The first leaf's that has one, in order.
fn first_of_all(flat: &Flat, marking: &[u32]) -> Next
    requires sized { length marking.now ≡ length flat.now.initial }
    ensures { next_in result ≡ first_from 0 marking.now flat.now.parts }
{
    'leaves: for j in 0..flat.leaves() {
        if let Some(next) = first_at(flat, LeafId(j), marking) {
            return next;
        }
    }
    Next::Stable
}

/// The first of some leaves in order that has something, where it comes before the first so far.
fn first_among(flat: &Flat, leaves: &[LeafId], first: First, marking: &[u32]) -> First
    requires first { IsFirst flat.now.parts marking.now first }
    requires within { (k : ℕ) (leaf : LeafId) → slice_get leaves.now k ≡ Some leaf
        → leaf.0 < length flat.now.parts }
    requires ordered { (i k : ℕ) (a b : LeafId) → i < k → slice_get leaves.now i ≡ Some a
        → slice_get leaves.now k ≡ Some b → a.0 ≤ b.0 }
    requires sized { length marking.now ≡ length flat.now.initial }
    ensures first { IsFirst flat.now.parts marking.now result }
    ensures sooner { result.leaf.0 ≤ first.leaf.0 }
    ensures none { AreEarlier flat.now.parts marking.now leaves.now result.leaf.0 }
{
    'leaves: for k in 0..leaves.len() {
        let leaf = leaves[k];
        if leaf.0 >= first.leaf.0 {
            return first;
        }
        if let Some(next) = first_at(flat, leaf, marking) {
            return First { leaf, next };
        }
    }
    first
}

/// The same of all leaves, if those that are awake come to an end after so many. The others have
/// nothing.
fn first_awake(
    flat: &Flat,
    awake: &Flags,
    most: usize,
    first: First,
    marking: &[u32],
) -> Option<First>
    requires first { IsFirst flat.now.parts marking.now first }
    requires flags { length awake.now ≡ length flat.now.parts }
    requires asleep { AreAsleep flat.now awake.now marking.now }
    requires sized { length marking.now ≡ length flat.now.initial }
    ensures { IfSome result (IsFound flat.now.parts marking.now first.leaf.0) }
{
    flat.is_network();
    let mut from = 0;
    'leaves: for _ in 0..most {
        let Some(at) = awake.next(from) else {
            return Some(first);
        };
        if at >= first.leaf.0 as usize {
            return Some(first);
        }
        let leaf = LeafId(at as u32);
        if let Some(next) = first_at(flat, leaf, marking) {
            return Some(First { leaf, next });
        }
        from = at + 1;
    }
    None
}

/// The same of a crossed band's leaves. Where few leaves are awake these are asked in place of the
/// band's, most of which something of their own may block.
fn first_of_crossed(
    flat: &Flat,
    awake: &Flags,
    leaves: &[LeafId],
    first: First,
    marking: &[u32],
) -> First
    requires first { IsFirst flat.now.parts marking.now first }
    requires flags { length awake.now ≡ length flat.now.parts }
    requires asleep { AreAsleep flat.now awake.now marking.now }
    requires ordered { AreOrdered (length flat.now.parts) leaves.now }
    requires sized { length marking.now ≡ length flat.now.initial }
    ensures first { IsFirst flat.now.parts marking.now result }
    ensures sooner { result.leaf.0 ≤ first.leaf.0 }
    ensures none { AreEarlier flat.now.parts marking.now leaves.now result.leaf.0 }
{
    match first_awake(flat, awake, leaves.len() / 4, first, marking) {
        Some(found) => found,
        None => first_among(flat, leaves, first, marking),
    }
}

/// The same of a band's leaves, where a change of its place concerns them.
fn first_of_band(
    flat: &Flat,
    awake: &Flags,
    band: &Band,
    was: u32,
    is: u32,
    first: First,
    marking: &[u32],
) -> First
    requires first { IsFirst flat.now.parts marking.now first }
    requires flags { length awake.now ≡ length flat.now.parts }
    requires asleep { AreAsleep flat.now awake.now marking.now }
    requires ordered { AreOrdered (length flat.now.parts) band.now.leaves.items }
    requires sized { length marking.now ≡ length flat.now.initial }
    ensures first { IsFirst flat.now.parts marking.now result }
    ensures sooner { result.leaf.0 ≤ first.leaf.0 }
    ensures none { AreEarlierBy flat.now.parts band.now was is marking.now result.leaf.0 }
{
    if band.is_crossed(was, is) {
        first_of_crossed(flat, awake, &band.leaves, first, marking)
    } else {
        first
    }
}

/// The same of the bands of a place.
fn first_of_bands(
    flat: &Flat,
    awake: &Flags,
    bands: &[Band],
    was: u32,
    is: u32,
    first: First,
    marking: &[u32],
) -> First
    requires first { IsFirst flat.now.parts marking.now first }
    requires flags { length awake.now ≡ length flat.now.parts }
    requires asleep { AreAsleep flat.now awake.now marking.now }
    requires ordered { EachOrdered (length flat.now.parts) bands.now }
    requires sized { length marking.now ≡ length flat.now.initial }
    ensures first { IsFirst flat.now.parts marking.now result }
    ensures sooner { result.leaf.0 ≤ first.leaf.0 }
    ensures none { EachEarlier flat.now.parts bands.now was is marking.now result.leaf.0 }
{
    let mut first = first;
    'bands: for k in 0..bands.len() {
        first = first_of_band(flat, awake, &bands[k], was, is, first, marking);
    }
    first
}

/// The same of the leaves whose instantaneous activities hang on a place. They have nothing where
/// their weights see what they saw in the last stable marking.
fn first_of_place(
    flat: &Flat,
    wakes: &Wakes,
    awake: &Flags,
    place: PlaceId,
    first: First,
    markings: &Markings<'_>,
) -> First
    requires first { IsFirst flat.now.parts markings.now.present.now first }
    requires flags { length awake.now ≡ length flat.now.parts }
    requires asleep { AreAsleep flat.now awake.now markings.now.present.now }
    requires place { place.0 < length flat.now.initial }
    requires woken { AreWoken flat.now wakes.now }
    requires present { length markings.now.present.now ≡ length flat.now.initial }
    requires stable { length markings.now.stable.now ≡ length flat.now.initial }
    ensures first { IsFirst flat.now.parts markings.now.present.now result }
    ensures sooner { result.leaf.0 ≤ first.leaf.0 }
    ensures none { IsEarlier flat.now.parts wakes.now markings.now.stable.now
        markings.now.present.now result.leaf.0 place.0 }
{
    let at = place.0 as usize;
    let was = markings.stable[at];
    let is = markings.present[at];
    if was == is {
        return first;
    }
    let bands = wakes.instants(place);
    first_of_bands(flat, awake, bands, was, is, first, markings.present)
}

/// The first leaf's that has one, in order, where the last stable marking was one: only leaves that
/// hang on a place with another value can have something.
fn first_of_changed(
    flat: &Flat,
    wakes: &Wakes,
    awake: &Flags,
    places: &Flagged,
    markings: &Markings<'_>,
) -> Next
    requires settled { AreSettled flat.now.parts markings.now.stable.now }
    requires same { HaveSame places.now markings.now.stable.now markings.now.present.now }
    requires places { length places.now ≡ length flat.now.initial }
    requires flags { length awake.now ≡ length flat.now.parts }
    requires asleep { AreAsleep flat.now awake.now markings.now.present.now }
    requires woken { AreWoken flat.now wakes.now }
    requires present { length markings.now.present.now ≡ length flat.now.initial }
    requires stable { length markings.now.stable.now ≡ length flat.now.initial }
    ensures { next_in result ≡ first_from 0 markings.now.present.now flat.now.parts }
{
    flat.is_network();
    let mut first = First {
        leaf: LeafId(flat.leaves()),
        next: Next::Stable,
    };
    let changed = places.list();
    'places: for k in 0..changed.len() {
        let place = PlaceId(changed[k] as u32);
        first = first_of_place(flat, wakes, awake, place, first, markings);
    }
    first.next
}

/// The first leaf's that has one, in order.
fn first_in_order(flat: &Flat, wakes: &Wakes, stale: &Stale, markings: &Markings<'_>) -> Next
    requires settled { stale.now.settled ≡ true → AreSettled flat.now.parts
        markings.now.stable.now }
    requires same { HaveSame stale.now.places markings.now.stable.now markings.now.present.now }
    requires flags { HasFlags flat.now stale.now }
    requires asleep { AreAsleep flat.now stale.now.awake markings.now.present.now }
    requires woken { AreWoken flat.now wakes.now }
    requires present { length markings.now.present.now ≡ length flat.now.initial }
    requires stable { length markings.now.stable.now ≡ length flat.now.initial }
    ensures { next_in result ≡ first_from 0 markings.now.present.now flat.now.parts }
{
    if stale.settled {
        first_of_changed(flat, wakes, &stale.awake, &stale.places, markings)
    } else {
        first_of_all(flat, markings.present)
    }
}

/// Which instantaneous activity completes next: the leaf that completed last is asked first, then
/// the leaves in order (own rule).
pub(crate) fn next_instant(
    flat: &Flat,
    wakes: &Wakes,
    last: Option<LeafId>,
    stale: &Stale,
    markings: &Markings<'_>,
) -> Next
    requires settled { stale.now.settled ≡ true → AreSettled flat.now.parts
        markings.now.stable.now }
    requires same { HaveSame stale.now.places markings.now.stable.now markings.now.present.now }
    requires flags { HasFlags flat.now stale.now }
    requires asleep { AreAsleep flat.now stale.now.awake markings.now.present.now }
    requires woken { AreWoken flat.now wakes.now }
    requires last { IfSome last (λ leaf. leaf.0 < length flat.now.parts) }
    requires present { length markings.now.present.now ≡ length flat.now.initial }
    requires stable { length markings.now.stable.now ≡ length flat.now.initial }
    ensures { next_in result
        ≡ next_among flat.now.parts (option_map (λ leaf. leaf.0) last) markings.now.present.now }
{
    match last {
        Some(leaf) => match first_at(flat, leaf, markings.present) {
            Some(next) => next,
            None => first_in_order(flat, wakes, stale, markings),
        },
        None => first_in_order(flat, wakes, stale, markings),
    }
}

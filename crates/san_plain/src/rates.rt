//! The rates of a tally follow the marking: beside those of the leaf that completed, those of the
//! leaves alone are evaluated whose terms name a place that has another value.

ghost use Rattle.std.specs.Prelude.{◌≡◌, ◌≢◌, ◌<◌, ℕ, [], Some, length, map, slice_get, slice_index_or};
ghost use Rattle.std.specs.List.{list_any};
ghost use Rattle.san_net.specs.Laid.{IsTagged, place_of, places_of};
ghost use Rattle.san_net.specs.declared.part.Part.{Part};
ghost use Rattle.san_reward.specs.Running.{rates_in, terms_in, with_all_rates, with_leaf_rates};
ghost use Rattle.san_plain.specs.inner.Rated.{ListsRated};
ghost use Rattle.san_plain.specs.inner.Rates.{AreNew, DiffersIn, FollowsRates, FollowsAt, FollowsPlace, FollowsPlaces, differs_at};

use crate::rated::RatedLeaves;
use san_base::{LeafId, PlaceId};
use san_net::{Flat, Slot, copy_cells};
use san_reward::Tally;

/// Sets a leaf's rates to what its terms are in a marking. A leaf without terms is not looked at.
fn rate_leaf(tally: &mut Tally, flat: &Flat, leaf: LeafId, marking: &[u32])
    requires network { tally.old.terms ≡ map terms_in flat.now.parts }
    requires leaf { leaf.0 < length flat.now.parts }
    requires marking { length marking.now ≡ length flat.now.initial }
    ensures value { tally.new ≡ with_leaf_rates tally.old leaf.0
        (slice_index_or (rates_in flat.now marking.now) leaf.0 []) }
    ensures follows { FollowsRates flat.now marking.now tally.old tally.new }
    ensures anew { AreNew flat.now marking.now tally.new leaf.0 }
{
    tally.has_a_rate_for_each_term();
    if tally.terms(leaf) != 0 {
        tally.rate_of_leaf(flat, leaf, marking);
    }
}

/// Sets the rates of a leaf, unless it is left out.
fn rate_other(tally: &mut Tally, flat: &Flat, leaf: LeafId, except: LeafId, marking: &[u32])
    requires network { tally.old.terms ≡ map terms_in flat.now.parts }
    requires leaf { leaf.0 < length flat.now.parts }
    requires marking { length marking.now ≡ length flat.now.initial }
    ensures follows { FollowsRates flat.now marking.now tally.old tally.new }
    ensures anew { leaf.0 ≢ except.0 → AreNew flat.now marking.now tally.new leaf.0 }
{
    if leaf.0 != except.0 {
        rate_leaf(tally, flat, leaf, marking);
    }
}

/// Sets those of each of some leaves but the one that is left out.
fn rate_leaves(tally: &mut Tally, flat: &Flat, leaves: &[LeafId], except: LeafId, marking: &[u32])
    requires network { tally.old.terms ≡ map terms_in flat.now.parts }
    requires leaves { (k : ℕ) (leaf : LeafId) → slice_get leaves.now k ≡ Some leaf
        → leaf.0 < length flat.now.parts }
    requires marking { length marking.now ≡ length flat.now.initial }
    ensures { FollowsAt flat.now leaves.now except.0 marking.now tally.old tally.new }
{
    'leaves: for k in 0..leaves.len() {
        rate_other(tally, flat, leaves[k], except, marking);
    }
}

/// Where a place has another value in a marking than before, sets the rates of the leaves that hang
/// on it but the one that is left out. Answers whether it has.
fn rate_shared(
    tally: &mut Tally,
    flat: &Flat,
    rated: &RatedLeaves,
    place: PlaceId,
    except: LeafId,
    before: &[u32],
    marking: &[u32],
) -> bool
    requires network { tally.old.terms ≡ map terms_in flat.now.parts }
    requires rated { ListsRated flat.now rated.now }
    requires place { place.0 < length flat.now.initial }
    requires before { length before.now ≡ length flat.now.initial }
    requires marking { length marking.now ≡ length flat.now.initial }
    ensures rates { FollowsPlace flat.now place.0 except.0 before.now marking.now tally.old tally.new }
    ensures changed { result ≡ differs_at before.now marking.now place.0 }
{
    flat.is_network();
    if before[place.0 as usize] == marking[place.0 as usize] {
        return false;
    }
    rate_leaves(tally, flat, rated.at(place), except, marking);
    true
}

/// Does this for one slot of the leaf that is left out. A private place is of no other leaf.
fn rate_slot(
    tally: &mut Tally,
    flat: &Flat,
    rated: &RatedLeaves,
    slot: Slot,
    leaf: LeafId,
    before: &[u32],
    marking: &[u32],
) -> bool
    requires network { tally.old.terms ≡ map terms_in flat.now.parts }
    requires rated { ListsRated flat.now rated.now }
    requires place { place_of slot < length flat.now.initial }
    requires tagged { IsTagged flat.now.shared slot }
    requires own { (p : Part) → slice_get flat.now.parts leaf.0 ≡ Some p
        → (i : ℕ) × (slice_get (places_of p) i ≡ Some (place_of slot)) }
    requires leaf { leaf.0 < length flat.now.parts }
    requires before { length before.now ≡ length flat.now.initial }
    requires marking { length marking.now ≡ length flat.now.initial }
    ensures rates { FollowsPlace flat.now (place_of slot) leaf.0 before.now marking.now tally.old
        tally.new }
    ensures changed { result ≡ differs_at before.now marking.now (place_of slot) }
{
    flat.is_network();
    match slot {
        Slot::Private(place) => before[place.0 as usize] != marking[place.0 as usize],
        Slot::Shared(place) => rate_shared(tally, flat, rated, place, leaf, before, marking),
    }
}

/// Sets the rates of the other leaves that hang on a place of this one which has another value in a
/// marking than before. Answers whether there is such a place.
fn rate_others(
    tally: &mut Tally,
    flat: &Flat,
    rated: &RatedLeaves,
    leaf: LeafId,
    before: &[u32],
    marking: &[u32],
) -> bool
    requires network { tally.old.terms ≡ map terms_in flat.now.parts }
    requires rated { ListsRated flat.now rated.now }
    requires leaf { leaf.0 < length flat.now.parts }
    requires before { length before.now ≡ length flat.now.initial }
    requires marking { length marking.now ≡ length flat.now.initial }
    ensures rates { (p : Part) → slice_get flat.now.parts leaf.0 ≡ Some p → FollowsPlaces flat.now
        (places_of p) leaf.0 before.now marking.now tally.old tally.new }
    ensures changed { (p : Part) → slice_get flat.now.parts leaf.0 ≡ Some p
        → result ≡ list_any (differs_at before.now marking.now) (places_of p) }
{
    flat.is_network();
    let slots = flat.part(leaf).get().slots.as_slice();
    let mut changed = false;
    'cells: for k in 0..slots.len() {
        changed |= rate_slot(tally, flat, rated, slots[k], leaf, before, marking);
    }
    changed
}

/// Sets the rates to those in a marking that differs from the kept one in a leaf's places alone, and
/// keeps it.
pub(crate) fn update_rates(
    tally: &mut Tally,
    kept: &mut Vec<u32>,
    flat: &Flat,
    rated: &RatedLeaves,
    leaf: LeafId,
    marking: &[u32],
)
    requires network { tally.old.terms ≡ map terms_in flat.now.parts }
    requires rated { ListsRated flat.now rated.now }
    requires rates { tally.old.tally.rates ≡ rates_in flat.now kept.old.items }
    requires leaf { leaf.0 < length flat.now.parts }
    requires kept { length kept.old.items ≡ length flat.now.initial }
    requires marking { length marking.now ≡ length flat.now.initial }
    requires differs { (p : Part) → slice_get flat.now.parts leaf.0 ≡ Some p
        → DiffersIn (places_of p) kept.old.items marking.now }
    ensures rates { tally.new ≡ with_all_rates tally.old (rates_in flat.now marking.now) }
    ensures kept { kept.new.items ≡ marking.now }
{
    flat.is_network();
    let part = flat.part(leaf).get();
    if rate_others(tally, flat, rated, leaf, kept, marking) {
        rate_leaf(tally, flat, leaf, marking);
        copy_cells(part.slots.as_slice(), marking, kept);
    }
}

//! For each place the leaves whose rates hang on it.

ghost use Rattle.std.specs.Prelude.{◌≡◌, ◌<◌, ◌≤◌, ◌∷◌, ◌++◌, ◌&&◌, [], IfOk, OnOk, if◌then◌else◌, length, nat_eq, slice_index_or};
ghost use Rattle.san_base.specs.declared.limits.TheConstants.{MAX_CELLS};
ghost use Rattle.san_net.specs.Laid.{place_of};
ghost use Rattle.san_plain.specs.inner.Rated.{ListsRated, hangs_in, hangs_on, rate_cells, rated_at};

use san_base::{LeafId, MAX_CELLS, NoMemory, PlaceId};
use san_expr::mentions;
use san_net::{Flat, Part, RateTerm, Slot};
use std::alloc::Global;
use std::marker::Model;

/// For each place the leaves that have a rate term which names it.
#[derive(Drop)]
pub(crate) struct RatedLeaves {
    leaves: Vec<Vec<LeafId>>,
}

impl Model for RatedLeaves {
    ghost use Rattle.std.specs.Prelude.{List, map};
    ghost use Rattle.san_base.specs.declared.numbers.LeafId.{LeafId};

    ghost Value = { List (List LeafId) };

    ghost view = { λ r. map (λ v. v.items) r.leaves.items };
}

/// Whether one of these terms names a cell.
fn terms_name(terms: &[RateTerm], cell: u32) -> bool
    ensures { result ≡ rate_cells terms.now cell }
{
    for term in terms {
        if mentions(&term.expr, cell) {
            return true;
        }
    }
    false
}

/// Whether a cell with this slot is at a place, and one of these terms names it.
fn names_at(terms: &[RateTerm], slot: Slot, cell: u32, place: PlaceId) -> bool
    ensures { result ≡ (nat_eq (place_of slot) place.0 && rate_cells terms.now cell) }
{
    slot.place().0 == place.0 && terms_name(terms, cell)
}

/// Whether a leaf's rates hang on a place: one of its terms names a cell that is there.
fn hangs_on(part: &Part, place: PlaceId) -> bool
    requires { length part.now.slots ≤ MAX_CELLS }
    ensures { result ≡ hangs_on part.now place.0 }
{
    let terms = part.atomic.get().rates.as_slice();
    if terms.is_empty() {
        return false;
    }
    let slots = part.slots.as_slice();
    'cells: for k in 0..slots.len() {
        if names_at(terms, slots[k], k as u32, place) {
            return true;
        }
    }
    false
}

/// Puts a leaf behind the others where its rates hang on a place.
fn add_rated(
    rated: &mut Vec<LeafId>,
    flat: &Flat,
    leaf: LeafId,
    place: PlaceId,
) -> Result<(), NoMemory>
    requires { leaf.0 < length flat.now.parts }
    ensures { OnOk result (rated.new.items ≡ rated.old.items ++ (if hangs_in flat.now place.0 leaf
        then leaf ∷ [] else [])) }
{
    flat.is_network();
    if hangs_on(flat.part(leaf).get(), place) {
        rated.push(leaf)?;
    }
    Ok(())
}

/// The leaves whose rates hang on a place, in order.
fn rated_at(alloc: Global, flat: &Flat, place: PlaceId) -> Result<Vec<LeafId>, NoMemory>
    requires { place.0 < length flat.now.initial }
    ensures { IfOk result (λ v. v.items ≡ rated_at flat.now place.0) }
{
    flat.is_network();
    let importers = flat.importers(place);
    let mut rated = Vec::new(alloc);
    'leaves: for k in 0..importers.len() {
        add_rated(&mut rated, flat, importers[k], place)?;
    }
    Ok(rated)
}

impl RatedLeaves {
    /// The leaves by the places of a network.
    pub(crate) fn open(alloc: Global, flat: &Flat) -> Result<RatedLeaves, NoMemory>
        ensures { IfOk result (λ r. ListsRated flat.now r) }
    {
        let mut leaves = Vec::with_capacity(alloc, flat.places() as usize)?;
        'places: for q in 0..flat.places() {
            leaves.push(rated_at(alloc, flat, PlaceId(q))?)?;
        }
        Ok(RatedLeaves { leaves })
    }

    /// The leaves whose rates hang on a place.
    pub(crate) fn at(&self, place: PlaceId) -> &[LeafId]
        requires { place.0 < length self.now }
        ensures { result.now ≡ slice_index_or self.now place.0 [] }
    {
        let leaves = &self.leaves[place.0 as usize];
        leaves.as_slice()
    }
}

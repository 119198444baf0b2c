//! The tables of a network: the leaves that have a place, the leaf of an activity.

ghost use Rattle.std.specs.Prelude.{◌≡◌, ◌<◌, ◌∷◌, ◌++◌, ℕ, [], length, map, replicate, IfOk, OnOk, slice_get, slice_index, slice_index_or, slice_set, Some};
ghost use Rattle.san_net.specs.Apart.{AreApart};
ghost use Rattle.san_net.specs.Laid.{EachPart, place_of, places_of};
ghost use Rattle.san_net.specs.Tables.{IsNoted, importers_of, leaves_of_acts};

use crate::part::{Part, Slot};
use san_base::{LeafId, Shared};
use std::alloc::{AllocError, Global};

/// Puts a leaf behind those of a place.
fn push_at(table: &mut Vec<Vec<LeafId>>, place: usize, leaf: LeafId) -> Result<(), AllocError>
    requires { place < length table.old.items }
    ensures sized { length table.new.items ≡ length table.old.items }
    ensures pushed { OnOk result (map (λ v. v.items) table.new.items
        ≡ slice_set (map (λ v. v.items) table.old.items) place (slice_index_or (map (λ v. v.items)
        table.old.items) place [] ++ leaf ∷ [])) }
{
    table[place].push(leaf)?;
    Ok(())
}

/// Notes a leaf at each of its places.
fn note(table: &mut Vec<Vec<LeafId>>, slots: &[Slot], leaf: LeafId) -> Result<(), AllocError>
    requires apart { AreApart (map place_of slots.now) }
    requires within { (i place : ℕ) → slice_get (map place_of slots.now) i ≡ Some place
        → place < length table.old.items }
    ensures sized { length table.new.items ≡ length table.old.items }
    ensures noted { OnOk result (IsNoted (map (λ v. v.items) table.old.items) (map (λ v. v.items)
        table.new.items) leaf (map place_of slots.now)) }
{
    'slots: for slot in slots {
        push_at(table, slot.place().0 as usize, leaf)?;
    }
    Ok(())
}

/// `places` empty lists.
fn empty_lists(alloc: Global, places: usize) -> Result<Vec<Vec<LeafId>>, AllocError>
    ensures { IfOk result (λ v. map (λ x. x.items) v.items ≡ replicate places []) }
{
    let mut table = Vec::with_capacity(alloc, places)?;
    'places: for _ in 0..places {
        table.push(Vec::new(alloc))?;
    }
    Ok(table)
}

/// For each place the leaves that have it.
pub(crate) fn importers_table(
    alloc: Global,
    parts: &[Shared<Part>],
    places: usize,
) -> Result<Vec<Vec<LeafId>>, AllocError>
    requires apart { EachPart parts.now (λ _ p. AreApart (places_of p)) }
    requires within { EachPart parts.now (λ _ p. (i place : ℕ) → slice_get (places_of p) i
        ≡ Some place → place < places) }
    ensures sized { IfOk result (λ v. length v.items ≡ places) }
    ensures by_place { IfOk result (λ v. (q : ℕ) → slice_index_or (map (λ x. x.items) v.items) q []
        ≡ importers_of parts.now q) }
{
    let mut table = empty_lists(alloc, places)?;
    'parts: for part in parts {
        note(&mut table, part.get().slots.as_slice(), part.get().leaf)?;
    }
    Ok(table)
}

fn push_times(table: &mut Vec<LeafId>, times: usize, leaf: LeafId) -> Result<(), AllocError>
    ensures { OnOk result (table.new.items ≡ table.old.items ++ replicate times leaf) }
{
    'times: for _ in 0..times {
        table.push(leaf)?;
    }
    Ok(())
}

/// For each activity its leaf.
pub(crate) fn leaf_table(alloc: Global, parts: &[Shared<Part>]) -> Result<Vec<LeafId>, AllocError>
    ensures { IfOk result (λ v. v.items ≡ leaves_of_acts parts.now) }
{
    let mut table = Vec::new(alloc);
    'parts: for part in parts {
        let part = part.get();
        push_times(&mut table, part.atomic.get().acts.len(), part.leaf)?;
    }
    Ok(table)
}

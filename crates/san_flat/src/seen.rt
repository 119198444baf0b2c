//! The homes of all cells, seen one by one.

ghost use Rattle.std.specs.Prelude.{true, All, ◌≡◌, ◌≤◌, ◌<◌, ◌∷◌, ◌++◌, ℕ, List, [], length, map, IfOk, OnOk, min, ◌+◌, slice_index, slice_set};
ghost use Rattle.san_tree.specs.declared.limits.TheConstants.{MAX_PATH};
ghost use Rattle.san_flat.specs.Homes.{CellHome, homes_in, same, home_of_key};
ghost use Rattle.san_flat.specs.Networks.{values_in};
ghost use Rattle.san_flat.specs.inner.Models.{homes_from, values_from};
ghost use Rattle.san_flat.specs.inner.Sightings.{IsEven, HasSeen, Sees, SeesAll};
ghost use Rattle.san_tree.specs.Instances.{IsWithin};

use crate::home::{HomeKey, home_of};
use crate::leaf::{cells_of, initial_of};
use indexmap::IndexSet;
use san_base::{MAX_PLACES, NoMemory};
use san_check::Model;
use san_tree::{Homes, Instance};
use std::alloc::Global;

/// The different homes of the cells that were seen, with how often each was, up to twice, and the
/// initial value of its first cell.
#[derive(Drop)]
pub struct Seen {
    pub homes: IndexSet<HomeKey>,
    pub counts: Vec<u8>,
    pub values: Vec<u32>,
}

/// One more is counted at a position, up to twice.
fn count_again(counts: &mut Vec<u8>, at: usize)
    ensures { counts.new.items ≡ slice_set counts.old.items at (min (slice_index counts.old.items at) 1 + 1) }
{
    if at < counts.len() {
        counts[at] = counts[at].min(1) + 1;
    }
}

/// One more cell is noted.
fn note(seen: &mut Seen, home: HomeKey, value: u32) -> Result<(), NoMemory>
    ensures { OnOk result ((homes : List CellHome) (initial : List ℕ) → HasSeen homes initial seen.old
        → HasSeen (homes ++ home_of_key home ∷ []) (initial ++ value ∷ []) seen.new) }
{
    let (at, new) = seen.homes.insert_full(home)?;
    if new {
        seen.counts.push(1)?;
        seen.values.push(value)?;
        Ok(())
    } else {
        count_again(&mut seen.counts, at);
        Ok(())
    }
}

/// One more cell is seen. Answers whether the homes are still no more than a network has places.
#[tactic(auto, using(crate::proofs::SightingLemmas::sees))]
fn see(seen: &mut Seen, home: HomeKey, value: u32) -> Result<bool, NoMemory>
    ensures { IfOk result (λ fits. (homes : List CellHome) (initial : List ℕ) → HasSeen homes initial seen.old
        → Sees fits (homes ++ home_of_key home ∷ []) (initial ++ value ∷ []) seen.new) }
{
    note(seen, home, value)?;
    Ok(seen.homes.len() <= MAX_PLACES as usize)
}

/// The cells of a leaf are seen. Answers whether the homes are still no more than a network has
/// places.
fn see_leaf(
    alloc: Global,
    seen: &mut Seen,
    model: &Model,
    homes: &Homes<'_>,
    leaf: &Instance,
) -> Result<bool, NoMemory>
    requires tree { homes.now ≡ model.now.tree }
    requires short { IsWithin MAX_PATH leaf.now }
    requires even { IsEven model.now leaf.now }
    ensures { IfOk result (λ fits. (homes : List CellHome) (initial : List ℕ)
        → Sees true homes initial seen.old → Sees fits (homes ++ homes_in model.now.tree.nodes
        model.now.tree.root model.now.cells leaf.now) (initial ++ values_in model.now.atomics
        leaf.now) seen.new) }
{
    let cells = cells_of(model, leaf.atomic);
    let values = initial_of(model, leaf.atomic);
    'cells: for (at, cell) in cells.iter().enumerate() {
        let home = home_of(alloc, model, homes, leaf, *cell)?;
        if !see(seen, home, values[at])? {
            return Ok(false);
        }
    }
    Ok(true)
}

/// The cells of all leaves are seen, in order, or none where a network has fewer places than there
/// are homes.
pub(crate) fn see_all(
    alloc: Global,
    model: &Model,
    homes: &Homes<'_>,
    leaves: &[Instance],
) -> Result<Option<Seen>, NoMemory>
    requires tree { homes.now ≡ model.now.tree }
    requires short { All (IsWithin MAX_PATH) leaves.now }
    requires even { All (IsEven model.now) leaves.now }
    ensures { IfOk result (λ seen. SeesAll seen (homes_from model.now leaves.now) (values_from
        model.now leaves.now)) }
{
    let mut seen = Seen {
        homes: IndexSet::new(alloc),
        counts: Vec::new(alloc),
        values: Vec::new(alloc),
    };
    'leaves: for leaf in leaves {
        if !see_leaf(alloc, &mut seen, model, homes, leaf)? {
            return Ok(None);
        }
    }
    Ok(Some(seen))
}

//! A leaf's cells as a piece begins, and what is recorded of them as it ends.

ghost use Rattle.std.specs.Prelude.{◌≡◌, ◌≤◌, All, IfOk, map};
ghost use Rattle.san_net.specs.Leaf.{slot_in};
ghost use Rattle.san_leaf.specs.inner.Cells.{noted, owned, starts};
ghost use Rattle.san_leaf.specs.States.{pair_in};

use san_base::{MAX_TOKENS, NoMemory, PlaceId};
use san_mark::Overlay;
use san_net::Slot;
use std::alloc::Global;

/// The cells as a piece begins: the private ones with the leaf's values, the shared ones unknown.
fn start_cells(alloc: Global, slots: &[Slot], values: &[u32]) -> Result<Vec<Option<u32>>, NoMemory>
    ensures { IfOk result (λ v. v.items ≡ starts (map slot_in slots.now) values.now) }
{
    let mut cells = Vec::with_capacity(alloc, slots.len())?;
    let mut values = values;
    'slots: for slot in slots {
        match slot {
            Slot::Private(_) => match values {
                [value, rest @ ..] => {
                    cells.push(Some(*value))?;
                    values = rest;
                }
                [] => cells.push(Some(0))?,
            },
            Slot::Shared(_) => cells.push(None)?,
        }
    }
    Ok(cells)
}

/// The overlay of the private cells with the leaf's values.
#[tactic(auto, using(crate::proofs::CellLemmas::starts_small))]
pub(crate) fn starts(alloc: Global, slots: &[Slot], values: &[u32]) -> Result<Overlay, NoMemory>
    requires { All (λ v. v ≤ MAX_TOKENS) values.now }
    ensures { IfOk result (λ o. o ≡ starts (map slot_in slots.now) values.now) }
{
    Ok(Overlay::of(start_cells(alloc, slots, values)?))
}

/// The shared places among the cells that are known, with their values.
pub(crate) fn noted(
    alloc: Global,
    slots: &[Slot],
    cells: &[Option<u32>],
) -> Result<Vec<(PlaceId, u32)>, NoMemory>
    ensures { IfOk result (λ v. map pair_in v.items ≡ noted (map slot_in slots.now) cells.now) }
{
    let mut recorded = Vec::new(alloc);
    let mut cells = cells;
    'slots: for slot in slots {
        let [cell, rest @ ..] = cells else {
            return Ok(recorded);
        };
        if let Slot::Shared(place) = slot {
            if let Some(value) = cell {
                recorded.push((*place, *value))?;
            }
        }
        cells = rest;
    }
    Ok(recorded)
}

/// The values of the private cells.
pub(crate) fn owned(
    alloc: Global,
    slots: &[Slot],
    cells: &[Option<u32>],
) -> Result<Vec<u32>, NoMemory>
    ensures { IfOk result (λ v. v.items ≡ owned (map slot_in slots.now) cells.now) }
{
    let mut values = Vec::new(alloc);
    let mut cells = cells;
    'slots: for slot in slots {
        let [cell, rest @ ..] = cells else {
            return Ok(values);
        };
        if let Slot::Private(_) = slot {
            values.push(cell.unwrap_or(0))?;
        }
        cells = rest;
    }
    Ok(values)
}

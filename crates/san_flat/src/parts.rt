//! The leaves as parts of the network.

ghost use Rattle.std.specs.Prelude.{◌≡◌, ◌+◌, ◌≤◌, ◌<◌, All, List, length, map, min, IfOk};
ghost use Rattle.san_base.specs.declared.limits.TheConstants.{MAX_LEAVES, MAX_ACTS};
ghost use Rattle.san_tree.specs.declared.limits.TheConstants.{MAX_PATH};
ghost use Rattle.san_flat.specs.Homes.{CellHome, homes_in};
ghost use Rattle.san_flat.specs.Networks.{slot_of};
ghost use Rattle.san_flat.specs.inner.Models.{acts_in, homes_of, part_of, parts_from};
ghost use Rattle.san_flat.specs.inner.Sightings.{AreAmong, AreNumbers};
ghost use Rattle.san_tree.specs.Instances.{IsWithin};

use crate::home::home_of;
use crate::leaf::{acts_of, cells_of};
use crate::numbers::{Numbers, slot_of};
use san_base::{ActId, Items, LeafId, MAX_ACTS, NoMemory, Shared};
use san_check::Model;
use san_net::{Part, Slot};
use san_tree::{Homes, Instance};
use std::alloc::Global;

/// The number of the activities of some leaves, or one more than a network may have where they have more.
pub(crate) fn act_count(model: &Model, leaves: &[Instance]) -> u32
    ensures { result ≡ min (acts_in model.now leaves.now) (MAX_ACTS + 1) }
{
    let mut total: u32 = 0;
    'leaves: for leaf in leaves {
        total = (total + acts_of(model, leaf.atomic)).min(MAX_ACTS + 1);
    }
    total
}

/// The slots of a leaf's cells.
fn slots_of(
    alloc: Global,
    model: &Model,
    homes: &Homes<'_>,
    numbers: &Numbers,
    leaf: &Instance,
) -> Result<Items<Slot>, NoMemory>
    requires tree { homes.now ≡ model.now.tree }
    requires short { IsWithin MAX_PATH leaf.now }
    ensures { IfOk result (λ slots. (homes : List CellHome) → AreNumbers homes numbers.now
        → AreAmong homes (homes_in model.now.tree.nodes model.now.tree.root model.now.cells leaf.now)
        → slots ≡ map (slot_of homes) (homes_in model.now.tree.nodes model.now.tree.root
        model.now.cells leaf.now)) }
{
    let cells = cells_of(model, leaf.atomic);
    let mut slots = Vec::with_capacity(alloc, cells.len())?;
    'cells: for cell in cells {
        let home = home_of(alloc, model, homes, leaf, *cell)?;
        slots.push(slot_of(numbers, &home))?;
    }
    Ok(Items::from_vec(slots))
}

/// The part of the leaf of a number, with the number of its first activity.
fn part_of(
    alloc: Global,
    model: &Model,
    homes: &Homes<'_>,
    numbers: &Numbers,
    leaf: &Instance,
    number: u32,
    first: u32,
) -> Result<Shared<Part>, NoMemory>
    requires tree { homes.now ≡ model.now.tree }
    requires short { IsWithin MAX_PATH leaf.now }
    requires there { leaf.now.atomic < length model.now.atomics }
    requires numbers { AreNumbers (homes_of model.now) numbers.now }
    requires among { AreAmong (homes_of model.now) (homes_in model.now.tree.nodes
        model.now.tree.root model.now.cells leaf.now) }
    ensures { IfOk result (λ part. part ≡ part_of model.now number first leaf.now) }
{
    let slots = slots_of(alloc, model, homes, numbers, leaf)?;
    let atomic = model.atomics()[leaf.atomic as usize].share()?;
    Shared::new(
        alloc,
        Part {
            leaf: LeafId(number),
            first: ActId(first),
            atomic,
            slots,
        },
    )
}

/// The parts of the leaves, whose activities are numbered leaf by leaf.
pub(crate) fn parts_of(
    alloc: Global,
    model: &Model,
    homes: &Homes<'_>,
    numbers: &Numbers,
    leaves: &[Instance],
) -> Result<Vec<Shared<Part>>, NoMemory>
    requires tree { homes.now ≡ model.now.tree }
    requires few { length leaves.now ≤ MAX_LEAVES }
    requires acts { acts_in model.now leaves.now ≤ MAX_ACTS }
    requires short { All (IsWithin MAX_PATH) leaves.now }
    requires there { All (λ leaf. leaf.atomic < length model.now.atomics) leaves.now }
    requires numbers { AreNumbers (homes_of model.now) numbers.now }
    requires among { All (λ leaf. AreAmong (homes_of model.now) (homes_in model.now.tree.nodes
        model.now.tree.root model.now.cells leaf)) leaves.now }
    ensures { IfOk result (λ parts. parts.items ≡ parts_from model.now 0 0 leaves.now) }
{
    let mut parts = Vec::with_capacity(alloc, leaves.len())?;
    let mut first: u32 = 0;
    'leaves: for (at, leaf) in leaves.iter().enumerate() {
        parts.push(part_of(alloc, model, homes, numbers, leaf, at as u32, first)?)?;
        first += acts_of(model, leaf.atomic);
    }
    Ok(parts)
}

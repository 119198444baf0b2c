//! What a renewal reads: all shared places of the leaf, and with them its values.

ghost use Rattle.std.specs.Prelude.{◌≡◌, IfOk, map};
ghost use Rattle.san_leaf.specs.Claimed.{IsReadFrom};
ghost use Rattle.san_leaf.specs.States.{pair_in};
ghost use Rattle.san_leaf.specs.inner.Gathers.{HasTokens, joined, place_in, shared_of};
ghost use Rattle.san_net.specs.Leaf.{slot_in};

use crate::leaf_view::View;
use san_base::{NoMemory, PlaceId};
use san_net::Slot;
use std::alloc::Global;

/// Reads the shared places of a leaf, in the order of its cells.
pub(crate) fn read_all<V: View>(
    alloc: Global,
    slots: &[Slot],
    view: &mut V,
) -> Result<Vec<(PlaceId, u32)>, NoMemory>
    ensures places { IfOk result (λ v. map place_in v.items ≡ shared_of (map slot_in slots.now)) }
    ensures read { IfOk result (λ v. IsReadFrom (V.marking view.old) (map pair_in v.items)) }
    ensures small { IfOk result (λ v. HasTokens (map pair_in v.items)) }
    ensures marking { V.marking view.new ≡ V.marking view.old }
    ensures kept { V.kept view.new ≡ V.kept view.old }
{
    let mut log = Vec::new(alloc);
    'slots: for slot in slots {
        if let Slot::Shared(place) = slot {
            let value = view.read(*place);
            log.push((*place, value))?;
        }
    }
    Ok(log)
}

/// A leaf's values in the order of its cells, from its own ones and those that were read.
pub(crate) fn join(
    alloc: Global,
    slots: &[Slot],
    own: &[u32],
    log: &[(PlaceId, u32)],
) -> Result<Vec<u32>, NoMemory>
    ensures { IfOk result (λ v. v.items ≡ joined (map slot_in slots.now) own.now (map pair_in
        log.now)) }
{
    let mut values = Vec::with_capacity(alloc, slots.len())?;
    let mut own = own;
    let mut log = log;
    'slots: for slot in slots {
        match slot {
            Slot::Private(_) => match own {
                [value, rest @ ..] => {
                    values.push(*value)?;
                    own = rest;
                }
                [] => values.push(0)?,
            },
            Slot::Shared(_) => match log {
                [read, rest @ ..] => {
                    values.push(read.1)?;
                    log = rest;
                }
                [] => values.push(0)?,
            },
        }
    }
    Ok(values)
}

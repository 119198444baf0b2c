//! The state of a leaf before its first piece.

ghost use Rattle.std.specs.Prelude.{◌≡◌, IfOk, map};
ghost use Rattle.san_law.specs.Piece.{own};
ghost use Rattle.san_leaf.specs.Pieces.{opened_state};
ghost use Rattle.san_net.specs.Leaf.{slot_in};

use crate::state::LeafState;
use san_base::NoMemory;
use san_clock::Row;
use san_net::{Part, Slot};
use std::alloc::Global;

/// The values of the private cells among a leaf's values.
fn private_values(alloc: Global, slots: &[Slot], values: &[u32]) -> Result<Vec<u32>, NoMemory>
    ensures { IfOk result (λ v. v.items ≡ own (map slot_in slots.now) values.now) }
{
    let mut list = Vec::new(alloc);
    let mut values = values;
    'slots: for slot in slots {
        let [value, rest @ ..] = values else {
            return Ok(list);
        };
        if let Slot::Private(_) = slot {
            list.push(*value)?;
        }
        values = rest;
    }
    Ok(list)
}

/// The state of a leaf before its first piece: the initial values, no timer, no draw taken, and
/// nothing seen.
pub fn first_state(alloc: Global, part: &Part) -> Result<LeafState, NoMemory>
    ensures { IfOk result (λ s. s ≡ opened_state part.now) }
{
    let atomic = part.atomic.get();
    let acts = atomic.acts.as_slice().len();
    Ok(LeafState {
        values: private_values(alloc, part.slots.as_slice(), atomic.initial.as_slice())?,
        row: Row::blank(alloc, acts)?,
        seen: Vec::new(alloc),
    })
}

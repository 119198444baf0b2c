//! A leaf's state between its pieces.

ghost use Rattle.std.specs.Prelude.{◌≡◌, IfOk};

use san_base::NoMemory;
use san_clock::Row;
use std::alloc::Global;
use std::marker::Model;

/// A leaf's private values, its timers and numbers of draws, and what its last renewal saw.
#[derive(Debug, Drop)]
pub struct LeafState {
    pub values: Vec<u32>,
    pub row: Row,
    pub seen: Vec<u32>,
}

impl Model for LeafState {
    ghost use Rattle.san_law.specs.Piece as law;

    ghost Value = { law.LeafState };

    ghost view = { λ s. record { values = s.values.items; row = s.row; seen = s.seen.items } };
}

/// An equal state.
pub fn copy_state(alloc: Global, state: &LeafState) -> Result<LeafState, NoMemory>
    ensures { IfOk result (λ s. s ≡ state.now) }
{
    Ok(LeafState {
        values: state.values.to_vec(alloc)?,
        row: state.row.copy(alloc)?,
        seen: state.seen.to_vec(alloc)?,
    })
}
